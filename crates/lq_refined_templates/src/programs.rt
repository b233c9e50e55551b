//! Programs as the typing rules have them, in memory: normal programs with their points.

mod block;
mod point;
mod pure;

pub use block::{Arm, Binding, Block, Item, Operation, Pattern, Quotient};
pub use point::Point;
pub use pure::{Pure, RingOp, Use};
