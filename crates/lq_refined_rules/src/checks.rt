//! The typing rules with refinements as a judgement, and the implications of a program as a list: definitions and laws.

mod laws;

pub use laws::{
    block_examples, data_examples, examples, flows_solve, judged_examples, list_is_checks,
    number_examples, simple_types_are_given, type_examples, typed_is_ready, typed_list_is_checks,
};
