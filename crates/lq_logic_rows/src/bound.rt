// The bounds that rows give forms.

/// The side from which a bound limits.
#[derive(Clone, Copy, Debug, PartialEq, Eq)]
pub enum Side {
    Lower,
    Upper,
}
