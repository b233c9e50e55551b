// Linear combinations as whole numbers over one denominator.
ghost use Rattle.std.specs.Prelude.{◌<◌, ◌^◌};

/// A variable and its numerator.
#[derive(Clone, Copy)]
pub(crate) struct Part {
    pub(crate) variable: usize,
    pub(crate) numerator: i128,
}

/// A linear combination of variables: numerators over one denominator.
#[derive(Drop)]
pub(crate) struct WholeLine {
    pub(crate) parts: Vec<Part>,
    pub(crate) denominator: u128,
    ghost positive: { 0 < denominator },
    ghost small: { denominator < 2 ^ 127 },
}

/// What the numerators of two combinations are multiplied by to bring them over one denominator.
#[derive(Clone, Copy)]
pub(crate) struct Scale {
    pub(crate) left: i128,
    pub(crate) right: i128,
    pub(crate) denominator: u128,
    ghost positive: { 0 < denominator },
    ghost small: { denominator < 2 ^ 127 },
}
