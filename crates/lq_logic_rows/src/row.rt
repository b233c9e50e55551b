// Rows of linear arithmetic.
ghost use Rattle.std.specs.Prelude.{◌≡◌, IsTrue};
ghost use Rattle.lq_logic_rows.specs.Difference.{IsDifference};
ghost use Rattle.lq_logic_rows.specs.Row.{IsRow};

use std::marker::Model;

/// A row of linear arithmetic: pairs of a term's number and its coefficient, a constant, and whether
/// the row is an equation. It is read "the sum plus the constant is at most 0", or "is 0" where
/// it is an equation. The pairs stand by ascending number, and no coefficient is 0.
#[derive(Drop)]
pub struct LinearRow {
    parts: Vec<(u64, i128)>,
    constant: i128,
    equal: bool,
}

impl Model for LinearRow {
    ghost use Rattle.lq_logic_rows.specs.Row.{Row, IsRow};

    ghost Value = { Row };

    ghost view = { λ r. record { parts = r.parts.items; constant = r.constant; equal = r.equal } };

    ghost invariant = { λ r. IsRow (record { parts = r.parts.items; constant = r.constant; equal = r.equal }) };
}

impl LinearRow {
    /// The row of these parts.
    pub fn new(parts: Vec<(u64, i128)>, constant: i128, equal: bool) -> LinearRow
        requires { IsRow (record { parts = parts.items; constant = constant; equal = equal }) }
        ensures { result ≡ record { parts = parts.items; constant = constant; equal = equal } }
    {
        LinearRow {
            parts,
            constant,
            equal,
        }
    }

    /// The pairs of a term's number and its coefficient.
    pub fn parts(&self) -> &[(u64, i128)]
        ensures value { result.now ≡ self.now.parts }
        ensures row { IsRow self.now }
    {
        self.parts.as_slice()
    }

    /// What is added to the sum of the pairs.
    pub fn constant(&self) -> i128
        ensures { result ≡ self.now.constant }
    {
        self.constant
    }

    /// Whether the row is over at most two terms, one with the coefficient 1 or -1, two with 1 and -1.
    pub fn is_difference(&self) -> bool
        ensures difference { IsTrue result → IsDifference self.now.parts }
        ensures other { IsDifference self.now.parts → IsTrue result }
    {
        match self.parts.as_slice() {
            [] => true,
            [(_, first)] => *first == 1 || *first == -1,
            [(_, first), (_, second)] => {
                (*first == 1 && *second == -1) || (*first == -1 && *second == 1)
            }
            _ => false,
        }
    }

    /// Whether the row is an equation.
    pub fn equal(&self) -> bool
        ensures { result ≡ self.now.equal }
    {
        self.equal
    }
}
