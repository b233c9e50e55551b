// Exact fractions in lowest terms, and their operations.
ghost use Rattle.std.specs.Prelude.{◌≡◌, ℕ, ℤ, ◌<◌, ◌^◌, ◌*◌, unsigned_abs, IfOk, IfErr, pos, IsTrue, ◌↔◌, IfNone, IfSome};
ghost use Rattle.std.specs.Int.{IsGcd, ◌∣◌};
ghost use Rattle.lq_base_numbers.specs.Rationals.Coprime.{Coprime};
ghost use Rattle.lq_base_numbers.specs.Fractions.Sign.{signed, signs_differ};

use crate::fractions::divisor::{common, gcd, over, quotient, with_sign};
use crate::fractions::multiple::{scaled, size_product, small_product};
use crate::fractions::order::compare;
use crate::fractions::past::{NumOp, NumberPast};
use std::cmp::Ordering;

/// A rational number in lowest terms: an `i128` over a denominator of at least 1 and below 2^127.
#[derive(Clone, Copy, Debug, PartialEq, Eq)]
pub struct Frac {
    numer: i128,
    denom: u128,
    ghost positive: { 0 < denom },
    ghost small: { denom < 2 ^ 127 },
    ghost lowest: { Coprime (unsigned_abs numer) denom },
}

/// Two fractions over the least common multiple of their denominators.
#[derive(Clone, Copy)]
struct OverMultiple {
    first: i128,
    second: i128,
    denom: u128,
    /// The greatest common divisor of the two denominators.
    shared: u128,
}

impl Frac {
    ghost use Rattle.lq_base_numbers.specs.Rationals.Rational.{ratio, whole, ◌+ℚ◌, ◌-ℚ◌, ◌*ℚ◌, neg_ℚ};
    ghost use Rattle.lq_base_numbers.specs.Rationals.RationalQuotient.{◌/ℚ◌};
    ghost use Rattle.lq_base_numbers.specs.Rationals.RationalOrder.{◌<ℚ◌};
    ghost use Rattle.lq_base_numbers.specs.Rationals.NumberForms.{IsForm, HasNoForm, HasSumForm, HasDifferenceForm, HasNoFormBy};
    ghost use Rattle.lq_base_numbers.specs.Rationals.LowestTerms.{IsLowest};
    ghost use Rattle.std.specs.Ordering.{MatchOrdering};
    ghost use Rattle.lq_base_numbers.specs.Fractions.Value.{value_of, numer_of, denom_of};
    ghost use Rattle.lq_base_numbers.specs.Fractions.Past.{IsPast};
    ghost use Rattle.lq_base_numbers.specs.Fractions.Over.{IsOver};

    /// The whole number n.
    pub fn whole(n: i128) -> Frac
        ensures value { value_of result ≡ whole n }
        ensures numer { numer_of result ≡ n }
        ensures denom { denom_of result ≡ 1 }
    {
        Frac { numer: n, denom: 1 }
    }

    /// The numerator in lowest terms. It has the sign of the number.
    pub fn numer(&self) -> i128
        ensures numer { result ≡ numer_of self.now }
        ensures form { IsForm (value_of self.now) (numer_of self.now) (denom_of self.now) }
    {
        self.numer
    }

    /// The denominator in lowest terms, at least 1.
    pub fn denom(&self) -> i128
        ensures denom { result ≡ pos (denom_of self.now) }
        ensures lowest { IsLowest (value_of self.now) (numer_of self.now) (denom_of self.now) }
        ensures small { denom_of self.now < 2 ^ 127 }
    {
        self.denom as i128
    }

    pub fn is_zero(&self) -> bool
        ensures { IsTrue result ↔ (value_of self.now ≡ whole (pos 0)) }
    {
        self.numer == 0
    }

    /// The sum. Both fractions are brought over the least common multiple of their denominators, and it is refused exactly where that
    /// multiple, one of the two numerators over it, or their sum is past 128 bits.
    pub fn add(&self, other: &Frac) -> Result<Frac, NumberPast>
        ensures exact { IfOk result (λ f. value_of f ≡ value_of self.now +ℚ value_of other.now) }
        ensures formed { IfOk result (λ _. HasSumForm (numer_of self.now) (numer_of other.now)
            (denom_of self.now) (denom_of other.now)) }
        ensures past { IfErr result (λ e. IsPast e) }
        ensures carries { IfErr result (λ e. e ≡ record {
          left = self.now;
          right = other.now;
          op =
              NumOp.Add;
        }) }
    {
        let past = NumberPast {
            left: *self,
            right: *other,
            op: NumOp::Add,
        };
        let Some(parts) = self.over_multiple(other) else {
            return Err(past);
        };
        let Some(numer) = parts.first.checked_add(parts.second) else {
            return Err(past);
        };
        Ok(Frac::reduced(numer, parts.denom, parts.shared))
    }

    /// The difference, refused as a sum is.
    pub fn sub(&self, other: &Frac) -> Result<Frac, NumberPast>
        ensures exact { IfOk result (λ f. value_of f ≡ value_of self.now -ℚ value_of other.now) }
        ensures formed { IfOk result (λ _. HasDifferenceForm (numer_of self.now) (numer_of other.now)
            (denom_of self.now) (denom_of other.now)) }
        ensures past { IfErr result (λ e. IsPast e) }
        ensures carries { IfErr result (λ e. e ≡ record {
          left = self.now;
          right = other.now;
          op =
              NumOp.Sub;
        }) }
    {
        let past = NumberPast {
            left: *self,
            right: *other,
            op: NumOp::Sub,
        };
        let Some(parts) = self.over_multiple(other) else {
            return Err(past);
        };
        let Some(numer) = parts.first.checked_sub(parts.second) else {
            return Err(past);
        };
        Ok(Frac::reduced(numer, parts.denom, parts.shared))
    }

    /// The product, refused exactly where its lowest terms are past 128 bits.
    pub fn mul(&self, other: &Frac) -> Result<Frac, NumberPast>
        ensures exact { IfOk result (λ f. value_of f ≡ value_of self.now *ℚ value_of other.now) }
        ensures past { IfErr result (λ e. IsPast e) }
        ensures carries { IfErr result (λ e. e ≡ record {
          left = self.now;
          right = other.now;
          op =
              NumOp.Mul;
        }) }
    {
        let negative = self.differs_in_sign(other);
        let left = self.numer.unsigned_abs();
        let right = other.numer.unsigned_abs();
        match Frac::product(negative, left, self.denom, right, other.denom) {
            Some(product) => Ok(product),
            None => Err(NumberPast {
                left: *self,
                right: *other,
                op: NumOp::Mul,
            }),
        }
    }

    /// The quotient by a number that isn't zero, refused exactly where its lowest terms are past 128 bits.
    pub fn div(&self, other: &Frac) -> Result<Frac, NumberPast>
        requires { ¬ (value_of other.now ≡ whole (pos 0)) }
        ensures exact { IfOk result (λ f. value_of f ≡ value_of self.now /ℚ value_of other.now) }
        ensures past { IfErr result (λ e. IsPast e) }
        ensures carries { IfErr result (λ e. e ≡ record {
          left = self.now;
          right = other.now;
          op =
              NumOp.Div;
        }) }
    {
        let negative = self.differs_in_sign(other);
        let left = self.numer.unsigned_abs();
        let right = other.numer.unsigned_abs();
        match Frac::product(negative, left, self.denom, other.denom, right) {
            Some(quotient) => Ok(quotient),
            None => Err(NumberPast {
                left: *self,
                right: *other,
                op: NumOp::Div,
            }),
        }
    }

    /// The negation, refused exactly where the numerator is -2^127. The refusal has the operand on both sides.
    pub fn neg(&self) -> Result<Frac, NumberPast>
        ensures exact { IfOk result (λ f. value_of f ≡ neg_ℚ (value_of self.now)) }
        ensures past { IfErr result (λ e. IsPast e) }
        ensures carries { IfErr result (λ e. e ≡ record {
          left = self.now;
          right = self.now;
          op = NumOp.Neg;
        }) }
    {
        match self.numer.checked_neg() {
            Some(numer) => Ok(Frac {
                numer,
                denom: self.denom,
            }),
            None => Err(NumberPast {
                left: *self,
                right: *self,
                op: NumOp::Neg,
            }),
        }
    }

    /// The order of the rationals. Only the very same fraction is `Equal`.
    pub fn cmp(&self, other: &Frac) -> Ordering
        ensures order { MatchOrdering result (value_of self.now <ℚ value_of other.now) (value_of self.now
            ≡ value_of other.now) (value_of other.now <ℚ value_of self.now) }
        ensures same { (result ≡ Ordering.Equal) ↔ (self.now ≡ other.now) }
    {
        compare(self.numer, self.denom, other.numer, other.denom)
    }

    /// Both fractions over the least common multiple of their denominators, where all three numbers fit.
    fn over_multiple(&self, other: &Frac) -> Option<OverMultiple>
        ensures some { IfSome result (λ s. IsOver (numer_of self.now) (numer_of other.now)
            (denom_of self.now) (denom_of other.now) s.first s.second s.denom) }
        ensures shared { IfSome result (λ s. IsGcd (denom_of self.now) (denom_of other.now) s.shared) }
        ensures none { IfNone result ((op : ℤ → ℤ → ℤ)
            → HasNoFormBy op (numer_of self.now) (numer_of other.now) (denom_of self.now)
            (denom_of other.now)) }
    {
        let shared = gcd(self.denom, other.denom);
        let left = quotient(other.denom, shared);
        let right = quotient(self.denom, shared);
        let denom = small_product(right, other.denom)?;
        let first = scaled(self.numer, left)?;
        let second = scaled(other.numer, right)?;
        Some(OverMultiple {
            first,
            second,
            denom,
            shared,
        })
    }

    /// Whether just one of the two is below zero.
    fn differs_in_sign(&self, other: &Frac) -> bool
        ensures { result ≡ signs_differ (numer_of self.now) (numer_of other.now) }
    {
        (self.numer < 0) != (other.numer < 0)
    }

    /// A fraction in lowest terms, where all that its parts have in common divides `shared`.
    fn reduced(numer: i128, denom: u128, shared: u128) -> Frac
        requires some { 0 < denom }
        requires small { denom < 2 ^ 127 }
        requires part { shared ∣ denom }
        requires within { (k : ℕ) → k ∣ unsigned_abs numer → k ∣ denom → k ∣ shared }
        ensures { value_of result ≡ ratio numer denom }
    {
        if shared == 1 {
            return Frac { numer, denom };
        }
        let divisor = common(numer, shared);
        Frac {
            numer: over(numer, divisor),
            denom: quotient(denom, divisor),
        }
    }

    /// a / b times c / d with a sign, where each of the two is in lowest terms. It is reduced crosswise before it is multiplied.
    fn product(negative: bool, a: u128, b: u128, c: u128, d: u128) -> Option<Frac>
        requires first { 0 < b }
        requires second { 0 < d }
        requires first_lowest { Coprime a b }
        requires second_lowest { Coprime c d }
        ensures some { IfSome result (λ f. value_of f ≡ ratio (signed negative (a * c)) (b * d)) }
        ensures none { IfNone result (HasNoForm (ratio (signed negative (a * c)) (b * d))) }
    {
        let left = gcd(a, d);
        let right = gcd(c, b);
        let first_numer = quotient(a, left);
        let second_numer = quotient(c, right);
        let first_denom = quotient(b, right);
        let second_denom = quotient(d, left);
        let size = size_product(first_numer, second_numer)?;
        let numer = with_sign(negative, size)?;
        let denom = small_product(first_denom, second_denom)?;
        Some(Frac { numer, denom })
    }
}
