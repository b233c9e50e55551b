// Linear forms: coefficients by the numbers of terms, and a constant.
ghost use Rattle.std.specs.Prelude.{◌≡◌, true, false, ◌==◌, if◌then◌else◌, ◌+ℤ◌, ◌-ℤ◌, ◌*ℤ◌, ℕ, ℤ, pos, FitsSigned, IfOk, OnOk, IsErrOf};
ghost use Rattle.std.specs.Int.{w128};
ghost use Rattle.std.specs.Option.{SomeIff};
ghost use Rattle.lq_logic_predicates.specs.FormOf.{at, AllFit, combined, CanCombine, IsCombined, FormFits};

use crate::error::GatherError;
use std::alloc::{AllocError, Global};
use std::collections::BTreeMap;

// The linear form of a term: a coefficient by each term's number, and a constant.
#[derive(Drop)]
pub(crate) struct Form {
    pub(crate) coefficients: BTreeMap<u64, i128>,
    pub(crate) constant: i128,
}

// The difference or the sum, where it is within 128 bits.
pub(crate) fn combine(subtract: bool, left: i128, right: i128) -> Option<i128>
    ensures { SomeIff result (FitsSigned w128 (combined subtract left right)) (combined subtract left right) }
{
    if subtract {
        left.checked_sub(right)
    } else {
        left.checked_add(right)
    }
}

// Adds or subtracts coefficients, one by one.
pub(crate) fn merge(
    subtract: bool,
    into: &mut BTreeMap<u64, i128>,
    mut other: BTreeMap<u64, i128>,
) -> Result<(), GatherError>
    requires { AllFit into.old }
    ensures combined { OnOk result (IsCombined subtract into.old other into.new) }
    ensures fit { OnOk result (AllFit into.new) }
    ensures past { IsErrOf result GatherError.Past → CanCombine subtract into.old other → ⊥ }
{
    while let Some((term, change)) = other.pop_first() {
        let old = into.get(&term).copied().unwrap_or(0);
        let Some(new) = combine(subtract, old, change) else {
            return Err(GatherError::Past);
        };
        into.insert(term, new)?;
    }
    Ok(())
}

// Each coefficient times n.
pub(crate) fn scale(
    alloc: Global,
    n: i128,
    mut from: BTreeMap<u64, i128>,
) -> Result<BTreeMap<u64, i128>, GatherError>
    ensures scaled { IfOk result (λ m. (q : ℕ) → at m q ≡ n *ℤ at from q) }
    ensures fit { IfOk result AllFit }
    ensures past { IsErrOf result GatherError.Past → ((q : ℕ) → FitsSigned w128 (n *ℤ at from q)) → ⊥ }
{
    let mut into = BTreeMap::new(alloc);
    while let Some((term, coefficient)) = from.pop_first() {
        let Some(product) = n.checked_mul(coefficient) else {
            return Err(GatherError::Past);
        };
        into.insert(term, product)?;
    }
    Ok(into)
}

impl Form {
    // A constant alone.
    pub(crate) fn constant(alloc: Global, n: i128) -> Form
        ensures constant { result.constant ≡ n }
        ensures fit { FormFits result }
        ensures coefficients { (q : ℕ) → at result.coefficients q ≡ pos 0 }
    {
        Form {
            coefficients: BTreeMap::new(alloc),
            constant: n,
        }
    }

    // One term alone, by its number.
    pub(crate) fn of_number(alloc: Global, number: u64) -> Result<Form, AllocError>
        ensures constant { IfOk result (λ f. f.constant ≡ pos 0) }
        ensures fit { IfOk result FormFits }
        ensures coefficients { IfOk result (λ f. (q : ℕ)
            → at f.coefficients q ≡ (if number == q then pos 1 else pos 0)) }
    {
        let mut coefficients = BTreeMap::new(alloc);
        coefficients.insert(number, 1)?;
        Ok(Form {
            coefficients,
            constant: 0,
        })
    }

    pub(crate) fn plus(self, right: Form) -> Result<Form, GatherError>
        requires left { AllFit self.coefficients }
        requires right { AllFit right.coefficients }
        ensures constant { IfOk result (λ f. f.constant ≡ self.constant +ℤ right.constant) }
        ensures coefficients { IfOk result (λ f. IsCombined false self.coefficients right.coefficients
            f.coefficients) }
        ensures fit { IfOk result FormFits }
        ensures past { IsErrOf result GatherError.Past → FitsSigned w128 (self.constant +ℤ right.constant)
            → CanCombine false self.coefficients right.coefficients → ⊥ }
    {
        let Some(constant) = self.constant.checked_add(right.constant) else {
            return Err(GatherError::Past);
        };
        let coefficients = sum(self.coefficients, right.coefficients)?;
        Ok(Form {
            coefficients,
            constant,
        })
    }

    pub(crate) fn minus(self, right: Form) -> Result<Form, GatherError>
        requires { AllFit self.coefficients }
        ensures constant { IfOk result (λ f. f.constant ≡ self.constant -ℤ right.constant) }
        ensures coefficients { IfOk result (λ f. IsCombined true self.coefficients right.coefficients
            f.coefficients) }
        ensures fit { IfOk result FormFits }
        ensures past { IsErrOf result GatherError.Past → FitsSigned w128 (self.constant -ℤ right.constant)
            → CanCombine true self.coefficients right.coefficients → ⊥ }
    {
        let Some(constant) = self.constant.checked_sub(right.constant) else {
            return Err(GatherError::Past);
        };
        let mut coefficients = self.coefficients;
        merge(true, &mut coefficients, right.coefficients)?;
        Ok(Form {
            coefficients,
            constant,
        })
    }

    pub(crate) fn times(self, alloc: Global, n: i128) -> Result<Form, GatherError>
        ensures constant { IfOk result (λ f. f.constant ≡ n *ℤ self.constant) }
        ensures coefficients { IfOk result (λ f. (q : ℕ)
            → at f.coefficients q ≡ n *ℤ at self.coefficients q) }
        ensures fit { IfOk result FormFits }
        ensures past { IsErrOf result GatherError.Past → FitsSigned w128 (n *ℤ self.constant)
            → ((q : ℕ) → FitsSigned w128 (n *ℤ at self.coefficients q)) → ⊥ }
    {
        let Some(constant) = n.checked_mul(self.constant) else {
            return Err(GatherError::Past);
        };
        let coefficients = scale(alloc, n, self.coefficients)?;
        Ok(Form {
            coefficients,
            constant,
        })
    }
}

// The smaller ones are added to the greater ones.
fn sum(
    mut left: BTreeMap<u64, i128>,
    mut right: BTreeMap<u64, i128>,
) -> Result<BTreeMap<u64, i128>, GatherError>
    requires left { AllFit left }
    requires right { AllFit right }
    ensures combined { IfOk result (λ m. IsCombined false left right m) }
    ensures fit { IfOk result AllFit }
    ensures past { IsErrOf result GatherError.Past → CanCombine false left right → ⊥ }
{
    if left.len() < right.len() {
        merge(false, &mut right, left)?;
        Ok(right)
    } else {
        merge(false, &mut left, right)?;
        Ok(left)
    }
}
