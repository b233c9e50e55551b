// Cases of fractions: `add 1/2 1/3`, `neg 7`, `order 1/3 1/2`, `parts 6/-4`.
use crate::engines::error::{CaseError, given};
use crate::engines::numbers::fraction;
use crate::engines::printing::{push_fraction, push_past};
use lq_base_numbers::fractions::{Frac, NumOp, NumberPast};
use std::alloc::Global;
use std::cmp::Ordering;
use std::fmt::Write;

/// The operation of this name.
pub(crate) fn operation(word: &str) -> Option<NumOp> {
    match word {
        "add" => Some(NumOp::Add),
        "sub" => Some(NumOp::Sub),
        "mul" => Some(NumOp::Mul),
        "div" => Some(NumOp::Div),
        "neg" => Some(NumOp::Neg),
        _ => None,
    }
}

/// What an operation gives, and None of a quotient by 0.
fn operate(op: NumOp, left: &Frac, right: &Frac) -> Option<Result<Frac, NumberPast>> {
    match op {
        NumOp::Add => Some(left.add(right)),
        NumOp::Sub => Some(left.sub(right)),
        NumOp::Mul => Some(left.mul(right)),
        NumOp::Div => {
            if right.is_zero() {
                return None;
            }
            Some(left.div(right))
        }
        NumOp::Neg => Some(left.neg()),
    }
}

/// A fraction at a place among the words.
fn fraction_at(words: &[&str], at: usize) -> Result<Frac, CaseError> {
    let word = given(words.get(at))?;
    given(fraction(word))
}

/// The result of an operation, or the operation that is past 128 bits.
pub(crate) fn operated(alloc: Global, op: NumOp, words: &[&str]) -> Result<String, CaseError> {
    let mut out = String::new(alloc);
    let left = fraction_at(words, 1)?;
    let right = match op {
        NumOp::Neg => left,
        NumOp::Add | NumOp::Sub | NumOp::Mul | NumOp::Div => fraction_at(words, 2)?,
    };
    match given(operate(op, &left, &right))? {
        Ok(value) => push_fraction(&mut out, &value)?,
        Err(past) => push_past(&mut out, &past)?,
    }
    Ok(out)
}

/// How two fractions stand.
pub(crate) fn ordered(alloc: Global, words: &[&str]) -> Result<String, CaseError> {
    let left = fraction_at(words, 1)?;
    let right = fraction_at(words, 2)?;
    let text = match left.cmp(&right) {
        Ordering::Less => "less",
        Ordering::Equal => "equal",
        Ordering::Greater => "greater",
    };
    Ok(String::from_str(alloc, text)?)
}

/// The numerator and the denominator in lowest terms, and whether the fraction is 0.
pub(crate) fn parted(alloc: Global, words: &[&str]) -> Result<String, CaseError> {
    let mut out = String::new(alloc);
    let value = fraction_at(words, 1)?;
    let numer = value.numer();
    let denom = value.denom();
    write!(out, "{numer} over {denom}")?;
    if value.is_zero() {
        out.push_str(", zero")?;
    }
    Ok(out)
}
