// Numbers as a case writes them: `7`, `-3`, `2^127-1`, `-2^127`, `1/2`.
use lq_base_numbers::fractions::Frac;

/// 2 to this power, or its negation, and so much more.
fn power(exponent: u32, negative: bool, more: i128) -> Option<i128> {
    if exponent == 0 || exponent > 127 {
        return None;
    }
    let half = 1i128 << (exponent - 1);
    if negative {
        more.checked_sub(half)?.checked_sub(half)
    } else {
        more.checked_add(half)?.checked_add(half)
    }
}

/// The number behind `2^`: an exponent, and what is taken away or added.
fn powered(text: &str, negative: bool) -> Option<i128> {
    if let Some((exponent, less)) = text.split_once('-') {
        let less = less.parse::<i128>().ok()?;
        return power(exponent.parse::<u32>().ok()?, negative, less.checked_neg()?);
    }
    if let Some((exponent, more)) = text.split_once('+') {
        let more = more.parse::<i128>().ok()?;
        return power(exponent.parse::<u32>().ok()?, negative, more);
    }
    power(text.parse::<u32>().ok()?, negative, 0)
}

/// A whole number.
pub(crate) fn whole(word: &str) -> Option<i128> {
    if let Ok(number) = word.parse::<i128>() {
        return Some(number);
    }
    match word.strip_prefix("-2^") {
        Some(text) => powered(text, true),
        None => powered(word.strip_prefix("2^")?, false),
    }
}

/// A whole number, or one over another.
pub(crate) fn fraction(word: &str) -> Option<Frac> {
    let Some((numer, denom)) = word.split_once('/') else {
        return Some(Frac::whole(whole(word)?));
    };
    let denom = Frac::whole(whole(denom)?);
    if denom.is_zero() {
        return None;
    }
    Frac::whole(whole(numer)?).div(&denom).ok()
}
