// Literals.
ghost use Rattle.std.specs.Prelude.{◌≡◌, ◌<◌, ◌≤◌, IfOk, pos, neg_ℤ, Err};
ghost use Rattle.lq_base_names.specs.declared.limits.TheConstants.{LITERAL_LIMIT};
ghost use Rattle.lq_text_actions.specs.declared.values.MakeError.TheVariants.{Misfit};

use crate::values::MakeError;
use lq_base_names::LITERAL_LIMIT;

// A number below the limit of literals.
pub(crate) fn below_limit(value: u128) -> Result<i128, MakeError>
    ensures ok { IfOk result (λ n. (value < LITERAL_LIMIT) × (n ≡ pos value)) }
    ensures misfit { result ≡ Err Misfit → LITERAL_LIMIT ≤ value }
{
    if value < LITERAL_LIMIT {
        Ok(value as i128)
    } else {
        Err(MakeError::Misfit)
    }
}

// What a minus before a number makes of it, which is at most the limit.
pub(crate) fn up_to_limit(value: u128) -> Result<i128, MakeError>
    ensures ok { IfOk result (λ n. (value ≤ LITERAL_LIMIT) × (n ≡ neg_ℤ (pos value))) }
    ensures misfit { result ≡ Err Misfit → LITERAL_LIMIT < value }
{
    if value < LITERAL_LIMIT {
        Ok(-(value as i128))
    } else if value == LITERAL_LIMIT {
        Ok(i128::MIN)
    } else {
        Err(MakeError::Misfit)
    }
}
