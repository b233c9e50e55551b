// The facts that give flags their values.
ghost use Rattle.std.specs.Prelude.{◌≡◌, ◌∷◌, [], ◌++◌, None, IfOk, OnOk, OnErr};
ghost use Rattle.lq_prover_case.specs.State.Flags.{GivenNow, find_given};

use indexmap::IndexMap;
use lq_logic_predicates::Symbol;
use std::alloc::AllocError;

/// The number of the first fact that gives a flag its value, and this value.
#[derive(Clone, Copy, Debug, PartialEq, Eq)]
pub struct Given {
    pub number: u64,
    pub value: bool,
}

/// The numbers of two facts that give one flag two values.
#[derive(Clone, Copy, Debug, PartialEq, Eq)]
pub struct FlagClash {
    pub first: u64,
    pub second: u64,
}

/// The fact that gives a flag its value.
pub(crate) fn giver_of(flags: &IndexMap<Symbol, Given>, flag: Symbol) -> Option<Given>
    ensures { result ≡ find_given flags.now.entries flag }
{
    flags.get(&flag).copied()
}

/// Notes the fact that gives a new flag its value.
fn note(flags: &mut IndexMap<Symbol, Given>, flag: Symbol, given: Given) -> Result<(), AllocError>
    requires { find_given flags.old.entries flag ≡ None }
    ensures ok { OnOk result (flags.new.entries ≡ flags.old.entries ++ (flag, given) ∷ []) }
    ensures err { OnErr result (flags.new.entries ≡ flags.old.entries) }
{
    flags.insert(flag, given)?;
    Ok(())
}

/// Gives a flag a value by the fact of this number. The answer is the number of the fact that gave it the other one.
pub(crate) fn give(
    flags: &mut IndexMap<Symbol, Given>,
    flag: Symbol,
    value: bool,
    number: u64,
) -> Result<Option<u64>, AllocError>
    ensures ok { IfOk result (GivenNow flags.old.entries flags.new.entries flag value number) }
    ensures err { OnErr result (flags.new.entries ≡ flags.old.entries) }
{
    match giver_of(flags, flag) {
        None => {
            note(flags, flag, Given { number, value })?;
            Ok(None)
        }
        Some(first) => {
            if first.value == value {
                Ok(None)
            } else {
                Ok(Some(first.number))
            }
        }
    }
}
