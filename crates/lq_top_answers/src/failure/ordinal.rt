// Which binder of its name each binder is.
ghost use Rattle.std.specs.Prelude.{◌≡◌, ℕ, ◌+◌, ◌-◌, ◌<◌, ◌==◌, ◌^◌, ◌++◌, length, map, replicate, IfOk, OnOk, OnErr, if◌then◌else◌};
ghost use Rattle.lq_logic_text.specs.Calling.{AreOrdinals};
ghost use Rattle.lq_logic_text.specs.Views.{source_view};
ghost use Rattle.lq_top_answers.specs.Failure.Counts.{count_of, IsCounted};

use lq_base_names::Name;
use std::alloc::{AllocError, Global};

// Makes the counts reach this number.
fn reach(counts: &mut Vec<usize>, number: usize) -> Result<(), AllocError>
    requires { number + 1 < 2 ^ 64 }
    ensures items { OnOk result (counts.new.items ≡ counts.old.items
        ++ replicate (number + 1 - length counts.old.items) 0) }
    ensures long { OnOk result (number < length counts.new.items) }
    ensures err { OnErr result (counts.new.items ≡ counts.old.items) }
{
    if counts.len() <= number {
        counts.resize(number + 1, 0)?;
    }
    Ok(())
}

// Counts the name once more, and says how often it has been counted.
fn count(counts: &mut Vec<usize>, name: Name) -> Result<usize, AllocError>
    requires low { (x : ℕ) → count_of counts.now.items x + 1 < 2 ^ 64 }
    ensures number { IfOk result (λ n. n ≡ count_of counts.old.items name.0 + 1) }
    ensures counts { OnOk result ((x : ℕ) → count_of counts.new.items x
        ≡ (if name.0 == x then count_of counts.old.items x + 1 else count_of counts.old.items x)) }
{
    let number = name.0 as usize;
    reach(counts, number)?;
    let count = counts[number] + 1;
    counts[number] = count;
    Ok(count)
}

// The number of a binder with this source name, which is counted, and 0 of one that was made.
fn next_ordinal(counts: &mut Vec<usize>, source: Option<Name>) -> Result<usize, AllocError>
    requires low { (x : ℕ) → count_of counts.now.items x + 1 < 2 ^ 64 }
    ensures { IfOk result (λ n. IsCounted counts.old.items counts.new.items (source_view source) n) }
{
    match source {
        Some(name) => count(counts, name),
        None => Ok(0),
    }
}

/// For each binder, which of the binders with its source name it is, counted from 1 in the order of the text, and 0 where it has none.
/// It takes time linear in the binders and in the greatest number of their names.
pub fn ordinals(alloc: Global, sources: &[Option<Name>]) -> Result<Vec<usize>, AllocError>
    ensures { IfOk result (λ numbers. AreOrdinals (map source_view sources.now) numbers.items) }
{
    let mut counts = Vec::new(alloc);
    let mut numbers = Vec::new(alloc);
    for source in sources {
        let number = next_ordinal(&mut counts, *source)?;
        numbers.push(number)?;
    }
    Ok(numbers)
}
