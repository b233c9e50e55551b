// The numbers of made names.
ghost use Rattle.std.specs.Prelude.{◌≡◌, ℕ, ◌+◌, ◌-◌, ◌<◌, ◌^◌, ◌++◌, None, length, map, replicate, slice_index_or, IfOk, OnOk};
ghost use Rattle.std.specs.List.{filter};
ghost use Rattle.lq_meaning_normal_tree.specs.BlockView.{definitions_view};
ghost use Rattle.lq_meaning_normalize.specs.MadeNames.Numbers.{binders_view, is_made, made_number, number_from, source_view};
ghost use Rattle.lq_meaning_normalize.specs.MadeNames.Table.{IsCounted, IsNoted};

use crate::made_names::listing::names_of;
use lq_base_names::{Binder, Name};
use lq_meaning_normal_tree::Definition;
use std::alloc::{AllocError, Global};

// Whether the text has no name for a binder.
fn is_made(sources: &[Option<Name>], binder: Binder) -> bool
    ensures { result ≡ is_made (map source_view sources.now) binder.0 }
{
    match sources.get(binder.0 as usize) {
        Some(Some(_)) => false,
        Some(None) | None => true,
    }
}

// Makes the table reach this number.
fn reach(numbers: &mut Vec<Option<usize>>, number: usize) -> Result<(), AllocError>
    requires { number + 1 < 2 ^ 64 }
    ensures items { OnOk result (numbers.new.items ≡ numbers.old.items
        ++ replicate (number + 1 - length numbers.old.items) None) }
    ensures long { OnOk result (number < length numbers.new.items) }
{
    if numbers.len() <= number {
        numbers.resize(number + 1, None)?;
    }
    Ok(())
}

// Gives a binder this number, where it has none.
fn note(numbers: &mut Vec<Option<usize>>, binder: Binder, number: usize) -> Result<(), AllocError>
    ensures { OnOk result (IsNoted numbers.old.items numbers.new.items binder.0 number) }
{
    let at = binder.0 as usize;
    reach(numbers, at)?;
    numbers[at] = numbers[at].or(Some(number));
    Ok(())
}

// Notes a binder behind so many made names, where it is one, and says how many there are.
fn count(
    numbers: &mut Vec<Option<usize>>,
    sources: &[Option<Name>],
    binder: Binder,
    before: usize,
) -> Result<usize, AllocError>
    requires { before + 1 < 2 ^ 64 }
    ensures { IfOk result (λ made. IsCounted (is_made (map source_view sources.now) binder.0)
        numbers.old.items numbers.new.items binder.0 before made) }
{
    if is_made(sources, binder) {
        let made = before + 1;
        note(numbers, binder, made)?;
        Ok(made)
    } else {
        Ok(before)
    }
}

// The numbers of those of these names for which the text has none.
fn numbered(
    alloc: Global,
    sources: &[Option<Name>],
    names: &[Binder],
) -> Result<Vec<Option<usize>>, AllocError>
    ensures { IfOk result (λ numbers. (x : ℕ) → slice_index_or numbers.items x None
        ≡ number_from 1 (filter (is_made (map source_view sources.now)) (binders_view names.now)) x) }
{
    let mut numbers = Vec::new(alloc);
    let mut made: usize = 0;
    for name in names {
        made = count(&mut numbers, sources, *name, made)?;
    }
    Ok(numbers)
}

/// For each binder of a normal program its k, where it is a made name `%k`: the text has no source name for it, and naming binds it as the k-th
/// of these. It takes time linear in the program, and in the greatest number of a binder.
pub fn made_numbers(
    alloc: Global,
    sources: &[Option<Name>],
    definitions: &[Definition],
) -> Result<Vec<Option<usize>>, AllocError>
    ensures { IfOk result (λ numbers. (x : ℕ) → slice_index_or numbers.items x None
        ≡ made_number (map source_view sources.now) (definitions_view definitions.now) x) }
{
    let names = names_of(alloc, definitions)?;
    let numbers = numbered(alloc, sources, &names)?;
    Ok(numbers)
}
