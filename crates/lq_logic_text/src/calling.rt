// What binders and symbols are called.
ghost use Rattle.std.specs.Prelude.{◌≡◌, ◌++◌, codes, decimal, slice_get, ◌<◌, ◌^◌, Some, OnOk};
ghost use Rattle.lq_logic_text.specs.Calling.{called, name_text, binder_text, made_text, symbol_text, untwinned, with_ordinal};
ghost use Rattle.lq_logic_text.specs.Continued.{Continues};
ghost use Rattle.lq_logic_text.specs.Views.{calling_view, made_view, source_view, IsTold};

use itoa::Buffer;
use lq_base_names::{Binder, Name, NameTable};
use lq_logic_predicates::Symbol;
use std::alloc::AllocError;

/// What binders are called: the texts of names, and the source name of each binder of the text that has one. The others, and those behind the
/// binders of the text, are made names: `%1`, `%2` and so on.
#[derive(Clone, Copy)]
pub struct Calling<'a> {
    pub table: &'a NameTable,
    pub sources: &'a [Option<Name>],
    /// The k of each made name `%k`.
    pub made: &'a [Option<usize>],
    /// Of each binder which of the binders with its source name it is, where they are to be told apart: then each but the first has its
    /// number behind its name.
    pub ordinals: Option<&'a [usize]>,
}

#[tactic(auto, using(crate::specs::Continued::continuing))]
fn push_count(line: &mut Vec<u8>, n: u64) -> Result<(), AllocError>
    ensures written { OnOk result (line.new.items ≡ line.old.items ++ decimal n) }
    ensures begins { Continues line.old.items line.new.items }
{
    let mut number = Buffer::new();
    line.extend_from_slice(number.format(n).as_bytes())?;
    Ok(())
}

// The text of a name.
pub(crate) fn text_of(table: &NameTable, name: Name) -> &str
    ensures { result.now ≡ name_text table.now name.0 }
{
    if name.0 < table.len() {
        table.text(name)
    } else {
        ""
    }
}

#[tactic(auto, using(crate::specs::Continued::continuing))]
fn push_with_ordinal(line: &mut Vec<u8>, name: &[u8], ordinal: usize) -> Result<(), AllocError>
    ensures written { OnOk result (line.new.items ≡ line.old.items ++ with_ordinal name.now ordinal) }
    ensures begins { Continues line.old.items line.new.items }
{
    line.extend_from_slice(name)?;
    if ordinal > 1 {
        line.extend_from_slice(b"@")?;
        push_count(line, ordinal as u64)?;
    }
    Ok(())
}

fn ordinal_at(ordinals: &[usize], number: usize) -> Option<usize>
    ensures { result ≡ slice_get ordinals.now number }
{
    ordinals.get(number).copied()
}

// The name of the binder of this number, which has this source name.
#[tactic(auto, using(crate::specs::Continued::continuing))]
fn push_source(
    line: &mut Vec<u8>,
    calling: &Calling<'_>,
    number: usize,
    name: Name,
) -> Result<(), AllocError>
    requires told { IsTold calling.now }
    requires source { slice_get (calling_view calling.now).sources number ≡ Some (Some name.0) }
    ensures written { OnOk result (line.new.items ≡ line.old.items
        ++ called (calling_view calling.now) number (Some (Some name.0))) }
    ensures begins { Continues line.old.items line.new.items }
{
    let text = text_of(calling.table, name).as_bytes();
    match calling.ordinals {
        Some(ordinals) => match ordinal_at(ordinals, number) {
            Some(ordinal) => push_with_ordinal(line, text, ordinal),
            None => unreachable!(),
        },
        None => line.extend_from_slice(text),
    }
}

// The binder without its twin's bit.
fn untwinned(binder: Binder) -> usize
    ensures number { result ≡ untwinned binder.0 }
    ensures small { result < 2 ^ 31 }
{
    let number = binder.0 as usize;
    if number < 1 << 31 {
        number
    } else {
        number - (1 << 31)
    }
}

#[tactic(auto, using(crate::specs::Continued::continuing))]
fn push_binder(line: &mut Vec<u8>, calling: &Calling<'_>, binder: Binder) -> Result<(), AllocError>
    requires { IsTold calling.now }
    ensures written { OnOk result (line.new.items ≡ line.old.items
        ++ binder_text (calling_view calling.now) binder.0) }
    ensures begins { Continues line.old.items line.new.items }
{
    let number = untwinned(binder);
    match calling.sources.get(number) {
        Some(Some(name)) => push_source(line, calling, number, *name),
        Some(None) | None => push_made(line, calling, number),
    }
}

// The number of the binder of this number as a made name, where it is one.
fn made_at(made: &[Option<usize>], number: usize) -> Option<usize>
    ensures { result ≡ made_view made.now number }
{
    if number < made.len() {
        made[number]
    } else {
        None
    }
}

// The binder of this number as a made name, if it is one.
#[tactic(auto, using(crate::specs::Continued::continuing))]
fn push_made(line: &mut Vec<u8>, calling: &Calling<'_>, number: usize) -> Result<(), AllocError>
    ensures written { OnOk result (line.new.items ≡ line.old.items ++ made_text (calling_view calling.now) number) }
    ensures begins { Continues line.old.items line.new.items }
{
    match made_at(calling.made, number) {
        Some(k) => {
            line.extend_from_slice(b"%")?;
            push_count(line, k as u64)
        }
        None => Ok(()),
    }
}

/// Writes what a symbol is called behind the bytes: `v`, a binder's name, or `#k`.
#[tactic(auto, using(crate::specs::Continued::continuing))]
pub fn push_symbol(
    line: &mut Vec<u8>,
    calling: &Calling<'_>,
    symbol: Symbol,
) -> Result<(), AllocError>
    requires { IsTold calling.now }
    ensures written { OnOk result (line.new.items ≡ line.old.items
        ++ symbol_text (calling_view calling.now) symbol) }
    ensures begins { Continues line.old.items line.new.items }
{
    match symbol {
        Symbol::Value => line.extend_from_slice(b"v"),
        Symbol::Bound(binder) => push_binder(line, calling, binder),
        Symbol::Position(at) => {
            line.extend_from_slice(b"#")?;
            push_count(line, at as u64)
        }
    }
}
