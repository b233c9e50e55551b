// The letters of type variables.
ghost use Rattle.std.specs.Prelude.{◌≡◌, ◌++◌, OnOk};
ghost use Rattle.lq_logic_text.specs.Continued.{Continues};
ghost use Rattle.lq_top_answers.specs.TypeText.Letters.{letter_text, place_in, seen_at, seen_in, seen_in_all, variable_text};
ghost use Rattle.lq_top_answers.specs.TypeText.ShownView.{row_view, shown_view};

use crate::type_text::tree::Shown;
use crate::type_text::writing::push_count;
use std::alloc::AllocError;

// Which of the variables that have letters this one is.
fn place_in(seen: &[u64], variable: u64) -> Option<usize>
    ensures { result ≡ place_in seen.now variable }
{
    seen.iter().position(|other| *other == variable)
}

// Adds a variable that has no letter yet.
fn add_variable(seen: &mut Vec<u64>, variable: u64) -> Result<(), AllocError>
    ensures { OnOk result (seen.new.items ≡ seen_at seen.old.items variable (place_in seen.old.items variable)) }
{
    match place_in(seen, variable) {
        Some(_) => Ok(()),
        None => {
            seen.push(variable)?;
            Ok(())
        }
    }
}

// Adds the variables of a type that have no letters yet, as they appear in its text.
#[cycle(letters)]
pub(crate) fn add_letters(seen: &mut Vec<u64>, shown: &Shown) -> Result<(), AllocError>
    ensures { OnOk result (seen.new.items ≡ seen_in seen.old.items (shown_view shown.now)) }
{
    match shown {
        Shown::Int(_) | Shown::Bool(_) | Shown::Unit => Ok(()),
        Shown::Function(_, argument, result) => {
            add_letters(seen, argument)?;
            add_letters(seen, result)
        }
        Shown::Tuple(parts) => add_all(seen, parts),
        Shown::Array(element, _) => add_letters(seen, element),
        Shown::Data(_, arguments, _, _) => add_all(seen, arguments),
        Shown::Map(element, _) => add_letters(seen, element),
        Shown::Variable(variable) => add_variable(seen, *variable),
    }
}

#[cycle(letters)]
fn add_all(seen: &mut Vec<u64>, parts: &[Shown]) -> Result<(), AllocError>
    ensures { OnOk result (seen.new.items ≡ seen_in_all seen.old.items (row_view parts.now)) }
{
    for part in parts {
        add_letters(seen, part)?;
    }
    Ok(())
}

// Writes the letter of the k-th variable, and behind the first 26 how often all letters were used before.
#[tactic(auto, using(lq_logic_text::specs::Continued::continuing))]
fn push_letter(line: &mut Vec<u8>, at: usize) -> Result<(), AllocError>
    ensures written { OnOk result (line.new.items ≡ line.old.items ++ letter_text at) }
    ensures begins { Continues line.old.items line.new.items }
{
    line.extend_from_slice(b"'")?;
    line.push(b'a' + (at % 26) as u8)?;
    if at < 26 {
        Ok(())
    } else {
        push_count(line, (at / 26) as u64)
    }
}

// Writes a variable.
#[tactic(auto, using(lq_logic_text::specs::Continued::continuing))]
pub(crate) fn push_variable(
    line: &mut Vec<u8>,
    seen: &[u64],
    variable: u64,
) -> Result<(), AllocError>
    ensures written { OnOk result (line.new.items ≡ line.old.items ++ variable_text seen.now variable) }
    ensures begins { Continues line.old.items line.new.items }
{
    match place_in(seen, variable) {
        Some(at) => push_letter(line, at),
        None => Ok(()),
    }
}
