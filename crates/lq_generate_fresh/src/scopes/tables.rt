// The scopes of a table, made where substitution looks at them.
ghost use Rattle.std.specs.Prelude.{◌≡◌, ◌<◌, IfOk, OnOk, length, slice_index_or};
ghost use Rattle.lq_refined_instances.specs.Views.{scopes_view as table_view};
ghost use Rattle.lq_refined_substitution.specs.Substitution.Views.{pattern_lists, scope_at, scope_lists, unknown_lists};
ghost use Rattle.lq_generate_fresh.specs.Scopes.Numbered.{symbols_at, AreMade, Begins, Extends};

use lq_refined_instances::Scopes as Table;
use lq_refined_substitution::substitution::Scopes;
use std::alloc::{AllocError, Global};

// Makes a scope of a table, where the earlier ones are made and have these numbers, and answers its number.
fn made(scopes: &mut Scopes, table: &Table, numbers: &[u64], at: u64) -> Result<u64, AllocError>
    requires begins { Begins (scope_lists scopes.old) }
    requires all { length numbers.now ≡ at }
    requires made { AreMade (table_view table.now) (scope_lists scopes.old) numbers.now }
    ensures same { IfOk result (λ n. scope_at scopes.new n ≡ symbols_at (table_view table.now) at) }
    ensures there { IfOk result (λ n. n < length (scope_lists scopes.new)) }
    ensures kept { OnOk result (Extends (scope_lists scopes.old) (scope_lists scopes.new)) }
    ensures unknowns { unknown_lists scopes.new ≡ unknown_lists scopes.old }
    ensures patterns { pattern_lists scopes.new ≡ pattern_lists scopes.old }
{
    let Some(last) = table.last(at) else {
        return Ok(0);
    };
    let parent = numbers[last.parent as usize];
    let symbol = last.visible.symbol;
    match last.hidden {
        None => {
            let number = scopes.add(parent, symbol)?;
            Ok(number)
        }
        Some(hidden) => {
            let number = scopes.add_hiding(parent, symbol, hidden.symbol)?;
            Ok(number)
        }
    }
}

/// Makes each scope of a table, and answers their numbers in the order of the table.
pub(crate) fn all_made(
    alloc: Global,
    scopes: &mut Scopes,
    table: &Table,
) -> Result<Vec<u64>, AllocError>
    requires { Begins (scope_lists scopes.old) }
    ensures made { IfOk result (λ numbers. AreMade (table_view table.now) (scope_lists scopes.new) numbers.items) }
    ensures all { IfOk result (λ numbers. length numbers.items ≡ length (table_view table.now)) }
    ensures begins { OnOk result (Begins (scope_lists scopes.new)) }
    ensures unknowns { unknown_lists scopes.new ≡ unknown_lists scopes.old }
    ensures patterns { pattern_lists scopes.new ≡ pattern_lists scopes.old }
{
    let mut numbers = Vec::new(alloc);
    for at in 0..table.len() {
        let number = made(scopes, table, numbers.as_slice(), at)?;
        numbers.push(number)?;
    }
    Ok(numbers)
}

/// A number by its place; behind the end that of the empty scope.
pub(crate) fn number_at(numbers: &[u64], at: u64) -> u64
    ensures { result ≡ slice_index_or numbers.now at 0 }
{
    match numbers.get(at as usize) {
        Some(number) => *number,
        None => 0,
    }
}
