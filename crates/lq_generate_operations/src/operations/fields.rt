// The fields of constructors, and their equations.
ghost use Rattle.std.specs.Prelude.{◌≡◌, ◌<◌, ◌∷◌, All, IfOk, map};
ghost use Rattle.lq_refined_rules.specs.Checks.Basis as checks;
ghost use Rattle.lq_refined_types.specs.Parts.Part.{known};
ghost use Rattle.lq_refined_types.specs.Parts.Substitution.{formula_by, swap};
ghost use Rattle.lq_logic_predicates.specs.PredView.{formula_of};
ghost use Rattle.lq_refined_subtyping.specs.Table.Forms.{each};
ghost use Rattle.lq_refined_subtyping.specs.Table.Whole.{count_of, Grows};
ghost use Rattle.lq_refined_substitution.specs.Substitution.Views.{atom_view, parts_view, subst_view};
ghost use Rattle.lq_generate_operations.specs.Basis.Basis.{equations_at, types_in, IsThere, Stands};
ghost use Rattle.lq_generate_operations.specs.Operations.Fields.{fields_in};

use crate::basis::Basis;
use crate::operations::shapes::DataType;
use lq_base_names::Name;
use lq_logic_predicates::Symbol;
use lq_refined_substitution::substitution::{Atom, Part, Parts, Subst, substitute};
use lq_refined_subtyping::split::fields_in;
use lq_refined_subtyping::table::{RefinedTypes, Unfolded};
use std::alloc::{AllocError, Global};

// The numbers of the types of a constructor's fields where its value has this datatype, with something put for `#1`, `#2`, ..
pub(crate) fn fields_by(
    alloc: Global,
    types: &mut RefinedTypes,
    basis: &Basis<'_>,
    of: &DataType,
    constructor: Name,
    by: &Subst,
) -> Result<Vec<usize>, AllocError>
    requires there { IsThere (count_of types.old) basis.now }
    requires arguments { All (λ p. p < count_of types.old) of.now.arguments.items }
    ensures refined { IfOk result (λ made. (P : checks.Basis) → Stands P basis.now types.old
        → each (types_in basis.now types.new) made.items
        ≡ fields_in P basis.now types.old of.now constructor.0 (subst_view by.now)) }
    ensures there { IfOk result (λ made. All (λ p. p < count_of types.new) made.items) }
    ensures grows { Grows types.old types.new }
{
    let rows = basis.fields.get(constructor);
    let count = of.arguments.len();
    let fields = fields_in(alloc, types, basis.scopes, of.name, count, rows)?;
    let whole = Unfolded {
        name: of.name,
        arguments: &of.arguments,
        matrix: &of.matrix,
        by,
    };
    let made = types.unfolded(alloc, basis.scopes, &whole, constructor, &fields);
    let Unfolded {
        name: _,
        arguments: _,
        matrix: _,
        by: _,
    } = whole;
    let made = made?;
    Ok(made)
}

// A constructor's equations with something put for `v` and for its fields.
pub(crate) fn equations_by(
    alloc: Global,
    basis: &Basis<'_>,
    constructor: Name,
    by: &Subst,
) -> Result<Parts, AllocError>
    ensures { IfOk result (λ made. parts_view made ≡ map (λ q. known (formula_by (subst_view by.now) q))
        (map formula_of (equations_at basis.now.declared.now constructor.0))) }
{
    let mut made = Parts::new(alloc);
    for equation in basis.declared.equations_of(constructor) {
        let put = substitute(alloc, equation, by)?;
        made.push(Part::Known(put))?;
    }
    Ok(made)
}

// The same replacements with one before them.
pub(crate) fn with_first(
    alloc: Global,
    symbol: Symbol,
    atom: Atom,
    by: &Subst,
) -> Result<Subst, AllocError>
    ensures { IfOk result (λ made. subst_view made ≡ swap symbol (atom_view atom) ∷ subst_view by.now) }
{
    let mut made = Subst::single(alloc, symbol, atom)?;
    for at in 0..by.len() {
        match by.get(at) {
            Some(swap) => made.push(swap.symbol, swap.atom.copy(alloc)?)?,
            None => {}
        }
    }
    Ok(made)
}
