// The environments of a match's arms.
ghost use Rattle.std.specs.Prelude.{◌≡◌, ◌<◌, true, false, [], ◌∷◌, All, IfOk, MatchOption, length};
ghost use Rattle.lq_refined_rules.specs.Checks.Basis as checks;
ghost use Rattle.lq_refined_rules.specs.Checks.Match.{build_context, fields_by, in_arm, is_data_match, matched_constructors, missing_context, names_for, value_as};
ghost use Rattle.lq_refined_rules.specs.Checks.Operation.{equations_by};
ghost use Rattle.lq_refined_rules.specs.Checks.Pure.{type_of_use};
ghost use Rattle.lq_refined_rules.specs.Checks.Tree.{pattern_name, pattern_tuple};
ghost use Rattle.lq_refined_subtyping.specs.Contexts.Growing.{HasMore};
ghost use Rattle.lq_refined_substitution.specs.Implications.Views.{count_of as implication_count, environment_lists, implications_of};
ghost use Rattle.lq_refined_templates.specs.Programs.BlockView.{names_view, pattern_view};
ghost use Rattle.lq_refined_templates.specs.Programs.PureView.{use_view};
ghost use Rattle.lq_refined_types.specs.Types.Context.{Context};
ghost use Rattle.lq_refined_subtyping.specs.declared.table.table.RefinedTypes.{RefinedTypes as TypeRows};
ghost use Rattle.lq_refined_subtyping.specs.Table.Forms.{each};
ghost use Rattle.lq_refined_subtyping.specs.Table.Whole.{count_of, Grows};
ghost use Rattle.lq_refined_substitution.specs.Substitution.Views.{subst_view};
ghost use Rattle.lq_refined_types.specs.Subtyping.Subtype.{with_guards};
ghost use Rattle.lq_generate_operations.specs.Basis.Basis.{constructors_at, types_in, IsThere, Stands};
ghost use Rattle.lq_generate_operations.specs.Basis.Knowing.{AreBelow};
ghost use Rattle.lq_generate_operations.specs.Basis.Names.{IsLonger};
ghost use Rattle.lq_generate_operations.specs.declared.basis.names.Names.{Names as TypedNames};
ghost use Rattle.lq_generate_operations.specs.Operations.Fields.{fields_in};
ghost use Rattle.lq_generate_operations.specs.Operations.Over.{IsContext, Over};

use crate::basis::{Basis, Names, pure_type, type_of_use};
use crate::operations::contexts::bind;
use crate::operations::fields::{equations_by, fields_by, with_first};
use crate::operations::shapes::{DataType, components_of, data_type, datatype_name};
use crate::operations::tuples::{bind_all, bind_components, names_for};
use lq_base_names::{Binder, Name};
use lq_logic_predicates::{Symbol, Term};
use lq_refined_substitution::implications::Implications;
use lq_refined_substitution::substitution::{Atom, Subst};
use lq_refined_subtyping::contexts::guarded;
use lq_refined_subtyping::table::RefinedTypes;
use lq_refined_templates::programs::{Pattern, Pure, Use};
use std::alloc::{AllocError, Global};

/// The datatype of a match's variable, where it has one: the constructors that the match is over are those of it.
pub fn matched(
    alloc: Global,
    types: &mut RefinedTypes,
    basis: &Basis<'_>,
    names: &Names,
    used: Use,
) -> Result<Option<Name>, AllocError>
    requires there { IsThere (count_of types.old) basis.now }
    requires names { AreBelow (count_of types.old) names.now }
    ensures found { IfOk result (λ found. Over basis.now names.now types.old (λ P Γ. MatchOption found
        (is_data_match P Γ (use_view used) ≡ false) (λ name. (is_data_match P Γ (use_view used) ≡ true)
        × (matched_constructors P Γ (use_view used) ≡ constructors_at basis.now.declared.now name.0)))) }
    ensures grows { Grows types.old types.new }
{
    let at = type_of_use(alloc, types, basis, names, used)?;
    datatype_name(alloc, types, basis.scopes, at)
}

// The number of an environment in which a constructor's equations hold, with something put for `v` and for its fields.
fn with_equations(
    alloc: Global,
    list: &mut Implications,
    basis: &Basis<'_>,
    constructor: Name,
    by: &Subst,
    env: u64,
) -> Result<u64, AllocError>
    requires { env < length (environment_lists list.old) }
    ensures context { IfOk result (λ n. (P : checks.Basis) (names : TypedNames) (types : TypeRows) (Γ : Context)
        → Stands P basis.now types → IsContext Γ names basis.now types list.old env
        → IsContext (with_guards (equations_by P constructor.0 (subst_view by.now)) Γ) names basis.now types list.new n) }
    ensures there { IfOk result (λ n. n < length (environment_lists list.new)) }
    ensures environments { HasMore (environment_lists list.old) (environment_lists list.new) }
    ensures implications { implications_of list.new ≡ implications_of list.old }
    ensures count { implication_count list.new ≡ implication_count list.old }
{
    let parts = equations_by(alloc, basis, constructor, by)?;
    let added = guarded(alloc, list, parts.as_slice(), env)?;
    Ok(added)
}

// A variable for `v`, before other replacements.
fn with_value(alloc: Global, name: Binder, by: &Subst) -> Result<Subst, AllocError>
    ensures { IfOk result (λ made. subst_view made ≡ value_as name.0 ∷ subst_view by.now) }
{
    let value = Atom::Term(Term::Var(Symbol::Bound(name)));
    with_first(alloc, Symbol::Value, value, by)
}

// The numbers of the types of a constructor's fields, with nothing put for `#1`, `#2`, ..
fn plain_fields(
    alloc: Global,
    types: &mut RefinedTypes,
    basis: &Basis<'_>,
    of: &DataType,
    constructor: Name,
) -> Result<Vec<usize>, AllocError>
    requires there { IsThere (count_of types.old) basis.now }
    requires arguments { All (λ p. p < count_of types.old) of.now.arguments.items }
    ensures refined { IfOk result (λ made. (P : checks.Basis) → Stands P basis.now types.old
        → each (types_in basis.now types.new) made.items ≡ fields_in P basis.now types.old of.now constructor.0 []) }
    ensures there { IfOk result (λ made. All (λ p. p < count_of types.new) made.items) }
    ensures grows { Grows types.old types.new }
{
    let nothing = Subst::new(alloc);
    let made = fields_by(alloc, types, basis, of, constructor, &nothing)?;
    Ok(made)
}

// Names for the fields of a constructor whose value has this datatype.
fn field_names(
    alloc: Global,
    types: &mut RefinedTypes,
    basis: &Basis<'_>,
    of: &DataType,
    constructor: Name,
    fields: &[Binder],
) -> Result<Subst, AllocError>
    requires there { IsThere (count_of types.old) basis.now }
    requires arguments { All (λ p. p < count_of types.old) of.now.arguments.items }
    ensures by { IfOk result (λ by. (P : checks.Basis) → Stands P basis.now types.old → subst_view by
        ≡ names_for 0 (names_view fields.now) (fields_in P basis.now types.old of.now constructor.0 [])) }
    ensures grows { Grows types.old types.new }
{
    let plain = plain_fields(alloc, types, basis, of, constructor)?;
    let by = names_for(alloc, types, fields, &plain)?;
    Ok(by)
}

// What is put for `v` and for the fields of a constructor, and the numbers of the fields' types.
#[derive(Drop)]
struct NamedFields {
    by: Subst,
    rows: Vec<usize>,
}

// The same of a constructor of the variable whose value has this datatype.
fn fields_of_type(
    alloc: Global,
    types: &mut RefinedTypes,
    basis: &Basis<'_>,
    of: &DataType,
    name: Binder,
    constructor: Name,
    fields: &[Binder],
) -> Result<NamedFields, AllocError>
    requires there { IsThere (count_of types.old) basis.now }
    requires arguments { All (λ p. p < count_of types.old) of.now.arguments.items }
    ensures by { IfOk result (λ made. (P : checks.Basis) → Stands P basis.now types.old → subst_view made.by
        ≡ value_as name.0 ∷ names_for 0 (names_view fields.now) (fields_in P basis.now types.old of.now constructor.0 [])) }
    ensures rows { IfOk result (λ made. (P : checks.Basis) → Stands P basis.now types.old
        → each (types_in basis.now types.new) made.rows.items ≡ fields_in P basis.now types.old of.now constructor.0
        (names_for 0 (names_view fields.now) (fields_in P basis.now types.old of.now constructor.0 []))) }
    ensures there { IfOk result (λ made. All (λ p. p < count_of types.new) made.rows.items) }
    ensures grows { Grows types.old types.new }
{
    let names = field_names(alloc, types, basis, of, constructor, fields)?;
    let rows = fields_by(alloc, types, basis, of, constructor, &names)?;
    let by = with_value(alloc, name, &names)?;
    Ok(NamedFields { by, rows })
}

// The same by the variable's type in the environment.
fn named_fields(
    alloc: Global,
    types: &mut RefinedTypes,
    basis: &Basis<'_>,
    names: &Names,
    used: Use,
    constructor: Name,
    fields: &[Binder],
) -> Result<NamedFields, AllocError>
    requires there { IsThere (count_of types.old) basis.now }
    requires names { AreBelow (count_of types.old) names.now }
    ensures by { IfOk result (λ made. Over basis.now names.now types.old (λ P Γ. subst_view made.by
        ≡ value_as used.name.0 ∷ names_for 0 (names_view fields.now)
        (fields_by P Γ used.name.0 (type_of_use P Γ (use_view used)) constructor.0 []))) }
    ensures rows { IfOk result (λ made. Over basis.now names.now types.old (λ P Γ. each (types_in basis.now types.new) made.rows.items
        ≡ fields_by P Γ used.name.0 (type_of_use P Γ (use_view used)) constructor.0 (names_for 0 (names_view fields.now)
        (fields_by P Γ used.name.0 (type_of_use P Γ (use_view used)) constructor.0 [])))) }
    ensures there { IfOk result (λ made. All (λ p. p < count_of types.new) made.rows.items) }
    ensures grows { Grows types.old types.new }
{
    let at = type_of_use(alloc, types, basis, names, used)?;
    let of = data_type(alloc, types, basis.scopes, at)?;
    let made = fields_of_type(alloc, types, basis, &of, used.name, constructor, fields)?;
    Ok(made)
}

// The environment of an arm that names a constructor and its fields.
fn in_build(
    alloc: Global,
    list: &mut Implications,
    types: &mut RefinedTypes,
    basis: &Basis<'_>,
    names: &mut Names,
    used: Use,
    constructor: Name,
    fields: &[Binder],
    env: u64,
) -> Result<u64, AllocError>
    requires env { env < length (environment_lists list.old) }
    requires there { IsThere (count_of types.old) basis.now }
    requires names { AreBelow (count_of types.old) names.old }
    ensures context { IfOk result (λ n. (P : checks.Basis) (Γ : Context) → Stands P basis.now types.old
        → IsContext Γ names.old basis.now types.old list.old env
        → IsContext (build_context P Γ used.name.0 (type_of_use P Γ (use_view used)) constructor.0 (names_view fields.now))
        names.new basis.now types.new list.new n) }
    ensures longer { IsLonger names.old names.new }
    ensures below { AreBelow (count_of types.new) names.new }
    ensures there { IfOk result (λ n. n < length (environment_lists list.new)) }
    ensures environments { HasMore (environment_lists list.old) (environment_lists list.new) }
    ensures implications { implications_of list.new ≡ implications_of list.old }
    ensures count { implication_count list.new ≡ implication_count list.old }
    ensures grows { Grows types.old types.new }
{
    let named = named_fields(alloc, types, basis, names, used, constructor, fields)?;
    let inner = bind_all(alloc, list, types, basis, names, fields, &named.rows, env)?;
    let made = with_equations(alloc, list, basis, constructor, &named.by, inner)?;
    Ok(made)
}

// The environment of an arm that names the value.
fn in_name(
    alloc: Global,
    list: &mut Implications,
    types: &mut RefinedTypes,
    basis: &Basis<'_>,
    names: &mut Names,
    used: Use,
    name: Binder,
    env: u64,
) -> Result<u64, AllocError>
    requires env { env < length (environment_lists list.old) }
    requires there { IsThere (count_of types.old) basis.now }
    requires names { AreBelow (count_of types.old) names.old }
    ensures context { IfOk result (λ n. (P : checks.Basis) (Γ : Context) → Stands P basis.now types.old
        → IsContext Γ names.old basis.now types.old list.old env
        → IsContext (in_arm P Γ (use_view used) (pattern_name name.0)) names.new basis.now types.new list.new n) }
    ensures longer { IsLonger names.old names.new }
    ensures below { AreBelow (count_of types.new) names.new }
    ensures there { IfOk result (λ n. n < length (environment_lists list.new)) }
    ensures environments { HasMore (environment_lists list.old) (environment_lists list.new) }
    ensures implications { implications_of list.new ≡ implications_of list.old }
    ensures count { implication_count list.new ≡ implication_count list.old }
    ensures grows { Grows types.old types.new }
{
    let at = pure_type(alloc, types, basis, names, &Pure::Use(used))?;
    let made = bind(alloc, list, types, basis, names, name, at, env)?;
    Ok(made)
}

// The environment of an arm that names the components of a tuple.
fn in_tuple(
    alloc: Global,
    list: &mut Implications,
    types: &mut RefinedTypes,
    basis: &Basis<'_>,
    names: &mut Names,
    used: Use,
    components: &[Binder],
    env: u64,
) -> Result<u64, AllocError>
    requires env { env < length (environment_lists list.old) }
    requires there { IsThere (count_of types.old) basis.now }
    requires names { AreBelow (count_of types.old) names.old }
    ensures context { IfOk result (λ n. (P : checks.Basis) (Γ : Context) → Stands P basis.now types.old
        → IsContext Γ names.old basis.now types.old list.old env
        → IsContext (in_arm P Γ (use_view used) (pattern_tuple (names_view components.now)))
        names.new basis.now types.new list.new n) }
    ensures longer { IsLonger names.old names.new }
    ensures below { AreBelow (count_of types.new) names.new }
    ensures there { IfOk result (λ n. n < length (environment_lists list.new)) }
    ensures environments { HasMore (environment_lists list.old) (environment_lists list.new) }
    ensures implications { implications_of list.new ≡ implications_of list.old }
    ensures count { implication_count list.new ≡ implication_count list.old }
    ensures grows { Grows types.old types.new }
{
    let at = type_of_use(alloc, types, basis, names, used)?;
    let rows = components_of(alloc, types, basis.scopes, at)?;
    let made = bind_components(alloc, list, types, basis, names, components, &rows, env)?;
    Ok(made)
}

/// Binds what the pattern of an arm names, and answers the number of the arm's environment.
pub fn in_arm(
    alloc: Global,
    list: &mut Implications,
    types: &mut RefinedTypes,
    basis: &Basis<'_>,
    names: &mut Names,
    used: Use,
    pattern: &Pattern,
    env: u64,
) -> Result<u64, AllocError>
    requires env { env < length (environment_lists list.old) }
    requires there { IsThere (count_of types.old) basis.now }
    requires names { AreBelow (count_of types.old) names.old }
    ensures context { IfOk result (λ n. (P : checks.Basis) (Γ : Context) → Stands P basis.now types.old
        → IsContext Γ names.old basis.now types.old list.old env
        → IsContext (in_arm P Γ (use_view used) (pattern_view pattern.now)) names.new basis.now types.new list.new n) }
    ensures longer { IsLonger names.old names.new }
    ensures below { AreBelow (count_of types.new) names.new }
    ensures there { IfOk result (λ n. n < length (environment_lists list.new)) }
    ensures environments { HasMore (environment_lists list.old) (environment_lists list.new) }
    ensures implications { implications_of list.new ≡ implications_of list.old }
    ensures count { implication_count list.new ≡ implication_count list.old }
    ensures grows { Grows types.old types.new }
{
    match pattern {
        Pattern::Any | Pattern::Unit => Ok(env),
        Pattern::Name(name) => in_name(alloc, list, types, basis, names, used, *name, env),
        Pattern::Tuple(components) => {
            in_tuple(alloc, list, types, basis, names, used, components, env)
        }
        Pattern::Build(constructor, fields) => {
            in_build(
                alloc,
                list,
                types,
                basis,
                names,
                used,
                *constructor,
                fields,
                env,
            )
        }
    }
}

/// The number of the environment in which a constructor that no arm names is to be impossible: its equations hold of the variable.
pub fn missing_context(
    alloc: Global,
    list: &mut Implications,
    basis: &Basis<'_>,
    used: Use,
    constructor: Name,
    env: u64,
) -> Result<u64, AllocError>
    requires { env < length (environment_lists list.old) }
    ensures context { IfOk result (λ n. (P : checks.Basis) (names : TypedNames) (types : TypeRows) (Γ : Context)
        → Stands P basis.now types → IsContext Γ names basis.now types list.old env
        → IsContext (missing_context P Γ (use_view used) constructor.0) names basis.now types list.new n) }
    ensures there { IfOk result (λ n. n < length (environment_lists list.new)) }
    ensures environments { HasMore (environment_lists list.old) (environment_lists list.new) }
    ensures implications { implications_of list.new ≡ implications_of list.old }
    ensures count { implication_count list.new ≡ implication_count list.old }
{
    let nothing = Subst::new(alloc);
    let by = with_value(alloc, used.name, &nothing)?;
    let made = with_equations(alloc, list, basis, constructor, &by, env)?;
    Ok(made)
}
