// The table of a program's constructors.
ghost use Rattle.std.specs.Prelude.{◌≡◌, ◌≢◌, ℕ, ◌<◌, ◌≤◌, List, [], ◌∷◌, ◌++◌, None, length, map, slice_index_or, IfOk, OnOk, true, false};
ghost use Rattle.lq_text_tree.specs.MlType as ml;
ghost use Rattle.lq_text_tree.specs.SimpleTypeView.{simple_types_view};
ghost use Rattle.lq_text_tree.specs.Signatures.{predeclared};
ghost use Rattle.lq_text_tree.specs.Types.{Constructor, list_type};
ghost use Rattle.lq_text_walk.specs.Scoped.Signature.{constructors_in, signature_in, signed};
ghost use Rattle.lq_text_walk.specs.Scoped.Views.{constructor_view, data_view};
ghost use Rattle.lq_types_rules.specs.Equations.Templates.{AreWhole, HasSignature, IsTemplate, IsWhole};
ghost use Rattle.lq_types_rules.specs.Constructors.Holding.{Holds};

use crate::constructors::building::template_of;
use crate::equations::{Constructors, Template};
use lq_text_tree::{Name, SimpleType, SimpleTypes};
use lq_text_walk::scoped::DataType;
use std::alloc::{AllocError, Global};

// So many entries or more.
fn widen(entries: &mut Vec<Option<Template>>, count: usize) -> Result<(), AllocError>
    ensures length { OnOk result (count ≤ length entries.new.items) }
    ensures same { OnOk result ((i : ℕ) → slice_index_or entries.new.items i None
        ≡ slice_index_or entries.old.items i None) }
{
    for _ in entries.len()..count {
        entries.push(None)?;
    }
    Ok(())
}

// Whether nothing stands at a place.
fn is_free(entries: &[Option<Template>], at: usize) -> bool
    requires { at < length entries.now }
    ensures yes { result ≡ true → slice_index_or entries.now at None ≡ None }
    ensures no { result ≡ false → slice_index_or entries.now at None ≢ None }
{
    match &entries[at] {
        Some(_) => false,
        None => true,
    }
}

// A constructor under its name, unless another one stands there.
fn put(constructors: &mut Constructors, name: Name, template: Template) -> Result<(), AllocError>
    requires { IsWhole template }
    ensures { OnOk result ((ks : List (ℕ × Constructor)) (k : Constructor) → IsTemplate template k
        → Holds constructors.old ks → Holds constructors.new (ks ++ (name.0, k) ∷ [])) }
{
    let at = name.0 as usize;
    widen(&mut constructors.entries, at + 1)?;
    if is_free(&constructors.entries, at) {
        constructors.entries[at] = Some(template);
    }
    Ok(())
}

// A constructor of these fields, unless there is one of its name.
fn add(
    alloc: Global,
    constructors: &mut Constructors,
    datatype: Name,
    parameters: u32,
    name: Name,
    fields: &SimpleTypes,
) -> Result<(), AllocError>
    ensures { OnOk result ((ks : List (ℕ × Constructor)) → Holds constructors.old ks
        → Holds constructors.new (ks ++ (
          name.0,
          record {
            datatype = datatype.0;
            parameters = parameters;
            fields = simple_types_view fields.now;
          },
        ) ∷ [])) }
{
    let template = template_of(alloc, datatype, parameters, fields)?;
    put(constructors, name, template)?;
    Ok(())
}

// The constructors of a datatype, in their order.
fn add_datatype(
    alloc: Global,
    constructors: &mut Constructors,
    datatype: &DataType,
) -> Result<(), AllocError>
    ensures { OnOk result ((ks : List (ℕ × Constructor)) → Holds constructors.old ks
        → Holds constructors.new (ks ++ map (signed (data_view datatype.now))
        (data_view datatype.now).constructors)) }
{
    let count = datatype.parameters.len();
    if count > u32::MAX as usize {
        return Err(AllocError);
    }
    let (name, parameters) = (datatype.name, count as u32);
    for constructor in &datatype.constructors {
        add(
            alloc,
            constructors,
            name,
            parameters,
            constructor.name,
            &constructor.fields,
        )?;
    }
    Ok(())
}

// A parameter alone.
fn one_field(alloc: Global) -> Result<SimpleTypes, AllocError>
    ensures { IfOk result (λ row. simple_types_view row ≡ ml.more_types (ml.var 0) ml.no_types) }
{
    let mut row = SimpleTypes::new(alloc)?;
    row.push(SimpleType::Var(0))?;
    Ok(row)
}

// A parameter and a list of it.
fn two_fields(alloc: Global) -> Result<SimpleTypes, AllocError>
    ensures { IfOk result (λ row. simple_types_view row ≡ ml.more_types (ml.var 0)
        (ml.more_types (list_type (ml.var 0)) ml.no_types)) }
{
    let element = one_field(alloc)?;
    let mut row = SimpleTypes::new(alloc)?;
    row.push(SimpleType::Var(0))?;
    row.push(SimpleType::Named(Name::LIST, element))?;
    Ok(row)
}

// The constructors of `list` and `option`.
fn predeclared(alloc: Global) -> Result<Constructors, AllocError>
    ensures { IfOk result (λ table. Holds table predeclared) }
{
    let mut table = Constructors {
        entries: Vec::new(alloc),
    };
    let none = SimpleTypes::new(alloc)?;
    let one = one_field(alloc)?;
    let two = two_fields(alloc)?;
    add(alloc, &mut table, Name::LIST, 1, Name::NIL, &none)?;
    add(alloc, &mut table, Name::LIST, 1, Name::CONS, &two)?;
    add(alloc, &mut table, Name::OPTION, 1, Name::NONE, &none)?;
    add(alloc, &mut table, Name::OPTION, 1, Name::SOME, &one)?;
    Ok(table)
}

/// The constructors of the predeclared datatypes and of these, by their names. Of several of one name it is the first.
pub fn constructors_of(alloc: Global, datatypes: &[DataType]) -> Result<Constructors, AllocError>
    ensures whole { IfOk result AreWhole }
    ensures signature { IfOk result (λ table. HasSignature table
        (signature_in (map data_view datatypes.now))) }
{
    let mut table = predeclared(alloc)?;
    for datatype in datatypes {
        add_datatype(alloc, &mut table, datatype)?;
    }
    Ok(table)
}
