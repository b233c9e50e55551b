// The datatypes of a program.
ghost use Rattle.std.specs.Prelude.{◌≡◌, ◌++◌, IfOk, OnOk, map};
ghost use Rattle.lq_base_names.specs.declared.name.Name.{Name};
ghost use Rattle.lq_text_tree.specs.Items.{constructor_view, definition_view, item_view, parameter_view, parsed_items};
ghost use Rattle.lq_text_tree.specs.Signatures.{all_written};
ghost use Rattle.lq_text_tree.specs.SimpleTypeView.{simple_types_view};
ghost use Rattle.lq_text_tree.specs.TypeView.{types_view};
ghost use Rattle.lq_text_walk.specs.Scoped.Signature.{constructor_tree, data_tree};
ghost use Rattle.lq_text_walk.specs.Scoped.Views.{data_view, name_number};
ghost use Rattle.lq_text_datatypes.specs.Datatypes.{constructor_type_view, constructor_with, datatype_in, datatypes_in, parameter_name};

use crate::simple::written;
use lq_base_names::Name;
use lq_text_tree::{
    Constructor, Item, ItemNode, SimpleTypes, TypeDefinition, TypeExprs, TypeParameter,
};
use lq_text_walk::scoped::{ConstructorType, DataType};
use std::alloc::{AllocError, Global};

// The simple types of a row.
fn row_written(
    alloc: Global,
    parameters: &[TypeParameter],
    row: &TypeExprs,
) -> Result<SimpleTypes, AllocError>
    ensures { IfOk result (λ ts. simple_types_view ts ≡ all_written (map parameter_view parameters.now)
        (types_view row.now)) }
{
    let mut types = SimpleTypes::new(alloc)?;
    for at in 0..row.len() {
        if let Some(part) = row.get(at) {
            types.push(written(alloc, parameters, part)?)?;
        }
    }
    Ok(types)
}

// A constructor by the types of its fields.
fn constructor_of(
    alloc: Global,
    parameters: &[TypeParameter],
    constructor: &Constructor,
) -> Result<ConstructorType, AllocError>
    ensures { IfOk result (λ c. constructor_type_view c
        ≡ constructor_with (map parameter_view parameters.now)
        (constructor_view constructor.now)) }
{
    let fields = row_written(alloc, parameters, &constructor.fields)?;
    Ok(ConstructorType {
        name: constructor.name,
        fields,
    })
}

fn constructors_of(
    alloc: Global,
    parameters: &[TypeParameter],
    constructors: &[Constructor],
) -> Result<Vec<ConstructorType>, AllocError>
    ensures { IfOk result (λ cs. map constructor_type_view cs.items
        ≡ map (constructor_with (map parameter_view parameters.now))
        (map constructor_view constructors.now)) }
{
    let mut types = Vec::new(alloc);
    for constructor in constructors {
        types.push(constructor_of(alloc, parameters, constructor)?)?;
    }
    Ok(types)
}

fn names_of(alloc: Global, parameters: &[TypeParameter]) -> Result<Vec<Name>, AllocError>
    ensures { IfOk result (λ ns. map name_number ns.items
        ≡ map parameter_name (map parameter_view parameters.now)) }
{
    let mut names = Vec::new(alloc);
    for parameter in parameters {
        names.push(parameter.name)?;
    }
    Ok(names)
}

// The datatype that a definition is.
fn datatype_of(alloc: Global, definition: &TypeDefinition) -> Result<DataType, AllocError>
    ensures { IfOk result (λ d. data_view d ≡ data_tree (definition_view definition.now)) }
{
    Ok(DataType {
        name: definition.name,
        place: definition.place,
        parameters: names_of(alloc, &definition.parameters)?,
        constructors: constructors_of(alloc, &definition.parameters, &definition.constructors)?,
    })
}

// The datatype that an item defines, if it does, behind the others.
fn push_datatype(
    alloc: Global,
    datatypes: &mut Vec<DataType>,
    item: &Item<Name>,
) -> Result<(), AllocError>
    ensures { OnOk result (map data_view datatypes.new.items ≡ map data_view datatypes.old.items
        ++ datatype_in (item_view Name (λ n. n.0) item.now).form) }
{
    match &item.node {
        ItemNode::Type(definition) => {
            let datatype = datatype_of(alloc, definition)?;
            datatypes.push(datatype)?;
            Ok(())
        }
        ItemNode::Let(_, _) | ItemNode::LetRec(_, _) => Ok(()),
    }
}

/// The datatypes that the items of a program define, in their order.
pub fn datatypes_of(alloc: Global, items: &[Item<Name>]) -> Result<Vec<DataType>, AllocError>
    ensures { IfOk result (λ ds. map data_view ds.items ≡ datatypes_in (parsed_items items.now)) }
{
    let mut datatypes = Vec::new(alloc);
    for item in items {
        push_datatype(alloc, &mut datatypes, item)?;
    }
    Ok(datatypes)
}
