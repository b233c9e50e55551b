// Datatypes by the types of their constructors' fields.
use lq_base_names::{Name, Place};
use lq_text_tree::SimpleTypes;

/// A datatype. In the types of its fields the parameters are the variables 0, 1, .., in their order.
#[derive(Drop)]
pub struct DataType {
    pub name: Name,
    /// The place of its name.
    pub place: Place,
    /// The names of the parameters as they are written.
    pub parameters: Vec<Name>,
    pub constructors: Vec<ConstructorType>,
}

/// A constructor with the types of its fields.
#[derive(Drop)]
pub struct ConstructorType {
    pub name: Name,
    pub fields: SimpleTypes,
}
