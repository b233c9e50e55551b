// Tables of types whose variables are renamed.
use lq_types_table::{TypeHead, TypeNode, TypeTable};
use std::test::Fail;

#[test]
fn renames_what_is_shared(rt: HostRuntime) -> Result<(), Fail> {
    let mut table = TypeTable::new(rt.alloc());
    let variable = table.push_variable(1)?;
    let function = table.push(TypeHead::Arrow, &[variable, variable])?;
    table.rename(&[5, 6]);
    if table.len() == 2 {
        assert!(rt; matches!(table.node(variable), TypeNode::Var(6)));
        assert!(rt; matches!(table.node(function), TypeNode::Arrow(0, 0)));
        assert_eq!(rt; table.parts(function), [0, 0].as_slice());
    }
    assert_eq!(rt; table.len(), 2);
    Ok(())
}
