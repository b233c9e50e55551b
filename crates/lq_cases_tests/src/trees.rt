// Trees that are made by hand, at names and at binders.
use lq_base_names::{NameText, TextBuf};
use lq_text_tree::{
    ArithOp, Arm, Arms, Binder, Expr, Exprs, Function, Ident, Measures, Name, Node, Pat, PatNode,
    Pats, Place, Program, Quals, SimpleType, SimpleTypes, TextKind, TypeExpr, TypeExprs, TypeNode,
};
use std::alloc::{AllocError, Global};
use std::test::Fail;

const PLACE: Place = Place {
    text: TextKind::Program,
    line: 1,
    column: 1,
};

fn node<B>(node: Node<B>) -> Expr<B> {
    Expr {
        id: 0,
        place: PLACE,
        node,
    }
}

fn pat<B>(node: PatNode<B>) -> Pat<B> {
    Pat { place: PLACE, node }
}

fn variable<B: Ident + Drop>(alloc: Global, n: u32) -> Result<Box<Expr<B>>, AllocError> {
    Ok(Box::new(alloc, node(Node::Use(B::from_number(n))))?)
}

// x + y
fn sum<B: Ident + Drop>(alloc: Global, x: u32, y: u32) -> Result<Box<Expr<B>>, AllocError> {
    let left = variable(alloc, x)?;
    let right = variable(alloc, y)?;
    Ok(Box::new(alloc, node(Node::Arith(ArithOp::Add, left, right)))?)
}

// let rec f x = x + y in f, with f = 0, x = 1, y = 2
fn recursive<B: Ident + Drop>(alloc: Global) -> Result<Expr<B>, AllocError> {
    let function = Function {
        id: 0,
        place: PLACE,
        parameter: pat(PatNode::Bind(B::from_number(1))),
        body: sum(alloc, 1, 2)?,
    };
    let function = Box::new(alloc, function)?;
    let body = variable(alloc, 0)?;
    Ok(node(Node::LetRec(B::from_number(0), function, body)))
}

// match y + z with (w, _) -> w + x | _ -> y, with w = 4, z = 3
fn matching<B: Ident + Drop>(alloc: Global) -> Result<Expr<B>, AllocError> {
    let mut parts = Pats::new(alloc)?;
    parts.push(pat(PatNode::Bind(B::from_number(4))))?;
    parts.push(pat(PatNode::Any))?;
    let mut arms = Arms::new(alloc)?;
    arms.push(Arm {
        pattern: pat(PatNode::Tuple(parts)),
        body: sum(alloc, 4, 1)?,
    })?;
    arms.push(Arm {
        pattern: pat(PatNode::Any),
        body: variable(alloc, 2)?,
    })?;
    Ok(node(Node::Match(sum(alloc, 2, 3)?, arms)))
}

// f; (let rec f x = x + y in f); match y + z with ..
fn chain<B: Ident + Drop>(alloc: Global) -> Result<Expr<B>, AllocError> {
    let mut parts = Exprs::new(alloc)?;
    parts.push(node(Node::Use(B::from_number(0))))?;
    parts.push(recursive(alloc)?)?;
    parts.push(matching(alloc)?)?;
    Ok(node(Node::Chain(parts)))
}

fn free<B: Ident + Drop>(alloc: Global, tree: &Expr<B>) -> Result<Vec<u32>, AllocError> {
    let names = tree.free_names(alloc)?;
    let mut numbers = Vec::new(alloc);
    for at in 0..names.len() {
        if let Some(name) = names.get(at) {
            numbers.push((*name).number())?;
        }
    }
    Ok(numbers)
}

#[test]
fn trees_of_names(rt: HostRuntime) -> Result<(), Fail> {
    let tree: Expr<Name> = chain(rt.alloc())?;
    assert_eq!(rt;
        free(rt.alloc(), &tree)?.as_slice(),
        [0, 2, 3, 1].as_slice()
    );
    let copy = tree.copy(rt.alloc())?;
    assert_eq!(rt;
        free(rt.alloc(), &copy)?.as_slice(),
        [0, 2, 3, 1].as_slice()
    );
    Ok(())
}

#[test]
fn trees_of_binders(rt: HostRuntime) -> Result<(), Fail> {
    let tree: Expr<Binder> = chain(rt.alloc())?;
    let copy = tree.copy(rt.alloc())?;
    assert_eq!(rt;
        free(rt.alloc(), &copy)?.as_slice(),
        [0, 2, 3, 1].as_slice()
    );
    Ok(())
}

#[test]
fn depth_of_a_form(rt: HostRuntime) -> Result<(), Fail> {
    let unit: Expr<Name> = Expr {
        id: 0,
        place: PLACE,
        node: Node::Unit,
    };
    assert_eq!(rt; unit.depth(), 1);
    let flag: Expr<Binder> = Expr {
        id: 0,
        place: PLACE,
        node: Node::Flag(true),
    };
    let negation = Expr {
        id: 1,
        place: PLACE,
        node: Node::Not(Box::new(rt.alloc(), flag)?),
    };
    assert_eq!(rt; negation.depth(), 2);
    Ok(())
}

#[test]
fn rows_hold_what_is_pushed(rt: HostRuntime) -> Result<(), Fail> {
    let mut trees: Exprs<Binder> = Exprs::new(rt.alloc())?;
    assert_eq!(rt; trees.len(), 0);
    trees.push(node(Node::Whole(7)))?;
    let copy = trees.copy(rt.alloc())?;
    assert_eq!(rt; copy.len(), 1);
    assert!(rt;
        matches!(
            copy.get(0),
            Some(Expr {
                node: Node::Whole(7),
                ..
            })
        )
    );
    assert!(rt; copy.get(1).is_none());
    let mut arms: Arms<Binder> = Arms::new(rt.alloc())?;
    arms.push(Arm {
        pattern: pat(PatNode::Any),
        body: variable(rt.alloc(), 5)?,
    })?;
    let arms = arms.copy(rt.alloc())?;
    assert!(rt; arms.len() == 1 && arms.get(0).is_some());
    let mut parts: Pats<Binder> = Pats::new(rt.alloc())?;
    parts.push(pat(PatNode::Bind(Binder(3))))?;
    let parts = parts.copy(rt.alloc())?;
    assert_eq!(rt; parts.len(), 1);
    assert!(rt;
        matches!(
            parts.get(0),
            Some(Pat {
                node: PatNode::Bind(Binder(3)),
                ..
            })
        )
    );
    Ok(())
}

#[test]
fn types(rt: HostRuntime) -> Result<(), Fail> {
    let mut parts = SimpleTypes::new(rt.alloc())?;
    parts.push(SimpleType::Int)?;
    parts.push(SimpleType::Var(4))?;
    let pair = SimpleType::Named(Name::LIST, parts).copy(rt.alloc())?;
    if let SimpleType::Named(name, parts) = pair {
        assert_eq!(rt; name, Name::LIST);
        assert_eq!(rt; parts.len(), 2);
        assert!(rt; matches!(parts.get(1), Some(SimpleType::Var(4))));
    } else {
        assert!(rt; false);
    }
    let mut written = TypeExprs::new(rt.alloc())?;
    written.push(TypeExpr {
        place: PLACE,
        node: TypeNode::Var(Name::TYPE_VARIABLE_A),
    })?;
    assert!(rt; written.len() == 1 && written.get(0).is_some());
    Ok(())
}

#[test]
fn whole_texts(rt: HostRuntime) -> Result<(), Fail> {
    let program = Program::new(Vec::new(rt.alloc()));
    assert_eq!(rt; program.items().len(), 0);
    let quals = Quals::new(Vec::new(rt.alloc()));
    assert_eq!(rt; quals.qualifiers().len(), 0);
    let measures = Measures::new(Vec::new(rt.alloc()));
    assert_eq!(rt; measures.measures().len(), 0);
    Ok(())
}

#[test]
fn owned_texts(rt: HostRuntime) -> Result<(), Fail> {
    let name = NameText::new(rt.alloc(), "Map.find")?;
    assert_eq!(rt; name.as_bytes(), b"Map.find".as_slice());
    let report = TextBuf::from_bytes([65, 200, 10].to_vec(rt.alloc())?);
    assert_eq!(rt; report.as_bytes(), [65, 200, 10].as_slice());
    Ok(())
}
