// Trees are dropped down their first parts by a loop.
use crate::expr::{Arms, Expr, Exprs, Function, Node};
use crate::item::{Item, ItemNode};

// Drops a tree: down first parts by a loop, and by itself for the other parts, which nest no deeper than the text.
#[cycle(drop_tree)]
fn drop_tree<B: Drop>(mut left: Expr<B>) {
    loop {
        let Expr {
            id: _id,
            place: _place,
            node,
        } = left;
        match node {
            Node::Fun(_q, a) => left = Box::into_inner(a),
            Node::Neg(a)
            | Node::Not(a)
            | Node::Assert(a)
            | Node::Length(a)
            | Node::Print(a)
            | Node::Read(a) => left = Box::into_inner(a),
            Node::Let(_q, a, b) => {
                drop_tree(Box::into_inner(b));
                left = Box::into_inner(a);
            }
            Node::Call(a, b)
            | Node::Arith(_, a, b)
            | Node::Compare(_, a, b)
            | Node::And(a, b)
            | Node::Or(a, b)
            | Node::Make(a, b)
            | Node::Fetch(a, b)
            | Node::MapFind(a, b) => {
                drop_tree(Box::into_inner(b));
                left = Box::into_inner(a);
            }
            Node::If(a, b, c) | Node::Store(a, b, c) | Node::MapAdd(a, b, c) => {
                drop_tree(Box::into_inner(b));
                drop_tree(Box::into_inner(c));
                left = Box::into_inner(a);
            }
            Node::LetRec(_f, function, a) => {
                drop_function(Box::into_inner(function));
                left = Box::into_inner(a);
            }
            Node::Match(a, arms) => {
                drop_arms(arms);
                left = Box::into_inner(a);
            }
            Node::Tuple(parts)
            | Node::Build(_, _, parts)
            | Node::ListOf(parts)
            | Node::Chain(parts) => {
                drop_all(parts);
                return;
            }
            _leaf => return,
        }
    }
}

#[cycle(drop_tree)]
fn drop_function<B: Drop>(function: Function<B>) {
    let Function {
        id: _id,
        place: _place,
        parameter: _parameter,
        body,
    } = function;
    drop_tree(Box::into_inner(body));
}

#[cycle(drop_tree)]
fn drop_all<B: Drop>(parts: Exprs<B>) {
    let Exprs { items } = parts;
    for part in items {
        drop_tree(part);
    }
}

#[cycle(drop_tree)]
fn drop_arms<B: Drop>(arms: Arms<B>) {
    let Arms { items } = arms;
    for arm in items {
        drop_tree(Box::into_inner(arm.body));
    }
}

/// Drops items. The derived drop of `Expr` calls itself for each level, also down first parts, of which a text can nest more than a
/// stack holds; this goes down first parts by a loop.
pub fn drop_items<B: Drop>(items: Vec<Item<B>>) {
    for item in items {
        match item.node {
            ItemNode::Type(_d) => {}
            ItemNode::Let(_q, tree) => drop_tree(tree),
            ItemNode::LetRec(_f, function) => drop_function(function),
        }
    }
}
