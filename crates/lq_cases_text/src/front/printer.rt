// Trees as texts. Behind an @ stands the column of a place; where the line isn't 1, the line too.
use lq_base_names::{ArithOp, CompareOp, Name, NameTable, Place};
use lq_text_tree::{
    Arguments, Arms, Constructor, Equation, Expr, Exprs, Function, Item, ItemNode, Measure, Node,
    Pat, PatNode, Pats, PredExpr, PredNode, Qualifier, TypeDefinition, TypeExpr, TypeExprs,
    TypeNode,
};
use std::alloc::{AllocError, Global};

type Printed = Result<(), AllocError>;

// What is still to be printed.
#[derive(Clone, Copy)]
pub(crate) enum Work<'a> {
    Text(&'static str),
    Name(Name),
    Place(Place),
    Whole(i128),
    Tree(&'a Expr<Name>),
    Function(&'a Function<Name>),
    Pattern(&'a Pat<Name>),
    Type(&'a TypeExpr),
    Pred(&'a PredExpr),
    Constructor(&'a Constructor),
    Item(&'a Item<Name>),
    Qualifier(&'a Qualifier),
    Equation(&'a Equation),
    Measure(&'a Measure),
}

const fn arith_sign(operation: ArithOp) -> &'static str {
    match operation {
        ArithOp::Add => "+",
        ArithOp::Sub => "-",
        ArithOp::Mul => "*",
        ArithOp::Div => "/",
        ArithOp::Mod => "mod",
    }
}

const fn compare_sign(operation: CompareOp) -> &'static str {
    match operation {
        CompareOp::Eq => "=",
        CompareOp::Ne => "<>",
        CompareOp::Lt => "<",
        CompareOp::Le => "<=",
        CompareOp::Gt => ">",
        CompareOp::Ge => ">=",
    }
}

const fn flag(value: bool) -> &'static str {
    if value { "true" } else { "false" }
}

// Parts behind a head, in parentheses: the last part first on the stack.
fn list<'a>(work: &mut Vec<Work<'a>>, head: &[Work<'a>], parts: &[Work<'a>]) -> Printed {
    work.push(Work::Text(")"))?;
    for part in parts.iter().rev() {
        work.push(*part)?;
        work.push(Work::Text(" "))?;
    }
    for part in head.iter().rev() {
        work.push(*part)?;
    }
    work.push(Work::Text("("))?;
    Ok(())
}

fn form<'a>(
    work: &mut Vec<Work<'a>>,
    head: &'static str,
    place: Place,
    parts: &[Work<'a>],
) -> Printed {
    list(work, &[Work::Text(head), Work::Place(place)], parts)
}

fn leaf<'a>(work: &mut Vec<Work<'a>>, part: Work<'a>, place: Place) -> Printed {
    work.push(Work::Place(place))?;
    work.push(part)?;
    Ok(())
}

fn trees<'a>(alloc: Global, row: &'a Exprs<Name>) -> Result<Vec<Work<'a>>, AllocError> {
    let mut parts = Vec::new(alloc);
    for at in 0..row.len() {
        if let Some(part) = row.get(at) {
            parts.push(Work::Tree(part))?;
        }
    }
    Ok(parts)
}

fn patterns<'a>(alloc: Global, row: &'a Pats<Name>) -> Result<Vec<Work<'a>>, AllocError> {
    let mut parts = Vec::new(alloc);
    for at in 0..row.len() {
        if let Some(part) = row.get(at) {
            parts.push(Work::Pattern(part))?;
        }
    }
    Ok(parts)
}

fn types<'a>(alloc: Global, row: &'a TypeExprs) -> Result<Vec<Work<'a>>, AllocError> {
    let mut parts = Vec::new(alloc);
    for at in 0..row.len() {
        if let Some(part) = row.get(at) {
            parts.push(Work::Type(part))?;
        }
    }
    Ok(parts)
}

fn one<'a>(
    work: &mut Vec<Work<'a>>,
    head: &'static str,
    place: Place,
    only: &'a Expr<Name>,
) -> Printed {
    form(work, head, place, &[Work::Tree(only)])
}

fn two<'a>(
    work: &mut Vec<Work<'a>>,
    head: &'static str,
    place: Place,
    first: &'a Expr<Name>,
    second: &'a Expr<Name>,
) -> Printed {
    form(work, head, place, &[Work::Tree(first), Work::Tree(second)])
}

fn three<'a>(
    work: &mut Vec<Work<'a>>,
    head: &'static str,
    place: Place,
    parts: [&'a Expr<Name>; 3],
) -> Printed {
    let [first, second, third] = parts;
    let parts = [Work::Tree(first), Work::Tree(second), Work::Tree(third)];
    form(work, head, place, &parts)
}

// A constructor. Two dots stand behind the name where the commas of the arguments stand directly in its parentheses.
fn build<'a>(
    alloc: Global,
    work: &mut Vec<Work<'a>>,
    place: Place,
    name: Name,
    held: Arguments,
    row: &'a Exprs<Name>,
) -> Printed {
    let held = match held {
        Arguments::Apart => "",
        Arguments::Listed => "..",
    };
    let head = [Work::Name(name), Work::Text(held), Work::Place(place)];
    list(work, &head, &trees(alloc, row)?)
}

fn arms<'a>(
    alloc: Global,
    work: &mut Vec<Work<'a>>,
    place: Place,
    matched: &'a Expr<Name>,
    row: &'a Arms<Name>,
) -> Printed {
    let mut parts = Vec::new(alloc);
    parts.push(Work::Tree(matched))?;
    for at in 0..row.len() {
        if let Some(arm) = row.get(at) {
            parts.push(Work::Pattern(&arm.pattern))?;
            parts.push(Work::Tree(&arm.body))?;
        }
    }
    form(work, "match", place, &parts)
}

fn qualified<'a>(work: &mut Vec<Work<'a>>, module: Name, name: Name, place: Place) -> Printed {
    leaf(work, Work::Name(name), place)?;
    work.push(Work::Text("."))?;
    work.push(Work::Name(module))?;
    Ok(())
}

fn tree<'a>(alloc: Global, work: &mut Vec<Work<'a>>, tree: &'a Expr<Name>) -> Printed {
    let at = tree.place;
    match &tree.node {
        Node::Whole(value) => leaf(work, Work::Whole(*value), at),
        Node::Flag(value) => leaf(work, Work::Text(flag(*value)), at),
        Node::Unit => leaf(work, Work::Text("()"), at),
        Node::Use(name) => leaf(work, Work::Name(*name), at),
        Node::Qualified(module, name) => qualified(work, *module, *name, at),
        Node::Fun(p, b) => form(work, "fun", at, &[Work::Pattern(p), Work::Tree(b)]),
        Node::Tuple(row) => form(work, "tuple", at, &trees(alloc, row)?),
        Node::Build(name, held, row) => build(alloc, work, at, *name, *held, row),
        Node::ListOf(row) => form(work, "list", at, &trees(alloc, row)?),
        Node::Chain(row) => form(work, "seq", at, &trees(alloc, row)?),
        Node::Let(p, e, b) => {
            let parts = [Work::Pattern(p), Work::Tree(e), Work::Tree(b)];
            form(work, "let", at, &parts)
        }
        Node::LetRec(f, r, b) => {
            let parts = [Work::Name(*f), Work::Function(r), Work::Tree(b)];
            form(work, "let rec", at, &parts)
        }
        Node::Match(e, row) => arms(alloc, work, at, e, row),
        Node::Call(a, b) => two(work, "call", at, a, b),
        Node::Arith(o, a, b) => two(work, arith_sign(*o), at, a, b),
        Node::Compare(o, a, b) => two(work, compare_sign(*o), at, a, b),
        Node::Neg(a) => one(work, "neg", at, a),
        Node::Not(a) => one(work, "not", at, a),
        Node::And(a, b) => two(work, "&&", at, a, b),
        Node::Or(a, b) => two(work, "||", at, a, b),
        Node::If(c, a, b) => three(work, "if", at, [c, a, b]),
        Node::Assert(a) => one(work, "assert", at, a),
        Node::AssertFalse => leaf(work, Work::Text("absurd"), at),
        Node::Make(n, e) => two(work, "make", at, n, e),
        Node::Length(a) => one(work, "length", at, a),
        Node::Fetch(a, i) => two(work, "fetch", at, a, i),
        Node::Store(a, i, e) => three(work, "store", at, [a, i, e]),
        Node::Print(e) => one(work, "print", at, e),
        Node::Read(e) => one(work, "read", at, e),
        Node::MapEmpty => leaf(work, Work::Text("empty"), at),
        Node::MapAdd(k, e, m) => three(work, "add", at, [k, e, m]),
        Node::MapFind(k, m) => two(work, "find", at, k, m),
    }
}

fn pattern<'a>(alloc: Global, work: &mut Vec<Work<'a>>, pattern: &'a Pat<Name>) -> Printed {
    let at = pattern.place;
    match &pattern.node {
        PatNode::Any => leaf(work, Work::Text("_"), at),
        PatNode::Bind(name) => leaf(work, Work::Name(*name), at),
        PatNode::Unit => leaf(work, Work::Text("()"), at),
        PatNode::Tuple(row) => form(work, "tuple", at, &patterns(alloc, row)?),
        PatNode::Build(name, place, row) => {
            let head = [Work::Name(*name), Work::Place(at), Work::Place(*place)];
            list(work, &head, &patterns(alloc, row)?)
        }
    }
}

fn type_of<'a>(alloc: Global, work: &mut Vec<Work<'a>>, read: &'a TypeExpr) -> Printed {
    let at = read.place;
    match &read.node {
        TypeNode::Var(name) => leaf(work, Work::Name(*name), at),
        TypeNode::Apply(row, name, place) => {
            let head = [Work::Name(*name), Work::Place(at), Work::Place(*place)];
            list(work, &head, &types(alloc, row)?)
        }
        TypeNode::Tuple(row) => form(work, "*", at, &types(alloc, row)?),
        TypeNode::Arrow(a, b) => form(work, "->", at, &[Work::Type(a), Work::Type(b)]),
    }
}

fn pred<'a>(work: &mut Vec<Work<'a>>, read: &'a PredExpr) -> Printed {
    let at = read.place;
    match &read.node {
        PredNode::Flag(value) => leaf(work, Work::Text(flag(*value)), at),
        PredNode::Whole(value) => leaf(work, Work::Whole(*value), at),
        PredNode::Use(name) => leaf(work, Work::Name(*name), at),
        PredNode::Placeholder(name) => {
            leaf(work, Work::Name(*name), at)?;
            work.push(Work::Text("?"))?;
            Ok(())
        }
        PredNode::Apply(name, a) => {
            list(
                work,
                &[Work::Name(*name), Work::Place(at)],
                &[Work::Pred(a)],
            )
        }
        PredNode::Qualified(module, name, a) => {
            let head = [
                Work::Name(*module),
                Work::Text("."),
                Work::Name(*name),
                Work::Place(at),
            ];
            list(work, &head, &[Work::Pred(a)])
        }
        PredNode::Arith(o, a, b) => {
            form(work, arith_sign(*o), at, &[Work::Pred(a), Work::Pred(b)])
        }
        PredNode::Compare(o, a, b) => {
            form(work, compare_sign(*o), at, &[Work::Pred(a), Work::Pred(b)])
        }
        PredNode::Neg(a) => form(work, "neg", at, &[Work::Pred(a)]),
        PredNode::Not(a) => form(work, "not", at, &[Work::Pred(a)]),
        PredNode::And(a, b) => form(work, "&&", at, &[Work::Pred(a), Work::Pred(b)]),
        PredNode::Or(a, b) => form(work, "||", at, &[Work::Pred(a), Work::Pred(b)]),
        PredNode::Iff(a, b) => form(work, "<=>", at, &[Work::Pred(a), Work::Pred(b)]),
    }
}

fn definition<'a>(
    alloc: Global,
    work: &mut Vec<Work<'a>>,
    at: Place,
    definition: &'a TypeDefinition,
) -> Printed {
    let mut parts = Vec::new(alloc);
    for parameter in &definition.parameters {
        parts.push(Work::Name(parameter.name))?;
        parts.push(Work::Place(parameter.place))?;
    }
    parts.push(Work::Name(definition.name))?;
    parts.push(Work::Place(definition.place))?;
    for constructor in &definition.constructors {
        parts.push(Work::Constructor(constructor))?;
    }
    form(work, "type", at, &parts)
}

fn item<'a>(alloc: Global, work: &mut Vec<Work<'a>>, item: &'a Item<Name>) -> Printed {
    match &item.node {
        ItemNode::Type(d) => definition(alloc, work, item.place, d),
        ItemNode::Let(p, e) => { form(work, "let", item.place, &[Work::Pattern(p), Work::Tree(e)]) }
        ItemNode::LetRec(f, r) => {
            let parts = [Work::Name(*f), Work::Function(r)];
            form(work, "let rec", item.place, &parts)
        }
    }
}

fn qualifier<'a>(work: &mut Vec<Work<'a>>, q: &'a Qualifier) -> Printed {
    let parts = [
        Work::Name(q.name),
        Work::Name(q.value),
        Work::Name(q.shape),
        Work::Place(q.shape_place),
        Work::Pred(&q.predicate),
    ];
    form(work, "qualif", q.place, &parts)
}

fn measure<'a>(alloc: Global, work: &mut Vec<Work<'a>>, measure: &'a Measure) -> Printed {
    let mut parts = Vec::new(alloc);
    parts.push(Work::Name(measure.name))?;
    parts.push(Work::Name(measure.datatype))?;
    parts.push(Work::Place(measure.datatype_place))?;
    for equation in &measure.equations {
        parts.push(Work::Equation(equation))?;
    }
    form(work, "measure", measure.place, &parts)
}

fn constructor<'a>(alloc: Global, work: &mut Vec<Work<'a>>, c: &'a Constructor) -> Printed {
    let head = [Work::Name(c.name), Work::Place(c.place)];
    list(work, &head, &types(alloc, &c.fields)?)
}

// Prints these, one behind the other.
pub(crate) fn print<'a>(
    alloc: Global,
    names: &NameTable,
    mut work: Vec<Work<'a>>,
) -> Result<String, AllocError> {
    let mut text = String::new(alloc);
    for _ in 0..u64::MAX {
        let Some(next) = work.pop() else {
            break;
        };
        match next {
            Work::Text(part) => text.push_str(part)?,
            Work::Name(name) => {
                if name.0 < names.len() {
                    text.push_str(names.text(name))?;
                }
            }
            Work::Place(at) => {
                if at.line != 1 {
                    text.push_str(&format!(in alloc; "@{}:{}", at.line, at.column)?)?;
                } else {
                    text.push_str(&format!(in alloc; "@{}", at.column)?)?;
                }
            }
            Work::Whole(value) => text.push_str(&format!(in alloc; "{value}")?)?,
            Work::Tree(e) => tree(alloc, &mut work, e)?,
            Work::Function(f) => {
                let parts = [Work::Pattern(&f.parameter), Work::Tree(&f.body)];
                form(&mut work, "fun", f.place, &parts)?;
            }
            Work::Pattern(p) => pattern(alloc, &mut work, p)?,
            Work::Type(t) => type_of(alloc, &mut work, t)?,
            Work::Pred(e) => pred(&mut work, e)?,
            Work::Constructor(c) => constructor(alloc, &mut work, c)?,
            Work::Item(i) => item(alloc, &mut work, i)?,
            Work::Qualifier(q) => qualifier(&mut work, q)?,
            Work::Equation(e) => {
                let parts = [Work::Pattern(&e.pattern), Work::Pred(&e.term)];
                list(&mut work, &[Work::Text("case")], &parts)?;
            }
            Work::Measure(m) => measure(alloc, &mut work, m)?,
        }
    }
    Ok(text)
}
