// Normal trees as text. A block of its own stands in braces, and a pure expression with an operator in parentheses.
use crate::normal::names::{Names, text_of};
use lq_base_names::{Binder, CompareOp, Name, Place};
use lq_meaning_normal_tree::{
    Atom, AtomNode, Binding, Block, Bound, Branch, Definition, DefinitionNode, Local, Operation,
    OperationNode, Quotient, RingOp,
};
use lq_text_tree::{Pat, PatNode, Pats};
use std::alloc::{AllocError, Global};

type Put = Result<(), AllocError>;

#[derive(Drop)]
pub(crate) struct Printer<'a> {
    pub(crate) alloc: Global,
    pub(crate) names: Names<'a>,
    // whether places are printed
    pub(crate) places: bool,
    pub(crate) out: String,
}

fn ring_text(op: RingOp) -> &'static str {
    match op {
        RingOp::Add => " + ",
        RingOp::Sub => " - ",
        RingOp::Mul => " * ",
    }
}

fn compare_text(op: CompareOp) -> &'static str {
    match op {
        CompareOp::Eq => " = ",
        CompareOp::Ne => " <> ",
        CompareOp::Lt => " < ",
        CompareOp::Le => " <= ",
        CompareOp::Gt => " > ",
        CompareOp::Ge => " >= ",
    }
}

// What stands between the two parts of a pure expression, or before its one part.
fn operator_text(node: &AtomNode) -> &'static str {
    match node {
        AtomNode::Ring(op, _, _) => ring_text(*op),
        AtomNode::Compare(op, _, _) => compare_text(*op),
        AtomNode::And(_, _) => " && ",
        AtomNode::Or(_, _) => " || ",
        AtomNode::Neg(_) => "- ",
        AtomNode::Not(_) => "not ",
        AtomNode::Length(_) => "Array.length ",
        _ => "",
    }
}

// What stands before the operands of an operation.
fn word_of(node: &OperationNode) -> &'static str {
    match node {
        OperationNode::Assert(_) => "assert ",
        OperationNode::AssertFalse => "assert false",
        OperationNode::Make(_, _) => "Array.make ",
        OperationNode::Print(_) => "print_int ",
        OperationNode::Read(_) => "read_int ",
        OperationNode::MapEmpty => "Map.empty",
        OperationNode::MapAdd(_, _, _) => "Map.add ",
        OperationNode::MapFind(_, _) => "Map.find ",
        _ => "",
    }
}

fn quotient_text(quotient: Quotient) -> &'static str {
    match quotient {
        Quotient::Div => " / ",
        Quotient::Mod => " mod ",
    }
}

fn flag_text(flag: bool) -> &'static str {
    if flag { "true" } else { "false" }
}

impl<'a> Printer<'a> {
    fn put(&mut self, text: &str) -> Put {
        self.out.push_str(text)
    }

    fn place(&mut self, place: Place) -> Put {
        if !self.places {
            return Ok(());
        }
        let line = place.line;
        let column = place.column;
        let text = format!(in self.alloc; "<{line}:{column}>")?;
        self.put(text.as_str())
    }

    fn binder(&mut self, binder: Binder) -> Put {
        let text = self.names.binder_text(self.alloc, binder)?;
        self.put(text.as_str())
    }

    fn name(&mut self, name: Name) -> Put {
        let text = text_of(self.names.table, name);
        self.out.push_str(text)
    }

    fn whole(&mut self, number: i128) -> Put {
        let text = format!(in self.alloc; "{number}")?;
        self.put(text.as_str())
    }

    #[cycle(atom)]
    fn atom(&mut self, atom: &Atom) -> Put {
        self.place(atom.place)?;
        self.atom_node(&atom.node)
    }

    #[cycle(atom)]
    fn atom_node(&mut self, node: &AtomNode) -> Put {
        match node {
            AtomNode::Whole(number) => self.whole(*number),
            AtomNode::Flag(flag) => self.put(flag_text(*flag)),
            AtomNode::Unit => self.put("()"),
            AtomNode::Use(binder) => self.binder(*binder),
            AtomNode::Neg(part) | AtomNode::Not(part) | AtomNode::Length(part) => {
                self.put("(")?;
                self.put(operator_text(node))?;
                self.atom(part)?;
                self.put(")")
            }
            AtomNode::Ring(_, first, second)
            | AtomNode::Compare(_, first, second)
            | AtomNode::And(first, second)
            | AtomNode::Or(first, second) => {
                self.put("(")?;
                self.atom(first)?;
                self.put(operator_text(node))?;
                self.atom(second)?;
                self.put(")")
            }
        }
    }

    fn two(&mut self, first: &Atom, between: &str, second: &Atom) -> Put {
        self.atom(first)?;
        self.put(between)?;
        self.atom(second)
    }

    fn three(
        &mut self,
        first: &Atom,
        between: &str,
        second: &Atom,
        then: &str,
        third: &Atom,
    ) -> Put {
        self.two(first, between, second)?;
        self.put(then)?;
        self.atom(third)
    }

    // Operands in parentheses, with commas.
    fn row(&mut self, atoms: &[Atom]) -> Put {
        let mut before = "(";
        for atom in atoms {
            self.put(before)?;
            self.atom(atom)?;
            before = ", ";
        }
        self.put(")")
    }

    #[cycle(pattern)]
    fn pattern(&mut self, pattern: &Pat<Binder>) -> Put {
        match &pattern.node {
            PatNode::Any => self.put("_"),
            PatNode::Unit => self.put("()"),
            PatNode::Bind(binder) => self.binder(*binder),
            PatNode::Tuple(row) => self.patterns(row),
            PatNode::Build(name, _place, row) => {
                self.name(*name)?;
                if row.len() == 0 {
                    return Ok(());
                }
                self.put(" ")?;
                self.patterns(row)
            }
        }
    }

    #[cycle(pattern)]
    fn patterns(&mut self, row: &Pats<Binder>) -> Put {
        self.put("(")?;
        for at in 0..row.len() {
            if let Some(pattern) = row.get(at) {
                if at > 0 {
                    self.put(", ")?;
                }
                self.pattern(pattern)?;
            }
        }
        self.put(")")
    }

    fn equation(&mut self, before: &str, binder: Binder) -> Put {
        self.put(before)?;
        self.binder(binder)?;
        self.put(" = ")
    }

    fn function(&mut self, parameter: Local) -> Put {
        self.put("fun ")?;
        self.binder(parameter.binder)?;
        self.put(" -> ")
    }

    // An operation without blocks of its own.
    fn simple(&mut self, node: &OperationNode) -> Put {
        self.put(word_of(node))?;
        match node {
            OperationNode::Pure(node) => self.atom_node(node),
            OperationNode::Tuple(atoms) => self.row(atoms),
            OperationNode::Build(name, _held, atoms) => {
                self.name(*name)?;
                if atoms.is_empty() {
                    return Ok(());
                }
                self.put(" ")?;
                self.row(atoms)
            }
            OperationNode::Divide(quotient, first, second) => {
                self.two(first, quotient_text(*quotient), second)
            }
            OperationNode::Call(first, second)
            | OperationNode::Make(first, second)
            | OperationNode::MapFind(first, second) => self.two(first, " ", second),
            OperationNode::Fetch(first, second) => {
                self.two(first, ".(", second)?;
                self.put(")")
            }
            OperationNode::Store(first, second, third) => {
                self.three(first, ".(", second, ") <- ", third)
            }
            OperationNode::MapAdd(first, second, third) => {
                self.three(first, " ", second, " ", third)
            }
            OperationNode::Assert(part) | OperationNode::Print(part) | OperationNode::Read(part) =>
                self.atom(part),
            _ => Ok(()),
        }
    }

    #[cycle(block)]
    fn block(&mut self, block: &Block) -> Put {
        self.put("{")?;
        for binding in &block.bindings {
            self.binding(binding)?;
        }
        self.operation(&block.last)?;
        self.put("}")
    }

    #[cycle(block)]
    fn binding(&mut self, binding: &Binding) -> Put {
        self.place(binding.place)?;
        match &binding.bound {
            Bound::Value(local, operation) => {
                self.equation("let ", local.binder)?;
                self.operation(operation)?;
            }
            Bound::Function(binder, function) => {
                self.equation("let rec ", *binder)?;
                self.place(function.place)?;
                self.function(function.parameter)?;
                self.block(&function.body)?;
            }
        }
        self.put(" in ")
    }

    #[cycle(block)]
    fn branches(&mut self, branches: &[Branch]) -> Put {
        for branch in branches {
            self.put(" | ")?;
            self.pattern(&branch.pattern)?;
            self.put(" -> ")?;
            self.block(&branch.body)?;
        }
        Ok(())
    }

    #[cycle(block)]
    fn operation(&mut self, operation: &Operation) -> Put {
        self.place(operation.place)?;
        match &operation.node {
            OperationNode::Fun(parameter, body) => {
                self.function(*parameter)?;
                self.block(body)
            }
            OperationNode::If(condition, then, otherwise) => {
                self.put("if ")?;
                self.atom(condition)?;
                self.put(" then ")?;
                self.block(then)?;
                self.put(" else ")?;
                self.block(otherwise)
            }
            OperationNode::Match(_id, local, branches) => {
                self.put("match ")?;
                self.place(local.place)?;
                self.binder(local.binder)?;
                self.put(" with")?;
                self.branches(branches)
            }
            node => self.simple(node),
        }
    }

    /// A definition; its block stands without braces.
    pub(crate) fn definition(&mut self, definition: &Definition) -> Put {
        match &definition.node {
            DefinitionNode::Value(pattern, block) => {
                self.put("let ")?;
                self.pattern(pattern)?;
                self.put(" = ")?;
                for binding in &block.bindings {
                    self.binding(binding)?;
                }
                self.operation(&block.last)
            }
            DefinitionNode::Function(binder, function) => {
                self.equation("let rec ", *binder)?;
                self.place(function.place)?;
                self.function(function.parameter)?;
                self.block(&function.body)
            }
        }
    }
}
