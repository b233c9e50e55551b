// Unknowns with given instances: each instance is a qualifier of its own, whose shape its unknown alone has, with a placeholder for each name
// of the unknown's scope, whose shape that name alone has there.
use crate::solutions::error::CaseError;
use lq_base_names::{ArithOp, Name, Place, TextKind};
use lq_logic_predicates::{Pred, Symbol, Term};
use lq_refined_instances::{Instances, Scopes, Unknown, Unknowns, Visible, all_instances};
use lq_text_qualifiers::sorting::{
    ScopedMeasure, ScopedPred, ScopedQualifier, ScopedTerm, Shape, Variable,
};
use std::alloc::{AllocError, Global};

/// A place of no text.
pub(crate) const NOWHERE: Place = Place {
    text: TextKind::Quals,
    line: 1,
    column: 1,
};

/// Unknowns and the qualifiers that have their instances.
#[derive(Drop)]
pub(crate) struct Given {
    alloc: Global,
    qualifiers: Vec<ScopedQualifier>,
    measures: Vec<ScopedMeasure>,
    scopes: Scopes,
    unknowns: Vec<Unknown>,
    /// The scope of the unknown that is read.
    symbols: Vec<Symbol>,
}

// The shape that has this number.
fn shape(number: usize) -> Shape {
    Shape::Data(Name(u32::try_from(number).unwrap_or(u32::MAX)))
}

// The operation of a term on two parts.
fn operated(term: &Term, left: Box<ScopedTerm>, right: Box<ScopedTerm>) -> ScopedTerm {
    let op = match term {
        Term::Sub(_, _) => ArithOp::Sub,
        Term::Mul(_, _) => ArithOp::Mul,
        Term::Div(_, _) => ArithOp::Div,
        Term::Mod(_, _) => ArithOp::Mod,
        _ => ArithOp::Add,
    };
    ScopedTerm::Arith(op, left, right)
}

// A connective between two parts.
fn connected(pred: &Pred, left: Box<ScopedPred>, right: Box<ScopedPred>) -> ScopedPred {
    match pred {
        Pred::Or(_, _) => ScopedPred::Or(left, right),
        Pred::Iff(_, _) => ScopedPred::Iff(left, right),
        _ => ScopedPred::And(left, right),
    }
}

// A scope with these names.
fn scope_of(scopes: &mut Scopes, symbols: &[Symbol]) -> Result<u64, AllocError> {
    let mut last = 0;
    for (at, symbol) in symbols.iter().enumerate() {
        let visible = Visible {
            symbol: *symbol,
            shape: shape(at),
        };
        if last < scopes.len() {
            last = scopes.add(last, visible)?;
        }
    }
    Ok(last)
}

// The name that a term is.
fn name_in(term: &Term) -> Result<Symbol, CaseError> {
    match term {
        Term::Var(symbol) => Ok(*symbol),
        _ => Err(CaseError::NotACase),
    }
}

impl Given {
    pub(crate) fn new(alloc: Global) -> Result<Given, AllocError> {
        Ok(Given {
            alloc,
            qualifiers: Vec::new(alloc),
            measures: Vec::new(alloc),
            scopes: Scopes::new(alloc)?,
            unknowns: Vec::new(alloc),
            symbols: Vec::new(alloc),
        })
    }

    // What a qualifier calls a name.
    fn variable(&mut self, symbol: Symbol) -> Result<Variable, CaseError> {
        if symbol == Symbol::Value {
            return Ok(Variable::Value);
        }
        match self.symbols.iter().position(|other| *other == symbol) {
            Some(at) => Ok(Variable::Placeholder(at)),
            None => {
                let at = self.symbols.len();
                self.symbols.push(symbol)?;
                Ok(Variable::Placeholder(at))
            }
        }
    }

    // The number of a measure.
    fn measure(&mut self, name: Name) -> Result<usize, CaseError> {
        match self
            .measures
            .iter()
            .position(|measure| measure.name == name)
        {
            Some(at) => Ok(at),
            None => {
                let at = self.measures.len();
                let terms = Vec::new(self.alloc);
                self.measures.push(ScopedMeasure {
                    name,
                    datatype: name,
                    terms,
                })?;
                Ok(at)
            }
        }
    }

    #[cycle(term)]
    fn term(&mut self, term: &Term) -> Result<ScopedTerm, CaseError> {
        match term {
            Term::Whole(number) => Ok(ScopedTerm::Whole(*number)),
            Term::Var(symbol) => Ok(ScopedTerm::Var(self.variable(*symbol)?)),
            Term::Neg(part) => Ok(ScopedTerm::Neg(self.boxed_term(part)?)),
            Term::Length(of) => Ok(ScopedTerm::Length(self.variable(name_in(of)?)?)),
            Term::Measure(name, of) => {
                let at = self.measure(*name)?;
                Ok(ScopedTerm::Measure(at, self.variable(name_in(of)?)?))
            }
            Term::Add(a, b)
            | Term::Sub(a, b)
            | Term::Mul(a, b)
            | Term::Div(a, b)
            | Term::Mod(a, b) => {
                let left = self.boxed_term(a)?;
                let right = self.boxed_term(b)?;
                Ok(operated(term, left, right))
            }
        }
    }

    #[cycle(term)]
    fn boxed_term(&mut self, term: &Term) -> Result<Box<ScopedTerm>, CaseError> {
        let made = self.term(term)?;
        Ok(Box::new(self.alloc, made)?)
    }

    #[cycle(pred)]
    fn pred(&mut self, pred: &Pred) -> Result<ScopedPred, CaseError> {
        match pred {
            Pred::True => Ok(ScopedPred::Flag(true)),
            Pred::False => Ok(ScopedPred::Flag(false)),
            Pred::Flag(symbol) => Ok(ScopedPred::Holds(self.variable(*symbol)?)),
            Pred::Compare(op, a, b) => {
                let left = self.term(a)?;
                let right = self.term(b)?;
                Ok(ScopedPred::Compare(*op, left, right))
            }
            Pred::Same(_, _) => Err(CaseError::NotACase),
            Pred::Not(p) => Ok(ScopedPred::Not(self.boxed(p)?)),
            Pred::And(p, q) | Pred::Or(p, q) | Pred::Iff(p, q) => {
                let left = self.boxed(p)?;
                let right = self.boxed(q)?;
                Ok(connected(pred, left, right))
            }
        }
    }

    #[cycle(pred)]
    fn boxed(&mut self, pred: &Pred) -> Result<Box<ScopedPred>, CaseError> {
        let made = self.pred(pred)?;
        Ok(Box::new(self.alloc, made)?)
    }

    // A qualifier for an instance of the unknown of this number.
    fn add_instance(&mut self, unknown: usize, instance: &Pred) -> Result<(), CaseError> {
        let predicate = self.pred(instance)?;
        let mut placeholders = Vec::new(self.alloc);
        for at in 0..self.symbols.len() {
            placeholders.push(shape(at))?;
        }
        self.qualifiers.push(ScopedQualifier {
            name: Name(0),
            place: NOWHERE,
            shape: shape(unknown),
            placeholders,
            predicate,
        })?;
        Ok(())
    }

    /// An unknown more, with these instances.
    pub(crate) fn add(&mut self, instances: &[Pred]) -> Result<(), CaseError> {
        let unknown = self.unknowns.len();
        self.symbols.clear();
        for instance in instances {
            self.add_instance(unknown, instance)?;
        }
        let scope = scope_of(&mut self.scopes, &self.symbols)?;
        self.unknowns.push(Unknown {
            scope,
            shape: shape(unknown),
        })?;
        Ok(())
    }

    /// The instances of the unknowns.
    pub(crate) fn instances(self) -> Result<Instances, CaseError> {
        let unknowns = Unknowns {
            scopes: self.scopes,
            unknowns: self.unknowns,
        };
        Ok(all_instances(self.alloc, &self.qualifiers, &self.measures, &unknowns)?)
    }
}
