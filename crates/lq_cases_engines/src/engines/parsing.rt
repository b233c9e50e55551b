// Terms and predicates as a case writes them: each operator before its arguments. The words are taken from the last to the
// first, so that an operator finds its arguments on the stacks.
use crate::engines::error::{CaseError, given};
use crate::engines::numbers::whole;
use lq_base_names::{Binder, Name};
use lq_logic_predicates::{CompareOp, Pred, Preds, Symbol, Term};
use std::alloc::{AllocError, Global};

/// What was read behind a word.
#[derive(Drop)]
pub(crate) struct Stacks {
    alloc: Global,
    terms: Vec<Term>,
    preds: Vec<Pred>,
}

/// The name of a variable: `value`, `v3` or `#2`.
pub(crate) fn symbol(word: &str) -> Option<Symbol> {
    if word == "value" {
        return Some(Symbol::Value);
    }
    if let Some(number) = word.strip_prefix('v') {
        return Some(Symbol::Bound(Binder(number.parse::<u32>().ok()?)));
    }
    let number = word.strip_prefix('#')?;
    Some(Symbol::Position(number.parse::<u32>().ok()?))
}

fn comparison(word: &str) -> Option<CompareOp> {
    match word {
        "=" => Some(CompareOp::Eq),
        "<>" => Some(CompareOp::Ne),
        "<" => Some(CompareOp::Lt),
        "<=" => Some(CompareOp::Le),
        ">" => Some(CompareOp::Gt),
        ">=" => Some(CompareOp::Ge),
        _ => None,
    }
}

/// What stands for itself, where the term is that alone.
fn variable(term: &Term) -> Option<Symbol> {
    match term {
        Term::Var(symbol) => Some(*symbol),
        _ => None,
    }
}

/// The name of a measure: `m7`.
fn measure(word: &str) -> Option<Name> {
    Some(Name(word.strip_prefix('m')?.parse::<u32>().ok()?))
}

impl Stacks {
    pub(crate) fn new(alloc: Global) -> Stacks {
        Stacks {
            alloc,
            terms: Vec::new(alloc),
            preds: Vec::new(alloc),
        }
    }

    /// The term that was read last.
    pub(crate) fn term(&mut self) -> Result<Term, CaseError> {
        given(self.terms.pop())
    }

    /// The predicate that was read last.
    pub(crate) fn pred(&mut self) -> Result<Pred, CaseError> {
        given(self.preds.pop())
    }

    /// Whether everything was taken.
    pub(crate) fn is_done(&self) -> bool {
        self.terms.is_empty() && self.preds.is_empty()
    }

    /// The predicate, where there is no more.
    pub(crate) fn only_pred(&self) -> Option<&Pred> {
        match self.preds.as_slice() {
            [pred] if self.terms.is_empty() => Some(pred),
            _ => None,
        }
    }

    /// The two terms in the order of the line, where there is no more.
    pub(crate) fn only_terms(&self) -> Option<(&Term, &Term)> {
        match self.terms.as_slice() {
            [second, first] if self.preds.is_empty() => Some((first, second)),
            _ => None,
        }
    }

    /// The predicates, the first one of the line last, where there are no terms beside them.
    pub(crate) fn into_preds(self) -> Result<Vec<Pred>, CaseError> {
        if !self.terms.is_empty() {
            return Err(CaseError::NotACase);
        }
        let Stacks {
            alloc: _,
            terms: _,
            preds,
        } = self;
        Ok(preds)
    }

    fn boxed_term(&mut self) -> Result<Box<Term>, CaseError> {
        let term = self.term()?;
        Ok(Box::new(self.alloc, term)?)
    }

    fn boxed_pred(&mut self) -> Result<Box<Pred>, CaseError> {
        let pred = self.pred()?;
        Ok(Box::new(self.alloc, pred)?)
    }

    fn two_terms(&mut self) -> Result<(Box<Term>, Box<Term>), CaseError> {
        let first = self.boxed_term()?;
        let second = self.boxed_term()?;
        Ok((first, second))
    }

    fn two_preds(&mut self) -> Result<(Box<Pred>, Box<Pred>), CaseError> {
        let first = self.boxed_pred()?;
        let second = self.boxed_pred()?;
        Ok((first, second))
    }

    /// The operation of this name on the terms that were read last, if the word is one.
    fn applied(&mut self, word: &str) -> Result<Option<Term>, CaseError> {
        let two = match word {
            "+" | "-" | "*" | "/" | "%" => self.two_terms()?,
            _ => return self.applied_to_one(word),
        };
        let (a, b) = two;
        match word {
            "+" => Ok(Some(Term::Add(a, b))),
            "-" => Ok(Some(Term::Sub(a, b))),
            "*" => Ok(Some(Term::Mul(a, b))),
            "/" => Ok(Some(Term::Div(a, b))),
            _ => Ok(Some(Term::Mod(a, b))),
        }
    }

    fn applied_to_one(&mut self, word: &str) -> Result<Option<Term>, CaseError> {
        if word == "neg" {
            return Ok(Some(Term::Neg(self.boxed_term()?)));
        }
        if word == "length" {
            return Ok(Some(Term::Length(self.boxed_term()?)));
        }
        match measure(word) {
            Some(name) => Ok(Some(Term::Measure(name, self.boxed_term()?))),
            None => Ok(None),
        }
    }

    /// The predicate of this word, if the word is one.
    fn asserted(&mut self, word: &str) -> Result<Option<Pred>, CaseError> {
        if let Some(op) = comparison(word) {
            let left = self.term()?;
            let right = self.term()?;
            return Ok(Some(Pred::Compare(op, left, right)));
        }
        match word {
            "true" => Ok(Some(Pred::True)),
            "false" => Ok(Some(Pred::False)),
            "flag" => {
                let term = self.term()?;
                Ok(Some(Pred::Flag(given(variable(&term))?)))
            }
            "same" => {
                let left = self.term()?;
                let right = self.term()?;
                Ok(Some(Pred::Same(left, right)))
            }
            "not" => Ok(Some(Pred::Not(self.boxed_pred()?))),
            _ => self.connected(word),
        }
    }

    fn connected(&mut self, word: &str) -> Result<Option<Pred>, CaseError> {
        let two = match word {
            "and" | "or" | "iff" => self.two_preds()?,
            _ => return Ok(None),
        };
        let (p, q) = two;
        match word {
            "and" => Ok(Some(Pred::And(p, q))),
            "or" => Ok(Some(Pred::Or(p, q))),
            _ => Ok(Some(Pred::Iff(p, q))),
        }
    }

    /// Reads a word of a term or a predicate.
    pub(crate) fn take(&mut self, word: &str) -> Result<(), CaseError> {
        if let Some(pred) = self.asserted(word)? {
            self.preds.push(pred)?;
            return Ok(());
        }
        let term = match self.applied(word)? {
            Some(term) => term,
            None => match symbol(word) {
                Some(symbol) => Term::Var(symbol),
                None => Term::Whole(given(whole(word))?),
            },
        };
        self.terms.push(term)?;
        Ok(())
    }

    /// Reads words, the last one first.
    pub(crate) fn take_all(&mut self, words: &[&str]) -> Result<(), CaseError> {
        for word in words.iter().rev() {
            self.take(word)?;
        }
        Ok(())
    }
}

/// The predicates in a row, the last one first.
pub(crate) fn in_order(alloc: Global, mut preds: Vec<Pred>) -> Result<Preds, AllocError> {
    let mut row = Preds::new(alloc)?;
    while let Some(pred) = preds.pop() {
        row.push(pred)?;
    }
    Ok(row)
}
