// Terms and predicates as cases write them: each operator behind its arguments.
use crate::error::WordError;
use lq_base_names::{Binder, Name};
use lq_logic_predicates::{CompareOp, Pred, Symbol, Term};
use std::alloc::Global;

/// Terms and predicates that were read and aren't part of anything yet.
#[derive(Drop)]
pub struct Stacks {
    pub alloc: Global,
    pub terms: Vec<Term>,
    pub preds: Vec<Pred>,
}

// The name of a variable: `value`, `v3` or `#2`.
fn symbol(word: &str) -> Option<Symbol> {
    if word == "value" {
        return Some(Symbol::Value);
    }
    if let Some(number) = word.strip_prefix('v') {
        return Some(Symbol::Bound(Binder(number.parse::<u32>().ok()?)));
    }
    let number = word.strip_prefix('#')?;
    Some(Symbol::Position(number.parse::<u32>().ok()?))
}

fn comparison(word: &str) -> Option<CompareOp> {
    match word {
        "=" => Some(CompareOp::Eq),
        "<>" => Some(CompareOp::Ne),
        "<" => Some(CompareOp::Lt),
        "<=" => Some(CompareOp::Le),
        ">" => Some(CompareOp::Gt),
        ">=" => Some(CompareOp::Ge),
        _ => None,
    }
}

// The name of a measure: `m7`.
fn measure(word: &str) -> Option<Name> {
    Some(Name(word.strip_prefix('m')?.parse::<u32>().ok()?))
}

impl Stacks {
    ghost use Rattle.std.specs.Prelude.{OnErr};
    ghost use Rattle.lq_cases_kit.specs.Left.{IsLeft};

    pub fn new(alloc: Global) -> Stacks {
        Stacks {
            alloc,
            terms: Vec::new(alloc),
            preds: Vec::new(alloc),
        }
    }

    /// The term that was read last.
    #[tactic(auto, using(crate::specs::Left::leaving))]
    pub fn term(&mut self) -> Result<Term, WordError>
        ensures left { IsLeft self.old self.new }
    {
        self.terms.pop().ok_or(WordError::Misplaced)
    }

    /// The predicate that was read last.
    #[tactic(auto, using(crate::specs::Left::leaving))]
    pub fn pred(&mut self) -> Result<Pred, WordError>
        ensures left { IsLeft self.old self.new }
    {
        self.preds.pop().ok_or(WordError::Misplaced)
    }

    /// The name that was read last.
    #[tactic(auto, using(crate::specs::Left::leaving))]
    pub fn name(&mut self) -> Result<Symbol, WordError>
        ensures left { IsLeft self.old self.new }
    {
        match self.term()? {
            Term::Var(symbol) => Ok(symbol),
            _ => Err(WordError::Misplaced),
        }
    }

    #[tactic(auto, using(crate::specs::Left::leaving))]
    fn boxed_term(&mut self) -> Result<Box<Term>, WordError>
        ensures left { IsLeft self.old self.new }
    {
        let term = self.term()?;
        Ok(Box::new(self.alloc, term)?)
    }

    #[tactic(auto, using(crate::specs::Left::leaving))]
    fn boxed_pred(&mut self) -> Result<Box<Pred>, WordError>
        ensures left { IsLeft self.old self.new }
    {
        let pred = self.pred()?;
        Ok(Box::new(self.alloc, pred)?)
    }

    // The term of an operator on the terms that were read last.
    #[tactic(auto, using(crate::specs::Left::leaving))]
    fn applied(&mut self, word: &str) -> Result<Term, WordError>
        ensures left { IsLeft self.old self.new }
    {
        if word == "neg" {
            return Ok(Term::Neg(self.boxed_term()?));
        }
        if word == "length" {
            return Ok(Term::Length(self.boxed_term()?));
        }
        if let Some(name) = measure(word) {
            return Ok(Term::Measure(name, self.boxed_term()?));
        }
        let right = self.boxed_term()?;
        let left = self.boxed_term()?;
        match word {
            "+" => Ok(Term::Add(left, right)),
            "-" => Ok(Term::Sub(left, right)),
            "*" => Ok(Term::Mul(left, right)),
            "/" => Ok(Term::Div(left, right)),
            "%" => Ok(Term::Mod(left, right)),
            _ => Err(WordError::Misplaced),
        }
    }

    // The predicate of a word, if the word is one.
    #[tactic(auto, using(crate::specs::Left::leaving))]
    fn asserted(&mut self, word: &str) -> Result<Option<Pred>, WordError>
        ensures left { IsLeft self.old self.new }
    {
        if let Some(op) = comparison(word) {
            let right = self.term()?;
            let left = self.term()?;
            return Ok(Some(Pred::Compare(op, left, right)));
        }
        match word {
            "true" => Ok(Some(Pred::True)),
            "false" => Ok(Some(Pred::False)),
            "flag" => Ok(Some(Pred::Flag(self.name()?))),
            "same" => {
                let right = self.term()?;
                let left = self.term()?;
                Ok(Some(Pred::Same(left, right)))
            }
            "not" => Ok(Some(Pred::Not(self.boxed_pred()?))),
            "and" | "or" | "iff" => Ok(Some(self.connected(word)?)),
            _ => Ok(None),
        }
    }

    #[tactic(auto, using(crate::specs::Left::leaving))]
    fn connected(&mut self, word: &str) -> Result<Pred, WordError>
        ensures left { IsLeft self.old self.new }
    {
        let right = self.boxed_pred()?;
        let left = self.boxed_pred()?;
        match word {
            "and" => Ok(Pred::And(left, right)),
            "or" => Ok(Pred::Or(left, right)),
            _ => Ok(Pred::Iff(left, right)),
        }
    }

    /// Takes a word of a term or of a predicate. Where it is refused, what stood last may be gone.
    #[tactic(auto, using(crate::specs::Left::leaving))]
    pub fn take(&mut self, word: &str) -> Result<(), WordError>
        ensures left { OnErr result (IsLeft self.old self.new) }
    {
        if let Some(pred) = self.asserted(word)? {
            self.preds.push(pred)?;
            return Ok(());
        }
        let term = match symbol(word) {
            Some(symbol) => Term::Var(symbol),
            None => match word.parse::<i128>() {
                Ok(number) => Term::Whole(number),
                Err(_) => self.applied(word)?,
            },
        };
        self.terms.push(term)?;
        Ok(())
    }
}
