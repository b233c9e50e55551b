// What a line of a table asks for, in order.
ghost use Rattle.std.specs.Prelude.{◌<◌, length, IfOk, IfSome, IsTrue};
ghost use Rattle.lq_prover_congruence.specs.Classes.Chains.{AllNamed, IsName};
ghost use Rattle.lq_prover_congruence.specs.Classes.Core.{AllBelow};
ghost use Rattle.lq_prover_congruence.specs.Classes.Steps.{IsNamed, IsSame, terms_of};

use lq_base_names::Name;
use lq_logic_predicates::{Mark, Symbol};
use lq_prover_congruence::classes::{Classes, Head, Ids, Pair};
use std::alloc::{AllocError, Global};

// Classes and the marks that were made.
#[derive(Drop)]
struct Work {
    alloc: Global,
    classes: Classes,
    marks: Vec<u64>,
}

// The number of a term that stands.
fn term_of(word: &str, classes: &Classes) -> Option<u64>
    ensures { IfSome result (λ term. term < length (terms_of classes.now)) }
{
    let term = word.parse::<u64>().ok()?;
    if term < classes.len() {
        Some(term)
    } else {
        None
    }
}

// Two terms that stand.
fn pair_of(words: &str, classes: &Classes) -> Option<Pair>
    ensures left { IfSome result (λ p. p.left < length (terms_of classes.now)) }
    ensures right { IfSome result (λ p. p.right < length (terms_of classes.now)) }
{
    let (left, right) = words.split_once(' ')?;
    let left = term_of(left, classes)?;
    let right = term_of(right, classes)?;
    Some(Pair { left, right })
}

// Terms that stand, as arguments.
fn args_of(alloc: Global, words: &str, classes: &Classes) -> Result<Option<Ids>, AllocError>
    ensures { IfOk result (λ found. IfSome found (λ args. AllBelow (length (terms_of classes.now)) args)) }
{
    let mut args = Ids::new(alloc)?;
    for word in words.split_whitespace() {
        let Some(term) = term_of(word, classes) else {
            return Ok(None);
        };
        args.push(term)?;
    }
    Ok(Some(args))
}

fn number_of(alloc: Global, number: u64) -> Result<Option<String>, AllocError> {
    Ok(Some(format!(in alloc; "{number}")?))
}

impl Work {
    // Adds a name.
    fn name(&mut self, rest: &str) -> Result<Option<String>, AllocError> {
        let Some(number) = rest.parse::<u32>().ok() else {
            return Ok(None);
        };
        let none = Ids::new(self.alloc)?;
        let term = self
            .classes
            .add_term(Head::Symbol(Symbol::Position(number)), &none)?;
        number_of(self.alloc, term)
    }

    // Adds an application.
    fn apply(&mut self, head: Head, rest: &str) -> Result<Option<String>, AllocError>
        requires { IsNamed head → ⊥ }
    {
        let Some(args) = args_of(self.alloc, rest, &self.classes)? else {
            return Ok(None);
        };
        let term = self.classes.add_term(head, &args)?;
        number_of(self.alloc, term)
    }

    // Adds the measure of the number that comes first.
    fn measure(&mut self, rest: &str) -> Result<Option<String>, AllocError> {
        let (number, rest) = rest.split_once(' ').unwrap_or((rest, ""));
        let Some(number) = number.parse::<u32>().ok() else {
            return Ok(None);
        };
        self.apply(Head::Measure(Name(number)), rest)
    }

    // Makes two terms the same, for the reason of the third number.
    fn merge(&mut self, rest: &str) -> Result<Option<String>, AllocError> {
        let (terms, reason) = rest.rsplit_once(' ').unwrap_or((rest, ""));
        let Some(reason) = reason.parse::<u64>().ok() else {
            return Ok(None);
        };
        let Some(pair) = pair_of(terms, &self.classes) else {
            return Ok(None);
        };
        self.classes.merge(pair.left, pair.right, reason)?;
        Ok(Some(String::new(self.alloc)))
    }

    fn differ(&mut self, rest: &str) -> Result<Option<String>, AllocError> {
        let Some(pair) = pair_of(rest, &self.classes) else {
            return Ok(None);
        };
        self.classes.differ(pair.left, pair.right)?;
        Ok(Some(String::new(self.alloc)))
    }

    fn same(&self, rest: &str) -> Result<Option<String>, AllocError> {
        let Some(pair) = pair_of(rest, &self.classes) else {
            return Ok(None);
        };
        let answer = if self.classes.same(pair.left, pair.right) {
            "yes"
        } else {
            "no"
        };
        Ok(Some(String::from_str(self.alloc, answer)?))
    }

    fn conflict(&self) -> Result<Option<String>, AllocError> {
        match self.classes.conflict() {
            None => Ok(Some(String::from_str(self.alloc, "none")?)),
            Some(Pair { left, right }) => Ok(Some(format!(in self.alloc; "{left} {right}")?)),
        }
    }

    // The implied pairs, with `,` between them.
    fn implied(&self) -> Result<Option<String>, AllocError> {
        let mut pairs = String::new(self.alloc);
        for Pair { left, right } in self.classes.implied() {
            if !pairs.is_empty() {
                pairs.push_str(", ")?;
            }
            let pair = format!(in self.alloc; "{left} {right}")?;
            pairs.push_str(&pair)?;
        }
        if pairs.is_empty() {
            pairs.push_str("none")?;
        }
        Ok(Some(pairs))
    }

    // Whether the reasons why two terms are the same may be asked for.
    fn may_ask(&self, pair: Pair) -> bool
        requires left { pair.left < length (terms_of self.now.classes) }
        requires right { pair.right < length (terms_of self.now.classes) }
        ensures merges { IsTrue result → AllNamed self.now.classes }
        ensures left { IsTrue result → IsName self.now.classes pair.left }
        ensures right { IsTrue result → IsName self.now.classes pair.right }
        ensures same { IsTrue result → IsSame self.now.classes pair.left pair.right }
    {
        if !self.classes.merges_names() {
            return false;
        }
        if !self.classes.is_name(pair.left) {
            return false;
        }
        if !self.classes.is_name(pair.right) {
            return false;
        }
        self.classes.same(pair.left, pair.right)
    }

    // The reasons of a chain of merges.
    fn why(&self, rest: &str) -> Result<Option<String>, AllocError> {
        let Some(pair) = pair_of(rest, &self.classes) else {
            return Ok(None);
        };
        if !self.may_ask(pair) {
            return Ok(Some(String::from_str(self.alloc, "not asked")?));
        }
        let reasons = self.classes.why(self.alloc, pair.left, pair.right)?;
        let mut chain = String::new(self.alloc);
        for at in 0..reasons.len() {
            if let Some(reason) = reasons.get(at) {
                let reason = format!(in self.alloc; " {reason}")?;
                chain.push_str(&reason)?;
            }
        }
        if chain.is_empty() {
            chain.push_str("no reason")?;
        }
        Ok(Some(String::from_str(self.alloc, chain.trim())?))
    }

    // Applications for which another one stands, behind that one, with `,` between the pairs.
    fn representatives(&self) -> Result<Option<String>, AllocError> {
        let found = self.classes.representatives(self.alloc)?;
        let mut pairs = String::new(self.alloc);
        for at in 0..found.len() {
            if let Some(Pair { left, right }) = found.get(at) {
                if !pairs.is_empty() {
                    pairs.push_str(", ")?;
                }
                let pair = format!(in self.alloc; "{left} {right}")?;
                pairs.push_str(&pair)?;
            }
        }
        if pairs.is_empty() {
            pairs.push_str("none")?;
        }
        Ok(Some(pairs))
    }

    fn mark(&mut self) -> Result<Option<String>, AllocError> {
        let Mark(steps) = self.classes.mark();
        self.marks.push(steps)?;
        Ok(Some(String::new(self.alloc)))
    }

    // Back to the last mark, which is then used up.
    fn back(&mut self) -> Result<Option<String>, AllocError> {
        let Some(steps) = self.marks.pop() else {
            return Ok(None);
        };
        let Mark(stand) = self.classes.mark();
        if steps > stand {
            return Ok(None);
        }
        self.classes.back_to(Mark(steps));
        Ok(Some(String::new(self.alloc)))
    }

    fn steps(&self) -> Result<Option<String>, AllocError> {
        let Mark(steps) = self.classes.mark();
        number_of(self.alloc, steps)
    }

    // What one command answers. None where it is no command.
    fn run(&mut self, command: &str) -> Result<Option<String>, AllocError> {
        let (word, rest) = command.split_once(' ').unwrap_or((command, ""));
        match word {
            "name" => self.name(rest),
            "length" => self.apply(Head::Length, rest),
            "measure" => self.measure(rest),
            "merge" => self.merge(rest),
            "differ" => self.differ(rest),
            "same" => self.same(rest),
            "conflict" => self.conflict(),
            "implied" => self.implied(),
            "representatives" => self.representatives(),
            "why" => self.why(rest),
            "mark" => self.mark(),
            "back" => self.back(),
            "steps" => self.steps(),
            _ => Ok(None),
        }
    }
}

/// What the commands of a line answer, with `;` between the answers.
pub(crate) fn answer(alloc: Global, line: &str) -> Result<String, AllocError> {
    let mut work = Work {
        alloc,
        classes: Classes::new(alloc)?,
        marks: Vec::new(alloc),
    };
    let mut answers = String::new(alloc);
    for command in line.split(';') {
        let Some(answered) = work.run(command.trim())? else {
            return format!(in alloc; "no command: {command}");
        };
        if answered.is_empty() {
            continue;
        }
        if !answers.is_empty() {
            answers.push_str("; ")?;
        }
        answers.push_str(&answered)?;
    }
    Ok(answers)
}
