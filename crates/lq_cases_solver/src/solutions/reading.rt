// Lists of implications as a case writes them, word by word.
use crate::solutions::error::{CaseError, given};
use crate::solutions::unknowns::{Given, NOWHERE};
use lq_cases_kit::Stacks;
use lq_refined_instances::Instances;
use lq_refined_substitution::implications::{Implication, Implications, Reason};
use lq_refined_substitution::substitution::{Atom, Part, Parts, Subst};
use std::alloc::{AllocError, Global};
use std::fmt::Write;
use std::mem;

/// Implications and the instances of their unknowns.
#[derive(Drop)]
pub(crate) struct Problem {
    pub(crate) implications: Implications,
    pub(crate) instances: Instances,
}

// What was read so far.
#[derive(Drop)]
struct Reader {
    alloc: Global,
    stacks: Stacks,
    /// What is put for names, of an unknown that is still to come.
    puts: Subst,
    /// The parts before the predicates on the stack.
    parts: Vec<Part>,
    env: u64,
    implications: Implications,
    given: Given,
}

// The number behind a letter.
fn numbered(word: &str, letter: char) -> Option<u64> {
    word.strip_prefix(letter)?.parse::<u64>().ok()
}

impl Reader {
    fn new(alloc: Global) -> Result<Reader, CaseError> {
        Ok(Reader {
            alloc,
            stacks: Stacks::new(alloc),
            puts: Subst::new(alloc),
            parts: Vec::new(alloc),
            env: 0,
            implications: Implications::new(alloc)?,
            given: Given::new(alloc)?,
        })
    }

    // Puts the term before it for a name.
    fn put_term(&mut self) -> Result<(), CaseError> {
        let name = self.stacks.name()?;
        let term = self.stacks.term()?;
        self.puts.push(name, Atom::Term(term))?;
        Ok(())
    }

    // Puts the predicate before it for a name.
    fn put_pred(&mut self) -> Result<(), CaseError> {
        let name = self.stacks.name()?;
        let pred = self.stacks.pred()?;
        self.puts.push(name, Atom::Pred(pred))?;
        Ok(())
    }

    // The predicates that were read, which leave the stack.
    fn preds(&mut self) -> Vec<lq_logic_predicates::Pred> {
        mem::replace(&mut self.stacks.preds, Vec::new(self.alloc))
    }

    // The predicates on the stack become parts.
    fn flush(&mut self) -> Result<(), CaseError> {
        for pred in self.preds() {
            self.parts.push(Part::Known(pred))?;
        }
        Ok(())
    }

    fn take_part(&mut self, unknown: u64) -> Result<(), CaseError> {
        self.flush()?;
        let by = mem::replace(&mut self.puts, Subst::new(self.alloc));
        self.parts.push(Part::Unknown(unknown, by))?;
        Ok(())
    }

    // Whether nothing is left over but parts.
    fn is_whole(&self) -> bool {
        self.stacks.terms.is_empty() && self.puts.len() == 0
    }

    // The parts of a statement, which ends.
    fn statement(&mut self) -> Result<Vec<Part>, CaseError> {
        self.flush()?;
        if !self.is_whole() {
            return Err(CaseError::NotACase);
        }
        Ok(mem::replace(&mut self.parts, Vec::new(self.alloc)))
    }

    // The environment of a statement, which ends.
    fn environment(&mut self) -> Result<u64, CaseError> {
        let env = mem::replace(&mut self.env, 0);
        if env < self.implications.env_count() {
            Ok(env)
        } else {
            Err(CaseError::NotACase)
        }
    }

    fn end_unknown(&mut self) -> Result<(), CaseError> {
        if !self.is_whole() || !self.parts.is_empty() {
            return Err(CaseError::NotACase);
        }
        let instances = self.preds();
        self.given.add(&instances)
    }

    fn end_environment(&mut self) -> Result<(), CaseError> {
        let mut parts = self.statement()?;
        let part = given(parts.pop())?;
        if !parts.is_empty() {
            return Err(CaseError::NotACase);
        }
        let parent = self.environment()?;
        if parent < self.implications.env_count() {
            self.implications.add_env(parent, part)?;
        }
        Ok(())
    }

    fn end_implication(&mut self) -> Result<(), CaseError> {
        let mut parts = self.statement()?;
        let goal = given(parts.pop())?;
        let mut left = Parts::new(self.alloc);
        for part in parts {
            left.push(part)?;
        }
        let env = self.environment()?;
        if env < self.implications.env_count() {
            self.implications.push(Implication {
                env,
                left,
                goal,
                place: NOWHERE,
                reason: Reason::Flow,
            })?;
        }
        Ok(())
    }

    fn take(&mut self, word: &str) -> Result<(), CaseError> {
        if let Some(unknown) = numbered(word, 'k') {
            return self.take_part(unknown);
        }
        if let Some(env) = numbered(word, 'e') {
            self.env = env;
            return Ok(());
        }
        match word {
            ":=" => self.put_term(),
            ":<=>" => self.put_pred(),
            "unknown" => self.end_unknown(),
            "env" => self.end_environment(),
            "imply" => self.end_implication(),
            _ => {
                self.stacks.take(word)?;
                Ok(())
            }
        }
    }

    fn take_words(&mut self, text: &str) -> Result<(), CaseError> {
        for word in text.split_whitespace() {
            self.take(word)?;
        }
        Ok(())
    }

    // How often, and the words of a round.
    fn take_rounds(&mut self, text: &str) -> Result<(), CaseError> {
        let (count, words) = given(text.split_once(' '))?;
        for round in 0..given(count.parse::<u32>().ok())? {
            for word in words.split_whitespace() {
                let word = word_in_round(self.alloc, word, round)?;
                self.take(word.as_str())?;
            }
        }
        Ok(())
    }

    // A text in which rounds stand between `repeat` and `end`.
    fn take_text(&mut self, text: &str) -> Result<(), CaseError> {
        for (at, piece) in text.split("repeat ").enumerate() {
            if at == 0 {
                self.take_words(piece)?;
            } else {
                let (rounds, rest) = given(piece.split_once(" end"))?;
                self.take_rounds(rounds)?;
                self.take_words(rest)?;
            }
        }
        Ok(())
    }

    // Whether a statement has no end.
    fn is_open(&self) -> bool {
        !self.is_whole() || !self.parts.is_empty() || !self.stacks.preds.is_empty() || self.env != 0
    }
}

// A word with the number of the round in place of `@`, and the number behind it in place of `@+`.
fn word_in_round(alloc: Global, word: &str, round: u32) -> Result<String, AllocError> {
    let mut out = String::new(alloc);
    match word.split_once('@') {
        None => out.push_str(word)?,
        Some((front, "+")) => {
            let next = round.saturating_add(1);
            write!(out, "{front}{next}")?;
        }
        Some((front, back)) => write!(out, "{front}{round}{back}")?,
    }
    Ok(out)
}

/// The implications of a text, with the instances of their unknowns.
pub(crate) fn problem_of(alloc: Global, text: &str) -> Result<Problem, CaseError> {
    let mut reader = Reader::new(alloc)?;
    reader.take_text(text)?;
    if reader.is_open() {
        return Err(CaseError::NotACase);
    }
    Ok(Problem {
        implications: reader.implications,
        instances: reader.given.instances()?,
    })
}
