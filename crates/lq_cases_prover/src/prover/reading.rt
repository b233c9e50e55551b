// Implications as a case writes them: each operator behind its arguments, the hypotheses in order and the goal last.
use crate::prover::error::{CaseError, given};
use lq_cases_kit::Stacks;
use lq_logic_predicates::{Closed, Pred, Preds};
use std::alloc::{AllocError, Global};
use std::fmt::Write;

// A text as it is read.
#[derive(Drop)]
struct Reader {
    alloc: Global,
    stacks: Stacks,
}

impl Reader {
    fn take_words(&mut self, text: &str) -> Result<(), CaseError> {
        for word in text.split_whitespace() {
            self.stacks.take(word)?;
        }
        Ok(())
    }

    // How often, and the words of a round.
    fn take_rounds(&mut self, text: &str) -> Result<(), CaseError> {
        let (count, words) = given(text.split_once(' '))?;
        for round in 0..given(count.parse::<u32>().ok())? {
            for word in words.split_whitespace() {
                let word = word_in_round(self.alloc, word, round)?;
                self.stacks.take(word.as_str())?;
            }
        }
        Ok(())
    }

    // A text in which rounds stand between `repeat` and `end`.
    fn take_text(&mut self, text: &str) -> Result<(), CaseError> {
        for (at, piece) in text.split("repeat ").enumerate() {
            if at == 0 {
                self.take_words(piece)?;
            } else {
                let (rounds, rest) = given(piece.split_once(" end"))?;
                self.take_rounds(rounds)?;
                self.take_words(rest)?;
            }
        }
        Ok(())
    }
}

// A word with the number of the round in place of `@`, and the number behind it in place of `@+`.
fn word_in_round(alloc: Global, word: &str, round: u32) -> Result<String, AllocError> {
    let mut out = String::new(alloc);
    match word.split_once('@') {
        None => out.push_str(word)?,
        Some((front, "+")) => {
            let next = round.saturating_add(1);
            write!(out, "{front}{next}")?;
        }
        Some((front, back)) => write!(out, "{front}{round}{back}")?,
    }
    Ok(out)
}

// The predicates of a text but the last one, and that one.
fn preds_of(alloc: Global, text: &str) -> Result<(Vec<Pred>, Pred), CaseError> {
    let mut reader = Reader {
        alloc,
        stacks: Stacks::new(alloc),
    };
    reader.take_text(text)?;
    let mut stacks = reader.stacks;
    if !stacks.terms.is_empty() {
        return Err(CaseError::NotACase);
    }
    let last = stacks.pred()?;
    Ok((stacks.preds, last))
}

/// The implication of a text.
pub(crate) fn implication_of(alloc: Global, text: &str) -> Result<Closed, CaseError> {
    let (preds, goal) = preds_of(alloc, text)?;
    let mut hypotheses = Preds::new(alloc)?;
    for pred in preds {
        hypotheses.push(pred)?;
    }
    Ok(Closed { hypotheses, goal })
}

/// The implication of a text that has so many hypotheses, and several goals behind them: all but the last one are hypotheses too, negated as
/// they are asked.
pub(crate) fn goals_of(alloc: Global, text: &str, count: usize) -> Result<Closed, CaseError> {
    let (preds, goal) = preds_of(alloc, text)?;
    let mut hypotheses = Preds::new(alloc)?;
    for (at, pred) in preds.into_iter().enumerate() {
        if at < count {
            hypotheses.push(pred)?;
        } else {
            hypotheses.push(Pred::Not(Box::new(alloc, pred)?))?;
        }
    }
    Ok(Closed { hypotheses, goal })
}
