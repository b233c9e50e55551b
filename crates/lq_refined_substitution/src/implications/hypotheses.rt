// The hypotheses of an implication, from the last to the first.
ghost use Rattle.std.specs.Prelude.{◌<◌, length};
ghost use Rattle.lq_refined_substitution.specs.Environments.Whole.{environments_of};

use crate::implications::list::Implications;
use crate::substitution::Part;

/// What is left of the hypotheses of an implication: those of its environment, and behind them those of its left type. Nothing is copied.
#[derive(Drop)]
pub struct Hypotheses<'a> {
    pub(crate) all: &'a Implications,
    pub(crate) env: u64,
    pub(crate) left: &'a [Part],
    ghost there: { env < length (environments_of all.now.environments) },
}

impl<'a> Hypotheses<'a> {
    ghost use Rattle.std.specs.Prelude.{◌≡◌, [], ◌∷◌, ◌++◌, length, MatchOption};
    ghost use Rattle.lq_refined_substitution.specs.Substitution.Views.{part_view};
    ghost use Rattle.lq_refined_substitution.specs.Implications.Views.{hypotheses_left};

    /// Takes the last hypothesis that is left, and gives None where there is none.
    pub fn take_last(&mut self) -> Option<&'a Part>
        ensures { MatchOption result (hypotheses_left self.old ≡ [])
            (λ part. hypotheses_left self.old ≡ hypotheses_left self.new ++ part_view part.now ∷ []) }
    {
        match self.left.split_last() {
            Some((last, before)) => {
                self.left = before;
                Some(last)
            }
            None => self.take_outer(),
        }
    }

    // The same where none of the left type's is left.
    fn take_outer(&mut self) -> Option<&'a Part>
        requires { length self.old.left.now ≡ 0 }
        ensures { MatchOption result (hypotheses_left self.old ≡ [])
            (λ part. hypotheses_left self.old ≡ hypotheses_left self.new ++ part_view part.now ∷ []) }
    {
        let last = self.all.environments.last(self.env)?;
        self.env = last.parent;
        Some(&self.all.parts[last.part as usize])
    }
}
