// What is remembered of the names up to one that is bound.
ghost use Rattle.std.specs.Prelude.{◌≡◌, ℕ, ◌&&◌, ltb};
ghost use Rattle.lq_refined_templates.specs.Points.Seen.{is_before};

use lq_base_names::{Binder, Name};

// The nodes from one on that are before another, or all from one on.
#[derive(Clone, Copy, Debug, PartialEq, Eq)]
pub(crate) struct Span {
    pub(crate) from: u32,
    pub(crate) end: Option<u32>,
}

// The scope of the names up to one, and the nodes where these names are visible in the same way. Where the last one is visible and has
// a text, there are this text and the name of it that was visible before.
#[derive(Clone, Copy, Debug, PartialEq, Eq)]
pub(crate) struct Level {
    pub(crate) scope: u64,
    pub(crate) span: Span,
    pub(crate) text: Option<Name>,
    pub(crate) hides: Option<Binder>,
}

// Whether a node lies before another one, where there is that.
pub(crate) fn is_before(node: u32, until: Option<u32>) -> bool
    ensures { result ≡ is_before node until }
{
    match until {
        Some(until) => node < until,
        None => true,
    }
}

impl Span {
    ghost use Rattle.std.specs.Prelude.{◌↔◌, true};
    ghost use Rattle.lq_generate_reading.specs.Visibility.Spans.{IsIn};

    // Whether a node is one of these.
    pub(crate) fn holds(self, node: u32) -> bool
        ensures { (result ≡ true) ↔ IsIn self node }
    {
        self.from <= node && is_before(node, self.end)
    }

    // Those of these nodes where a name that is visible before a node is visible as it is at this one.
    pub(crate) fn narrowed(self, until: Option<u32>, node: u32) -> Span
        ensures within { (i : ℕ) → IsIn result i → IsIn self i }
        ensures alike { (i : ℕ) → IsIn result i → is_before i until ≡ is_before node until }
        ensures node { IsIn self node → IsIn result node }
    {
        match until {
            None => self,
            Some(until) => {
                if node < until {
                    Span {
                        from: self.from,
                        end: Some(sooner(self.end, until)),
                    }
                } else {
                    Span {
                        from: self.from.max(until),
                        end: self.end,
                    }
                }
            }
        }
    }
}

// The first of two ends.
fn sooner(end: Option<u32>, until: u32) -> u32
    ensures { (i : ℕ) → ltb i result ≡ (is_before i end && ltb i until) }
{
    match end {
        Some(end) => end.min(until),
        None => until,
    }
}
