// Which of the open choices is split first.
use crate::search::branch::Split;
use std::alloc::Global;

const FIRST_GAIN: u64 = 1 << 10;

const LARGE_GAIN: u64 = 1 << 52;

const SCALE: u64 = 1 << 40;

/// How often splits of choices were refuted by a tree for each member, by their places, where later ones count more, and the place of the
/// last choice that was forced. These are numbers that choose between open choices, and no clause speaks of them.
#[derive(Drop)]
pub struct Order {
    weights: Vec<u64>,
    gain: u64,
    forced: usize,
}

impl Order {
    pub(crate) fn new(alloc: Global) -> Order {
        Order {
            weights: Vec::new(alloc),
            gain: FIRST_GAIN,
            forced: 0,
        }
    }

    /// The weight of the choice at a place.
    pub(crate) fn weight(&self, at: usize) -> u64 {
        match self.weights.get(at) {
            Some(weight) => *weight,
            None => 0,
        }
    }

    /// The place of the last choice that was forced.
    pub(crate) fn forced(&self) -> usize {
        self.forced
    }

    /// The choice at a place is split, and it may be forced.
    pub(crate) fn split(&mut self, at: usize, is_forced: bool) {
        if is_forced {
            self.forced = at;
        }
    }

    /// The split of the choice at a place was refuted, which makes the choice heavier where each member has a tree of its own: a choice of
    /// which no member is used has no part in what was refuted.
    pub(crate) fn refuted(&mut self, at: usize, split: &Split) {
        match split {
            Split::Each(_) => self.add(at),
            Split::Whole(_) => (),
        }
    }

    // Makes the choice at a place heavier. Where memory is wanting it stays as it is.
    fn add(&mut self, at: usize) {
        for _ in self.weights.len()..at.saturating_add(1) {
            let Ok(()) = self.weights.push(0) else {
                return;
            };
        }
        if at < self.weights.len() {
            self.weights[at] = self.weights[at].saturating_add(self.gain);
        }
        self.gain = self.gain.saturating_add(self.gain / 20);
        if self.gain > LARGE_GAIN {
            self.rescale();
        }
    }

    fn rescale(&mut self) {
        self.gain /= SCALE;
        for at in 0..self.weights.len() {
            self.weights[at] /= SCALE;
        }
    }
}
