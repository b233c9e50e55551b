// Which instances are chosen.
ghost use Rattle.std.specs.Prelude.{◌≡◌, IfOk, replicate, true};

use std::alloc::{AllocError, Global};

/// For each unknown, which of its instances are chosen.
#[derive(Drop)]
pub struct Chosen {
    rows: Vec<Vec<bool>>,
}

/// So many flags that are all set.
fn full(alloc: Global, count: u64) -> Result<Vec<bool>, AllocError>
    ensures { IfOk result (λ row. row.items ≡ replicate count true) }
{
    vec![in alloc; true; count as usize]
}

impl Chosen {
    ghost use Rattle.std.specs.Prelude.{◌<◌, ◌≤◌, ℕ};
    ghost use Rattle.lq_solve_fixpoint.specs.Weakening.Chosen.{all_below, chosen_in, IsWithout, total};

    /// All of so many instances of each unknown.
    pub fn all(alloc: Global, counts: &[u64]) -> Result<Chosen, AllocError>
        ensures { IfOk result (λ chosen. (u k : ℕ) → chosen_in chosen u k ≡ all_below counts.now u k) }
    {
        let mut rows = Vec::new(alloc);
        for count in counts {
            rows.push(full(alloc, *count)?)?;
        }
        Ok(Chosen { rows })
    }

    /// Whether an instance of an unknown is chosen.
    pub fn has(&self, unknown: u64, instance: u64) -> bool
        ensures { result ≡ chosen_in self.now unknown instance }
    {
        match self.rows.get(unknown as usize) {
            Some(row) => match row.get(instance as usize) {
                Some(flag) => *flag,
                None => false,
            },
            None => false,
        }
    }

    /// Takes an instance of an unknown out.
    pub(crate) fn remove(&mut self, unknown: u64, instance: u64)
        ensures chosen { IsWithout unknown instance (chosen_in self.old) (chosen_in self.new) }
        ensures total { total self.new ≤ total self.old }
        ensures falls { chosen_in self.old unknown instance ≡ true → total self.new < total self.old }
    {
        if self.has(unknown, instance) {
            self.rows[unknown as usize][instance as usize] = false;
        }
    }
}
