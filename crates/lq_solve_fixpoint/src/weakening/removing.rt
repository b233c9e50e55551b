// Instances are taken out.
ghost use Rattle.std.specs.Prelude.{◌≡◌, ◌<◌, ◌≤◌, ℕ, true};
ghost use Rattle.lq_solve_fixpoint.specs.Weakening.Among.{IsAmong};
ghost use Rattle.lq_solve_fixpoint.specs.Weakening.Chosen.{chosen_in, AreWithout, total};

use crate::weakening::chosen::Chosen;

/// Takes some instances of an unknown out.
pub(crate) fn remove_all(chosen: &mut Chosen, unknown: u64, instances: &[u64])
    ensures chosen { AreWithout unknown instances.now (chosen_in chosen.old) (chosen_in chosen.new) }
    ensures total { total chosen.new ≤ total chosen.old }
    ensures falls { (k : ℕ) → IsAmong instances.now k → chosen_in chosen.old unknown k ≡ true
        → total chosen.new < total chosen.old }
{
    for instance in instances {
        chosen.remove(unknown, *instance);
    }
}
