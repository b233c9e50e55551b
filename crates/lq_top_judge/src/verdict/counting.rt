// How much is solved for a program.
ghost use Rattle.std.specs.Prelude.{◌≡◌, ◌≤◌, length};
ghost use Rattle.lq_refined_substitution.specs.Implications.Views.{implications_of};
ghost use Rattle.lq_refined_instances.specs.Instances.{told};
ghost use Rattle.lq_refined_instances.specs.Views.{instances_view};
ghost use Rattle.lq_top_judge.specs.Verdict.Counting.{instance_total};

use lq_generate_problem::Problem;
use lq_refined_instances::Instances;

/// How many unknowns there are, how many instances they have together, and how many implications are to be made valid.
#[derive(Clone, Copy, Debug, PartialEq, Eq)]
pub struct Counts {
    pub unknowns: u64,
    pub instances: u64,
    pub implications: u64,
}

// How many instances all unknowns have.
fn instance_count(instances: &Instances) -> u64
    ensures { result ≡ told (instance_total (instances_view instances.now)) }
{
    let mut total: u64 = 0;
    for unknown in 0..instances.len() {
        let Some(list) = instances.get(unknown) else {
            unreachable!()
        };
        total = total.saturating_add(list.len() as u64);
    }
    total
}

// What is counted of what is to be solved.
pub(crate) fn counts_of(problem: &Problem) -> Counts
    ensures unknowns { result.unknowns ≡ length (instances_view problem.now.instances) }
    ensures instances { result.instances ≡ told (instance_total (instances_view problem.now.instances)) }
    ensures implications { result.implications ≡ length (implications_of problem.now.implications) }
    ensures few { result.implications ≤ 262144 }
{
    Counts {
        unknowns: problem.instances.len() as u64,
        instances: instance_count(&problem.instances),
        implications: problem.implications.len() as u64,
    }
}
