// Which arm of a match is checked.
ghost use Rattle.std.specs.Prelude.{◌≡◌, MatchOption};
ghost use Rattle.lq_refined_rules.specs.Checks.Tree.{has_default, has_template, is_arm_of, is_fun, passes_on, takes_all};
ghost use Rattle.lq_refined_templates.specs.Programs.BlockView.{arms_view, block_view, operation_view, pattern_view};
ghost use Rattle.lq_generate_implications.specs.Walk.Choosing.{HasNoArmOf, HasNoDefault, IsArmOf, IsDefault};

use lq_base_names::Name;
use lq_refined_templates::programs::{Arm, Block, Operation, Pattern};

/// Whether an arm names a constructor.
pub(crate) fn is_arm_of(constructor: Name, pattern: &Pattern) -> bool
    ensures { result ≡ is_arm_of constructor.0 (pattern_view pattern.now) }
{
    match pattern {
        Pattern::Build(named, _) => named.0 == constructor.0,
        Pattern::Any | Pattern::Name(_) | Pattern::Unit | Pattern::Tuple(_) => false,
    }
}

/// Whether an arm takes all values.
pub(crate) fn takes_all(pattern: &Pattern) -> bool
    ensures { result ≡ takes_all (pattern_view pattern.now) }
{
    match pattern {
        Pattern::Any | Pattern::Name(_) => true,
        Pattern::Unit | Pattern::Tuple(_) | Pattern::Build(_, _) => false,
    }
}

/// Whether some arm takes all values.
pub(crate) fn has_default(arms: &[Arm]) -> bool
    ensures { result ≡ has_default (arms_view arms.now) }
{
    for at in 0..arms.len() {
        if takes_all(&arms[at].pattern) {
            return true;
        }
    }
    false
}

/// The number of the first arm that names a constructor.
pub(crate) fn arm_of(constructor: Name, arms: &[Arm]) -> Option<usize>
    ensures { MatchOption result (HasNoArmOf constructor.0 arms.now) (IsArmOf constructor.0 arms.now) }
{
    for at in 0..arms.len() {
        if is_arm_of(constructor, &arms[at].pattern) {
            return Some(at);
        }
    }
    None
}

/// The number of the first arm that takes all values.
pub(crate) fn default_arm(arms: &[Arm]) -> Option<usize>
    ensures { MatchOption result (HasNoDefault arms.now) (IsDefault arms.now) }
{
    for at in 0..arms.len() {
        if takes_all(&arms[at].pattern) {
            return Some(at);
        }
    }
    None
}

/// Whether the branches or the body of an operation are checked against the type that is expected.
pub(crate) fn passes_on(operation: &Operation) -> bool
    ensures { result ≡ passes_on (operation_view operation.now) }
{
    match operation {
        Operation::Fun(_, _, _) | Operation::If(_, _, _, _) | Operation::Match(_, _, _) => true,
        _ => false,
    }
}

/// Whether an operation is a function.
fn is_fun(operation: &Operation) -> bool
    ensures { result ≡ is_fun (operation_view operation.now) }
{
    match operation {
        Operation::Fun(_, _, _) => true,
        _ => false,
    }
}

/// Whether a definition has a template of its own: its block ends in no function.
pub(crate) fn has_template(block: &Block) -> bool
    ensures { result ≡ has_template (block_view block.now) }
{
    !is_fun(&block.last)
}
