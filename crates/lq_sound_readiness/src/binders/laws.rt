// Laws of the definitions. Nothing is run.
ghost use Rattle.lq_sound_readiness.specs.Binders.Laws.{BindersOfNormalFormsDiffer, ReadBindsTheSame};

use crate::normal_scope::normal_forms_bind_once;

/// A program in normal form is read as a program of the typing rules that binds what it binds, each name as often.
pub fn what_is_read_binds_the_same()
    ensures { ReadBindsTheSame }
{}

/// No name is bound twice in what is read of the normal form of a plain scoped program.
pub fn binders_of_normal_forms_differ()
    ensures { BindersOfNormalFormsDiffer }
{
    what_is_read_binds_the_same();
    normal_forms_bind_once();
}
