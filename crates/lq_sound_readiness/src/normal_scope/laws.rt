// Laws of the definitions. Nothing is run.
ghost use Rattle.lq_sound_readiness.specs.NormalScope.Laws.{NormalFormsAreScoped, NormalFormsBindOnce};

use lq_meaning_normal_form::binders::scoped_bind_once;
use lq_meaning_normal_form::types::made_names_run;

/// Where each name of a plain program is bound where it is used, so it is in the program's normal form.
pub fn normal_forms_are_scoped()
    ensures { NormalFormsAreScoped }
{}

/// The normal form of a plain scoped program binds no name twice, made names among them.
pub fn normal_forms_bind_once()
    ensures { NormalFormsBindOnce }
{
    scoped_bind_once();
    made_names_run();
}
