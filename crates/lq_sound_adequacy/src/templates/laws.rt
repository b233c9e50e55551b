// Laws of the definitions. Nothing is run.
ghost use Rattle.lq_sound_adequacy.specs.Templates.Laws.{PointsAreSorted, ProgramPointsAreSorted, TemplatesAreSorted};

use lq_refined_templates::templates::templates_are_of_their_types;

/// The templates of points whose scopes have their sorts among names are well sorted over these.
pub fn templates_are_sorted()
    ensures { TemplatesAreSorted }
{
    templates_are_of_their_types();
}

/// The points of a block in normal form that obeys the rules of types are sorted among its names.
pub fn points_are_sorted()
    ensures { PointsAreSorted }
{}

/// The points of a program in normal form that obeys the rules of types are sorted among its names.
pub fn program_points_are_sorted()
    ensures { ProgramPointsAreSorted }
{}
