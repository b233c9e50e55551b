// Laws of the definitions. Nothing is run.
ghost use Rattle.lq_refined_templates.specs.Points.Examples.{BoundExample, DirectExample, HidingExample, LocalExample, RecursiveExample, SampleExample};
ghost use Rattle.lq_refined_templates.specs.Points.Laws.{TemplatesAreOfPoints, UnknownsAreNumbered};
ghost use Rattle.lq_refined_templates.specs.Points.MoreExamples.{ArmsExample, ListExample, ListTemplates, MapExample, PolymorphicExample};

use crate::templates::{templates_are_of_their_types, templates_number_their_unknowns};

/// The templates of points have the simple types of the points.
pub fn templates_are_of_points()
    ensures { TemplatesAreOfPoints }
{
    templates_are_of_their_types();
}

/// The unknowns of a program are numbered one after another over all of its points, in the order of the list of unknowns.
pub fn unknowns_are_numbered()
    ensures { UnknownsAreNumbered }
{
    templates_number_their_unknowns();
}

/// Some programs with their points and unknowns, worked out by hand: names, functions and branches.
pub fn examples()
    ensures sample { SampleExample }
    ensures hiding { HidingExample }
    ensures local { LocalExample }
    ensures direct { DirectExample }
    ensures recursive { RecursiveExample }
    ensures bound { BoundExample }
{}

/// Some more programs with their points and unknowns, worked out by hand: generalised names, datatypes, arms and maps.
pub fn more_examples()
    ensures polymorphic { PolymorphicExample }
    ensures list { ListExample }
    ensures list_templates { ListTemplates }
    ensures arms { ArmsExample }
    ensures maps { MapExample }
{}
