// Laws of annotations. Nothing is run.
ghost use Rattle.lq_sound_readiness.specs.Uniqueness.Laws.{NotedHaveAnnotations, OneAnnotation, OneNote, OneReading};

use lq_generate_reading::general_names::general_uses_are_defined;
use lq_generate_reading::notes::noted_are_known;
use lq_types_rules::typings::one_inference;

/// What is noted of a typed program is an annotation of it.
pub fn noted_have_annotations()
    ensures { NotedHaveAnnotations }
{
    noted_are_known();
    general_uses_are_defined();
}

/// A scoped program has at most one annotation, but for the name of the value.
pub fn one_annotation()
    ensures { OneAnnotation }
{
    one_inference();
    general_uses_are_defined();
}

/// So what is noted of a typed program is determined by the program and the name of the value.
pub fn one_note()
    ensures { OneNote }
{
    noted_have_annotations();
    one_annotation();
}

/// By all annotations of a program its normal form is read in one way, with the same points.
pub fn one_reading()
    ensures { OneReading }
{
    one_annotation();
}
