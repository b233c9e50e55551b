// Laws of the definitions. Nothing is run.
ghost use Rattle.lq_refined_types.specs.Subtyping.Splitting.{SplitIsSubtype};

/// The implications of a subtyping of two types of one simple type are valid under an assignment exactly where it holds under it.
///
/// The cases are those of Rondon, Kawaguchi and Jhala (PLDI 2008) and, for datatypes with a matrix, of Kawaguchi, Rondon and Jhala
/// (PLDI 2009).
pub fn split_is_subtype()
    ensures { SplitIsSubtype }
{}
