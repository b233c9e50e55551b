// Laws of the definitions. Nothing is run.
ghost use Rattle.lq_meaning_normal_form.specs.Binders.Apart.{ScopedAreApart, ScopedBindOnce};

/// In a scoped program no use has a number from that of its binders on, and no part of an expression uses a name that comes out of
/// another part: so naming and flattening keep what it means.
pub fn scoped_are_apart()
    ensures { ScopedAreApart }
{}

/// In a scoped program no number is bound twice, and one that is bound is below the number of binders.
pub fn scoped_bind_once()
    ensures { ScopedBindOnce }
{}
