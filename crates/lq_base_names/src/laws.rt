// Laws of the names that every table has.
ghost use Rattle.std.specs.Prelude.{◌≡◌, Some, codes, slice_get};
ghost use Rattle.lq_base_names.specs.NameTable.{predeclared, nil_name, cons_name};
ghost use Rattle.lq_base_names.specs.declared.name.TheConstants.Name.{NIL, CONS};

/// The constructors of lists have these numbers, which stand for these texts in every table.
pub fn names_of_lists()
    ensures nil { (NIL.0 ≡ nil_name) × (slice_get predeclared nil_name ≡ Some (codes "[]")) }
    ensures cons { (CONS.0 ≡ cons_name) × (slice_get predeclared cons_name ≡ Some (codes "::")) }
{}
