//! Rationals, whole numbers and their 128-bit forms: the definitions that the contracts of the other crates cite, and their laws.
//! They stand in `specs/`; the functions here do nothing, and their contracts are the laws that tell what the definitions mean.

ghost use Rattle.lq_base_numbers.specs.Rationals.OrderedField.{IsOrderedField, HoldsWholeNumbers, IsMadeOfFractions};

/// The rationals are an ordered field, the whole numbers lie in it, and each rational is a fraction in lowest terms in one way.
pub fn rationals_are_an_ordered_field()
    ensures field { IsOrderedField }
    ensures whole_numbers { HoldsWholeNumbers }
    ensures fractions { IsMadeOfFractions }
{}
