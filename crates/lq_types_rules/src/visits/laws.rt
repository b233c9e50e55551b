// What holds of scoped programs.
ghost use Rattle.lq_types_rules.specs.Visits.Laws.{ScopedItemsOwnSlots, ScopedSlotsAreApart, ScopedVisitsAreIn};

/// Each slot that the rules of a scoped program name is of one item.
pub fn scoped_slots_are_apart()
    ensures { ScopedSlotsAreApart }
{}

/// The numbers that the rules of a scoped program name are in range.
pub fn scoped_visits_are_in()
    ensures { ScopedVisitsAreIn }
{}

/// The slots of an item's nodes and binders are in range, and of that item alone.
pub fn scoped_items_own_slots()
    ensures { ScopedItemsOwnSlots }
{}
