ghost use Rattle.lwkt_base.specs.Holding.{ListsAreHeld, AcquiringAdds, ReleasingRemoves, RemovingUndoesAdding};

/// The theorem that what a list holds of a token is the mode of the first reference to it and the number of the references
/// to it.
pub fn lists_are_held()
    ensures { ListsAreHeld }
{}

/// The theorem that a reference at the end of a list is one reference more in what the list holds.
pub fn acquiring_adds()
    ensures { AcquiringAdds }
{}

/// The theorem that the last reference of a list, taken away, is one reference less in what the list holds.
pub fn releasing_removes()
    ensures { ReleasingRemoves }
{}

/// The theorem that one reference more and then one less leave what is held as it was.
pub fn removing_undoes_adding()
    ensures { RemovingUndoesAdding }
{}
