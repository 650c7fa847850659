//! Theorems about every device, and the examples that its definitions are tried on.
ghost use Rattle.device.specs.Laws.{WriteLawsHold};
ghost use Rattle.device.specs.Vectors.{Vectors};

/// A write changes its own cell alone, neither spoils a cell nor mends one, and keeps label, kind, size and places.
pub fn write_laws_hold()
    ensures { WriteLawsHold }
{}

/// The worked examples of storage and of refusals follow from the definitions.
pub fn vectors_hold()
    ensures { Vectors }
{}
