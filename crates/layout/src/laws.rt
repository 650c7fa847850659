//! Theorems about the layouts, and the examples that their definitions are tried on.
ghost use Rattle.layout.specs.RoundTrips.{RoundTrips};
ghost use Rattle.layout.specs.Vectors.{Vectors};

/// What is written is read back, and a write of one part leaves every other part as it was.
pub fn round_trips_hold()
    ensures { RoundTrips }
{}

/// Blocks and an entry that are written out by hand are what the definitions make and read.
pub fn vectors_hold()
    ensures { Vectors }
{}
