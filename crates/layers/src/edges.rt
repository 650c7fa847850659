//! The edges of the layers' rules.
ghost use Rattle.layers.specs.Edges.{Edges};

/// Fake worms over 2, 4,098 and 4,099 blocks have 1, 4,096 and 4,097; a mirror of a spoiled and a blank block is blank; a
/// mirror of a held and a blank block refuses a write by 4; and a dozen others.
pub fn edges_hold()
    ensures { Edges }
{}
