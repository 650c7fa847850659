//! Theorems about paths, the plain tree and the reference model, and the examples that they are tried on.
ghost use Rattle.std.specs.Prelude.{◌≡◌, take};
ghost use Rattle.std.specs.Str.{bytes_eq};
ghost use Rattle.plain.specs.declared.name.Name as name;
ghost use Rattle.plain.specs.declared.path.Path as path;
ghost use Rattle.plain.specs.Laws.{PathLaws, SightLaws, TreeLaws};
ghost use Rattle.plain.specs.Vectors.{Vectors};

use crate::name::Name;
use crate::path::Path;

/// Parsing what a path shows gives the path again, and a path shows what it was parsed from.
pub fn path_laws_hold()
    ensures { PathLaws }
{}

/// Two names are equal exactly if their bytes are, and two paths too.
pub fn equalities_hold()
    ensures names { (a b : name.Name) → ⟦<Name as PartialEq>⟧.eq a b ≡ bytes_eq (take a.text.len a.text.bytes) (take b.text.len b.text.bytes) }
    ensures paths { (a b : path.Path) → ⟦<Path as PartialEq>⟧.eq a b ≡ bytes_eq (take a.text.len a.text.bytes) (take b.text.len b.text.bytes) }
{}

/// Read, stat and entry tell no more of a path than its sight: a file, or a directory with its names.
pub fn sight_laws_hold()
    ensures { SightLaws }
{}

/// What is written is read back and nothing else changes; a make adds one name and touches no other; a remove takes one; names
/// stay different and places stay in groups of seven.
pub fn tree_laws_hold()
    ensures { TreeLaws }
{}

/// The worked examples follow from the definitions.
pub fn vectors_hold()
    ensures { Vectors }
{}
