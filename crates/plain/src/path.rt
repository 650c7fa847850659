//! Paths: "/" alone, or 1 to 8 names each after a "/".
ghost use Rattle.std.specs.Prelude.{◌≡◌, ◌∷◌, true, take, is_some, None, MatchResult};
ghost use Rattle.plain.specs.Paths.{path_of, names_in, at_most_eight};
ghost use Rattle.plain.specs.Refusals.{shown, row};

use crate::fault::TreeFault;
use crate::name::{NAME_MOST, is_name};
use crate::text::Text;

/// The most names of a path.
const NAMES_MOST: usize = 8;

/// The most bytes of a path.
const PATH_MOST: usize = NAMES_MOST * (NAME_MOST + 1);

/// A path, as its text.
#[derive(Clone, Copy, PartialEq, Eq, Debug)]
pub struct Path {
    text: Text<PATH_MOST>,
    ghost legal: { is_some (path_of (take text.len text.bytes)) ≡ true },
}

/// The path that a text is.
impl TryFrom<&[u8]> for Path {
    type Error = TreeFault;

    ghost try_from_gives = { λ text read. MatchResult read (λ path. take path.text.len path.text.bytes ≡ text.now) (λ e. (shown e ≡ row 11) × (path_of text.now ≡ None)) };

    fn try_from(text: &[u8]) -> Result<Path, TreeFault> {
        Path::parse(text)
    }
}

impl Path {
    /// The path that a text is. Unlike `try_from`, it takes a `b"/path"` too.
    pub fn parse(text: &[u8]) -> Result<Path, TreeFault>
        ensures { MatchResult result (λ path. take path.text.len path.text.bytes ≡ text.now) (λ e. (shown e ≡ row 11) × (path_of text.now ≡ None)) }
    {
        let Some(text) = Text::new(text) else {
            return Err(TreeFault::MalformedPath);
        };
        if is_path(text.as_bytes()) {
            Ok(Path { text })
        } else {
            Err(TreeFault::MalformedPath)
        }
    }

    /// The text of the path, which is always one.
    pub fn as_bytes(&self) -> &[u8]
        ensures text { result.now ≡ take self.now.text.len self.now.text.bytes }
        ensures legal { is_some (path_of result.now) ≡ true }
    {
        self.text.as_bytes()
    }
}

/// Whether a text is a path.
fn is_path(text: &[u8]) -> bool
    ensures { result ≡ is_some (path_of text.now) }
{
    let Some(names) = text.strip_prefix(b"/") else {
        return false;
    };
    names.is_empty() || are_names(names)
}

/// Whether a text is 1 to 8 names with a "/" between them.
fn are_names(text: &[u8]) -> bool
    ensures { result ≡ is_some (at_most_eight (names_in (47 ∷ text.now))) }
{
    text.split(|byte| *byte == b'/')
        .enumerate()
        .all(|(i, name)| i < NAMES_MOST && is_name(name))
}
