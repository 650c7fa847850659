//! Names of files and directories.
ghost use Rattle.std.specs.Prelude.{◌≡◌, true, false, take, Some, codes, MatchOption, MatchResult};
ghost use Rattle.plain.specs.Names.{is_name, name_byte};

use crate::text::Text;
use std::error::Error;
use std::fmt;

/// The most bytes of a name.
pub const NAME_MOST: usize = 27;

/// A name: 1 to 27 bytes, each visible ASCII but "/". No value of this type is anything else.
#[derive(Clone, Copy, PartialEq, Eq, Debug)]
pub struct Name {
    text: Text<NAME_MOST>,
    ghost legal: { is_name (take text.len text.bytes) ≡ true },
}

/// The bytes are no name.
#[derive(Clone, Copy, PartialEq, Eq, Debug)]
pub struct NotAName;

impl fmt::Display for NotAName {
    ghost output = { λ _. Some (codes "the bytes are no name") };

    fn fmt<W: fmt::Write>(&self, f: &mut fmt::Formatter<W>) -> fmt::Result {
        f.write_str("the bytes are no name")
    }
}

impl Error for NotAName {}

/// The bytes as a name, or the error where they are none.
impl TryFrom<&[u8]> for Name {
    type Error = NotAName;

    ghost try_from_gives = { λ bytes read. MatchResult read (λ name. take name.text.len name.text.bytes ≡ bytes.now) (λ _. is_name bytes.now ≡ false) };

    fn try_from(bytes: &[u8]) -> Result<Name, NotAName> {
        Name::new(bytes).ok_or(NotAName)
    }
}

impl Name {
    /// The bytes as a name, if they are one. Unlike `try_from`, it takes a `b"name"` too.
    pub fn new(bytes: &[u8]) -> Option<Name>
        ensures { MatchOption result (is_name bytes.now ≡ false) (λ name. take name.text.len name.text.bytes ≡ bytes.now) }
    {
        if !is_name(bytes) {
            return None;
        }
        let text = Text::new(bytes).unwrap();
        Some(Name { text })
    }

    /// The bytes of the name, which are always a name's.
    pub fn as_bytes(&self) -> &[u8]
        ensures bytes { result.now ≡ take self.now.text.len self.now.text.bytes }
        ensures legal { is_name result.now ≡ true }
    {
        self.text.as_bytes()
    }
}

/// Whether a byte may stand in a name.
fn is_name_byte(byte: u8) -> bool
    ensures { result ≡ name_byte byte }
{
    matches!(byte, 33..=126) && byte != b'/'
}

/// Whether bytes are a name.
pub fn is_name(bytes: &[u8]) -> bool
    ensures { result ≡ is_name bytes.now }
{
    (1..=NAME_MOST).contains(&bytes.len()) && bytes.iter().all(|byte| is_name_byte(*byte))
}
