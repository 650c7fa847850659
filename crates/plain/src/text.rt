//! A short text in fixed memory.
ghost use Rattle.std.specs.Prelude.{◌≡◌, ◌-◌, ◌<◌, ◌≤◌, length, take, drop, replicate, MatchOption};

/// At most `N` bytes, in memory of its own: no parser allocates, and a text that borrowed would ask its callers to keep the
/// bytes. The library's `ArrayVec` is not `Copy`, as names and paths are, and its `ArrayString` would need a test for UTF-8 first.
// Without an `impl Model`: the check does not cover every function that passes a value with one in it by value and uses it again.
#[derive(Clone, Copy, PartialEq, Eq, Debug)]
pub struct Text<const N: usize> {
    bytes: [u8; N],
    len: usize,
    ghost whole: { length bytes ≡ N },
    ghost fits: { len ≤ N },
    // Past the text there are zeros, so that equal texts have equal fields.
    ghost filled: { drop len bytes ≡ replicate (N - len) 0 },
}

impl<const N: usize> Text<N> {
    /// The bytes as a text, unless there are more than `N`.
    pub(crate) fn new(bytes: &[u8]) -> Option<Text<N>>
        ensures { MatchOption result (N < length bytes.now) (λ t. take t.len t.bytes ≡ bytes.now) }
    {
        if bytes.len() > N {
            return None;
        }
        let mut copy = [0; N];
        copy[..bytes.len()].copy_from_slice(bytes);
        Some(Text {
            bytes: copy,
            len: bytes.len(),
        })
    }

    /// The bytes of the text.
    pub fn as_bytes(&self) -> &[u8]
        ensures { result.now ≡ take self.now.len self.now.bytes }
    {
        &self.bytes[..self.len]
    }
}
