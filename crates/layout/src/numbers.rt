//! Big-endian numbers at an offset, alone and in a row, and runs of zeros.
ghost use Rattle.std.specs.Prelude.{◌≡◌, ℕ, List, ◌+◌, ◌*◌, ◌%◌, ◌≤◌, length, refl};
ghost use Rattle.std.specs.List.{flat_map};
ghost use Rattle.layout.specs.Numbers.{bytes16, bytes32, number16, number32, bytes_at, patched, all_zero};

/// A number as a block holds it: big-endian, in a fixed number of bytes.
pub(crate) trait Number: Copy {
    ghost SIZE: { ℕ };

    /// How many bytes a number takes.
    const SIZE: usize;

    /// The number that so many bytes hold.
    ghost number_of: { List ℕ → Self };

    /// The bytes that hold a number.
    ghost bytes_of: { Self → List ℕ };

    fn from_bytes(bytes: &[u8]) -> Self
        requires { length bytes.now ≡ SIZE }
        ensures { result ≡ number_of bytes.now };

    fn write_to(self, place: &mut [u8])
        requires { length place.old ≡ SIZE }
        ensures { place.new ≡ bytes_of self };

    /// Each number takes as many bytes.
    ghost long: { (n : Self) → length (bytes_of n) ≡ SIZE };
}

// Two impls alike: std has `from_be_bytes` and `to_be_bytes` on each type and in no trait. Those of `num_traits` take arrays, which
// would have to be made of slices here.
impl Number for u16 {
    ghost SIZE = { 2 };

    const SIZE: usize = 2;

    ghost number_of = { number16 };

    ghost bytes_of = { bytes16 };

    ghost long = { λ n. unfold bytes16 in refl };

    fn from_bytes(bytes: &[u8]) -> u16 {
        u16::from_be_bytes([bytes[0], bytes[1]])
    }

    fn write_to(self, place: &mut [u8]) {
        place.copy_from_slice(&self.to_be_bytes());
    }
}

impl Number for u32 {
    ghost SIZE = { 4 };

    const SIZE: usize = 4;

    ghost number_of = { number32 };

    ghost bytes_of = { bytes32 };

    ghost long = { λ n. unfold bytes32 in refl };

    fn from_bytes(bytes: &[u8]) -> u32 {
        u32::from_be_bytes([bytes[0], bytes[1], bytes[2], bytes[3]])
    }

    fn write_to(self, place: &mut [u8]) {
        place.copy_from_slice(&self.to_be_bytes());
    }
}

// Each of the next three asks that the bytes are there: the offset is the caller's.

/// The number in the bytes from `at` on.
pub(crate) fn get<N: Number, const LEN: usize>(bytes: &[u8; LEN], at: usize) -> N
    requires { at + N.SIZE ≤ LEN }
    ensures { result ≡ N.number_of (bytes_at at N.SIZE bytes.now) }
{
    let bytes = bytes.as_slice();
    N::from_bytes(&bytes[at..at + N::SIZE])
}

/// Writes a number into the bytes from `at` on.
pub(crate) fn put<N: Number>(bytes: &mut [u8], at: usize, number: N)
    requires { at + N.SIZE ≤ length bytes.old }
    ensures { bytes.new ≡ patched at (N.bytes_of number) bytes.old }
{
    number.write_to(&mut bytes[at..at + N::SIZE]);
}

/// Writes numbers one after another, from `at` on.
pub(crate) fn put_all<N: Number>(bytes: &mut [u8], at: usize, numbers: &[N])
    requires { at + N.SIZE * length numbers.now ≤ length bytes.old }
    ensures { bytes.new ≡ patched at (flat_map N.bytes_of numbers.now) bytes.old }
{
    // By index: once the places that `chunks_exact_mut` lends are given back, a proof knows only the length of `bytes`.
    for (i, number) in numbers.iter().enumerate() {
        put(bytes, at + N::SIZE * i, *number);
    }
}

/// The i-th of the numbers in a row, and 0 past the last.
pub(crate) fn nth_number(row: &[u8], i: usize) -> u32
    requires { length row.now % 4 ≡ 0 }
    ensures { result ≡ number32 (bytes_at (4 * i) 4 row.now) }
{
    let (numbers, _) = row.as_chunks::<4>();
    numbers.get(i).map_or(0, |number| u32::from_bytes(number))
}

/// Whether every byte is zero.
pub(crate) fn is_all_zero(bytes: &[u8]) -> bool
    ensures { result ≡ all_zero bytes.now }
{
    bytes.iter().all(|byte| *byte == 0)
}
