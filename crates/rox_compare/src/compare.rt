//! Equality of short texts.

ghost use Rattle.std.specs.Prelude.{◌≡◌, ◌≤◌, ◌<◌, ◌+◌, length, bytes_eq, slice_range, ◌^◌};
ghost use Rattle.rox_compare.specs.Words.{HasLength};
ghost use Rattle.std.specs.Int.{w64, from_le_bytes, to_le_bytes, w32};

/// The length in bytes from which on `same_stretch` uses the comparison of the standard library.
pub const LONG: usize = 16;

/// The number of bytes in a word.
pub const WORD: usize = 4;

/// The number of bytes in a long word.
pub const LONG_WORD: usize = 8;

/// The number of bytes in two long words.
pub const STRETCH: usize = 16;

/// Returns the four bytes from `at` on as one word, the lowest byte first.
#[inline(always)]
pub fn word_at(bytes: &[u8], at: usize) -> u64
    requires { at + 4 ≤ length bytes.now }
    ensures value { result ≡ from_le_bytes w32 (slice_range bytes.now at (at + 4)) }
    ensures back { to_le_bytes w32 result ≡ slice_range bytes.now at (at + 4) }
    ensures small { result < 2 ^ 32 }
{
    u32::from_le_bytes([bytes[at], bytes[at + 1], bytes[at + 2], bytes[at + 3]]) as u64
}

/// Two byte slices of one length, to be compared.
#[derive(Clone, Copy)]
pub struct Pair<'a, 'b> {
    pub one: &'a [u8],
    pub other: &'b [u8],
    pub ghost same: { length one.now ≡ length other.now },
}

/// Returns whether both slices have the same four bytes from `at` on.
#[inline(always)]
fn same_word(pair: Pair<'_, '_>, at: usize) -> bool
    requires { at + 4 ≤ length pair.one.now }
    ensures { result
        ≡ bytes_eq (slice_range pair.entry.one.now at (at + 4))
        (slice_range pair.entry.other.now at (at + 4)) }
{
    word_at(pair.one, at) == word_at(pair.other, at)
}

/// Returns whether two slices of four to eight bytes are equal: their first four bytes are, and their last four.
#[inline(always)]
pub fn same_words(pair: Pair<'_, '_>) -> bool
    requires { HasLength 4 8 pair.one.now }
    ensures { result ≡ bytes_eq pair.entry.one.now pair.entry.other.now }
{
    let last = pair.one.len() - WORD;
    same_word(pair, 0) && same_word(pair, last)
}

/// Returns the eight bytes from `at` on as one long word, the lowest byte first.
#[inline(always)]
fn long_word_at(bytes: &[u8], at: usize) -> u64
    requires { at + 8 ≤ length bytes.now }
    ensures value { result ≡ from_le_bytes w64 (slice_range bytes.now at (at + 8)) }
    ensures back { to_le_bytes w64 result ≡ slice_range bytes.now at (at + 8) }
{
    u64::from_le_bytes([
        bytes[at],
        bytes[at + 1],
        bytes[at + 2],
        bytes[at + 3],
        bytes[at + 4],
        bytes[at + 5],
        bytes[at + 6],
        bytes[at + 7],
    ])
}

/// Returns whether both slices have the same eight bytes from `at` on.
#[inline(always)]
pub fn same_long_word(pair: Pair<'_, '_>, at: usize) -> bool
    requires { at + 8 ≤ length pair.one.now }
    ensures { result
        ≡ bytes_eq (slice_range pair.entry.one.now at (at + 8))
        (slice_range pair.entry.other.now at (at + 8)) }
{
    long_word_at(pair.one, at) == long_word_at(pair.other, at)
}

/// Returns whether two slices of eight to sixteen bytes are equal: their first eight bytes are, and their last eight.
#[inline(always)]
pub fn same_long_words(pair: Pair<'_, '_>) -> bool
    requires { HasLength 8 16 pair.one.now }
    ensures { result ≡ bytes_eq pair.entry.one.now pair.entry.other.now }
{
    let last = pair.one.len() - LONG_WORD;
    same_long_word(pair, 0) && same_long_word(pair, last)
}

/// Returns whether both slices have the same sixteen bytes from `at` on.
#[inline(always)]
pub fn same_sixteen(pair: Pair<'_, '_>, at: usize) -> bool
    requires { at + 16 ≤ length pair.one.now }
    ensures { result
        ≡ bytes_eq (slice_range pair.entry.one.now at (at + 16))
        (slice_range pair.entry.other.now at (at + 16)) }
{
    let one = &pair.one[at..at + STRETCH];
    let other = &pair.other[at..at + STRETCH];
    same_long_words(Pair { one, other })
}

/// Returns whether two slices of sixteen to thirty-two bytes are equal: their first sixteen bytes are, and their last sixteen.
#[inline(always)]
pub fn same_sixteens(pair: Pair<'_, '_>) -> bool
    requires { HasLength 16 32 pair.one.now }
    ensures { result ≡ bytes_eq pair.entry.one.now pair.entry.other.now }
{
    let last = pair.one.len() - STRETCH;
    same_sixteen(pair, 0) && same_sixteen(pair, last)
}

/// Returns whether both slices are equal, byte by byte.
#[inline(always)]
pub fn same_bytes(pair: Pair<'_, '_>) -> bool
    ensures { result ≡ bytes_eq pair.entry.one.now pair.entry.other.now }
{
    let mut at = 0;
    while at < pair.one.len() {
        if pair.one[at] != pair.other[at] {
            return false;
        }
        at += 1;
    }
    true
}

/// Returns whether two slices of at most three bytes are equal: the first, middle and last bytes are.
#[inline(always)]
fn same_few(pair: Pair<'_, '_>) -> bool
    requires { length pair.one.now < 4 }
    ensures { result ≡ bytes_eq pair.entry.one.now pair.entry.other.now }
{
    let count = pair.one.len();
    if count == 0 {
        return true;
    }
    let middle = count / 2;
    let last = count - 1;
    pair.one[0] == pair.other[0]
        && pair.one[middle] == pair.other[middle]
        && pair.one[last] == pair.other[last]
}

/// Returns whether both slices are equal. It is meant for slices of at most `STRETCH` bytes: longer ones are compared byte by
/// byte.
#[inline(always)]
pub fn same_short(pair: Pair<'_, '_>) -> bool
    ensures { result ≡ bytes_eq pair.entry.one.now pair.entry.other.now }
{
    let count = pair.one.len();
    if count < WORD {
        return same_few(pair);
    }
    if count <= LONG_WORD {
        return same_words(pair);
    }
    if count <= STRETCH {
        return same_long_words(pair);
    }
    same_bytes(pair)
}

/// Returns whether two long slices are equal. It is out of line, so that short ones stay in registers.
#[inline(never)]
pub fn same_long(one: &[u8], other: &[u8]) -> bool
    ensures { result ≡ bytes_eq one.now other.now }
{
    one == other
}

/// Returns whether two byte slices are equal. It is `one == other`, but in line for short slices, which names are.
#[inline(always)]
pub fn same_stretch(one: &[u8], other: &[u8]) -> bool
    ensures { result ≡ bytes_eq one.now other.now }
{
    if one.len() != other.len() {
        return false;
    }
    if one.len() >= LONG {
        return same_long(one, other);
    }
    same_short(Pair { one, other })
}

/// Returns whether two texts are equal, in line for short ones.
#[inline(always)]
pub fn same_text(one: &str, other: &str) -> bool
    ensures { result ≡ bytes_eq one.now other.now }
{
    same_stretch(one.as_bytes(), other.as_bytes())
}

/// Returns whether two texts are equal, in line for texts of at most thirty-two bytes. Line ends with their indentation are such.
#[inline(always)]
pub fn same_line_end(one: &str, other: &str) -> bool
    ensures { result ≡ bytes_eq one.now other.now }
{
    let one = one.as_bytes();
    let other = other.as_bytes();
    if one.len() != other.len() {
        return false;
    }
    if one.len() <= STRETCH {
        return same_short(Pair { one, other });
    }
    if one.len() <= 2 * STRETCH {
        return same_sixteens(Pair { one, other });
    }
    same_long(one, other)
}
