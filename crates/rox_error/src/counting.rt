//! Counts of bytes in a text.

ghost use Rattle.std.specs.Prelude.{◌≡◌, ◌==◌, ◌≤◌, ◌||◌, ℕ, Bool, length, count_by, nat_lt, nat_le};

/// Bytes that are counted.
pub(crate) trait Counted {
    ghost test: { ℕ → Bool };

    /// Returns whether a byte is counted.
    fn has(byte: u8) -> bool
        ensures { result ≡ test byte };
}

/// Line feeds.
pub(crate) struct LineFeed;

impl Counted for LineFeed {
    ghost test = { λ b. b == 10 };

    #[inline(always)]
    fn has(byte: u8) -> bool {
        byte == b'\n'
    }
}

/// First bytes of characters: each further byte of one is from 128 to 191 (RFC 3629 section 3).
pub(crate) struct FirstByte;

impl Counted for FirstByte {
    ghost test = { λ b. nat_lt b 128 || nat_le 192 b };

    #[inline(always)]
    fn has(byte: u8) -> bool {
        byte < 128 || byte >= 192
    }
}

/// The length of a block in bytes: a `u8` holds a count in one, so that the compiler counts sixteen bytes at a time.
const BLOCK: usize = 128;

/// Returns the number of bytes of a block that `C` counts.
#[inline(always)]
fn count_in_block<C: Counted>(block: &[u8]) -> u8
    requires { length block.now ≤ 128 }
    ensures { result ≡ count_by C.test block.now }
{
    let mut count = 0;
    for byte in block {
        if C::has(*byte) {
            count += 1;
        }
    }
    count
}

/// Returns the number of bytes of a text that `C` counts.
pub(crate) fn count<C: Counted>(bytes: &[u8]) -> usize
    ensures { result ≡ count_by C.test bytes.now }
{
    let mut total = 0;
    let mut rest = bytes;
    while rest.len() > BLOCK {
        let (block, left) = rest.split_at(BLOCK);
        total += count_in_block::<C>(block) as usize;
        rest = left;
    }
    total + count_in_block::<C>(rest) as usize
}
