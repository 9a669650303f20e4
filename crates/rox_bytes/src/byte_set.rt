//! Runs of plain bytes, sixteen at a time: the first look at names, values, character data and comments.

ghost use Rattle.std.specs.Prelude.{IfSome, ◌≡◌, ◌+◌, ◌<◌, ◌≤◌, ℕ, Bool, not, map, take, drop, length, IsCharBoundary, true, slice_index, false};
ghost use Rattle.std.specs.Int.{w64, trailing_zeros};
ghost use Rattle.std.specs.Simd.Lanes.{mask_l};
ghost use Rattle.rox_grammar.specs.Chars as spec;
ghost use Rattle.rox_grammar.specs.Runs.{run_end};
ghost use Rattle.rox_bytes.specs.ByteSets as near;
ghost use Rattle.rox_bytes.specs.ByteSets.{EndsEased, EndsSet, StopsSet, eased, is_part_byte};
ghost use Rattle.rox_bytes.specs.Windows.{IsSeen};
ghost use Rattle.rox_bytes.specs.RunEnds.{EndsRun};
ghost use Rattle.rox_bytes.specs.ScanResults.{EndsNear, Finds};

use crate::chars::{Class, PartChar};
use crate::nibbles::{by_low, classes};
use crate::runs::run_end;
use std::simd::prelude::*;

/// A set of bytes, for finding runs of them.
pub trait ByteSet {
    ghost test: { ℕ → Bool };

    /// Returns whether a byte is in the set.
    fn has(byte: u8) -> bool
        ensures { result ≡ test byte };

    /// Returns a bit for each byte of `block` that is not in the set, the lowest for the first.
    fn others(block: u8x16) -> u64
        ensures { result ≡ mask_l (map (λ b. not (test b)) block) };
}

/// Returns whether a byte is past ASCII and not 239, which starts the two characters past ASCII that are not Chars.
#[inline(always)]
fn is_non_ascii_char_byte(byte: u8) -> bool
    ensures { result ≡ near.is_non_ascii_char_byte byte }
{
    (byte >= 128) & (byte != 239)
}

/// Returns the bytes with their highest bit flipped, so that those past ASCII come first. One comparison with `BEHIND_CONTROLS`
/// then finds these and controls: for a processor, it is one of signed bytes.
#[inline(always)]
pub fn non_ascii_first(block: u8x16) -> u8x16
    ensures { result ≡ map near.non_ascii_first block }
{
    block ^ u8x16::splat(128)
}

/// A space with its highest bit flipped.
pub const BEHIND_CONTROLS: u8 = 160;

/// The ASCII bytes of an attribute's value that need no replacement and end no value: no control, no quote, no `&` and no `<`.
pub struct ValueByte;

// A `#` at the index of each byte of the set.
static VALUE_BYTES: [u8; 256] = *b"\
    ................................\
    ##.###..####################.###\
    ################################\
    ################################\
    ................................\
    ................................\
    ................................\
    ................................";

// The bytes that end a run of them, besides controls and bytes past ASCII, each at its low half.
const VALUE_ENDS: [u8; 16] = [1, 0, b'"', 0, 0, 0, b'&', b'\'', 0, 0, 0, 0, b'<', 0, 0, 0];

impl ByteSet for ValueByte {
    ghost test = { near.is_value_byte };

    #[inline(always)]
    fn has(byte: u8) -> bool {
        VALUE_BYTES[byte as usize] == b'#'
    }

    #[inline(always)]
    fn others(block: u8x16) -> u64 {
        let ends = by_low(VALUE_ENDS, block).simd_eq(block);
        let controls_and_non_ascii = non_ascii_first(block).simd_lt(u8x16::splat(BEHIND_CONTROLS));
        (controls_and_non_ascii | ends).to_bitmask()
    }
}

/// The bytes of `ValueByte`, and those past ASCII except 239, which starts the two characters past ASCII that are not Chars.
pub struct AnyValueByte;

impl ByteSet for AnyValueByte {
    ghost test = { near.is_any_value_byte };

    #[inline(always)]
    #[tactic(auto, unfolding(crate::specs::ByteSets::is_any_value_byte))]
    fn has(byte: u8) -> bool {
        ValueByte::has(byte) | is_non_ascii_char_byte(byte)
    }

    #[inline(always)]
    fn others(block: u8x16) -> u64 {
        let ends = by_low(VALUE_ENDS, block).simd_eq(block);
        let controls = block.simd_lt(u8x16::splat(32));
        (controls | ends | block.simd_eq(u8x16::splat(239))).to_bitmask()
    }
}

/// The bytes of `AnyValueByte`, and `'`: those of a value in double quotes that need no replacement and do not end it.
pub struct QuotedByte;

// The bytes that end a run of them, besides controls and 239, each at its low half.
const QUOTED_ENDS: [u8; 16] = [1, 0, b'"', 0, 0, 0, b'&', 0, 0, 0, 0, 0, b'<', 0, 0, 0];

impl ByteSet for QuotedByte {
    ghost test = { near.is_quoted_byte };

    #[inline(always)]
    #[tactic(auto, unfolding(crate::specs::ByteSets::is_quoted_byte))]
    fn has(byte: u8) -> bool {
        AnyValueByte::has(byte) | (byte == b'\'')
    }

    #[inline(always)]
    fn others(block: u8x16) -> u64 {
        let ends = by_low(QUOTED_ENDS, block).simd_eq(block);
        let controls = block.simd_lt(u8x16::splat(32));
        (controls | ends | block.simd_eq(u8x16::splat(239))).to_bitmask()
    }
}

/// The bytes of a comment that need no other test: no `-`, not 239, and no control except TAB, LF and CR.
pub struct CommentByte;

// A `#` at the index of each byte of the set: all except `-`, 239 and the controls other than TAB, LF and CR.
static COMMENT_BYTES: [u8; 256] = *b"\
    .........##..#..................\
    #############.##################\
    ################################\
    ################################\
    ################################\
    ################################\
    ################################\
    ###############.################";

impl ByteSet for CommentByte {
    ghost test = { near.is_comment_byte };

    #[inline(always)]
    fn has(byte: u8) -> bool {
        COMMENT_BYTES[byte as usize] == b'#'
    }

    #[inline(always)]
    fn others(block: u8x16) -> u64 {
        let exceptions = by_low(CHAR_EXCEPTIONS, block).simd_eq(block);
        let controls = block.simd_lt(u8x16::splat(32)) ^ exceptions;
        let ends = block.simd_eq(u8x16::splat(b'-')) | block.simd_eq(u8x16::splat(239));
        (controls | ends).to_bitmask()
    }
}

/// The ASCII bytes of `CommentByte` except CR, which few comments have.
pub struct AsciiCommentByte;

// The controls of the set, and `-`, each at its low half.
const COMMENT_EXCEPTIONS: [u8; 16] = [1, 0, 0, 0, 0, 0, 0, 0, 0, b'\t', b'\n', 0, 0, b'-', 0, 0];

impl ByteSet for AsciiCommentByte {
    ghost test = { near.is_ascii_comment_byte };

    #[inline(always)]
    #[tactic(auto, unfolding(crate::specs::ByteSets::is_ascii_comment_byte))]
    fn has(byte: u8) -> bool {
        ((byte < 128) & (byte != b'\r')) & CommentByte::has(byte)
    }

    #[inline(always)]
    fn others(block: u8x16) -> u64 {
        let exceptions = by_low(COMMENT_EXCEPTIONS, block).simd_eq(block);
        let controls_and_non_ascii = non_ascii_first(block).simd_lt(u8x16::splat(BEHIND_CONTROLS));
        (controls_and_non_ascii ^ exceptions).to_bitmask()
    }
}

/// The bytes that start only Chars, and those that continue a character.
pub struct CharByte;

// The controls of the set, each at its low half.
const CHAR_EXCEPTIONS: [u8; 16] = [1, 0, 0, 0, 0, 0, 0, 0, 0, b'\t', b'\n', 0, 0, b'\r', 0, 0];

impl ByteSet for CharByte {
    ghost test = { near.is_char_byte };

    #[inline(always)]
    fn has(byte: u8) -> bool {
        ((byte >= 32) & (byte != 239)) | (byte == 9) | (byte == 10) | (byte == 13)
    }

    #[inline(always)]
    fn others(block: u8x16) -> u64 {
        let exceptions = by_low(CHAR_EXCEPTIONS, block).simd_eq(block);
        let controls = block.simd_lt(u8x16::splat(32)) ^ exceptions;
        (controls | block.simd_eq(u8x16::splat(239))).to_bitmask()
    }
}

/// The ASCII bytes of a part of a name.
pub struct PartByte;

// A byte is in the set exactly if the entries of its two halves have a bit in common.
const PART_LOW: [u8; 16] = [26, 30, 30, 30, 30, 30, 30, 30, 30, 30, 28, 4, 4, 5, 5, 12];

const PART_HIGH: [u8; 16] = [0, 0, 1, 2, 4, 8, 4, 16, 0, 0, 0, 0, 0, 0, 0, 0];

impl ByteSet for PartByte {
    ghost test = { near.is_part_byte };

    #[inline(always)]
    fn has(byte: u8) -> bool {
        byte < 128 && PartChar::has_byte(byte)
    }

    #[inline(always)]
    fn others(block: u8x16) -> u64 {
        classes(PART_LOW, PART_HIGH, block)
            .simd_eq(u8x16::splat(0))
            .to_bitmask()
    }
}

/// White space (XML 1.0 [3] S).
pub struct SpaceByte;

// White space, each byte at its low half.
const SPACES: [u8; 16] = [
    b' ', 0, 0, 0, 0, 0, 0, 0, 0, b'\t', b'\n', 0, 0, b'\r', 0, 0,
];

impl ByteSet for SpaceByte {
    ghost test = { spec.is_space };

    #[inline(always)]
    fn has(byte: u8) -> bool {
        // One comparison decides for most bytes.
        byte <= b' ' && matches!(byte, b' ' | b'\t' | b'\n' | b'\r')
    }

    #[inline(always)]
    fn others(block: u8x16) -> u64 {
        by_low(SPACES, block).simd_ne(block).to_bitmask()
    }
}

/// Returns a bit for each of the sixteen bytes from `at` on that is not in the set, the lowest for the first.
#[inline(always)]
pub(crate) fn others_at<C: ByteSet>(bytes: &[u8], at: usize) -> u64
    requires { at + 16 ≤ length bytes.now }
    ensures { IsSeen C.test bytes.now at result }
{
    C::others(u8x16::from_slice(&bytes[at..]))
}

/// Returns how many bytes come before the first that has a bit.
#[inline(always)]
pub fn before_first(others: u64) -> usize
    ensures { result ≡ trailing_zeros w64 others }
{
    others.trailing_zeros() as usize
}

/// Returns the end of the bytes of the set from `at` on, byte by byte.
#[inline(never)]
fn short_end<C: ByteSet>(bytes: &[u8], at: usize) -> usize
    requires { at ≤ length bytes.now }
    ensures { EndsSet C.test bytes.now at result }
{
    let mut end = at;
    while end < bytes.len() && C::has(bytes[end]) {
        end += 1;
    }
    end
}

/// Like `short_end`, but sixteen bytes at a time, for what is beyond the first sixteen.
#[inline(never)]
fn bytes_end_beyond<C: ByteSet>(bytes: &[u8], at: usize) -> usize
    requires { at ≤ length bytes.now }
    ensures { EndsSet C.test bytes.now at result }
{
    let mut block = at;
    while block + 16 <= bytes.len() {
        let others = others_at::<C>(bytes, block);
        if others != 0 {
            // All blocks take one step, so that none waits for the count of the one before.
            return block + before_first(others);
        }
        block += 16;
    }
    short_end::<C>(bytes, block)
}

/// Returns the sixteen bytes from `at` on, with 255 in place of each 239 that 191 does not follow. U+FFFE and U+FFFF, which are not
/// Chars, start with 239 and 191, so these other characters are Chars.
#[inline(always)]
fn eased_at(bytes: &[u8], at: usize) -> u8x16
    requires { at + 17 ≤ length bytes.now }
    ensures { result ≡ take 16 (drop at (eased bytes.now)) }
{
    let block = u8x16::from_slice(&bytes[at..]);
    let next = u8x16::from_slice(&bytes[at + 1..]);
    let leads = block.simd_eq(u8x16::splat(239)) & next.simd_ne(u8x16::splat(191));
    leads.select(u8x16::splat(255), block)
}

/// The end of a run of bytes of a set, where another byte is. If `others` is not 0, it has a bit for each of the sixteen bytes from
/// the start of the run on that is not in the set, the lowest for the first.
#[derive(Clone, Copy)]
pub struct RunEnd {
    pub at: usize,
    pub others: u64,
}

/// Returns the end `at` of a run, without a mask, if a byte is there.
#[inline(always)]
fn some_end(bytes: &[u8], at: usize) -> Option<RunEnd>
    ensures { IfSome result
        (λ e. (e.at ≡ at) × (e.others ≡ 0) × (at < length bytes.entry.now)) }
{
    if at >= bytes.len() {
        return None;
    }
    Some(RunEnd { at, others: 0 })
}

/// Returns the end of the bytes of the set in a text from `at` on, if a byte is there. The caller can read that byte without
/// another test. Most ends are among the first sixteen bytes.
#[inline(always)]
pub fn find_run<C: ByteSet>(text: &str, at: usize) -> Option<RunEnd>
    requires { at ≤ length text.now }
    ensures { IfSome result (EndsRun C.test text.entry.now at) }
{
    let bytes = text.as_bytes();
    if bytes.len() - at < 16 {
        let end = short_end::<C>(bytes, at);
        return some_end(bytes, end);
    }
    let others = others_at::<C>(bytes, at);
    if others != 0 {
        return Some(RunEnd {
            at: at + before_first(others),
            others,
        });
    }
    let end = bytes_end_beyond::<C>(bytes, at + 16);
    some_end(bytes, end)
}

/// Returns the offset of the first byte of a text from `at` on that is not in the set, if there is one. The caller can read that
/// byte without another test.
#[inline(always)]
pub fn find_other<C: ByteSet>(text: &str, at: usize) -> Option<usize>
    requires { at ≤ length text.now }
    ensures { IfSome result (StopsSet C.test text.entry.now at) }
{
    let run = find_run::<C>(text, at)?;
    Some(run.at)
}

/// Returns the end of the bytes of the set after the byte at which `run` ends. The run starts at `at`. Most ends are among the
/// sixteen bytes that were tested for the run.
#[inline(always)]
pub fn skip_second<C: ByteSet>(text: &str, at: usize, run: RunEnd) -> usize
    requires { EndsRun C.test text.now at run }
    ensures { EndsSet C.test text.now (run.at + 1) result }
{
    let rest = run.others & run.others.wrapping_sub(1);
    if rest == 0 {
        return skip_set::<C>(text, run.at + 1);
    }
    at + before_first(rest)
}

/// Returns the end of the bytes of the set in a text from `at` on. Most ends are among the first sixteen bytes, tested in line.
#[inline(always)]
pub fn skip_set<C: ByteSet>(text: &str, at: usize) -> usize
    requires { at ≤ length text.now }
    ensures { EndsSet C.test text.now at result }
{
    let bytes = text.as_bytes();
    if bytes.len() - at < 16 {
        return short_end::<C>(bytes, at);
    }
    let others = others_at::<C>(bytes, at);
    if others != 0 {
        return at + before_first(others);
    }
    bytes_end_beyond::<C>(bytes, at + 16)
}

/// Like `skip_set`, but each 239 that 191 does not follow is passed too, unless it is among the last bytes. It is out of line, for
/// texts that have such a byte: others are searched by `skip_set`.
#[inline(never)]
pub fn skip_eased<C: ByteSet>(text: &str, at: usize) -> usize
    requires { at ≤ length text.now }
    ensures { EndsEased C.test text.now at result }
{
    let bytes = text.as_bytes();
    let mut block = at;
    while block + 17 <= bytes.len() {
        let others = C::others(eased_at(bytes, block));
        if others != 0 {
            let count = before_first(others);
            return block + count;
        }
        block += 16;
    }
    short_end::<C>(bytes, block)
}

/// Returns whether an ASCII byte is at `at`, or no byte is.
#[inline(always)]
fn is_ascii_at(text: &str, at: usize) -> bool
    ensures ascii { result ≡ true → at < length text.now → slice_index text.now at < 128 }
    ensures wide { result ≡ false → (at < length text.now) × (128 ≤ slice_index text.now at) }
{
    let bytes = text.as_bytes();
    at >= bytes.len() || bytes[at] < 128
}

/// Returns the end of the part of a name that starts at `at`.
#[inline(always)]
pub fn part_end(text: &str, at: usize) -> usize
    requires { IsCharBoundary text.now at }
    ensures { Finds text.now at result (run_end spec.is_part_char text.now at) }
{
    let near = skip_set::<PartByte>(text, at);
    part_end_beyond(text, at, near)
}

/// Like `part_end`, beyond the first ASCII bytes of the part, which are known to end at `near`.
#[inline(always)]
pub fn part_end_beyond(text: &str, at: usize, near: usize) -> usize
    requires { EndsNear text.now at near }
    ensures { Finds text.now at result (run_end spec.is_part_char text.now at) }
{
    if is_ascii_at(text, near) {
        return near;
    }
    run_end::<PartChar>(text, at)
}
