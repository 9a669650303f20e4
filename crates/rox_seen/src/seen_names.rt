//! A filter for the local names of a tag's attributes: it spares most of them a comparison with those before.

ghost use Rattle.std.specs.Prelude.{◌≡◌, ◌+◌, ◌-◌, ◌^◌, ◌<◌, ◌≤◌, min, nat_lt, length, replicate, None, bytes_eq, false};
ghost use Rattle.rox_rows.specs.Rows.{attribute_rows};
ghost use Rattle.rox_seen.specs.SeenNames.{most_again, name_sum, AreSeen, PutsCode, SeesAll, TellsSeen, name_code};

use crate::recent_values::RecentValues;
use rox_compare::compare::{WORD, word_at};
use rox_rows::attributes::AttributeTable;

/// What is kept of attributes while tags are read. Of a tag: where its attributes begin in the table, and which codes their names
/// have. The codes of the first four are recorded with the fifth; until then `codes` has those of an earlier tag. Of all tags,
/// for the fast path: where prefixes were found, the values stored for sharing, and whether memory was refused.
#[derive(Drop)]
pub struct SeenNames {
    pub from: usize,
    /// A bit for each code.
    pub codes: [u64; CODES / WIDTH],
    /// How many names had a code that was recorded.
    pub again: usize,
    /// Where prefixes were found among the places of their scopes, in all tags. `prefix_cache.rt` of `rox_attributes` says how.
    pub near: usize,
    /// The owned values stored for sharing, of all tags; `None` before there is one.
    pub values: Option<Box<RecentValues>>,
    /// Whether memory was refused for what the fast path wanted to put.
    pub lacking: bool,
}

/// If more codes repeat, the fast path leaves a tag to the general step, which may put its names into a set. So many repeat in
/// tags of hundreds of attributes, and among names chosen to have equal codes.
const MOST_AGAIN: usize = 32;

/// The number of codes.
const CODES: usize = 1024;

/// The number of codes that a word has bits for.
const WIDTH: usize = 64;

/// The most attributes of a tag for which no codes are recorded: most tags have no more.
const WITHOUT_CODES: usize = 4;

/// The factor for the sum of a name's bytes: 2^64 divided by the golden ratio, which scatters sums that are close to one another.
const SCATTER: u64 = 0x9E3779B97F4A7C15;

/// Returns the number that a name's code is made of: it depends on the length, the first bytes and the last.
#[inline(always)]
#[tactic(auto, unfolding(crate::specs::SeenNames::name_sum))]
fn name_sum(bytes: &[u8]) -> u64
    ensures { result ≡ name_sum bytes.now }
{
    let count = bytes.len();
    if count >= WORD {
        let last = word_at(bytes, count - WORD);
        return word_at(bytes, 0) + last * 5 + count as u64;
    }
    if count == 0 {
        return 0;
    }
    let middle = bytes[count / 2] as u64;
    let last = bytes[count - 1] as u64;
    bytes[0] as u64 + middle * 256 + last * 65536 + count as u64
}

/// Returns the code of a local name: equal names have equal codes, and most others do not.
#[inline(always)]
#[tactic(auto, unfolding(crate::specs::SeenNames::name_code))]
fn name_code(local: &str) -> usize
    ensures is { result ≡ name_code local.now }
    ensures within { result < 1024 }
{
    (name_sum(local.as_bytes()).wrapping_mul(SCATTER) >> 54) as usize
}

/// Returns whether two names have the same length, first byte and last byte. Equal names do, and most others do not.
#[inline(always)]
fn look_same(one: &str, other: &str) -> bool
    ensures { result ≡ false → bytes_eq one.entry.now other.entry.now ≡ false }
{
    let (one, other) = (one.as_bytes(), other.as_bytes());
    let count = one.len();
    if count != other.len() {
        return false;
    }
    count == 0 || one[0] == other[0] && one[count - 1] == other[count - 1]
}

impl SeenNames {
    /// Returns the filter for a tag whose attributes begin at the row `from` of the table, without codes.
    #[inline(always)]
    pub fn new(from: usize) -> SeenNames
        ensures from { result.from ≡ from }
        ensures others { result
            ≡ record {
              from = result.from;
              codes = replicate 16 0;
              again = 0;
              near = 0;
              values = None;
              lacking = false;
            } }
    {
        SeenNames {
            from,
            codes: [0; CODES / WIDTH],
            again: 0,
            near: 0,
            values: None,
            lacking: false,
        }
    }

    /// Begins a tag whose attributes begin at the row `from` of the table. The codes stay, as most tags need none.
    #[inline(always)]
    pub fn begin(&mut self, from: usize)
        ensures from { self.new.from ≡ from }
        ensures others { self.new ≡ record self.old { from = self.new.from; again = 0 } }
    {
        self.from = from;
        self.again = 0;
    }

    /// Records a name. Returns whether a name with its code was recorded before.
    #[inline(always)]
    pub fn put(&mut self, local: &str) -> bool
        ensures { PutsCode self.old self.new local.now result }
    {
        let code = name_code(local);
        let bits = self.codes[code / WIDTH];
        let bit = code % WIDTH;
        self.codes[code / WIDTH] = bits | (1 << bit);
        (bits >> bit) & 1 == 1
    }

    /// Records the names of the attributes of the tag, which are four, and no others.
    #[cold]
    #[inline(never)]
    fn put_first(&mut self, attributes: &AttributeTable<'_>)
        requires { self.old.from + 4 ≡ length (attribute_rows attributes.now) }
        ensures { SeesAll self.old self.new (attribute_rows attributes.now) }
    {
        self.codes = [0; CODES / WIDTH];
        let from = self.from;
        self.put(attributes.items[from].local);
        self.put(attributes.items[from + 1].local);
        self.put(attributes.items[from + 2].local);
        self.put(attributes.items[from + 3].local);
    }

    /// Like `put_first`, but does nothing if the tag has more than four attributes: their names are recorded already.
    #[inline(always)]
    fn put_few(&mut self, attributes: &AttributeTable<'_>)
        requires seen { AreSeen self.old (attribute_rows attributes.now) }
        requires four { self.old.from + 4 ≤ length (attribute_rows attributes.now) }
        ensures { SeesAll self.old self.new (attribute_rows attributes.now) }
    {
        if attributes.items.len() - self.from == WITHOUT_CODES {
            self.put_first(attributes);
        }
    }

    /// Returns false only if no attribute of the tag has the local name `local`. From the fifth attribute on, compares codes and
    /// records that of `local`. Up to the fourth, compares `local` with the names before it.
    #[inline(always)]
    pub fn may_have(&mut self, attributes: &AttributeTable<'_>, local: &str) -> bool
        requires { AreSeen self.old (attribute_rows attributes.now) }
        ensures { TellsSeen self.old self.new (attribute_rows attributes.now) local.now result }
    {
        let count = attributes.items.len() - self.from;
        if count == 0 {
            return false;
        }
        if count < WITHOUT_CODES {
            if look_same(attributes.items[self.from].local, local) {
                return true;
            }
            if count == 1 {
                return false;
            }
            if look_same(attributes.items[self.from + 1].local, local) {
                return true;
            }
            return count > 2 && look_same(attributes.items[self.from + 2].local, local);
        }
        self.put_few(attributes);
        self.put(local)
    }

    /// Counts a name whose code was recorded.
    #[inline(always)]
    pub fn count_again(&mut self)
        ensures { self.new ≡ record self.old { again = min (self.old.again + 1) (2 ^ 64 - 1) } }
    {
        self.again = self.again.saturating_add(1);
    }

    /// Returns whether so many codes repeat that a set is faster.
    #[inline(always)]
    pub fn are_many_again(&self) -> bool
        ensures { result ≡ nat_lt most_again self.now.again }
    {
        self.again > MOST_AGAIN
    }
}
