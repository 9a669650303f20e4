//! Owned values of attributes that repeat. A value shares its storage if it equals the last one of its place: a made value (see
//! `place_of`) until most of the values have differed (see `MOST_MISSED`), and the replacement text of an entity that is all of a
//! value.

ghost use Rattle.std.specs.Prelude.{IfOk, IfSome, string_bytes};
ghost use Rattle.rox_storage.specs.Storage.{IsOwnText};

use crate::recent_texts::{LONG, Recent};
use rox_storage::storage::StringStorage;
use std::alloc::{AllocError, Global};
use std::rc::RcStr;

/// If `missed` gets this high, no more made values are looked for or stored: most of those in the document differ.
const MOST_MISSED: u32 = 512;

/// A made value with an equal stored one makes up for this many without one.
const MADE_UP: u32 = 8;

/// The number of places for replacement texts.
const PLACES: usize = 256;

/// Replacement texts begin at least this many bytes apart: `<!ENTITY a ""` is between them.
const NEAREST: usize = 13;

/// Returns the place of a made value shorter than `LONG` bytes, below `LONG`. It depends on the length and two bytes: most values
/// that differ have different places. Values of one length differ more often than texts of one length do.
fn place_of(text: &str) -> u8 {
    let bytes = text.as_bytes();
    if bytes.is_empty() {
        return 0;
    }
    let middle = bytes[bytes.len() / 2] as usize;
    ((bytes.len() + bytes[0] as usize * 3 + middle * 7) % LONG) as u8
}

/// Returns `text` as an owned text of its own storage.
#[inline(always)]
fn own<'input>(text: String) -> Result<StringStorage<'input>, AllocError>
    ensures { IfOk result (IsOwnText (string_bytes text)) }
{
    Ok(StringStorage::Owned(RcStr::from_string(text)?))
}

/// Returns a made value as an owned text, which shares its storage with an equal stored one. The tables are allocated with the
/// first value shorter than `LONG` bytes. Returns `None` if memory is refused.
#[inline(always)]
pub fn owned_value<'input>(
    alloc: Global,
    recent: &mut Option<Box<RecentValues>>,
    text: String,
) -> Option<StringStorage<'input>>
    ensures { IfSome result (IsOwnText (string_bytes text)) }
{
    if text.len() < LONG {
        return short_value(alloc, recent, text);
    }
    own(text).ok()
}

/// Makes the tables if there are none. Returns false if memory is refused.
#[inline(always)]
fn has_tables(alloc: Global, recent: &mut Option<Box<RecentValues>>) -> bool {
    if recent.is_none() {
        let Ok(first) = Box::new(alloc, RecentValues::new(alloc)) else {
            return false;
        };
        *recent = Some(first);
    }
    true
}

/// Like `owned_value`, but for a value shorter than `LONG` bytes, which may share its storage.
#[inline(never)]
fn short_value<'input>(
    alloc: Global,
    recent: &mut Option<Box<RecentValues>>,
    text: String,
) -> Option<StringStorage<'input>>
    ensures { IfSome result (IsOwnText (string_bytes text)) }
{
    if !has_tables(alloc, recent) {
        return None;
    }
    let Some(kept) = recent else {
        return None;
    };
    kept.share(text).ok()
}

/// Returns `text`, the replacement text of an entity that is at `at` in its source, as an owned text. It shares its storage with
/// the last one of its place if both are equal. Entities that are less than 3 KB apart have different places. Returns `None` if
/// memory is refused.
#[inline(never)]
pub fn owned_replacement<'input>(
    alloc: Global,
    recent: &mut Option<Box<RecentValues>>,
    text: &str,
    at: usize,
) -> Option<StringStorage<'input>>
    ensures { IfSome result (IsOwnText text.now) }
{
    if !has_tables(alloc, recent) {
        return None;
    }
    let Some(kept) = recent else {
        return None;
    };
    let place = (at / NEAREST % PLACES) as u8;
    kept.replacement(alloc, text, place).ok()
}

/// The last owned values of each place.
#[derive(Drop)]
pub struct RecentValues {
    made: Recent,
    /// The number of made values without an equal stored one that no other value made up for.
    missed: u32,
    /// The replacement texts of entities, by where they are in their sources.
    replacements: Recent,
}

impl RecentValues {
    /// Returns tables without values.
    fn new(alloc: Global) -> RecentValues {
        RecentValues {
            made: Recent::new(alloc),
            missed: 0,
            replacements: Recent::new(alloc),
        }
    }

    /// Returns a made value shorter than `LONG` bytes as an owned text. It shares its storage with the one stored at its place if
    /// both are equal.
    fn share<'input>(&mut self, text: String) -> Result<StringStorage<'input>, AllocError>
        ensures { IfOk result (IsOwnText (string_bytes text)) }
    {
        if self.missed >= MOST_MISSED {
            return own(text);
        }
        let place = place_of(text.as_str());
        if let Some(again) = self.made.again(place as usize, text.as_str()) {
            self.missed = self.missed.saturating_sub(MADE_UP);
            return Ok(StringStorage::Owned(again));
        }
        self.missed += 1;
        let owned = RcStr::from_string(text)?;
        self.made.keep(&owned, place)?;
        Ok(StringStorage::Owned(owned))
    }

    /// Returns an owned text of the bytes of `text`, a replacement text. It shares its storage with the one stored at this place if
    /// both are equal.
    #[inline(always)]
    fn replacement<'input>(
        &mut self,
        alloc: Global,
        text: &str,
        place: u8,
    ) -> Result<StringStorage<'input>, AllocError>
        ensures { IfOk result (IsOwnText text.now) }
    {
        if let Some(again) = self.replacements.again(place as usize, text) {
            return Ok(StringStorage::Owned(again));
        }
        let owned = RcStr::from_str(alloc, text)?;
        self.replacements.keep(&owned, place)?;
        Ok(StringStorage::Owned(owned))
    }
}
