//! An attribute as its table stores it.

ghost use Rattle.std.specs.Prelude.{◌≡◌, ◌==◌, ◌<◌, ◌+◌, ◌^◌, length, IfSome, false};
ghost use Rattle.std.specs.Mem.{manually_drop_value};
ghost use Rattle.rox_storage.specs.Storage.{storage_bytes};
ghost use Rattle.rox_rows.specs.CompactPlaces.{IsCompact, compact_places};

use crate::row::{AttributeData, AttributeNamespace, AttributePlaces};
use rox_storage::storage::StringStorage;
use std::mem::ManuallyDrop;

/// The kind of namespace that the name of an attribute has.
#[derive(Clone, Copy)]
pub enum NamespaceKind {
    None,
    /// The namespace of the prefix `xml`.
    Xml,
    /// One of the table of namespaces.
    Listed,
}

/// An attribute in its table: 48 bytes. Most are compact: written as `a="b"`, so that their offsets follow from their start.
#[derive(Drop)]
pub struct StoredAttribute<'input> {
    /// The bytes of the name before its local part: the prefix and the colon. `EXPLICIT` if the offsets do not follow.
    pub before: u8,
    pub kind: NamespaceKind,
    /// The index in the table of namespaces if `kind` is `Listed`.
    pub listed: u16,
    /// The start of the attribute in bytes. For one with explicit offsets, the index of these in their table.
    pub place: u32,
    pub local: &'input str,
    /// The value is not dropped with the row: the table frees the owned ones.
    pub value: ManuallyDrop<StringStorage<'input>>,
    pub ghost ends: { before < 255 → place + before + length local.now + length (storage_bytes (manually_drop_value value)) + 3 < 2 ^ 64 },
}

/// The value of `before` in a row whose offsets do not follow from the start.
pub const EXPLICIT: u8 = 255;

impl<'input> StoredAttribute<'input> {
    ghost use Rattle.rox_rows.specs.StoredAttributes.{data_of};

    /// Returns the row of an attribute.
    #[inline(always)]
    pub(crate) fn new(
        item: AttributeData<'input>,
        before: u8,
        place: u32,
    ) -> StoredAttribute<'input>
        requires { before < 255
            → place + before + length item.local.now + length (storage_bytes item.value) + 3
            < 2 ^ 64 }
        ensures is { data_of result ≡ item.entry }
        ensures before_is { result.before ≡ before }
        ensures place_is { result.place ≡ place }
    {
        let (kind, listed) = match item.namespace {
            AttributeNamespace::None => (NamespaceKind::None, 0),
            AttributeNamespace::Xml => (NamespaceKind::Xml, 0),
            AttributeNamespace::Listed(place) => (NamespaceKind::Listed, place),
        };
        StoredAttribute {
            before,
            kind,
            listed,
            place,
            local: item.local,
            value: ManuallyDrop::new(item.value),
        }
    }

    /// Returns the namespace of the attribute's name.
    #[inline]
    pub fn namespace(&self) -> AttributeNamespace
        ensures { result ≡ (data_of self.now).namespace }
    {
        match self.kind {
            NamespaceKind::None => AttributeNamespace::None,
            NamespaceKind::Xml => AttributeNamespace::Xml,
            NamespaceKind::Listed => AttributeNamespace::Listed(self.listed),
        }
    }

    /// Returns whether the offsets do not follow from the start.
    #[inline]
    pub(crate) fn has_explicit_places(&self) -> bool
        ensures explicit { result ≡ (self.now.before == 255) }
        ensures compact { result ≡ false → self.now.before < 255 }
    {
        self.before == EXPLICIT
    }

    /// Returns the offsets of a compact attribute.
    #[inline]
    pub(crate) fn compact_places(&self) -> AttributePlaces
        requires { self.now.before < 255 }
        ensures { result ≡ compact_places self.now.place self.now.before (length self.now.local.now)
            (length (storage_bytes (manually_drop_value self.now.value))) }
    {
        let start = self.place as usize;
        let name_end = start + self.before as usize + self.local.len();
        let value_start = name_end + 2;
        let end = value_start + self.value.as_str().len() + 1;
        AttributePlaces {
            start,
            name_end,
            value_start,
            end,
        }
    }
}

/// Returns the number of bytes before the local part if all offsets follow from it and the start; otherwise `None`. They follow
/// if no white space surrounds `=` and the value has its written length.
#[inline(always)]
pub(crate) fn compact_before(item: &AttributeData<'_>, places: &AttributePlaces) -> Option<u8>
    ensures { IfSome result (IsCompact item.now places.now) }
{
    let name = places.name_end.checked_sub(places.start)?;
    let before = name.checked_sub(item.local.len())?;
    let gap = places.value_start.checked_sub(places.name_end)?;
    let value = places.end.checked_sub(places.value_start)?;
    if places.start > u32::MAX as usize || before >= EXPLICIT as usize || gap != 2 {
        return None;
    }
    if value != item.value.as_str().len() + 1 {
        return None;
    }
    Some(before as u8)
}
