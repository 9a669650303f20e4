//! An attribute of a start tag as it is read from the text.

ghost use Rattle.std.specs.Prelude.{◌≡◌, ◌<◌, ◌+◌, ◌^◌, length};
ghost use Rattle.rox_rows.specs.CompactPlaces.{compact_places};

use rox_grammar::name::QName;
use rox_rows::row::AttributePlaces;
use rox_storage::storage::StringStorage;

/// An attribute of the tag that is being read, whose namespace is not known yet.
#[derive(Drop)]
pub struct UnresolvedAttribute<'input> {
    pub start: usize,
    pub name_end: usize,
    pub value_start: usize,
    pub end: usize,
    pub name: QName<'input>,
    pub value: StringStorage<'input>,
    pub ghost placed: { start < 2 ^ 63 },
}

/// A compact attribute, as most are: its offsets follow from its start. `=` and its quote are directly after its name, and its
/// value needs no replacement.
#[derive(Clone, Copy)]
pub struct CompactAttribute<'input> {
    pub start: u32,
    /// The bytes of the name before its local part: the prefix and the colon.
    pub before: u8,
    pub local: &'input str,
    pub value: &'input str,
    pub ghost compact: { before < 255 },
    pub ghost ends: { start + before + length local.now + length value.now + 3 < 2 ^ 64 },
}

impl<'input> CompactAttribute<'input> {
    /// Returns its offsets.
    #[inline(always)]
    pub(crate) fn places(self) -> AttributePlaces
        ensures { result ≡ compact_places self.entry.start self.entry.before
            (length self.entry.local.now) (length self.entry.value.now) }
    {
        let start = self.start as usize;
        let name_end = start + self.before as usize + self.local.len();
        let value_start = name_end + 2;
        let end = value_start + self.value.len() + 1;
        AttributePlaces {
            start,
            name_end,
            value_start,
            end,
        }
    }
}
