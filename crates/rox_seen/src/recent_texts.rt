//! Owned texts that repeat, such as the indentation of a text whose lines end with a carriage return and a line feed. A text shares
//! its storage if it equals the last one of its length.

ghost use Rattle.std.specs.Prelude.{◌≡◌, ◌<◌, IfOk, IfSome, OnOk, vec_len};
ghost use Rattle.std.specs.Rc.{rc_str_bytes};
ghost use Rattle.rox_storage.specs.Storage.{IsOwnText};

use rox_compare::compare::same_line_end;
use rox_storage::storage::StringStorage;
use std::alloc::{AllocError, Global};
use std::rc::RcStr;

/// Texts of this length in bytes, or longer, are not stored for sharing.
pub const LONG: usize = 64;

/// The number of texts passed over before one is stored. A document that has one owned text does without the table of places.
const FEW: u32 = 1;

/// The last owned text of each place.
#[derive(Drop)]
pub struct Recent {
    /// Indexed by place: that of a text is its length. It has no more places than needed.
    texts: Vec<Option<RcStr>>,
    /// The number of texts passed over.
    passed: u32,
}

impl Recent {
    /// Returns a table without texts.
    pub fn new(alloc: Global) -> Recent {
        Recent {
            texts: Vec::new(alloc),
            passed: 0,
        }
    }

    /// Returns a text that shares the storage of the one stored at this place, if that equals `text`. Otherwise, or if it is
    /// shared too often to be counted, returns `None`.
    #[inline(always)]
    pub(crate) fn again(&self, place: usize, text: &str) -> Option<RcStr>
        ensures { IfSome result (λ t. rc_str_bytes t ≡ text.now) }
    {
        let Some(Some(kept)) = self.texts.get(place) else {
            return None;
        };
        if same_line_end(kept.as_str(), text) {
            return kept.clone().ok();
        }
        None
    }

    /// Returns an owned text that shares its storage with the last text of its length, if that equals `text`. Also returns `None`
    /// if that is shared too often to be counted.
    #[inline(always)]
    pub fn shared<'input>(&self, text: &str) -> Option<StringStorage<'input>>
        ensures { IfSome result (IsOwnText text.now) }
    {
        let again = self.again(text.len(), text)?;
        Some(StringStorage::Owned(again))
    }

    /// Returns an owned text of the bytes of `text`. It shares its storage with the last text of its length if both are equal.
    #[inline(always)]
    pub fn owned<'input>(
        &mut self,
        alloc: Global,
        text: &str,
    ) -> Result<StringStorage<'input>, AllocError>
        ensures { IfOk result (IsOwnText text.now) }
    {
        if let Some(shared) = self.shared(text) {
            return Ok(shared);
        }
        self.owned_unshared(alloc, text)
    }

    /// Like `owned`, but the storage is not shared with an earlier text.
    #[inline(never)]
    fn owned_unshared<'input>(
        &mut self,
        alloc: Global,
        text: &str,
    ) -> Result<StringStorage<'input>, AllocError>
        ensures { IfOk result (IsOwnText text.now) }
    {
        let owned = RcStr::from_str(alloc, text)?;
        if text.len() < LONG {
            self.keep(&owned, text.len() as u8)?;
        }
        Ok(StringStorage::Owned(owned))
    }

    /// Stores a text at this place, unless it is one of the first `FEW`.
    pub(crate) fn keep(&mut self, text: &RcStr, place: u8) -> Result<(), AllocError> {
        if self.passed < FEW {
            self.passed += 1;
            return Ok(());
        }
        self.make_places(place)?;
        let copy = text.clone()?;
        if let Some(last) = self.texts.get_mut(place as usize) {
            *last = Some(copy);
        }
        Ok(())
    }

    /// Makes the places up to this one, if it is not there.
    fn make_places(&mut self, place: u8) -> Result<(), AllocError>
        ensures { OnOk result (place < vec_len self.new.texts) }
    {
        let count = place as usize + 1;
        if self.texts.len() < count {
            self.texts.resize_with(count, || None)?;
        }
        Ok(())
    }
}
