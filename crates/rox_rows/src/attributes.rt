//! The table of attributes.

ghost use Rattle.std.specs.Prelude.{◌≡◌, ◌<◌, ◌≤◌, ◌+◌, ◌-◌, ◌∷◌, [], true, false, length, take, vec_len, vec_capacity, is_ok};
ghost use Rattle.rox_rows.specs.StoredAttributes.{AreNumbered, AreNumbered-prop, TakesBack, explicit_count, own_place, owned_places};
ghost use Rattle.std.proofs.Props.{props};
ghost use Rattle.rox_rows.specs.Puts.{Puts};
ghost use Rattle.rox_rows.specs.CompactPlaces.{IsCompact};

use crate::row::{AttributeData, AttributePlaces};
use crate::stored_attribute::{EXPLICIT, StoredAttribute, compact_before};
use rox_growth::growth::{make_room, push, reserve, trim, with_room};
use rox_storage::storage::{StringStorage, is_owned};
use std::alloc::{AllocError, Global};
use std::mem::ManuallyDrop;

/// The attributes of all elements, in document order.
pub struct AttributeTable<'input> {
    pub items: Vec<StoredAttribute<'input>>,
    /// The explicit offsets: those that do not follow from the start of their attribute, in document order.
    pub explicit: Vec<AttributePlaces>,
    /// The rows whose values are owned, in order. They are few: so dropping the table need not visit each row.
    pub owned: Vec<usize>,
    /// The length of the text in bytes.
    pub text_end: usize,
    /// The number of attributes the first growth makes room for, unless it is below `FEWEST`.
    pub first: usize,
    /// Whether a growth was refused. No growth is then tried again, so that no refusal is passed over.
    pub refused: bool,
    pub ghost numbered: { AreNumbered 0 items.items } by { AreNumbered-prop 0 items.items },
    pub ghost listed: { owned_places 0 items.items ≡ owned.items } by { Prim.hlevel props },
    pub ghost counted: { length explicit.items ≡ explicit_count items.items },
}

/// The number of attributes a table gets room for first if memory for more is refused.
const FEWEST: usize = 4;

/// Frees the value of a row.
fn free_value(row: &mut StoredAttribute<'_>) {
    let value = ManuallyDrop::new(StringStorage::Borrowed(""));
    let _freed = ManuallyDrop::into_inner(std::mem::replace(&mut row.value, value));
}

/// Returns how many of the rows have explicit offsets.
fn count_explicit(rows: &[StoredAttribute<'_>]) -> usize
    ensures { result ≡ explicit_count rows.now }
{
    let mut count = 0;
    for row in rows {
        if row.has_explicit_places() {
            count += 1;
        }
    }
    count
}

/// Appends `count`, the next row's index, to `owned` if `value` is owned. Returns false, with `owned` unchanged, if memory is
/// refused, which sets `refused`, or was before.
#[inline(always)]
fn note(owned: &mut Vec<usize>, refused: &mut bool, value: &StringStorage<'_>, count: usize) -> bool
    ensures { Puts (own_place value.now count) result owned.old.items owned.new.items }
{
    if is_owned(value) {
        if !*refused {
            *refused = push(owned, count).is_err();
        }
        return !*refused;
    }
    true
}

/// Removes the last row and frees its value.
fn take_last(items: &mut Vec<StoredAttribute<'_>>, owned: &mut Vec<usize>)
    ensures taken { TakesBack (vec_len items.old - 1) items.old.items items.new.items
        owned.old.items owned.new.items }
    ensures count { vec_len items.new ≡ vec_len items.old - 1 }
{
    if let Some(row) = items.pop() {
        let value = ManuallyDrop::into_inner(row.value);
        if is_owned(&value) {
            let _place = owned.pop();
        }
    }
}

/// Removes the rows after the first `count` and frees their values.
fn take_back(items: &mut Vec<StoredAttribute<'_>>, owned: &mut Vec<usize>, count: usize)
    requires { count ≤ vec_len items.old }
    ensures { TakesBack count items.old.items items.new.items owned.old.items owned.new.items }
{
    while items.len() > count {
        take_last(items, owned);
    }
}

impl Drop for AttributeTable<'_> {
    fn drop(self) {
        let AttributeTable {
            mut items,
            explicit: _,
            owned,
            text_end: _,
            first: _,
            refused: _,
        } = self;
        for place in &owned {
            if let Some(row) = items.get_mut(*place) {
                free_value(row);
            }
        }
    }
}

impl<'input> AttributeTable<'input> {
    ghost use Rattle.rox_rows.specs.Rows.{attribute_rows};
    ghost use Rattle.rox_rows.specs.StoredAttributes.{places_in, place_bound};
    ghost use Rattle.rox_rows.specs.AttributeChanges.{MakesAttributeRoom};

    /// Returns a table without attributes for a text of `bytes` bytes, which is to have `room` of them.
    pub fn of_text(alloc: Global, bytes: usize, room: usize) -> AttributeTable<'input>
        ensures { attribute_rows result ≡ [] }
    {
        AttributeTable {
            items: with_room(alloc, room),
            explicit: Vec::new(alloc),
            owned: Vec::new(alloc),
            text_end: bytes,
            first: room,
            refused: false,
        }
    }

    /// Returns the number of attributes.
    #[inline]
    pub fn len(&self) -> usize
        ensures { result ≡ length (attribute_rows self.now) }
    {
        self.items.len()
    }

    /// Returns the offsets of an attribute of this table.
    #[inline]
    pub fn places(&self, row: &StoredAttribute<'input>) -> AttributePlaces
        requires { place_bound row.now ≤ length self.now.explicit.items }
        ensures { result ≡ places_in self.now.explicit.items row.now }
    {
        if row.has_explicit_places() {
            self.explicit[row.place as usize]
        } else {
            row.compact_places()
        }
    }

    /// Makes room for more attributes, estimated from those that there are. The next attribute ends at `place`. After one refusal
    /// every call fails.
    #[cold]
    #[inline(never)]
    fn make_room(&mut self, place: usize) -> Result<(), AllocError>
        ensures { MakesAttributeRoom self.old self.new result }
    {
        if self.refused {
            return Err(AllocError);
        }
        let made = if self.items.is_empty() {
            reserve(&mut self.items, self.first.max(FEWEST), FEWEST)
        } else {
            make_room(&mut self.items, place, self.text_end)
        };
        self.refused = made.is_err();
        made
    }

    /// Returns whether there is room for one more attribute, which ends at `place`. If there was none, tries to make it.
    #[inline(always)]
    pub fn has_room(&mut self, place: usize) -> bool
        ensures rows { attribute_rows self.new ≡ attribute_rows self.old }
        ensures room { result ≡ true → vec_len self.new.items < vec_capacity self.new.items }
    {
        if !self.is_full() {
            return true;
        }
        self.make_room(place).is_ok()
    }

    /// Appends a compact attribute, whose offsets follow from its start. `before` bytes of its name are before the local part.
    /// Returns false, with the table unchanged, if memory is refused.
    #[inline(always)]
    pub fn put_compact(
        &mut self,
        item: AttributeData<'input>,
        places: AttributePlaces,
        before: u8,
    ) -> bool
        requires room { vec_len self.old.items < vec_capacity self.old.items }
        requires compact { IsCompact item places before }
        ensures { Puts ((item.entry, places) ∷ []) result (attribute_rows self.old)
            (attribute_rows self.new) }
    {
        let place = self.items.len();
        if !note(&mut self.owned, &mut self.refused, &item.value, place) {
            return false;
        }
        let row = StoredAttribute::new(item, before, places.start as u32);
        self.items.push_reserved(row);
        true
    }

    /// Appends an attribute of any offsets. Returns false, with the table unchanged, if there is no room for it or for them, or
    /// if memory is refused.
    #[inline(always)]
    fn put_explicit(&mut self, item: AttributeData<'input>, places: AttributePlaces) -> bool
        ensures { Puts ((item.entry, places) ∷ []) result (attribute_rows self.old)
            (attribute_rows self.new) }
    {
        let number = self.explicit.len();
        if self.is_full() || number >= self.explicit.capacity() || number > u32::MAX as usize {
            return false;
        }
        let place = self.items.len();
        if !note(&mut self.owned, &mut self.refused, &item.value, place) {
            return false;
        }
        let row = StoredAttribute::new(item, EXPLICIT, number as u32);
        self.items.push_reserved(row);
        self.explicit.push_reserved(places);
        true
    }

    /// Like `put_explicit`, but makes room for the offsets. If memory is refused, the table is unchanged.
    #[cold]
    #[inline(never)]
    fn push_explicit(
        &mut self,
        item: AttributeData<'input>,
        places: AttributePlaces,
    ) -> Result<(), AllocError>
        requires { vec_len self.old.items < vec_capacity self.old.items }
        ensures { Puts ((item.entry, places) ∷ []) (is_ok result) (attribute_rows self.old)
            (attribute_rows self.new) }
    {
        if self.explicit.len() >= self.explicit.capacity() {
            if self.refused {
                return Err(AllocError);
            }
            let made = make_room(&mut self.explicit, places.end, self.text_end);
            self.refused = made.is_err();
            made?;
        }
        if self.put_explicit(item, places) {
            Ok(())
        } else {
            Err(AllocError)
        }
    }

    /// Appends an attribute. Returns false, with the table unchanged, if memory is refused.
    #[inline(always)]
    pub fn put(&mut self, row: (AttributeData<'input>, AttributePlaces)) -> bool
        ensures { Puts (row.entry ∷ []) result (attribute_rows self.old)
            (attribute_rows self.new) }
    {
        let (item, places) = row;
        if !self.has_room(places.end) {
            return false;
        }
        let Some(before) = compact_before(&item, &places) else {
            // This branch has a value of its own, so that the branch of compact attributes keeps its own in registers.
            let explicit = AttributeData {
                local: item.local,
                value: item.value,
                namespace: item.namespace,
            };
            if self.explicit.len() < self.explicit.capacity() {
                return self.put_explicit(explicit, places);
            }
            return self.push_explicit(explicit, places).is_ok();
        };
        self.put_compact(item, places, before)
    }

    /// Returns whether there is no room for one more row.
    #[inline(always)]
    pub fn is_full(&self) -> bool
        ensures { result ≡ false → vec_len self.now.items < vec_capacity self.now.items }
    {
        self.items.capacity() <= self.items.len()
    }

    /// Removes the attributes after the first `count`.
    #[cold]
    #[inline(never)]
    pub fn truncate(&mut self, count: usize)
        ensures { attribute_rows self.new ≡ take count (attribute_rows self.old) }
    {
        if count >= self.items.len() {
            return;
        }
        let taken = count_explicit(&self.items[count..]);
        let places = self.explicit.len() - taken;
        take_back(&mut self.items, &mut self.owned, count);
        self.explicit.truncate(places);
    }

    /// Gives back the spare room of both tables if there is much of it.
    pub fn trim(&mut self)
        ensures { attribute_rows self.new ≡ attribute_rows self.old }
    {
        trim(&mut self.items);
        trim(&mut self.explicit);
    }
}
