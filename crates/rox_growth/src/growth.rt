//! The growth of tables. `make_room` estimates from the part of the text already read how many rows the whole text gives. If a
//! large growth is refused, a smaller one is tried.

ghost use Rattle.std.specs.Prelude.{is_ok, IfOk};
ghost use Rattle.rox_growth.specs.Growth as growth;
ghost use Rattle.rox_growth.specs.Growth.{Pushes};

use std::alloc::{AllocError, Global};

/// Makes room for one more value.
#[cold]
#[inline(never)]
fn grow<T: Drop>(to: &mut Vec<T>) -> Result<(), AllocError>
    ensures { growth.GrowsByOne to.old to.new result }
{
    to.reserve(1)?;
    Ok(())
}

/// Appends a value. If memory is refused, the value is dropped. Unlike the error of `Vec::push`, the error has no room for the
/// value, which would be cleared at each call.
#[inline(always)]
pub fn push<T: Drop>(to: &mut Vec<T>, value: T) -> Result<(), AllocError>
    ensures { Pushes value (is_ok result) to.old to.new }
{
    if to.len() >= to.capacity() {
        grow(to)?;
    }
    to.push_reserved(value);
    Ok(())
}

/// Makes room for one more value, or for `first` values (at least one) in an empty table.
#[cold]
#[inline(never)]
fn grow_first<T: Drop>(to: &mut Vec<T>, first: usize) -> Result<(), AllocError>
    ensures { growth.GrowsByOne to.old to.new result }
{
    if to.is_empty() {
        to.reserve_exact(first.max(1))?;
        return Ok(());
    }
    grow(to)
}

/// Like `push`, but an empty table grows to room for `first` values.
#[inline(always)]
pub fn push_with_room<T: Drop>(to: &mut Vec<T>, value: T, first: usize) -> Result<(), AllocError>
    ensures { Pushes value (is_ok result) to.old to.new }
{
    if to.len() >= to.capacity() {
        grow_first(to, first)?;
    }
    to.push_reserved(value);
    Ok(())
}

/// The largest room, in rows, for which no smaller room is tried: 9.8 KB of rows of nodes or attributes, which are the widest.
const SMALL: usize = 204;

/// Makes room for `more` rows. If that is refused and the table would have more than `SMALL` rows, makes room for `fewer`.
#[inline(always)]
pub fn reserve<T: Drop>(to: &mut Vec<T>, more: usize, fewer: usize) -> Result<(), AllocError>
    ensures { growth.Reserves more fewer to.old to.new result }
{
    if to.reserve_exact(more).is_ok() {
        return Ok(());
    }
    if to.len().saturating_add(more) <= SMALL {
        return Err(AllocError);
    }
    to.reserve_exact(fewer)?;
    Ok(())
}

/// Returns an empty table that is to have `room` rows. If `room` is at most `SMALL`, memory is allocated with the first row
/// instead. If a larger allocation is refused, the table has no room and grows as usual.
#[inline(always)]
pub fn with_room<T: Drop>(alloc: Global, room: usize) -> Vec<T>
    ensures { growth.IsEmptyWith room result }
{
    if room <= SMALL {
        return Vec::new(alloc);
    }
    match Vec::with_capacity(alloc, room) {
        Ok(items) => items,
        Err(_) => Vec::new(alloc),
    }
}

/// Returns an empty table with room for `room` rows. If that is refused and `room` is above `SMALL`, the table has room for
/// `fewer` rows.
#[inline(always)]
pub fn first_room<T: Drop>(alloc: Global, room: usize, fewer: usize) -> Result<Vec<T>, AllocError>
    ensures { IfOk result (growth.HasFirstRoom room fewer) }
{
    if let Ok(table) = Vec::with_capacity(alloc, room) {
        return Ok(table);
    }
    if room > SMALL {
        let table = Vec::with_capacity(alloc, fewer)?;
        return Ok(table);
    }
    Err(AllocError)
}

/// Makes room in a table whose rows the first `place` bytes of a text of `end` bytes gave. The estimate is what the whole text
/// gives if the rest is as dense, an eighth more of the rest, and 8 more.
///
/// The room is at most eight times as many rows as there are, since a dense head says little about the rest. It is at least an
/// eighth and 4 rows more, so that a table is seldom moved. If that is refused and the table would have more than `SMALL` rows,
/// makes room for an eighth more.
#[cold]
#[inline(never)]
pub fn make_room<T: Drop>(to: &mut Vec<T>, place: usize, end: usize) -> Result<(), AllocError>
    ensures { growth.MakesRoom place end to.old to.new result }
{
    let len = to.len();
    let rest = len.saturating_mul(end.saturating_sub(place)) / place.max(1);
    let foretold = len.saturating_add(rest).saturating_add(rest / 8 + 8);
    let least = len + len / 8 + 4;
    let room = foretold.min(len.saturating_mul(8)).max(least);
    reserve(to, room - len, len / 8 + 1)
}

/// The most rows of spare room that stay, 2 KB of rows of nodes: giving back less costs more than it is worth.
const SPARE: usize = 48;

/// Gives back the spare room of a finished table if there is much of it. That is more than `SPARE` rows and more than one row for
/// 64 rows in use.
#[inline]
pub fn trim<T: Drop>(table: &mut Vec<T>)
    ensures { growth.GivesBack table.old table.new }
{
    let len = table.len();
    let spare = table.capacity() - len;
    if spare > SPARE && spare > len / 64 {
        table.shrink_to_fit();
    }
}
