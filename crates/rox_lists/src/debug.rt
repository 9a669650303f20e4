//! The debug text of the two iterators.

ghost use Rattle.std.specs.Iterator.{IsFinite};

use std::fmt;

/// Prints what an iterator has left, as a list in parentheses, after a text that ends with the opening one.
pub(crate) fn write_list<T: fmt::Debug + Drop, I: Iterator<Item = T>, W: fmt::Write>(
    f: &mut fmt::Formatter<W>,
    start: &str,
    items: I,
) -> fmt::Result
    requires can { I.can_next items }
    requires finite { IsFinite (I.remaining items) }
{
    f.write_str(start)?;
    f.debug_list().entries(items).finish()?;
    f.write_str(")")
}
