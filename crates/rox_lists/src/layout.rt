//! The lines of the debug text of a document. They are written by many small functions, since the proof of one takes longer the
//! more results it asks about. So most of them take the result of what was written before, and write nothing after an error.

ghost use Rattle.std.specs.Iterator.{IsFinite};

use crate::attributes::Attributes;
use crate::names::ExpandedName;
use crate::namespaces::NamespaceIter;
use std::fmt;

/// What is printed of an element.
#[derive(Drop)]
pub struct ElementParts<'a, 'input> {
    pub tag_name: ExpandedName<'a, 'input>,
    pub attributes: Attributes<'a, 'input>,
    pub namespaces: NamespaceIter<'a, 'input>,
}

/// Prints the names and the attributes of an element, on one line.
impl fmt::Debug for ElementParts<'_, '_> {
    fn fmt<W: fmt::Write>(&self, f: &mut fmt::Formatter<W>) -> fmt::Result {
        f.debug_struct("Element")
            .field("tag_name", &self.tag_name)
            .field("attributes", &self.attributes)
            .field("namespaces", &self.namespaces)
            .finish()
    }
}

/// Prints a kind of node, and its text.
pub fn write_text<W: fmt::Write>(f: &mut fmt::Formatter<W>, kind: &str, text: &str) -> fmt::Result {
    write!(f, "{kind}({text:?})")
}

/// Prints an element that is inside `around` elements, up to its children.
pub fn open_element<W: fmt::Write>(
    f: &mut fmt::Formatter<W>,
    done: fmt::Result,
    around: usize,
    element: ElementParts<'_, '_>,
) -> fmt::Result {
    let done = write_line(f, done, around, 1, "Element {\n");
    let done = write_line(f, done, around, 2, "tag_name: ");
    let done = end_line(f, done, &element.tag_name);
    let done = write_items(f, done, around, "attributes: [\n", element.attributes);
    write_items(f, done, around, "namespaces: [\n", element.namespaces)
}

/// Prints the end of an element, or the start of the list of its children if it has some.
pub fn end_element<W: fmt::Write>(
    f: &mut fmt::Formatter<W>,
    done: fmt::Result,
    around: usize,
    children: bool,
) -> fmt::Result {
    if children {
        return write_line(f, done, around, 2, "children: [\n");
    }
    write_line(f, done, around, 1, "}\n")
}

/// Prints the ends of the open elements, the innermost first, except the `kept` outermost.
pub fn close_elements<W: fmt::Write>(
    f: &mut fmt::Formatter<W>,
    done: fmt::Result,
    kept: usize,
    open: usize,
) -> fmt::Result {
    let mut done = done;
    for around in (kept..open).rev() {
        done = write_line(f, done, around, 2, "]\n");
        done = write_line(f, done, around, 1, "}\n");
    }
    done
}

/// Prints what an element has of one kind, each item on its own line, or nothing if there is none.
fn write_items<T: fmt::Debug + Drop, I: ExactSizeIterator<Item = T>, W: fmt::Write>(
    f: &mut fmt::Formatter<W>,
    done: fmt::Result,
    around: usize,
    start: &str,
    items: I,
) -> fmt::Result
    requires can { I.can_next items }
    requires finite { IsFinite (I.remaining items) }
{
    if items.len() == 0 {
        return done;
    }
    let mut done = write_line(f, done, around, 2, start);
    for item in items {
        done = write_item(f, done, around, 3, &item);
    }
    write_line(f, done, around, 2, "]\n")
}

/// Prints an item on a line of its own.
pub fn write_item<T: fmt::Debug, W: fmt::Write>(
    f: &mut fmt::Formatter<W>,
    done: fmt::Result,
    around: usize,
    steps: usize,
    item: &T,
) -> fmt::Result {
    let done = write_line(f, done, around, steps, "");
    end_line(f, done, item)
}

/// Prints an item and the end of its line.
fn end_line<T: fmt::Debug, W: fmt::Write>(
    f: &mut fmt::Formatter<W>,
    done: fmt::Result,
    item: &T,
) -> fmt::Result {
    done?;
    writeln!(f, "{item:?}")
}

/// Prints a text after eight spaces for each of the elements around it, and four for each step.
pub fn write_line<W: fmt::Write>(
    f: &mut fmt::Formatter<W>,
    done: fmt::Result,
    around: usize,
    steps: usize,
    text: &str,
) -> fmt::Result {
    done?;
    f.write_repeated("        ", around)?;
    f.write_repeated("    ", steps)?;
    f.write_str(text)
}
