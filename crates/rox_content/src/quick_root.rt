//! The root element by the fast path, up to its content. The general step reads a start tag that is not plain, from its `<`.

ghost use Rattle.rox_builder.specs.Readiness.{MayReadTag};
ghost use Rattle.rox_values.specs.DeclaredEntities.{AreMainValues};
ghost use Rattle.rox_content.specs.RootElement.{ReadsRootElement};

use rox_builder::builder::{Builder, ROOM_TO_OPEN};
use rox_rows::row::NodeKind;
use rox_scan::cursor::Cursor;
use rox_tags::root_tag::first_tag;
use rox_values::context::Context;

/// The row of the root node.
const ROOT: u32 = 0;

/// The outcome of the fast path for the start tag of a root element. It is one word, which stays in a register.
#[derive(Clone, Copy)]
pub enum RootLook {
    /// The tag was read, and has its row.
    Read,
    /// Nothing was read: the tag is not plain, or finds no room.
    NotRead,
    /// Memory was refused.
    Lacking,
}

/// Reads the start tag of the root element, from its `<`, if it is plain and its row finds room. Otherwise the tables hold what
/// they held, unless memory was refused.
#[inline(never)]
pub fn root_element<'input>(
    cursor: &mut Cursor<'input>,
    builder: &mut Builder<'input>,
    context: &Context<'_, 'input>,
) -> RootLook
    requires { MayReadTag cursor.old builder.old }
    ensures { ReadsRootElement (AreMainValues context.entry.now) cursor.old cursor.new builder.old builder.new result }
{
    if builder.rows_left() == 0 || builder.opened.len() != 0 {
        return RootLook::NotRead;
    }
    let (text, start) = (cursor.text, cursor.pos);
    let (tables, buffers) = (&mut builder.tables, &mut builder.buffers);
    let Ok(look) = first_tag(text, start, tables, context, buffers) else {
        return RootLook::Lacking;
    };
    let Some(read) = look else {
        return RootLook::NotRead;
    };
    cursor.pos = read.end;
    if read.tag.empty {
        builder.put_leaf(ROOT, start, read.end, NodeKind::Element(read.tag.element));
        return RootLook::Read;
    }
    if builder.opened.reserve_exact(ROOM_TO_OPEN).is_err() {
        return RootLook::Lacking;
    }
    builder.put_open(ROOT, text, start, &read.tag);
    RootLook::Read
}
