//! A look at the first sixteen bytes alone.

ghost use Rattle.std.specs.Prelude.{◌≤◌, IfSome, length};
ghost use Rattle.rox_bytes.specs.ByteSets.{StopsSet};

use crate::byte_set::{ByteSet, before_first, others_at};

/// Returns the offset of the first byte of a text from `at` on that is not in the set, if it is among the first sixteen. Returns
/// `None` if there are fewer. Unlike `find_other`, it calls no function that is out of line.
#[inline(always)]
pub fn find_near<C: ByteSet>(text: &str, at: usize) -> Option<usize>
    requires { at ≤ length text.now }
    ensures { IfSome result (StopsSet C.test text.entry.now at) }
{
    let bytes = text.as_bytes();
    if bytes.len() - at < 16 {
        return None;
    }
    let others = others_at::<C>(bytes, at);
    if others == 0 {
        return None;
    }
    Some(at + before_first(others))
}
