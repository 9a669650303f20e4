//! Values that consist of a reference to an entity (XML 1.0 section 4.4.5), read by the fast path. Adobe Illustrator writes such
//! values: `style="&st0;"`.

ghost use Rattle.std.specs.Prelude.{drop, ◌-◌, ◌<◌, ℕ, Ok, IfSome, ◌≡◌};
ghost use Rattle.rox_reading.specs.Tags.{Values};
ghost use Rattle.rox_reading.specs.Values as spec;
ghost use Rattle.rox_values.specs.DeclaredEntities.{AreMainValues};
ghost use Rattle.rox_values.specs.PlainBits.{BeginsReference};

use crate::attribute_value::named_text;
use crate::context::Context;
use rox_bytes::byte_set::{QuotedByte, skip_set};
use rox_scan::cursor::Cursor;

/// Returns the replacement text that the value of the main text from `start` up to `stop` gives, if the value consists of a
/// reference to an entity whose replacement text gives itself. Returns `None` for any other value.
#[inline(always)]
pub fn entity_value<'input>(
    text: &'input str,
    start: usize,
    stop: usize,
    context: &Context<'_, 'input>,
) -> Option<Cursor<'input>>
    requires here { BeginsReference text.now start }
    requires before { start < stop }
    ensures { IfSome result (λ t. (values : Values) → AreMainValues context.entry.now values
        → (openings_left : ℕ)
        → spec.value_text values.main values.entities values.opener (stop - start) text.entry.now stop start
        openings_left ≡ Ok (drop t.pos t.text.now, openings_left)) }
{
    let Ok((named, after)) = named_text(text, start, *context) else {
        return None;
    };
    if after != stop || context.depth_left == 0 {
        return None;
    }
    if skip_set::<QuotedByte>(named.text, named.pos) < named.text.len() {
        return None;
    }
    Some(named)
}
