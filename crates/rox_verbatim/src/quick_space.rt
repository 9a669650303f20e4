//! White space in tags by the fast path: most often it is one space.

ghost use Rattle.std.specs.Str.{IsCharBoundary};
ghost use Rattle.rox_bytes.specs.ScanResults.{Finds};
ghost use Rattle.rox_grammar.specs.Chars.{is_space};
ghost use Rattle.rox_grammar.specs.Runs.{run_end};
ghost use Rattle.rox_verbatim.specs.PlainValues.{IsBeforeLast};

use rox_bytes::runs::after_byte;
use rox_scan::cursor::{Cursor, space_end, space_end_beyond};

/// Returns the end of the white space that starts at `at`, before the last byte. Most often it is one space, or there is none.
#[inline(always)]
pub fn one_space_end(text: &str, at: usize) -> usize
    requires { IsBeforeLast text.now at }
    ensures { Finds text.now at result (run_end is_space text.now at) }
{
    let bytes = text.as_bytes();
    if bytes[at] == b' ' && bytes[at + 1] > b' ' {
        return after_byte(text, at, b' ');
    }
    if bytes[at] > b' ' {
        return at;
    }
    space_end_beyond(Cursor { text, pos: at })
}

/// Returns the end of the white space that starts at `at`. Most often it is one space.
#[inline(always)]
pub fn white_space_end(text: &str, at: usize) -> usize
    requires { IsCharBoundary text.now at }
    ensures { Finds text.now at result (run_end is_space text.now at) }
{
    if at + 1 >= text.len() {
        return space_end(Cursor { text, pos: at });
    }
    one_space_end(text, at)
}
