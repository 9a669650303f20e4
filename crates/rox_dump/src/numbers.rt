//! Numbers in decimal digits.

ghost use Rattle.std.specs.Prelude.{◌≡◌};
ghost use Rattle.std.specs.List.{list_all};
ghost use Rattle.std.specs.Char.{is_ascii_digit};
ghost use Rattle.rox_dump.specs.Numbers.{number_of};

/// Returns the number that these digits give, or `None` if there is no digit, another character, or a number past `usize::MAX`.
pub fn number(digits: &str) -> Option<usize>
    ensures { result ≡ number_of digits.now }
{
    if all_digits(digits) {
        digits.parse().ok()
    } else {
        None
    }
}

/// Returns whether the text has only ASCII digits.
fn all_digits(text: &str) -> bool
    ensures { result ≡ list_all is_ascii_digit text.now }
{
    text.bytes().all(|byte| byte.is_ascii_digit())
}
