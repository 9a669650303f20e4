//! Text that is a slice of the input, or owned.

ghost use Rattle.std.specs.Prelude.{◌≡◌, IfOk, not, false};
ghost use Rattle.std.specs.Rc.{rc_str_bytes};
ghost use Rattle.rox_storage.specs.Storage.{IsOwnText, storage_bytes, is_borrowed};

use std::alloc::{AllocError, Global};
use std::fmt;
use std::rc::RcStr;

/// A text of a document. The text of a text node is a slice of the input if it is one piece of character data as it is written,
/// without a CR, or one CDATA section without a CR. A value is one if it has no reference, CR, TAB and LF. Other texts are owned.
/// Two are equal if their bytes are, borrowed or owned.
///
/// ```
/// let document = Document::parse(alloc, "<a>one &amp; two</a>")?;
/// let storage = document.root_element().text_storage().expect(&rt, "a text");
/// assert!(rt; storage.as_str() == "one & two");
/// assert!(rt; matches!(storage, StringStorage::Owned(_)));
/// ```
#[derive(Debug, Drop)]
pub enum StringStorage<'input> {
    /// A slice of the input: of the text that is parsed, or of a resolver's answer.
    Borrowed(&'input str),
    /// An owned text. `RcStr` counts its holders.
    Owned(RcStr),
}

/// Returns the bytes of an owned text. It is out of line: most texts are slices, which then take no jump.
#[cold]
#[inline(never)]
fn owned_text(text: &RcStr) -> &str
    ensures { result.now ≡ rc_str_bytes text.now }
{
    text.as_str()
}

/// Returns whether a text is owned, not a slice of the input.
#[inline(always)]
pub fn is_owned(text: &StringStorage<'_>) -> bool
    ensures { is_borrowed text.now ≡ not result }
{
    match text {
        StringStorage::Borrowed(_) => false,
        StringStorage::Owned(_) => true,
    }
}

impl<'input> StringStorage<'input> {
    /// Returns an owned text of the bytes of `s`. Fails only if memory runs out.
    pub fn new_owned(alloc: Global, s: &str) -> Result<Self, AllocError>
        ensures { IfOk result (IsOwnText s.now) }
    {
        let text = RcStr::from_str(alloc, s)?;
        Ok(StringStorage::Owned(text))
    }

    /// Returns the text.
    #[inline(always)]
    pub fn as_str(&self) -> &str
        ensures { result.now ≡ storage_bytes self.now }
    {
        match self {
            StringStorage::Borrowed(s) => s,
            StringStorage::Owned(s) => owned_text(s),
        }
    }
}

/// Copies the text. A slice of the input stays one, and its copy takes no memory. The copy of an owned text shares that text.
impl Clone for StringStorage<'_> {
    ghost use Rattle.std.specs.Prelude.{true};
    ghost use Rattle.rox_storage.specs.Storage.{IsSameText};

    ghost is_clone = { IsSameText };

    ghost is_infallible = { λ s. is_borrowed s ≡ true };

    fn clone(&self) -> Result<Self, AllocError> {
        match self {
            StringStorage::Borrowed(s) => Ok(StringStorage::Borrowed(s)),
            StringStorage::Owned(s) => {
                let shared = s.clone()?;
                Ok(StringStorage::Owned(shared))
            }
        }
    }
}

impl PartialEq for StringStorage<'_> {
    ghost use Rattle.std.specs.Prelude.{bytes_eq};
    ghost use Rattle.std.specs.Ordering.{on};
    ghost use Rattle.std.proofs.Common.{rules};
    ghost use Rattle.std.specs.Cmp.Rules.{comparing};

    ghost eq = { on storage_bytes bytes_eq };

    ghost laws = { Prim.search (comparing, rules) };

    fn eq(&self, other: &Self) -> bool {
        self.as_str() == other.as_str()
    }
}

impl Eq for StringStorage<'_> {
    ghost use Rattle.std.specs.Cmp.Rules.{comparing};
    ghost use Rattle.std.proofs.Common.{rules};

    ghost laws = { Prim.search (comparing, rules) };
}

/// Prints the text.
impl fmt::Display for StringStorage<'_> {
    ghost use Rattle.std.specs.Prelude.{Some};

    ghost output = { λ s. Some (storage_bytes s) };

    fn fmt<W: fmt::Write>(&self, f: &mut fmt::Formatter<W>) -> fmt::Result {
        let text = self.as_str();
        write!(f, "{text}")
    }
}
