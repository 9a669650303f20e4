//! The text of paths: `//item/{urn:x}name`.

ghost use Rattle.std.specs.Prelude.{◌≡◌, ◌≢◌, ℕ, ◌≤◌, ◌==◌, List, map, IfOk, Err, Some, MatchResult, length, IsCharBoundary};
ghost use Rattle.rox_grammar.specs.Names.{byte};
ghost use Rattle.roxmltree.specs.ExpandedNames.{expanded};
ghost use Rattle.rox_path.specs.Steps.{PathStep, step_of};
ghost use Rattle.rox_path.specs.Paths.{local_end, IsPath, IsBadName, IsBadStep, IsBadAt};
ghost use Rattle.rox_path.specs.PathReading.{ReadsLocal, ReadsName, ReadsStep, ReadsUri, ToldAt};
ghost use Rattle.rox_path.specs.declared.parse.PathError.TheVariants.{OutOfMemory};

use crate::steps::Step;
use memchr::{memchr, memchr3};
use roxmltree::ExpandedName;
use std::alloc::{AllocError, AllocFailed, Global};
use std::fmt;

/// The reason why a path is refused.
///
/// ```
/// assert!(rt; parse_path(alloc, "r").err() == Some(PathError::BadPath(0)));
/// ```
#[derive(Clone, Copy, Debug, PartialEq, Eq)]
pub enum PathError {
    /// The text is not a path. The number is the offset in bytes, from 0, where a required `/` or local name is missing, or that
    /// of a `{` without `}`.
    BadPath(usize),
    /// Memory ran out.
    OutOfMemory,
}

impl fmt::Display for PathError {
    ghost use Rattle.rox_path.specs.PathMessages.{message};

    ghost output = { λ e. Some (message e) };

    fn fmt<W: fmt::Write>(&self, f: &mut fmt::Formatter<W>) -> fmt::Result {
        match self {
            PathError::BadPath(place) => write!(f, "bad path at byte {place}"),
            PathError::OutOfMemory => write!(f, "out of memory"),
        }
    }
}

impl std::error::Error for PathError {}

impl From<AllocError> for PathError {
    ghost from_gives = { λ _ e. e ≡ OutOfMemory };

    fn from(_error: AllocError) -> PathError {
        PathError::OutOfMemory
    }
}

impl<T: Drop> From<AllocFailed<T>> for PathError {
    ghost from_gives = { λ _ e. e ≡ OutOfMemory };

    fn from(_error: AllocFailed<T>) -> PathError {
        PathError::OutOfMemory
    }
}

/// Returns the steps of a path: one or more, each `/` or `//` and a name. A name is a local name, or `{`, the URI of its
/// namespace, `}` and a local name. The steps borrow from `text`.
///
/// Fails with `BadPath` if `text` is not a path, and with `OutOfMemory` if memory runs out.
///
/// ```
/// let document = Document::parse(alloc, "<r><g><a/></g><a/></r>")?;
/// let steps = parse_path(alloc, "/r//a")?;
/// let found = select(alloc, document.root(), &steps)?;
/// assert!(rt; found.len() == 2);
/// ```
pub fn parse_path<'q>(alloc: Global, text: &'q str) -> Result<Vec<Step<'q>>, PathError>
    ensures ok { IfOk result (λ steps. IsPath text.now 0 (map step_of steps.items)) }
    ensures bad { (k : ℕ) → result ≡ Err (PathError.BadPath k) → IsBadAt text.now k }
    ensures no_path { (k : ℕ) → result ≡ Err (PathError.BadPath k) → (steps : List PathStep)
        → IsPath text.now 0 steps → ⊥ }
{
    let mut steps = Vec::new(alloc);
    let mut at = 0;
    while at == 0 || at < text.len() {
        let (step, end) = step_at(text, at)?;
        steps.push(step)?;
        at = end;
    }
    Ok(steps)
}

/// Returns the step that begins at the offset `at`, and the offset after it.
fn step_at<'q>(text: &'q str, at: usize) -> Result<(Step<'q>, usize), PathError>
    requires { IsCharBoundary text.now at }
    ensures { MatchResult result (λ r. ReadsStep text.now at r.1 (step_of r.0))
        (ToldAt (IsBadStep text.now at)) }
{
    if !is_at(text, at, b'/') {
        return Err(PathError::BadPath(at));
    }
    if is_at(text, at + 1, b'/') {
        let (name, end) = name_at(text, at + 2)?;
        Ok((Step::Descendant(name), end))
    } else {
        let (name, end) = name_at(text, at + 1)?;
        Ok((Step::Child(name), end))
    }
}

/// Returns the name that begins at the offset `at`, and the offset after it.
fn name_at<'q>(text: &'q str, at: usize) -> Result<(ExpandedName<'q, 'q>, usize), PathError>
    requires { IsCharBoundary text.now at }
    ensures { MatchResult result (λ r. ReadsName text.now at r.1 (expanded r.0))
        (ToldAt (IsBadName text.now at)) }
{
    if !is_at(text, at, b'{') {
        let (local, end) = local_at(text, at)?;
        return Ok((ExpandedName::from(local), end));
    }
    let close = uri_end(text, at + 1);
    if close == text.len() {
        return Err(PathError::BadPath(at));
    }
    let (local, end) = local_at(text, close + 1)?;
    Ok((ExpandedName::from((&text[at + 1..close], local)), end))
}

/// Returns the local name that begins at the offset `at`, and the offset after it. It ends at the next `/`, `{` or `}`, or at the
/// end of the text.
#[tactic(auto, unfolding(rox_grammar::specs::Search::byte_from))]
fn local_at(text: &str, at: usize) -> Result<(&str, usize), PathError>
    requires { IsCharBoundary text.now at }
    ensures { MatchResult result (λ r. ReadsLocal text.now at r.1 r.0.now)
        (ToldAt (λ k. (k ≡ at) × (local_end text.now at ≡ at))) }
{
    let rest = text.as_bytes().split_at(at).1;
    let end = at + memchr3(b'/', b'{', b'}', rest).unwrap_or(rest.len());
    if end == at {
        return Err(PathError::BadPath(at));
    }
    Ok((&text[at..end], end))
}

/// Returns the offset after a URI that begins at `at`: that of the next `}`, or the end of the text.
#[tactic(auto, unfolding(rox_grammar::specs::Search::byte_from))]
fn uri_end(text: &str, at: usize) -> usize
    requires { at ≤ length text.now }
    ensures { ReadsUri text.now at result }
{
    let rest = text.as_bytes().split_at(at).1;
    at + memchr(b'}', rest).unwrap_or(rest.len())
}

/// Returns whether the byte `wanted` is at the offset `at`.
fn is_at(text: &str, at: usize, wanted: u8) -> bool
    requires { wanted ≢ 0 }
    ensures { result ≡ (byte text.now at == wanted) }
{
    text.as_bytes().get(at) == Some(&wanted)
}
