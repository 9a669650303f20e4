//! Names with their namespaces (Namespaces in XML 1.0 section 2.1).

ghost use Rattle.std.specs.Prelude.{◌≡◌, ◌≤◌, length, Some, None, bytes_eq};
ghost use Rattle.std.specs.Option.{option_map, option_eq};
ghost use Rattle.rox_compare.specs.Words.{HasLength};
ghost use Rattle.rox_lists.specs.ExpandedNames.{expanded};

use rox_compare::compare::{
    LONG_WORD, Pair, STRETCH, WORD, same_bytes, same_long_word, same_long_words, same_sixteen,
    same_sixteens, same_words,
};
use std::fmt;

/// The URI of the prefix `xml`.
pub const NS_XML_URI: &str = "http://www.w3.org/XML/1998/namespace";

/// The URI of the prefix `xmlns`.
pub const NS_XMLNS_URI: &str = "http://www.w3.org/2000/xmlns/";

/// The length in bytes from which on two names are compared out of line.
const LONG: usize = 17;

/// The number of bytes in a long word and a word.
const FRONT: usize = 12;

/// Returns whether two slices of at least sixteen bytes are equal. Most URIs have at most 32 bytes, so their first sixteen are
/// compared, and their last sixteen. It is out of line, so that loops over many names stay short.
#[inline(never)]
fn equal_long(pair: Pair<'_, '_>) -> bool
    requires { 16 ≤ length pair.one.now }
    ensures { result ≡ bytes_eq pair.entry.one.now pair.entry.other.now }
{
    if pair.one.len() > 2 * STRETCH {
        return pair.one == pair.other;
    }
    same_sixteens(pair)
}

/// Like `equal_long`, but makes no call if the last eight bytes differ.
#[inline(always)]
fn equal_ends(pair: Pair<'_, '_>) -> bool
    requires { 16 ≤ length pair.one.now }
    ensures { result ≡ bytes_eq pair.entry.one.now pair.entry.other.now }
{
    let last = pair.one.len() - LONG_WORD;
    same_long_word(pair, last) && equal_long(pair)
}

/// Returns whether two names are equal. Most differ in length, which is compared first.
#[inline(always)]
pub fn equal_names(one: &str, other: &str) -> bool
    ensures { result ≡ bytes_eq one.now other.now }
{
    if one.len() != other.len() {
        return false;
    }
    let pair = Pair {
        one: one.as_bytes(),
        other: other.as_bytes(),
    };
    if one.len() >= LONG {
        return equal_ends(pair);
    }
    if one.len() >= LONG_WORD {
        return same_long_words(pair);
    }
    if one.len() >= WORD {
        return same_words(pair);
    }
    same_bytes(pair)
}

/// Returns whether two slices of twelve bytes are equal.
#[inline(always)]
fn same_front(pair: Pair<'_, '_>) -> bool
    requires { length pair.one.now ≡ 12 }
    ensures { result ≡ bytes_eq pair.entry.one.now pair.entry.other.now }
{
    let one = &pair.one[LONG_WORD..FRONT];
    let other = &pair.other[LONG_WORD..FRONT];
    same_long_word(pair, 0) && same_words(Pair { one, other })
}

/// Returns whether two slices of sixteen to twenty-eight bytes are equal: their first twelve bytes are, and their last sixteen.
/// With twenty-eight bytes no byte is read twice, since the compiler reads whole words only of bytes that are read once.
#[inline(always)]
fn same_short_uris(pair: Pair<'_, '_>) -> bool
    requires { HasLength 16 28 pair.one.now }
    ensures { result ≡ bytes_eq pair.entry.one.now pair.entry.other.now }
{
    let one = &pair.one[0..FRONT];
    let other = &pair.other[0..FRONT];
    let last = pair.one.len() - STRETCH;
    same_front(Pair { one, other }) && same_sixteen(pair, last)
}

/// Returns whether two URIs are equal. URIs of the most common lengths are compared without a call.
#[inline(always)]
pub fn equal_uris(one: &str, other: &str) -> bool
    ensures { result ≡ bytes_eq one.now other.now }
{
    if one.len() != other.len() {
        return false;
    }
    if one.len() < STRETCH || one.len() > STRETCH + FRONT {
        return equal_names(one, other);
    }
    same_short_uris(Pair {
        one: one.as_bytes(),
        other: other.as_bytes(),
    })
}

/// A local name and its namespace, if it has one. Two are equal if their local names are equal, and both have equal URIs or both
/// have no namespace.
///
/// ```
/// let name = ExpandedName::from(("urn:p", "a"));
/// assert!(rt; name.namespace() == Some("urn:p"));
/// assert!(rt; name.name() == "a");
/// assert!(rt; ExpandedName::from("a").namespace().is_none());
/// ```
#[derive(Clone, Copy)]
pub struct ExpandedName<'a, 'b> {
    local: &'b str,
    uri: Option<&'a str>,
}

impl<'a, 'b> ExpandedName<'a, 'b> {
    /// Returns the URI of its namespace, or `None` if it has no namespace.
    #[inline]
    pub fn namespace(&self) -> Option<&'a str>
        ensures { option_map (λ u. u.now) result ≡ (expanded self.now).0 }
    {
        self.uri
    }

    /// Returns its local name.
    #[inline]
    pub fn name(&self) -> &'b str
        ensures { result.now ≡ (expanded self.now).1 }
    {
        self.local
    }
}

impl ExpandedName<'static, 'static> {
    /// Returns the name with the namespace `uri` and the local name `local`.
    #[inline]
    pub fn from_static(uri: &'static str, local: &'static str) -> ExpandedName<'static, 'static>
        ensures { expanded result ≡ (Some uri.now, local.now) }
    {
        ExpandedName {
            local,
            uri: Some(uri),
        }
    }
}

/// Returns the name with this namespace and this local name.
#[inline]
pub fn name_of_parts<'a, 'b>(uri: Option<&'a str>, local: &'b str) -> ExpandedName<'a, 'b>
    ensures { expanded result ≡ (option_map (λ u. u.now) uri.entry, local.now) }
{
    ExpandedName { local, uri }
}

/// Returns whether both namespaces have equal URIs, or both are `None`.
#[inline(always)]
fn equal_namespaces(one: Option<&str>, other: Option<&str>) -> bool
    ensures { result ≡ option_eq bytes_eq (option_map (λ u. u.now) one.entry) (option_map
        (λ u. u.now) other.entry) }
{
    match (one, other) {
        (None, None) => true,
        (Some(one), Some(other)) => equal_uris(one, other),
        _ => false,
    }
}

impl PartialEq for ExpandedName<'_, '_> {
    ghost use Rattle.std.specs.Ordering.{on, eq_of_both};
    ghost use Rattle.std.specs.Cmp.{partial_equiv_from_equiv, and_equiv, on_equiv};
    ghost use Rattle.std.specs.Cmp.Lexicographic.{options_equiv, nat_list_eq_equiv};

    ghost eq = { eq_of_both (on (λ n. (expanded n).1) bytes_eq) (on (λ n. (expanded n).0) (option_eq bytes_eq)) };

    ghost laws = { partial_equiv_from_equiv (and_equiv (on_equiv (λ n. (expanded n).1) nat_list_eq_equiv) (on_equiv (λ n. (expanded n).0) (options_equiv nat_list_eq_equiv))) };

    #[inline]
    fn eq(&self, other: &Self) -> bool {
        equal_names(self.local, other.local) && equal_namespaces(self.uri, other.uri)
    }
}

impl Eq for ExpandedName<'_, '_> {
    ghost use Rattle.std.specs.Cmp.{and_equiv, on_equiv};
    ghost use Rattle.std.specs.Cmp.Lexicographic.{options_equiv, nat_list_eq_equiv};

    ghost laws = { and_equiv (on_equiv (λ n. (expanded n).1) nat_list_eq_equiv) (on_equiv (λ n. (expanded n).0) (options_equiv nat_list_eq_equiv)) };
}

/// Prints `{uri}local`, or only the local name if there is no namespace.
impl fmt::Debug for ExpandedName<'_, '_> {
    fn fmt<W: fmt::Write>(&self, f: &mut fmt::Formatter<W>) -> fmt::Result {
        let local = self.local;
        match self.uri {
            Some(uri) => write!(f, "{{{uri}}}{local}"),
            None => f.write_str(local),
        }
    }
}

impl<'a, 'b> From<&'b str> for ExpandedName<'a, 'b> {
    ghost from_gives = { λ local n. expanded n ≡ (None, local.now) };

    fn from(local: &'b str) -> ExpandedName<'a, 'b> {
        ExpandedName { local, uri: None }
    }
}

impl<'a, 'b> From<(&'a str, &'b str)> for ExpandedName<'a, 'b> {
    ghost from_gives = { λ parts n. expanded n ≡ (Some parts.0.now, parts.1.now) };

    fn from(parts: (&'a str, &'b str)) -> ExpandedName<'a, 'b> {
        ExpandedName {
            local: parts.1,
            uri: Some(parts.0),
        }
    }
}
