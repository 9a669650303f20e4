//! A namespace, and what a reader asks of it (Namespaces in XML 1.0, section 3).

ghost use Rattle.std.specs.Prelude.{◌≡◌, true, bytes_eq};
ghost use Rattle.std.specs.Option.{option_map, option_eq};
ghost use Rattle.rox_scopes.specs.NamespaceViews.{namespace_view, has_borrowed_uri};

use rox_storage::storage::StringStorage;
use std::alloc::AllocError;

/// A namespace that an element lists: a prefix, or `None` for the default, and its URI. Two are equal if their prefixes and URIs
/// are.
///
/// ```
/// let document = Document::parse(alloc, "<r xmlns='urn:d' xmlns:p='urn:p'/>")?;
/// let mut namespaces = document.root_element().namespaces();
/// let first = namespaces.next().expect(&rt, "a namespace");
/// assert!(rt; first.name().is_none());
/// assert!(rt; first.uri() == "urn:d");
/// ```
#[derive(Debug, Drop)]
pub struct Namespace<'input> {
    pub(crate) name: Option<&'input str>,
    pub(crate) uri: StringStorage<'input>,
}

impl<'input> Namespace<'input> {
    /// Returns its prefix, or `None` for the default namespace.
    #[inline]
    pub fn name(&self) -> Option<&'input str>
        ensures { option_map (λ s. s.now) result ≡ (namespace_view self.now).prefix }
    {
        self.name
    }

    /// Returns the URI that its prefix stands for; for the default namespace, the URI of elements without a prefix.
    #[inline]
    pub fn uri(&self) -> &str
        ensures { result.now ≡ (namespace_view self.now).uri }
    {
        self.uri.as_str()
    }
}

/// Copies the namespace. The copy takes no memory if the URI is borrowed. No public clause says when it is, so a caller's proof
/// has to allow that the copy fails.
impl<'input> Clone for Namespace<'input> {
    ghost is_clone = { λ n copy. namespace_view copy ≡ namespace_view n };

    ghost is_infallible = { λ n. has_borrowed_uri n ≡ true };

    fn clone(&self) -> Result<Namespace<'input>, AllocError> {
        let uri = self.uri.clone()?;
        Ok(Namespace {
            name: self.name,
            uri,
        })
    }
}

impl PartialEq for Namespace<'_> {
    ghost use Rattle.std.specs.Ordering.{on, eq_of_both};
    ghost use Rattle.std.specs.Cmp.{partial_equiv_from_equiv, and_equiv, on_equiv};
    ghost use Rattle.std.specs.Cmp.Lexicographic.{options_equiv, nat_list_eq_equiv};

    ghost eq = { eq_of_both (on (λ n. (namespace_view n).prefix) (option_eq bytes_eq)) (on (λ n. (namespace_view n).uri) bytes_eq) };

    ghost laws = { partial_equiv_from_equiv (and_equiv (on_equiv (λ n. (namespace_view n).prefix) (options_equiv nat_list_eq_equiv)) (on_equiv (λ n. (namespace_view n).uri) nat_list_eq_equiv)) };

    fn eq(&self, other: &Self) -> bool {
        self.name() == other.name() && self.uri() == other.uri()
    }
}

impl Eq for Namespace<'_> {
    ghost use Rattle.std.proofs.Common.{rules};
    ghost use Rattle.std.specs.Cmp.Rules.{comparing};

    ghost laws = { Prim.search (comparing, rules) };
}
