//! Qualified names in the values of attributes, as in `xsi:type="p:T"`.
//!
//! ```
//! use rox_uses::resolve;
//!
//! let document = Document::parse(alloc, "<r xmlns:p='u' xmlns='v'><s xmlns:p='w'/></r>")?;
//! let r = document.root_element();
//! let s = r.first_child().expect(&rt, "a child");
//! assert!(rt; resolve(r, "p:T") == Some(("u", "T").into()));
//! assert!(rt; resolve(s, "p:T") == Some(("w", "T").into()));
//! assert!(rt; resolve(s, "T") == Some(("v", "T").into()));
//! assert!(rt; resolve(s, "q:T").is_none());
//! assert!(rt; resolve(document.root(), "T") == Some("T".into()));
//! ```

ghost use Rattle.std.specs.Prelude.{◌≡◌, Some, None, option_map, Contains};
ghost use Rattle.roxmltree.specs.Tree.{uri_of};
ghost use Rattle.roxmltree.specs.ExpandedNames.{expanded};
ghost use Rattle.roxmltree.specs.NodeParts.{listed_of};
ghost use Rattle.roxmltree.specs.NodeRef.{item_of};
ghost use Rattle.rox_uses.specs.Qualified.{qname_prefix, qname_local};

use roxmltree::{ExpandedName, Node};

/// Returns the expanded name of a qualified name in an element (XML Schema 1.0 part 2 section 3.2.18). What is before its first
/// colon is a prefix that the element lists. A name without a colon is in the default namespace, if one is listed. Returns `None`
/// if the prefix is not listed, as `xml` never is.
#[tactic(auto, using(std::proofs::lemmas::List::Sums::fails_before_first))]
pub fn resolve<'a, 'name>(
    element: Node<'a, '_>,
    name: &'name str,
) -> Option<ExpandedName<'a, 'name>>
    ensures prefixed { Contains name.now 58
        → option_map expanded result
        ≡ option_map (λ uri. (Some uri, qname_local name.now))
        (uri_of (listed_of (item_of element.entry)) (Some (qname_prefix name.now))) }
    ensures plain { ¬ Contains name.now 58
        → option_map expanded result
        ≡ Some (uri_of (listed_of (item_of element.entry)) None, name.now) }
{
    let Some((prefix, local)) = name.split_once(':') else {
        return Some(in_default(element, name));
    };
    let uri = element.lookup_namespace_uri(Some(prefix))?;
    Some(ExpandedName::from((uri, local)))
}

/// Returns the name with this local name in the default namespace of an element, or in none if the element lists none.
fn in_default<'a, 'name>(element: Node<'a, '_>, local: &'name str) -> ExpandedName<'a, 'name>
    ensures { expanded result ≡ (uri_of (listed_of (item_of element.entry)) None, local.now) }
{
    if let Some(uri) = element.default_namespace() {
        return ExpandedName::from((uri, local));
    }
    ExpandedName::from(local)
}
