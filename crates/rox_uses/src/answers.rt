//! All that an attribute and a namespace answer. They are seen as that and no more, so the rows that they are read from need not
//! be trusted.
//!
//! ```
//! use rox_uses::{attribute_answers, namespace_answers};
//!
//! let document = Document::parse(alloc, "<r xmlns:n='u' n:a='x&lt;'/>")?;
//! let attribute = document.root_element().attributes().next().expect(&rt, "an attribute");
//! let it = attribute_answers(attribute);
//! assert!(rt; [it.start, it.name_end, it.value_start, it.end] == [15, 18, 20, 26]);
//! assert!(rt; (it.namespace, it.name) == (Some("u"), "a"));
//! assert!(rt; (it.value, it.borrowed) == ("x<", false));
//! let namespace = document.root_element().namespaces().next().expect(&rt, "a namespace");
//! let it = namespace_answers(namespace);
//! assert!(rt; (it.name, it.uri) == (Some("n"), "u"));
//! ```

ghost use Rattle.std.specs.Prelude.{◌≡◌};
ghost use Rattle.roxmltree.specs.AttributeView.{attribute_of};
ghost use Rattle.roxmltree.specs.NamespaceViews.{namespace_view};
ghost use Rattle.roxmltree.specs.Storage.{is_borrowed};
ghost use Rattle.rox_uses.specs.Answers.{attribute_answered, namespace_answered};

use roxmltree::{Attribute, Namespace, StringStorage};

/// What the calls of an attribute answer.
#[derive(Clone, Copy)]
pub struct AttributeAnswers<'a, 'input> {
    /// The offset of its first byte, from 0.
    pub start: usize,
    /// The offset after its name.
    pub name_end: usize,
    /// The offset of its value, after the quote.
    pub value_start: usize,
    /// The offset after its closing quote.
    pub end: usize,
    /// The URI of its namespace, or `None` if it has none.
    pub namespace: Option<&'a str>,
    /// Its local name.
    pub name: &'input str,
    /// Its value.
    pub value: &'a str,
    /// Whether the value is `Borrowed`.
    pub borrowed: bool,
}

/// Returns the results of the calls of an attribute, which give the attribute of the tree.
pub fn attribute_answers<'a, 'input>(
    attribute: Attribute<'a, 'input>,
) -> AttributeAnswers<'a, 'input>
    ensures { attribute_of attribute.entry ≡ attribute_answered result }
{
    AttributeAnswers {
        start: attribute.position(),
        name_end: attribute.range_qname().end,
        value_start: attribute.range_value().start,
        end: attribute.range().end,
        namespace: attribute.namespace(),
        name: attribute.name(),
        value: attribute.value(),
        borrowed: is_slice(attribute.value_storage()),
    }
}

fn is_slice(text: &StringStorage<'_>) -> bool
    ensures { result ≡ is_borrowed text.now }
{
    match text {
        StringStorage::Borrowed(_) => true,
        StringStorage::Owned(_) => false,
    }
}

/// What the calls of a namespace answer.
#[derive(Clone, Copy)]
pub struct NamespaceAnswers<'a, 'input> {
    /// Its prefix, or `None` for the default namespace.
    pub name: Option<&'input str>,
    /// Its URI.
    pub uri: &'a str,
}

/// Returns the results of the calls of a namespace, which give the declaration of the tree.
pub fn namespace_answers<'a, 'input>(
    namespace: &'a Namespace<'input>,
) -> NamespaceAnswers<'a, 'input>
    ensures { namespace_view namespace.now ≡ namespace_answered result }
{
    NamespaceAnswers {
        name: namespace.name(),
        uri: namespace.uri(),
    }
}
