//! The kind of a node, its range in the text, and its text.

ghost use Rattle.std.specs.Prelude.{◌≡◌, option_map};
ghost use Rattle.roxmltree.specs.NodeParts.{is_root_node, is_element_node, is_text_node, is_comment_node, is_pi_node, start_of, end_of, text, tail, stored_text, stored_tail, text_content, pi_of};
ghost use Rattle.roxmltree.specs.Kinds.{type_of};
ghost use Rattle.rox_lists.specs.StoredText.{stored, instruction};
ghost use Rattle.roxmltree.specs.NodeRef.{id_of, tree_of, item_of};

use crate::nodes::Node;
use rox_rows::row::PI;
use rox_rows::stored_node::KindRef;
use rox_storage::storage::StringStorage;
use std::ops::Range;

/// The kinds of node.
///
/// ```
/// let document = Document::parse(alloc, "<?style sheet?><r/>")?;
/// let node = document.root().first_child().expect(&rt, "a child");
/// assert!(rt; node.node_type() == NodeType::PI);
/// let pi = node.pi().expect(&rt, "an instruction");
/// assert!(rt; pi.target == "style");
/// assert!(rt; pi.value == Some("sheet"));
/// ```
#[derive(Clone, Copy, PartialEq, Eq, Debug)]
pub enum NodeType {
    /// The one node that is the ancestor of all others.
    Root,
    /// An element (XML 1.0 section 3).
    Element,
    /// A processing instruction (XML 1.0 section 2.6).
    PI,
    /// A comment (XML 1.0 section 2.5).
    Comment,
    /// A longest run of characters, references and CDATA sections.
    Text,
}

impl<'a, 'input> Node<'a, 'input> {
    /// Returns its kind.
    #[inline]
    #[tactic(auto, using(crate::proofs::Bare::type_of_bare))]
    pub fn node_type(&self) -> NodeType
        ensures { result ≡ type_of (item_of self.now) }
    {
        match self.kind() {
            KindRef::Root => NodeType::Root,
            KindRef::Element(_) => NodeType::Element,
            KindRef::Text(_) => NodeType::Text,
            KindRef::Comment(_) => NodeType::Comment,
            KindRef::PI(_) => NodeType::PI,
        }
    }

    /// Returns whether it is the root node.
    #[inline]
    #[tactic(auto, using(crate::proofs::Bare::says_root_bare))]
    pub fn is_root(&self) -> bool
        ensures { result ≡ is_root_node (item_of self.now) }
    {
        matches!(self.kind(), KindRef::Root)
    }

    /// Returns whether it is an element.
    #[inline]
    pub fn is_element(&self) -> bool
        ensures { result ≡ is_element_node (item_of self.now) }
    {
        self.row.is_element()
    }

    /// Returns whether it is a processing instruction.
    #[inline]
    #[tactic(auto, using(crate::proofs::Bare::says_pi_bare))]
    pub fn is_pi(&self) -> bool
        ensures { result ≡ is_pi_node (item_of self.now) }
    {
        matches!(self.kind(), KindRef::PI(_))
    }

    /// Returns whether it is a comment.
    #[inline]
    #[tactic(auto, using(crate::proofs::Bare::says_comment_bare))]
    pub fn is_comment(&self) -> bool
        ensures { result ≡ is_comment_node (item_of self.now) }
    {
        matches!(self.kind(), KindRef::Comment(_))
    }

    /// Returns whether it is a text node.
    #[inline]
    pub fn is_text(&self) -> bool
        ensures { result ≡ is_text_node (item_of self.now) }
    {
        self.row.is_text()
    }

    /// Returns its range of bytes, with offsets from 0, in its source: the text, or the resolver's answer that it is written in.
    /// The range of an element, a comment or an instruction is from its first `<` to its last `>`, and that of the root node is
    /// the whole text. A text node may be merged from several pieces: it has the range of the first one, character data or a
    /// CDATA section. A reference to an empty text is no piece.
    ///
    /// ```
    /// let document = Document::parse(alloc, "<r><a/>text</r>")?;
    /// let a = document.root_element().first_child().expect(&rt, "a child");
    /// assert!(rt; a.range().start == 3);
    /// assert!(rt; a.range().end == 7);
    /// ```
    #[inline]
    #[tactic(auto, using(crate::proofs::Bare::start_of_bare, crate::proofs::Bare::end_of_bare))]
    pub fn range(&self) -> Range<usize>
        ensures start { result.start ≡ start_of (item_of self.now) }
        ensures end { result.end ≡ end_of (item_of self.now) }
    {
        let row = self.whole_row();
        match row.kind {
            KindRef::Root => 0..row.end,
            _ => row.start..row.end,
        }
    }

    /// Returns the target and the value of a processing instruction (XML 1.0 section 2.6), or `None` on other nodes.
    ///
    /// ```
    /// let document = Document::parse(alloc, "<?style sheet?><r/>")?;
    /// let node = document.root().first_child().expect(&rt, "a child");
    /// assert!(rt; node.node_type() == NodeType::PI);
    /// let pi = node.pi().expect(&rt, "an instruction");
    /// assert!(rt; pi.target == "style");
    /// assert!(rt; pi.value == Some("sheet"));
    /// ```
    #[inline]
    #[tactic(auto, using(crate::proofs::Bare::pi_of_bare))]
    pub fn pi(&self) -> Option<PI<'input>>
        ensures { option_map instruction result ≡ pi_of (item_of self.now) }
    {
        match self.kind() {
            KindRef::PI(pi) => Some(pi),
            _ => None,
        }
    }

    /// Returns a text node's or a comment's own text, and the text of an element's first child if that is a text node. Otherwise,
    /// and on other nodes, returns `None`.
    ///
    /// ```
    /// let document = Document::parse(alloc, "<r>one<a>two</a>three</r>")?;
    /// let r = document.root_element();
    /// let a = r.first_element_child().expect(&rt, "an element");
    /// assert!(rt; r.text() == Some("one"));
    /// assert!(rt; a.text() == Some("two"));
    /// assert!(rt; a.tail() == Some("three"));
    /// ```
    #[inline]
    pub fn text(&self) -> Option<&'a str>
        ensures { option_map (λ s. s.now) result ≡ text (tree_of self.now) (id_of self.now) }
    {
        Some(self.text_storage()?.as_str())
    }

    /// Like `text`, but returns the storage, which distinguishes a slice of the input from an owned text. That of a comment is
    /// always a slice.
    ///
    /// ```
    /// let document = Document::parse(alloc, "<a>one &amp; two</a>")?;
    /// let storage = document.root_element().text_storage().expect(&rt, "a text");
    /// assert!(rt; storage.as_str() == "one & two");
    /// assert!(rt; matches!(storage, StringStorage::Owned(_)));
    /// ```
    #[inline]
    #[tactic(auto, using(crate::proofs::Bare::says_element_bare))]
    pub fn text_storage(&self) -> Option<&'a StringStorage<'input>>
        ensures { option_map (λ s. stored s.now) result
            ≡ stored_text (tree_of self.now) (id_of self.now) }
    {
        match self.kind() {
            KindRef::Element(_) => self.first_child()?.own_text_storage(),
            KindRef::Text(text) | KindRef::Comment(text) => Some(text),
            _ => None,
        }
    }

    /// Returns the text of an element's next sibling if that is a text node; otherwise, and on other nodes, `None`.
    ///
    /// ```
    /// let document = Document::parse(alloc, "<r>one<a>two</a>three</r>")?;
    /// let r = document.root_element();
    /// let a = r.first_element_child().expect(&rt, "an element");
    /// assert!(rt; r.text() == Some("one"));
    /// assert!(rt; a.text() == Some("two"));
    /// assert!(rt; a.tail() == Some("three"));
    /// ```
    #[inline]
    pub fn tail(&self) -> Option<&'a str>
        ensures { option_map (λ s. s.now) result ≡ tail (tree_of self.now) (id_of self.now) }
    {
        Some(self.tail_storage()?.as_str())
    }

    /// Like `tail`, but returns the storage, which distinguishes a slice of the input from an owned text.
    #[inline]
    pub fn tail_storage(&self) -> Option<&'a StringStorage<'input>>
        ensures { option_map (λ s. stored s.now) result
            ≡ stored_tail (tree_of self.now) (id_of self.now) }
    {
        if !self.is_element() {
            return None;
        }
        self.next_sibling()?.own_text_storage()
    }

    /// Returns the text of a text node, or `None` on other nodes.
    #[inline]
    #[tactic(auto, using(crate::proofs::Bare::text_content_bare))]
    fn own_text_storage(&self) -> Option<&'a StringStorage<'input>>
        ensures { option_map (λ s. stored s.now) result ≡ text_content (item_of self.now) }
    {
        match self.kind() {
            KindRef::Text(text) => Some(text),
            _ => None,
        }
    }
}
