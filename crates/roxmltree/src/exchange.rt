//! Self-contained elements: parsed alone, and exchanged for others.

ghost use Rattle.std.specs.Prelude.{◌≡◌, true, false, IfOk, IfErr};
ghost use Rattle.rox_grammar.specs.Names.{slice};
ghost use Rattle.roxmltree.specs.NodeParts.{listed_of};
ghost use Rattle.rox_grammar.specs.Exchange.{none_of, start_at, end_at, IsReparse, IsExchange};
ghost use Rattle.roxmltree.specs.SelfContained.{stands_alone};

use crate::iterators::AxisIter;
use crate::nodes::Node;
use crate::tree::Document;
use rox_error::error::Error;
use std::alloc::{AllocError, Global};

impl<'a, 'input> Node<'a, 'input> {
    ghost use Rattle.std.specs.Prelude.{string_bytes};
    ghost use Rattle.rox_grammar.specs.Exchange.{self_contained};
    ghost use Rattle.roxmltree.specs.Places.{place};
    ghost use Rattle.roxmltree.specs.NodeRef.{id_of, document_of, tree_of, item_of, node_refs};
    ghost use Rattle.roxmltree.specs.Elements.{root_id};

    /// Returns whether it is a self-contained element (Namespaces in XML 1.0 section 6): the document has no document type
    /// declaration, and no ancestor of the element lists a namespace. The element's slice of the text then defines all its names
    /// and references by itself. So it can be parsed alone and put elsewhere.
    pub fn is_self_contained(&self) -> bool
        ensures { result ≡ stands_alone (document_of self.now) (id_of self.now) }
    {
        !self.document.has_doctype() && self.is_contained()
    }

    /// Returns the document of this element alone, parsed from its slice of the text. The element has to be self-contained
    /// (`is_self_contained`). It keeps its descendants, and all offsets count from its start. The key is 0. The document has no
    /// document type declaration, so its root element may be exchanged for others. Fails only if memory runs out.
    ///
    /// ```
    /// let document = Document::parse(alloc, "<r><a>1</a></r>")?;
    /// let a = document.root_element().first_child().expect(&rt, "a child");
    /// assert!(rt; a.is_self_contained());
    /// let copy = a.reparse(alloc)?;
    /// assert!(rt; copy.input_text() == "<a>1</a>");
    /// ```
    pub fn reparse(&self, alloc: Global) -> Result<Document<'input>, Error<'static>>
        requires { stands_alone (document_of self.now) (id_of self.now) ≡ true }
        ensures node { IfOk result
            (λ d. IsReparse (tree_of self.now) (document_of self.now).text
            (id_of self.now) d.tree d.text) }
        ensures key { IfOk result (λ d. d.key ≡ 0) }
        ensures dtd { IfOk result (λ d. d.dtd ≡ false) }
        ensures memory { IfErr result (λ e. e ≡ Error.OutOfMemory) }
    {
        self.document.whole();
        Document::parse(alloc, self.own_text())
    }

    /// Returns the text of this document with the root element of `other` in place of this element. Both elements have to be
    /// self-contained (`is_self_contained`). The new text is a document: its tree is this one with that element exchanged. So
    /// `Document::parse` returns it, unless memory runs out or its nodes, attributes or namespaces are too many. `exchange`
    /// itself fails only if memory runs out.
    ///
    /// ```
    /// let document = Document::parse(alloc, "<r><a>1</a></r>")?;
    /// let other = Document::parse(alloc, "<b/>")?;
    /// let a = document.root_element().first_child().expect(&rt, "a child");
    /// assert!(rt; a.is_self_contained());
    /// assert!(rt; other.root_element().is_self_contained());
    /// let text = a.exchange(alloc, &other)?;
    /// assert!(rt; text.as_str() == "<r><b/></r>");
    /// ```
    pub fn exchange(&self, alloc: Global, other: &Document<'_>) -> Result<String, AllocError>
        requires mine { stands_alone (document_of self.now) (id_of self.now) ≡ true }
        requires others { stands_alone other.now (root_id other.now.tree) ≡ true }
        ensures { IfOk result
            (λ text. IsExchange (tree_of self.now) (document_of self.now).text
            (id_of self.now) other.now.tree other.now.text (root_id other.now.tree)
            (string_bytes text)) }
    {
        self.document.whole();
        other.whole();
        let text = self.document.input_text();
        let range = self.range();
        let mut answer = String::from_str(alloc, &text[..range.start])?;
        answer.push_str(other.root_element().own_text())?;
        answer.push_str(&text[range.end..])?;
        Ok(answer)
    }

    /// Returns whether it is an element, and no ancestor lists a namespace.
    fn is_contained(&self) -> bool
        ensures { result ≡ self_contained (tree_of self.now) (id_of self.now) }
    {
        self.is_element() && AxisIter::list_none(self.above())
    }

    /// Returns its ancestors without itself, nearest first.
    fn above(&self) -> AxisIter<'a, 'input>
        ensures { result
            ≡ node_refs (document_of self.now) (place (tree_of self.now) (id_of self.now)).above }
    {
        let mut nodes = self.ancestors();
        nodes.next();
        nodes
    }

    /// Returns whether it lists no namespace.
    #[tactic(auto, using(crate::proofs::Contained::none_long))]
    fn lists_none(&self) -> bool
        ensures { result ≡ none_of (listed_of (item_of self.now)) }
    {
        self.namespaces().len() == 0
    }

    /// Returns its slice of the text.
    fn own_text(&self) -> &'input str
        requires { stands_alone (document_of self.now) (id_of self.now) ≡ true }
        ensures { result.now
            ≡ slice (document_of self.now).text (start_at (tree_of self.now) (id_of self.now))
            (end_at (tree_of self.now) (id_of self.now)) }
    {
        self.document.whole();
        let range = self.range();
        &self.document.input_text()[range.start..range.end]
    }
}

impl<'a, 'input> AxisIter<'a, 'input> {
    ghost use Rattle.std.specs.List.{list_all};
    ghost use Rattle.roxmltree.specs.NodeParts.{node_at};

    /// Returns whether none of these nodes lists a namespace.
    fn list_none(mut nodes: AxisIter<'a, 'input>) -> bool
        ensures { result ≡ list_all (λ s. none_of (listed_of (node_at s.0.tree s.1))) nodes.entry }
    {
        while let Some(node) = nodes.next() {
            if !node.lists_none() {
                return false;
            }
        }
        true
    }
}
