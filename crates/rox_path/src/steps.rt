//! The steps of a path.

use roxmltree::ExpandedName;

/// A step of a path: from a node to elements with this name.
///
/// ```
/// let document = Document::parse(alloc, "<r><g><a/></g><a/></r>")?;
/// let steps = [Step::Child("r".into()), Step::Child("a".into())];
/// let found = select(alloc, document.root(), &steps)?;
/// assert!(rt; found.len() == 1);
/// ```
#[derive(Clone, Copy, PartialEq, Eq, Debug)]
pub enum Step<'q> {
    /// A step to the children of the node.
    Child(ExpandedName<'q, 'q>),
    /// A step to the descendants of the node, at any depth.
    Descendant(ExpandedName<'q, 'q>),
}
