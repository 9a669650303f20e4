//! The rows of a document: one for each node in document order, and one for each attribute.

ghost use Rattle.std.specs.Prelude.{◌≡◌};
ghost use Rattle.rox_grammar.specs.Document.{most_pairs};
ghost use Rattle.rox_grammar.specs.AtIndex.{OptionWithin};
ghost use Rattle.rox_rows.specs.Rows.{numbered_place};

use rox_storage::storage::StringStorage;

/// A processing instruction: its target, and its value if it has one (XML 1.0 section 2.6).
///
/// ```
/// let document = Document::parse(alloc, "<?style sheet?><r/>")?;
/// let node = document.root().first_child().expect(&rt, "a child");
/// assert!(rt; node.node_type() == NodeType::PI);
/// let pi = node.pi().expect(&rt, "an instruction");
/// assert!(rt; pi.target == "style");
/// assert!(rt; pi.value == Some("sheet"));
/// ```
#[derive(Clone, Copy, Debug, PartialEq, Eq)]
pub struct PI<'input> {
    /// The name after `<?`.
    pub target: &'input str,
    /// The text after the target and white space, up to `?>`, or `None` if it is empty.
    pub value: Option<&'input str>,
}

/// The namespace of an attribute's name.
#[derive(Clone, Copy)]
pub enum AttributeNamespace {
    None,
    /// The namespace of the prefix `xml`.
    Xml,
    /// An index into the table of namespaces.
    Listed(u16),
}

/// The content of an attribute: its local name, its value and the namespace of its name.
#[derive(Drop)]
pub struct AttributeData<'input> {
    pub local: &'input str,
    pub value: StringStorage<'input>,
    pub namespace: AttributeNamespace,
}

/// The offsets of an attribute, in bytes of its source. `value_start` is after the opening quote, `end` after the closing one.
#[derive(Clone, Copy)]
pub struct AttributePlaces {
    pub start: usize,
    pub name_end: usize,
    pub value_start: usize,
    pub end: usize,
}

/// The content of an element. Its attributes are the rows `attributes_from..attributes_until` of their table, and `scope` is an
/// index into the table of scopes.
#[derive(Clone, Copy)]
pub struct ElementData<'input> {
    pub local: &'input str,
    pub attributes_from: u32,
    pub attributes_until: u32,
    pub scope: u32,
    /// The number of the namespace of its name (see `namespace_number`). It is no `Option`, so that it is copied whole.
    pub namespace: u16,
}

/// Returns the number of an element's namespace: its index in the table of namespaces plus one, or 0 if it has none.
#[inline(always)]
pub fn namespace_number(place: Option<u16>) -> u16
    ensures { OptionWithin most_pairs place → numbered_place result ≡ place }
{
    match place {
        // A table never has enough namespaces for this to wrap.
        Some(place) => place.wrapping_add(1),
        None => 0,
    }
}

/// Returns the index in the table of namespaces for this number, or `None` for 0.
#[inline(always)]
pub fn namespace_place(number: u16) -> Option<u16>
    ensures { result ≡ numbered_place number }
{
    if number == 0 {
        return None;
    }
    Some(number - 1)
}

/// What a node is, with its content. A processing instruction and an element are copied, a text moves.
#[derive(Drop)]
pub enum NodeKind<'input> {
    Root,
    Element(ElementData<'input>),
    Text(StringStorage<'input>),
    /// The text is always a slice of the input.
    Comment(StringStorage<'input>),
    PI(PI<'input>),
}

/// A node, as clauses and the code that makes it see it. Its only links are `parent` and `subtree_end`. `parent` is the id of its
/// parent, 0 also for the root node. `subtree_end` is the id after its last descendant.
#[derive(Drop)]
pub struct NodeData<'input> {
    pub start: usize,
    pub end: usize,
    pub parent: u32,
    pub subtree_end: u32,
    pub kind: NodeKind<'input>,
}
