//! The tables of a document: the rows of its nodes and attributes, its namespaces, and the scopes that list them.

use rox_rows::attributes::AttributeTable;
use rox_rows::node_table::NodeTable;
use rox_scopes::bindings::PrefixBindings;
use rox_scopes::namespace::Namespace;
use rox_scopes::namespace_table::NamespaceTable;
use rox_scopes::stored_scope::Scope;

/// The tables of a document. An element names one of `scopes`. A scope lists entries of `listed`, which are places: indices into
/// `namespaces`. An element without declarations has its parent's scope. The first scope lists nothing: it is that of the root
/// node.
#[derive(Drop)]
pub struct Tables<'input> {
    pub nodes: NodeTable<'input>,
    pub attributes: AttributeTable<'input>,
    pub namespaces: Vec<Namespace<'input>>,
    pub listed: Vec<u16>,
    pub scopes: Vec<Scope>,
}

/// The tables beside the rows of nodes, while they grow.
#[derive(Drop)]
pub struct ElementTables<'input> {
    pub attributes: AttributeTable<'input>,
    pub namespaces: NamespaceTable<'input>,
    pub listed: Vec<u16>,
    pub scopes: Vec<Scope>,
    /// The bindings of prefixes, for scopes that list many.
    pub present: PrefixBindings<'input>,
}
