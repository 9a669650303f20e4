//! A start tag that was read, and the buffers for reading one.

use crate::unresolved_attribute::UnresolvedAttribute;
use rox_grammar::name::QName;
use rox_rows::row::ElementData;
use rox_seen::seen_names::SeenNames;
use std::collections::BTreeSet;

/// A start tag that was read: its name, which is at `name_start..name_end`, and the content of its element.
#[derive(Clone, Copy)]
pub struct StartTag<'input> {
    pub name: QName<'input>,
    pub name_start: usize,
    pub name_end: usize,
    pub element: ElementData<'input>,
    /// Whether it ends with `/>`.
    pub empty: bool,
}

/// Buffers that are reused for each start tag.
#[derive(Drop)]
pub struct Buffers<'input> {
    /// The text that is read if it is not a slice of the source.
    pub scratch: String,
    /// A part of character data of a replacement text, with its line ends not normalized.
    pub raw: String,
    /// The attributes of the tag.
    pub taken: Vec<UnresolvedAttribute<'input>>,
    /// The prefixes that the tag declares if they are many.
    pub prefix_set: BTreeSet<Option<&'input str>>,
    /// What the fast path keeps of attributes, and whether memory was refused to it.
    pub seen: SeenNames,
}
