//! An attribute as it is written, which start tags are read as and values are read from.

use rox_grammar::name::QName;

/// An attribute whose value is not read yet. Its name is from `start` up to `name_end`, and its value from `value_start` up to
/// `value_end`, where the closing quote is. `is_verbatim` is true if the value has no reference and no white space other than
/// spaces.
#[derive(Clone, Copy)]
pub struct RawAttribute<'input> {
    pub start: usize,
    pub name: QName<'input>,
    pub name_end: usize,
    pub value_start: usize,
    pub value_end: usize,
    pub value: &'input str,
    pub is_verbatim: bool,
}
