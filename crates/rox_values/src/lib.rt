//! The values of attributes, and the parts of character data: references, entities and line ends.
#![tactic(auto)]

pub mod attribute_value;
pub mod changed_value;
pub mod character_data;
pub mod context;
pub mod entities;
pub mod entity_value;
pub mod line_ends;
pub mod parse_error;
pub mod plain_bits;
pub mod reference;
pub mod text_value;
