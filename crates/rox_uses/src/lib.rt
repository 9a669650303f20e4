//! Callers of the library, proved by its public contracts alone.
#![tactic(auto)]

pub mod answers;
pub mod exchanges;
pub mod ids;
pub mod paths;
pub mod qualified;
pub mod records;
pub mod resolvers;
pub mod walks;

pub use crate::answers::{
    AttributeAnswers, NamespaceAnswers, attribute_answers, namespace_answers,
};
pub use crate::exchanges::with_copy;
pub use crate::ids::element_by_id;
pub use crate::paths::{QueryError, records_at};
pub use crate::qualified::resolve;
pub use crate::records::{Record, RecordsError};
pub use crate::resolvers::{parse_answered, parse_named};
pub use crate::walks::{element_source, first_with_id, last_with_id, levels, source_of};
