//! Records found by a path.
//!
//! ```
//! use rox_uses::{QueryError, RecordsError, records_at};
//!
//! let text = "<t><row name='a' value='1'/><part><row name='b' value='2'/></part><row/></t>";
//! let document = Document::parse(alloc, text)?;
//! let records = records_at(alloc, &document, "//part/row").ok().expect(&rt, "records");
//! assert!(rt; records.len() == 1);
//! assert!(rt; (records[0].name.as_str(), records[0].value.as_str()) == ("b", "2"));
//!
//! let error = records_at(alloc, &document, "//row").err();
//! assert!(rt; error == Some(QueryError::Row(RecordsError::Incomplete(66))));
//! let error = records_at(alloc, &document, "//row/").err();
//! assert!(rt; error == Some(QueryError::Path(PathError::BadPath(6))));
//! ```

ghost use Rattle.std.specs.Prelude.{◌≡◌, ℕ, List, map, IfOk, Err, Some};
ghost use Rattle.roxmltree.specs.NodeRef.{node_refs};
ghost use Rattle.rox_path.specs.Steps.{PathStep};
ghost use Rattle.rox_path.specs.Paths.{IsPath, IsBadAt};
ghost use Rattle.rox_path.specs.Match.{Selects};
ghost use Rattle.rox_path.specs.declared.parse.PathError.TheVariants.{BadPath};
ghost use Rattle.rox_uses.specs.Records.{said, written, first_incomplete};

use crate::records::{Record, RecordsError, read_record};
use rox_path::{PathError, parse_path, select};
use roxmltree::Document;
use std::alloc::{AllocError, AllocFailed, Global};

/// Why no records are read.
#[derive(Clone, Copy, Debug, PartialEq, Eq)]
pub enum QueryError {
    /// The path is not read.
    Path(PathError),
    /// A row that it leads to is not read.
    Row(RecordsError),
}

impl From<PathError> for QueryError {
    ghost use Rattle.rox_uses.specs.declared.paths.QueryError.TheVariants.{Path};

    ghost from_gives = { λ error e. e ≡ Path error };

    fn from(error: PathError) -> QueryError {
        QueryError::Path(error)
    }
}

impl From<RecordsError> for QueryError {
    ghost use Rattle.rox_uses.specs.declared.paths.QueryError.TheVariants.{Row};

    ghost from_gives = { λ error e. e ≡ Row error };

    fn from(error: RecordsError) -> QueryError {
        QueryError::Row(error)
    }
}

impl From<AllocError> for QueryError {
    ghost use Rattle.rox_uses.specs.declared.records.RecordsError.TheVariants.{OutOfMemory};
    ghost use Rattle.rox_uses.specs.declared.paths.QueryError.TheVariants.{Row};

    ghost from_gives = { λ _ e. e ≡ Row OutOfMemory };

    fn from(_error: AllocError) -> QueryError {
        QueryError::Row(RecordsError::OutOfMemory)
    }
}

impl<T: Drop> From<AllocFailed<T>> for QueryError {
    ghost use Rattle.rox_uses.specs.declared.records.RecordsError.TheVariants.{OutOfMemory};
    ghost use Rattle.rox_uses.specs.declared.paths.QueryError.TheVariants.{Row};

    ghost from_gives = { λ _ e. e ≡ Row OutOfMemory };

    fn from(_error: AllocFailed<T>) -> QueryError {
        QueryError::Row(RecordsError::OutOfMemory)
    }
}

/// Returns the records of the elements that a path reaches from the root node, in document order: the `name` and `value` of each.
/// Fails with the start of the first that is incomplete.
pub fn records_at(
    alloc: Global,
    document: &Document<'_>,
    path: &str,
) -> Result<Vec<Record>, QueryError>
    ensures ok { IfOk result (λ records. (steps : List PathStep) × (ids : List ℕ)
        × IsPath path.now 0 steps × Selects document.now.tree 0 steps ids
        × (map written records.items ≡ map said (node_refs document.now ids))) }
    ensures bad_path { (k : ℕ) → result ≡ Err (QueryError.Path (BadPath k)) → IsBadAt path.now k }
    ensures bad_row { (start : ℕ) → result ≡ Err (QueryError.Row (RecordsError.Incomplete start))
        → (steps : List PathStep) × (ids : List ℕ) × IsPath path.now 0 steps
        × Selects document.now.tree 0 steps ids × (first_incomplete document.now ids ≡ Some start) }
{
    let steps = parse_path(alloc, path)?;
    let rows = select(alloc, document.root(), &steps)?;
    let mut records = Vec::new(alloc);
    for row in &rows {
        records.push(read_record(alloc, *row)?)?;
    }
    Ok(records)
}
