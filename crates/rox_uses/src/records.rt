//! Records: the names and the values of elements such as `<row name=".." value=".."/>`. `records_at` finds them by a path.

ghost use Rattle.std.specs.Prelude.{◌≡◌, ℕ, true, IfOk, Err, Some};
ghost use Rattle.roxmltree.specs.NodeParts.{start_of};
ghost use Rattle.roxmltree.specs.NodeRef.{node_ref};
ghost use Rattle.rox_uses.specs.Nodes.{item_at};
ghost use Rattle.rox_uses.specs.Records.{said, written, is_incomplete};
ghost use Rattle.rox_uses.specs.declared.records.RecordsError.TheVariants.{OutOfMemory};

use roxmltree::Node;
use std::alloc::{AllocError, AllocFailed, Global};
use std::fmt;

/// What a row says.
#[derive(Debug, Drop)]
pub struct Record {
    /// The value of its attribute `name`.
    pub name: String,
    /// The value of its attribute `value`.
    pub value: String,
}

/// Why a row is not read.
#[derive(Clone, Copy, Debug, PartialEq, Eq)]
pub enum RecordsError {
    /// The row that starts at this byte lacks its name or its value.
    Incomplete(usize),
    /// Memory ran out.
    OutOfMemory,
}

impl fmt::Display for RecordsError {
    ghost use Rattle.rox_uses.specs.Records.{message};

    ghost output = { λ e. Some (message e) };

    fn fmt<W: fmt::Write>(&self, f: &mut fmt::Formatter<W>) -> fmt::Result {
        match self {
            RecordsError::Incomplete(start) => write!(f, "the row at byte {start} is incomplete"),
            RecordsError::OutOfMemory => write!(f, "out of memory"),
        }
    }
}

impl std::error::Error for RecordsError {}

impl From<AllocError> for RecordsError {
    ghost from_gives = { λ _ e. e ≡ OutOfMemory };

    fn from(_error: AllocError) -> RecordsError {
        RecordsError::OutOfMemory
    }
}

impl<T: Drop> From<AllocFailed<T>> for RecordsError {
    ghost from_gives = { λ _ e. e ≡ OutOfMemory };

    fn from(_error: AllocFailed<T>) -> RecordsError {
        RecordsError::OutOfMemory
    }
}

/// Returns the record of a row: its attributes `name` and `value`, without a namespace.
pub(crate) fn read_record(alloc: Global, row: Node<'_, '_>) -> Result<Record, RecordsError>
    ensures ok { IfOk result (λ record'. written record' ≡ said (node_ref row.entry)) }
    ensures incomplete { (start : ℕ) → result ≡ Err (RecordsError.Incomplete start)
        → (is_incomplete (node_ref row.entry) ≡ true)
        × (start_of (item_at (node_ref row.entry)) ≡ start) }
{
    let incomplete = RecordsError::Incomplete(row.range().start);
    let name = row.attribute("name".into()).ok_or(incomplete)?;
    let value = row.attribute("value".into()).ok_or(incomplete)?;
    Ok(Record {
        name: String::from_str(alloc, name)?,
        value: String::from_str(alloc, value)?,
    })
}
