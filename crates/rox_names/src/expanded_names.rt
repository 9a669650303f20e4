//! The expanded names of the attributes of a tag that has many.

ghost use Rattle.std.specs.Prelude.{Option, IfOk};
ghost use Rattle.rox_names.specs.ExpandedNames.{PutsKey};

use std::alloc::AllocError;
use std::collections::BTreeSet;

/// Returns whether the name is among these, and adds it if it is not.
pub fn is_repeated_name<'a>(
    seen: &mut BTreeSet<(&'a str, Option<&'a str>)>,
    local: &'a str,
    uri: Option<&'a str>,
) -> Result<bool, AllocError>
    ensures { IfOk result (PutsKey (local.entry, uri.entry) seen.old.keys seen.new.keys) }
{
    match seen.insert((local, uri)) {
        Ok(added) => Ok(!added),
        Err(_) => Err(AllocError),
    }
}
