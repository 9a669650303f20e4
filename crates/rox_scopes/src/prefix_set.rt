//! The prefixes that a tag declares, as a set, if it has many declarations.

ghost use Rattle.std.specs.Prelude.{◌≡◌, ◌<◌, ◌++◌, ◌∷◌, ◌||◌, [], ℕ, List, Option, length, map, OnOk};
ghost use Rattle.rox_grammar.specs.Tree.{same_prefix};
ghost use Rattle.rox_grammar.specs.AtIndex.{namespace_at};
ghost use Rattle.rox_scopes.specs.NamespaceViews.{namespace_view};
ghost use Rattle.rox_scopes.specs.Scopes.{prefix_view, ArePlaces};
ghost use Rattle.rox_scopes.specs.PrefixSet.{has_prefix, IsPrefixSet};

use crate::namespace::Namespace;
use std::alloc::AllocError;
use std::collections::BTreeSet;

/// Up to this number of declarations, those of a tag are compared one by one. It is also the most places that a scope lists as
/// one stretch (`Scope::Few`).
pub const FEW: usize = 16;

/// Returns whether the prefix, or the default, is among these.
#[inline(never)]
pub fn has_prefix<'a>(prefixes: &BTreeSet<Option<&'a str>>, prefix: Option<&'a str>) -> bool
    ensures { result ≡ has_prefix (prefix_view prefix.entry) prefixes.now.keys }
{
    prefixes.contains(&prefix)
}

/// Adds a prefix, or the default.
fn add<'a>(
    prefixes: &mut BTreeSet<Option<&'a str>>,
    prefix: Option<&'a str>,
) -> Result<(), AllocError>
    ensures { OnOk result ((p : Option (List ℕ))
        → has_prefix p prefixes.new.keys
        ≡ (has_prefix p prefixes.old.keys || same_prefix (prefix_view prefix.entry) p)) }
{
    match prefixes.insert(prefix) {
        Ok(_) => Ok(()),
        Err(_) => Err(AllocError),
    }
}

/// Records the prefix of the last of the places `own`, which a tag declares. The set stays unused as long as there are at most
/// `FEW`.
pub fn add_prefix<'a>(
    prefixes: &mut BTreeSet<Option<&'a str>>,
    namespaces: &[Namespace<'a>],
    own: &[u16],
    prefix: Option<&'a str>,
) -> Result<(), AllocError>
    requires { ArePlaces (length namespaces.now) own.now }
    ensures { OnOk result ((before : List ℕ) (place : ℕ) → own.now ≡ before ++ place ∷ []
        → (namespace_at (map namespace_view namespaces.now) place).prefix ≡ prefix_view prefix.entry
        → IsPrefixSet (map namespace_view namespaces.now) before prefixes.old.keys
        → IsPrefixSet (map namespace_view namespaces.now) own.now prefixes.new.keys) }
{
    if own.len() <= FEW {
        return Ok(());
    }
    if own.len() > FEW + 1 {
        add(prefixes, prefix)?;
        return Ok(());
    }
    prefixes.clear();
    for place in own {
        add(prefixes, namespaces[*place as usize].name)?;
    }
    Ok(())
}
