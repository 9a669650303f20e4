//! The scope of a start tag: what its element declares, and what it inherits and does not declare (Namespaces in XML 1.0, section
//! 6).

ghost use Rattle.std.specs.Prelude.{◌<◌, IfOk};
ghost use Rattle.rox_names.specs.TagScopes.{HasFewAbove, HasOpenTag, HasScope, HasTagPrefixes};

use crate::tables::ElementTables;
use rox_scopes::hidden::{PrefixTables, add_back, hide_own};
use rox_scopes::prefix_set::FEW;
use rox_scopes::rope::{add, both, stretch};
use rox_scopes::scope::inherit;
use rox_scopes::stored_scope::{OwnDeclarations, Scope, Stretch};
use std::alloc::AllocError;
use std::collections::BTreeSet;

/// Like `scope_of_tag`, but the parent's scope `above` is `inherited`, a stretch of few. A scope that lists few is a stretch
/// again.
fn scope_below_few<'input>(
    elements: &mut ElementTables<'input>,
    prefix_set: &BTreeSet<Option<&'input str>>,
    above: u32,
    inherited: Stretch,
    own: OwnDeclarations,
) -> Result<u32, AllocError>
    requires { HasFewAbove elements.old prefix_set.now.keys above own.from inherited }
    ensures { IfOk result (λ s. HasScope elements.old elements.new above own.from own.xml s) }
{
    inherit(
        elements.namespaces.as_slice(),
        &mut elements.listed,
        own,
        prefix_set,
        inherited,
    )?;
    let end = elements.listed.len();
    if end - own.from <= FEW {
        let few = stretch(own.from, end)?;
        let scope = add(&mut elements.scopes, Scope::Few(few))?;
        return Ok(scope);
    }
    let many = add_back(&mut elements.listed, &mut elements.scopes, own.from)?;
    elements.present.make_innermost(
        elements.namespaces.as_slice(),
        &elements.listed,
        &elements.scopes,
        many,
    )?;
    Ok(many)
}

/// Like `scope_of_tag`, but the parent's scope `above` lists many.
fn scope_below_many<'input>(
    elements: &mut ElementTables<'input>,
    above: u32,
    own: OwnDeclarations,
) -> Result<u32, AllocError>
    requires tag { HasOpenTag elements.old above own.from }
    ensures { IfOk result (λ s. HasScope elements.old elements.new above own.from own.xml s) }
{
    elements.present.make_innermost(
        elements.namespaces.as_slice(),
        &elements.listed,
        &elements.scopes,
        above,
    )?;
    let from = elements.listed.len();
    if own.from >= from && !own.xml {
        return Ok(above);
    }
    let tables = PrefixTables {
        namespaces: elements.namespaces.as_slice(),
        listed: &elements.listed,
        present: &elements.present,
    };
    let rest = hide_own(tables, &mut elements.scopes, above, own)?;
    let first = add_back(&mut elements.listed, &mut elements.scopes, own.from)?;
    let scope = both(&mut elements.scopes, first, rest)?;
    elements.present.enter(
        elements.namespaces.as_slice(),
        &elements.listed,
        OwnDeclarations { from, xml: own.xml },
        scope,
    )?;
    Ok(scope)
}

/// Returns the scope of an element with the declarations `own`, whose parent has the scope `above`. It is the parent's scope if
/// the element declares nothing. `prefix_set` has its prefixes if they are many. If the scope lists many, it is the innermost
/// scope of `present` afterwards.
#[inline(always)]
pub fn scope_of_tag<'input>(
    elements: &mut ElementTables<'input>,
    prefix_set: &BTreeSet<Option<&'input str>>,
    above: u32,
    own: OwnDeclarations,
) -> Result<u32, AllocError>
    requires { HasTagPrefixes elements.old prefix_set.now.keys above own.from }
    ensures { IfOk result (λ s. HasScope elements.old elements.new above own.from own.xml s) }
{
    if let Scope::Few(stretch) = elements.scopes[above as usize] {
        if own.from >= elements.listed.len() && !own.xml {
            return Ok(above);
        }
        return scope_below_few(elements, prefix_set, above, stretch, own);
    }
    scope_below_many(elements, above, own)
}
