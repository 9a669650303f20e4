//! Reading of a text from its start to its end (XML 1.0 sections 2.1, 2.8).

ghost use Rattle.std.specs.Prelude.{◌≡◌, ◌∷◌, [], IfOk, IfErr, length, true};
ghost use Rattle.rox_builder.specs.BuilderState.{IsConsistent, tables_of};
ghost use Rattle.rox_rows.specs.Rows.{node_rows};
ghost use Rattle.rox_rows.specs.declared.row.NodeKind.TheVariants as kind;
ghost use Rattle.rox_builder.specs.Outcomes.{ParsesAs};
ghost use Rattle.rox_builder.specs.Readiness.{MayReadTag};
ghost use Rattle.rox_reading.specs.Machine as machine;
ghost use Rattle.rox_prolog.specs.Requests.{Allows, MayAsk};
ghost use Rattle.rox_build.specs.Built.{Built, BuiltRefusal};
ghost use Rattle.rox_build.specs.TextParts.{ReadsBody, ReadsDocument, ReadsRest};
ghost use Rattle.rox_build.specs.WholeTexts.{IsBegun};

use crate::content::content;
use rox_builder::builder::{Builder, FirstTables, empty_scope};
use rox_constructs::constructs::element;
use rox_constructs::misc::misc;
use rox_content::quick_root::{RootLook, root_element};
use rox_grammar::fault::Fault;
use rox_markup::source::start_of;
use rox_prolog::prolog::{doctype, prolog_start};
use rox_prolog::resolver::EntityResolver;
use rox_rows::attributes::AttributeTable;
use rox_rows::forecast::first_rows;
use rox_rows::node_table::NodeTable;
use rox_scan::cursor::Cursor;
use rox_values::context::Context;
use rox_values::entities::Entities;
use rox_values::parse_error::ParseError;
use std::alloc::{AllocError, Global};

/// Reads the start tag of the root element, from its `<`. The text is the main text.
#[inline(always)]
fn root_start<'input>(
    cursor: &mut Cursor<'input>,
    builder: &mut Builder<'input>,
    context: Context<'_, 'input>,
) -> Result<(), ParseError<'input>>
    requires tag { MayReadTag cursor.old builder.old }
    requires main { context.main ≡ true }
    ensures { ParsesAs machine.tag_step context.entry cursor.old cursor.new builder.old builder.new
        result }
{
    match root_element(cursor, builder, &context) {
        RootLook::Read => Ok(()),
        RootLook::NotRead => element(cursor, builder, context),
        RootLook::Lacking => Err(ParseError::Memory),
    }
}

/// Reads the root element and what follows it, if `<` is at the cursor. Returns whether `<` is there.
#[inline(always)]
fn body<'input>(
    cursor: &mut Cursor<'input>,
    builder: &mut Builder<'input>,
    entities: &Entities<'input>,
) -> Result<bool, ParseError<'input>>
    requires fine { IsConsistent builder.old.tables builder.old.opened.items }
    ensures { ReadsBody entities.now cursor.old cursor.new builder.old builder.new result }
{
    if cursor.is_at_end() || cursor.text.as_bytes()[cursor.pos] != b'<' {
        return Ok(false);
    }
    let context = Context::main_text(entities);
    root_start(cursor, builder, context)?;
    content(cursor, builder, context)?;
    misc(cursor, builder)?;
    Ok(true)
}

/// Reads the root element and what follows it, up to the end of the text.
#[inline(always)]
fn rest<'input>(
    cursor: &mut Cursor<'input>,
    builder: &mut Builder<'input>,
    entities: &Entities<'input>,
) -> Result<(), ParseError<'input>>
    requires fine { IsConsistent builder.old.tables builder.old.opened.items }
    ensures { ReadsRest entities.now cursor.old cursor.new builder.old builder.new result }
{
    let some = body(cursor, builder, entities)?;
    if !cursor.is_at_end() {
        return Err(ParseError::Fault(Fault::UnknownToken(cursor.pos)));
    }
    if !some {
        return Err(ParseError::Fault(Fault::NoRootNode));
    }
    Ok(())
}

/// Reads a whole text, from after its byte order mark to its end. Returns whether it has a document type declaration.
#[inline(always)]
fn document<'input, R: EntityResolver<'input>>(
    alloc: Global,
    cursor: &mut Cursor<'input>,
    builder: &mut Builder<'input>,
    allow: bool,
    resolver: &Option<R>,
) -> Result<bool, ParseError<'input>>
    requires may { allow ≡ true → MayAsk R.can_resolve resolver.now }
    requires fine { IsConsistent builder.old.tables builder.old.opened.items }
    ensures { ReadsDocument (Allows R.allows resolver.now) allow cursor.old builder.old builder.new
        result }
{
    let mut entities: Entities<'input> = Entities::new(alloc);
    prolog_start(cursor, builder)?;
    let dtd = doctype(cursor, builder, &mut entities, allow, resolver)?;
    rest(cursor, builder, &entities)?;
    Ok(dtd)
}

/// Returns the tables allocated at the start of a text, with the row of the root node.
#[inline(always)]
pub fn first_tables<'input>(
    alloc: Global,
    text: &'input str,
) -> Result<FirstTables<'input>, AllocError>
    ensures { IfOk result (λ first. node_rows first.nodes ≡ record {
      start = 0;
      end = length text.now;
      parent = 0;
      subtree_end = 0;
      kind = kind.Root;
    } ∷ []) }
{
    let bytes = text.len();
    let rows = first_rows(text);
    // The scopes come last: values made before the nodes would have to be saved meanwhile.
    let attributes = AttributeTable::of_text(alloc, bytes, rows.attributes);
    let nodes = NodeTable::of_text(alloc, bytes, rows.nodes)?;
    let scopes = empty_scope(alloc)?;
    Ok(FirstTables {
        attributes,
        scopes,
        nodes,
    })
}

/// Reads a text from its start to its end. The builder has the tables of its tree then. Returns whether the text has a document
/// type declaration.
#[inline(always)]
pub fn build<'input, R: EntityResolver<'input>>(
    alloc: Global,
    text: &'input str,
    allow: bool,
    resolver: &Option<R>,
    builder: &mut Builder<'input>,
) -> Result<bool, ParseError<'input>>
    requires may { allow ≡ true → MayAsk R.can_resolve resolver.now }
    requires begun { IsBegun (length text.now) builder.old }
    ensures ok { IfOk result
        (λ dtd. Built builder.old.nodes_limit allow
        (Allows R.allows resolver.now) text.now (tables_of builder.new) dtd) }
    ensures refused { IfErr result
        (λ e. BuiltRefusal builder.old.nodes_limit allow
        (Allows R.allows resolver.now) text.now e) }
{
    let mut cursor: Cursor<'input> = start_of(text);
    let dtd = document(alloc, &mut cursor, builder, allow, resolver)?;
    builder.end()?;
    Ok(dtd)
}
