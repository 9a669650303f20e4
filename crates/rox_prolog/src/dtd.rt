//! Document type declarations (XML 1.0 section 2.8): their entities, and the comments and processing instructions of their
//! internal subsets, which are children of the root node. A resolver is asked for each external entity, at its declaration.

ghost use Rattle.std.specs.Prelude.{◌≡◌, length, true};
ghost use Rattle.rox_grammar.specs.Search.{stands};
ghost use Rattle.rox_grammar.specs.FixedTexts.{word_text};
ghost use Rattle.rox_grammar.specs.declared.fault.Word.TheVariants as word;
ghost use Rattle.rox_reading.specs.Doctype as reading;
ghost use Rattle.rox_prolog.specs.Requests.{Allows, MayAsk};
ghost use Rattle.rox_markup.specs.DoctypeViews.{definition_view, request_view};
ghost use Rattle.rox_prolog.specs.Asking.{AskOutcome, IsDefined};
ghost use Rattle.rox_builder.specs.Outcomes.{MayStep};
ghost use Rattle.rox_builder.specs.Readiness.{MayRead};
ghost use Rattle.rox_prolog.specs.Asking.{MayAskHere, MayReadAsking};
ghost use Rattle.rox_constructs.specs.ParsedResults.{ended};
ghost use Rattle.rox_prolog.specs.PrologParts.{ReadsDeclaration, ReadsEntity, ReadsItem};

use crate::resolver::{EntityResolver, ask};
use rox_builder::builder::Builder;
use rox_bytes::runs::is_at;
use rox_constructs::misc::{comment, instruction};
use rox_constructs::parsed::parsed;
use rox_grammar::fault::{Due, Fault, Word};
use rox_markup::doctype::{
    Definition, ExternalId, doctype_head, entity_def, entity_head, is_skipped_declaration,
    skip_declaration, subset_end,
};
use rox_markup::source::replacement_in;
use rox_scan::cursor::Cursor;
use rox_values::entities::Entities;
use rox_values::parse_error::ParseError;

/// Returns the replacement text that the resolver gives for an external entity, if it gives one. The request is at `at`.
fn answer_for<'input, R: EntityResolver<'input>>(
    id: ExternalId<'input>,
    at: usize,
    resolver: &Option<R>,
) -> Result<Option<Cursor<'input>>, ParseError<'input>>
    requires { MayAsk R.can_resolve resolver.now }
    ensures { AskOutcome (Allows R.allows resolver.now)
        (reading.defined (reading.outer (request_view id.entry)) at)
        (IsDefined (reading.outer (request_view id.entry)) at) result }
{
    match ask(resolver, id.public_id, id.uri) {
        Ok(Some(answer)) => match replacement_in(answer) {
            Ok(text) => Ok(Some(text)),
            Err(fault) => Err(ParseError::FaultIn(answer, fault)),
        },
        Ok(None) => Ok(None),
        Err(message) => Err(ParseError::Resolver(at, message)),
    }
}

/// Returns the replacement text of a definition that ends at `at`, if it has one.
fn text_of<'input, R: EntityResolver<'input>>(
    definition: Definition<'input>,
    at: usize,
    resolver: &Option<R>,
) -> Result<Option<Cursor<'input>>, ParseError<'input>>
    requires { MayAsk R.can_resolve resolver.now }
    ensures { AskOutcome (Allows R.allows resolver.now)
        (reading.defined (definition_view definition.entry) at)
        (IsDefined (definition_view definition.entry) at) result }
{
    match definition {
        Definition::Inner(text) => Ok(Some(text)),
        Definition::Outer(id) => answer_for(id, at, resolver),
    }
}

/// Reads the declaration of an entity, from `<!ENTITY` (XML 1.0 [70] EntityDecl).
fn entity<'input, R: EntityResolver<'input>>(
    cursor: &mut Cursor<'input>,
    entities: &mut Entities<'input>,
    resolver: &Option<R>,
) -> Result<(), ParseError<'input>>
    requires { MayAskHere
        (stands (word_text word.EntityStart) cursor.old.text.now cursor.old.pos ≡ true)
        R.can_resolve resolver.now }
    ensures { ReadsEntity (Allows R.allows resolver.now) cursor.old cursor.new entities.old
        entities.new result }
{
    let head = entity_head(cursor)?;
    let definition = entity_def(cursor, head.parameter)?;
    let text = text_of(definition, cursor.pos, resolver)?;
    cursor.spaces();
    cursor.byte(b'>')?;
    if let Some(text) = text {
        entities.declare(head.name, text)?;
    }
    Ok(())
}

/// Returns false, as `item` does for an item after which the declaration continues, or the item's refusal.
fn ended<'input>(read: Result<(), ParseError<'input>>) -> Result<bool, ParseError<'input>>
    ensures { result ≡ ended read.entry }
{
    match read {
        Ok(()) => Ok(false),
        Err(refused) => Err(refused),
    }
}

/// Reads an item of the internal subset, after any white space, or the subset's end (XML 1.0 [28b] intSubset). Returns whether
/// that is the end of the declaration, which starts at `start`.
fn item<'input, R: EntityResolver<'input>>(
    cursor: &mut Cursor<'input>,
    builder: &mut Builder<'input>,
    entities: &mut Entities<'input>,
    resolver: &Option<R>,
    start: usize,
) -> Result<bool, ParseError<'input>>
    requires { MayAskHere (MayStep cursor.old builder.old) R.can_resolve resolver.now }
    ensures { ReadsItem (Allows R.allows resolver.now) start cursor.old cursor.new builder.old
        builder.new entities.old entities.new result }
{
    cursor.spaces();
    if cursor.starts(Word::EntityStart) {
        return ended(entity(cursor, entities, resolver));
    }
    if cursor.starts(Word::CommentStart) {
        return ended(parsed(comment(cursor, builder)));
    }
    if cursor.starts(Word::PIStart) {
        return ended(parsed(instruction(cursor, builder)));
    }
    if is_skipped_declaration(cursor) {
        skip_declaration(cursor, start)?;
        return Ok(false);
    }
    if !is_at(cursor.text, cursor.pos, b']') {
        return Err(ParseError::Fault(Fault::UnknownToken(cursor.pos)));
    }
    subset_end(cursor)?;
    Ok(true)
}

/// Reads the internal subset, from after its `[` to the end of the declaration, which starts at `start`. It reports no fault if
/// the text ends right after `[` or an item. What must follow the declaration is missing then.
fn subset<'input, R: EntityResolver<'input>>(
    cursor: &mut Cursor<'input>,
    builder: &mut Builder<'input>,
    entities: &mut Entities<'input>,
    resolver: &Option<R>,
    start: usize,
) -> Result<(), ParseError<'input>>
    requires { MayReadAsking R.can_resolve resolver.now builder.old }
    ensures { ReadsDeclaration (Allows R.allows resolver.now)
        (λ limit. reading.subset limit start (length cursor.old.text.now) cursor.old.text.now)
        cursor.old cursor.new builder.old builder.new entities.old entities.new result }
{
    for _turn in 0..cursor.text.len() {
        if cursor.is_at_end() {
            return Ok(());
        }
        if item(cursor, builder, entities, resolver, start)? {
            return Ok(());
        }
    }
    Ok(())
}

/// Reads a document type declaration, from `<!DOCTYPE` (XML 1.0 [28] doctypedecl).
pub fn document_type<'input, R: EntityResolver<'input>>(
    cursor: &mut Cursor<'input>,
    builder: &mut Builder<'input>,
    entities: &mut Entities<'input>,
    resolver: &Option<R>,
) -> Result<(), ParseError<'input>>
    requires { MayAskHere (MayRead word.DoctypeStart cursor.old builder.old) R.can_resolve
        resolver.now }
    ensures { ReadsDeclaration (Allows R.allows resolver.now)
        (λ limit. reading.doctype_step limit cursor.old.text.now)
        cursor.old cursor.new builder.old builder.new entities.old entities.new result }
{
    let start = cursor.pos;
    doctype_head(cursor)?;
    if is_at(cursor.text, cursor.pos, b'[') {
        cursor.advance();
        return subset(cursor, builder, entities, resolver, start);
    }
    if cursor.is_at_end() {
        return Err(ParseError::Fault(Fault::UnexpectedEndOfStream));
    }
    let here = cursor.text.as_bytes()[cursor.pos];
    if here != b'>' {
        return Err(ParseError::Fault(Fault::InvalidChar2(Due::SubsetOrEnd, here, cursor.pos)));
    }
    cursor.advance();
    Ok(())
}
