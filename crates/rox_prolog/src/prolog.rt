//! The prolog: the XML declaration, the document type declaration, and what is around them (XML 1.0 section 2.8 [22] prolog).

ghost use Rattle.std.specs.Prelude.{◌≡◌, true};
ghost use Rattle.rox_builder.specs.BuilderState.{IsConsistent};
ghost use Rattle.rox_prolog.specs.Requests.{Allows, MayAsk};
ghost use Rattle.rox_prolog.specs.PrologParts.{ReadsDoctype, ReadsStart};

use crate::dtd::document_type;
use crate::resolver::EntityResolver;
use rox_builder::builder::Builder;
use rox_constructs::misc::misc;
use rox_grammar::failure::Failure;
use rox_grammar::fault::{Fault, Word};
use rox_markup::xml_decl::xml_decl_if;
use rox_scan::cursor::Cursor;
use rox_values::entities::Entities;
use rox_values::parse_error::ParseError;

/// Reads the XML declaration, if it is at the cursor, and the comments, processing instructions and white space after it.
pub fn prolog_start<'input>(
    cursor: &mut Cursor<'input>,
    builder: &mut Builder<'input>,
) -> Result<(), Failure>
    requires fine { IsConsistent builder.old.tables builder.old.opened.items }
    ensures { ReadsStart cursor.old cursor.new builder.old builder.new result }
{
    xml_decl_if(cursor)?;
    misc(cursor, builder)
}

/// Reads the document type declaration, if it is at the cursor, and the comments, processing instructions and white space after
/// it. Returns whether it is there. The resolver is asked only if `allow` is true.
pub fn doctype<'input, R: EntityResolver<'input>>(
    cursor: &mut Cursor<'input>,
    builder: &mut Builder<'input>,
    entities: &mut Entities<'input>,
    allow: bool,
    resolver: &Option<R>,
) -> Result<bool, ParseError<'input>>
    requires may { allow ≡ true → MayAsk R.can_resolve resolver.now }
    requires fine { IsConsistent builder.old.tables builder.old.opened.items }
    ensures { ReadsDoctype (Allows R.allows resolver.now) allow cursor.old cursor.new builder.old
        builder.new entities.old entities.new result }
{
    if !cursor.starts(Word::DoctypeStart) {
        return Ok(false);
    }
    if !allow {
        return Err(ParseError::Fault(Fault::DtdDetected));
    }
    document_type(cursor, builder, entities, resolver)?;
    misc(cursor, builder)?;
    Ok(true)
}
