//! The parts of a document type declaration (XML 1.0 sections 2.8, 4.2 and 4.7).

ghost use Rattle.std.specs.Prelude.{◌≡◌, ◌+◌, slice_index, true, slice_range, IfOk};
ghost use Rattle.rox_grammar.specs.Search.{stands};
ghost use Rattle.rox_grammar.specs.FixedTexts.{word_text};
ghost use Rattle.rox_grammar.specs.declared.fault.Word.TheVariants as word;
ghost use Rattle.rox_reading.specs.Doctype as spec;
ghost use Rattle.rox_scan.specs.CursorSteps.{Steps};
ghost use Rattle.rox_markup.specs.DoctypeViews.{definition_view, head_view, inner_at, is_skipped_declaration, outer_at, skipped_declaration_at, request_view, subset_end_at};
ghost use Rattle.rox_bytes.specs.ScanResults.{AreBoundaries};

use rox_bytes::runs::{after_byte, is_at};
use rox_bytes::search::byte_from;
use rox_grammar::fault::{Due, Fault, Word};
use rox_scan::cursor::Cursor;

/// The identifiers of an external entity: its public identifier, if it has one, and its system identifier, as they are written
/// (XML 1.0 [75] ExternalID).
#[derive(Clone, Copy)]
pub struct ExternalId<'input> {
    pub public_id: Option<&'input str>,
    pub uri: &'input str,
}

/// The definition of an entity (XML 1.0 [73] EntityDef, [74] PEDef).
#[derive(Clone, Copy)]
pub enum Definition<'input> {
    /// The text in quotes: its start, in the source cut off at its end.
    Inner(Cursor<'input>),
    /// The identifiers by which the entity must be requested.
    Outer(ExternalId<'input>),
}

/// The declaration of an entity, up to its definition.
#[derive(Clone, Copy)]
pub struct EntityHead<'input> {
    /// Whether it is a parameter entity, declared by `%`.
    pub parameter: bool,
    pub name: &'input str,
}

/// Reads a text in quotes, and returns its range in bytes. It ends at the first quote that equals the one before it.
#[tactic(auto, unfolding(rox_reading::specs::Doctype::quoted_at))]
fn quoted_span(cursor: &mut Cursor<'_>) -> Result<(usize, usize), Fault>
    ensures read { Steps (λ x. slice_range cursor.old.text.now x.0 x.1) cursor.old cursor.new
        result spec.quoted_at }
    ensures start { IfOk result (λ x. x.0 ≡ cursor.old.pos + 1) }
    ensures within { IfOk result (λ x. AreBoundaries cursor.old.text.now x.0 x.1) }
{
    let quote = cursor.quote()?;
    let start = cursor.pos;
    let end = byte_from(cursor.text, start, quote.byte);
    cursor.pos = end;
    cursor.byte(quote.byte)?;
    Ok((start, end))
}

/// Reads any characters except the quote, in quotes (XML 1.0 [11] SystemLiteral, [12] PubidLiteral). Returns the text between
/// these.
#[tactic(auto, unfolding(rox_reading::specs::Doctype::quoted_at))]
fn quoted<'input>(cursor: &mut Cursor<'input>) -> Result<&'input str, Fault>
    ensures { Steps (λ x. x.now) cursor.old cursor.new result spec.quoted_at }
{
    let (start, end) = quoted_span(cursor)?;
    Ok(&cursor.text[start..end])
}

/// Reads the system identifier, from `SYSTEM`.
#[tactic(auto, unfolding(rox_reading::specs::Doctype::system_at))]
fn system<'input>(cursor: &mut Cursor<'input>) -> Result<ExternalId<'input>, Fault>
    requires { stands (word_text word.System) cursor.old.text.now cursor.old.pos ≡ true }
    ensures { Steps request_view cursor.old cursor.new result spec.system_at }
{
    cursor.skip(Word::System);
    cursor.space()?;
    let uri = quoted(cursor)?;
    Ok(ExternalId {
        public_id: None,
        uri,
    })
}

/// Reads the public identifier and the system identifier, from `PUBLIC`.
#[tactic(auto, unfolding(rox_reading::specs::Doctype::public_at))]
fn public<'input>(cursor: &mut Cursor<'input>) -> Result<ExternalId<'input>, Fault>
    requires { stands (word_text word.Public) cursor.old.text.now cursor.old.pos ≡ true }
    ensures { Steps request_view cursor.old cursor.new result spec.public_at }
{
    cursor.skip(Word::Public);
    cursor.space()?;
    let id = quoted(cursor)?;
    cursor.space()?;
    let uri = quoted(cursor)?;
    Ok(ExternalId {
        public_id: Some(id),
        uri,
    })
}

/// Reads an external identifier, from `SYSTEM` or `PUBLIC` (XML 1.0 [75] ExternalID). Anything else is a fault.
#[tactic(auto, unfolding(rox_reading::specs::Doctype::external_id_at))]
fn external_id<'input>(cursor: &mut Cursor<'input>) -> Result<ExternalId<'input>, Fault>
    ensures { Steps request_view cursor.old cursor.new result spec.external_id_at }
{
    if cursor.starts(Word::System) {
        return system(cursor);
    }
    if cursor.starts(Word::Public) {
        return public(cursor);
    }
    Err(Fault::InvalidExternalID(cursor.pos))
}

/// Reads a name, or nothing if the source ends.
#[tactic(auto, unfolding(rox_reading::specs::Doctype::name_or_end_at))]
fn name_or_end<'input>(cursor: &mut Cursor<'input>) -> Result<&'input str, Fault>
    ensures { Steps (λ x. x.now) cursor.old cursor.new result spec.name_or_end_at }
{
    if cursor.is_at_end() {
        return Ok("");
    }
    cursor.name()
}

/// Reads white space and the notation of an external entity, if one is named at the cursor (XML 1.0 [76] NDataDecl). A
/// parameter entity has no notation, and no white space is read for it.
#[tactic(auto, unfolding(rox_reading::specs::Doctype::notation_at))]
fn notation(cursor: &mut Cursor<'_>, parameter: bool) -> Result<(), Fault>
    ensures { Steps (λ x. x) cursor.old cursor.new result (spec.notation_at parameter) }
{
    if parameter {
        return Ok(());
    }
    cursor.spaces();
    if !cursor.starts(Word::NData) {
        return Ok(());
    }
    cursor.skip(Word::NData);
    cursor.space()?;
    let _name = name_or_end(cursor)?;
    Ok(())
}

/// Reads a text in quotes, and returns it as the replacement text (XML 1.0 [9] EntityValue, section 4.5).
fn inner<'input>(cursor: &mut Cursor<'input>) -> Result<Definition<'input>, Fault>
    ensures { Steps definition_view cursor.old cursor.new result inner_at }
{
    let (start, end) = quoted_span(cursor)?;
    Ok(Definition::Inner(Cursor::within(cursor.text, start, end)))
}

/// Reads an external identifier, and the notation after it.
fn outer<'input>(cursor: &mut Cursor<'input>, parameter: bool) -> Result<Definition<'input>, Fault>
    ensures { Steps definition_view cursor.old cursor.new result (outer_at parameter) }
{
    let id = external_id(cursor)?;
    notation(cursor, parameter)?;
    Ok(Definition::Outer(id))
}

/// Reads the definition of an entity (XML 1.0 [73] EntityDef, [74] PEDef). It is a fault if neither a quote nor the first
/// letter of `SYSTEM` or `PUBLIC` is at the cursor, and so is the end.
#[tactic(auto, unfolding(rox_reading::specs::Doctype::definition_at))]
pub fn entity_def<'input>(
    cursor: &mut Cursor<'input>,
    parameter: bool,
) -> Result<Definition<'input>, Fault>
    ensures { Steps definition_view cursor.old cursor.new result (spec.definition_at parameter) }
{
    if cursor.pos >= cursor.text.len() {
        return Err(Fault::UnexpectedEndOfStream);
    }
    let here = cursor.text.as_bytes()[cursor.pos];
    if here == b'"' || here == b'\'' {
        return inner(cursor);
    }
    if here == b'S' || here == b'P' {
        return outer(cursor, parameter);
    }
    Err(Fault::InvalidChar2(Due::EntityDefinition, here, cursor.pos))
}

/// Reads `%` and the white space after it, if it is at the cursor. Returns whether it is.
#[tactic(auto, unfolding(rox_reading::specs::Doctype::kind_at))]
fn kind(cursor: &mut Cursor<'_>) -> Result<bool, Fault>
    ensures { Steps (λ x. x) cursor.old cursor.new result spec.kind_at }
{
    if !is_at(cursor.text, cursor.pos, b'%') {
        return Ok(false);
    }
    cursor.pos = after_byte(cursor.text, cursor.pos, b'%');
    cursor.space()?;
    Ok(true)
}

/// Reads the declaration of an entity, from `<!ENTITY` up to its definition (XML 1.0 [71] GEDecl, [72] PEDecl).
#[tactic(auto, unfolding(rox_reading::specs::Doctype::entity_head_at))]
pub fn entity_head<'input>(cursor: &mut Cursor<'input>) -> Result<EntityHead<'input>, Fault>
    requires { stands (word_text word.EntityStart) cursor.old.text.now cursor.old.pos ≡ true }
    ensures { Steps head_view cursor.old cursor.new result spec.entity_head_at }
{
    cursor.skip(Word::EntityStart);
    cursor.space()?;
    let parameter = kind(cursor)?;
    let name = cursor.name()?;
    cursor.space()?;
    Ok(EntityHead { parameter, name })
}

/// Reads an external identifier, if one is at the cursor.
#[tactic(auto, unfolding(rox_reading::specs::Doctype::external_id_if))]
fn external_id_if(cursor: &mut Cursor<'_>) -> Result<(), Fault>
    ensures { Steps (λ x. x) cursor.old cursor.new result spec.external_id_if }
{
    if cursor.starts(Word::System) || cursor.starts(Word::Public) {
        let _id = external_id(cursor)?;
    }
    Ok(())
}

/// Reads a document type declaration, from `<!DOCTYPE` up to its `[` or `>` (XML 1.0 [28] doctypedecl). Its external subset
/// is never requested.
#[tactic(auto, unfolding(rox_reading::specs::Doctype::doctype_head_at))]
pub fn doctype_head(cursor: &mut Cursor<'_>) -> Result<(), Fault>
    requires { stands (word_text word.DoctypeStart) cursor.old.text.now cursor.old.pos ≡ true }
    ensures { Steps (λ x. x) cursor.old cursor.new result spec.doctype_head_at }
{
    cursor.skip(Word::DoctypeStart);
    cursor.space()?;
    let _name = name_or_end(cursor)?;
    cursor.spaces();
    external_id_if(cursor)?;
    cursor.spaces();
    Ok(())
}

/// Returns whether a declaration that is skipped is at the cursor (XML 1.0 [45] elementdecl, [52] AttlistDecl, [82]
/// NotationDecl).
pub fn is_skipped_declaration(cursor: &Cursor<'_>) -> bool
    ensures { result ≡ is_skipped_declaration cursor.now.text.now cursor.now.pos }
{
    cursor.starts(Word::ElementStart)
        || cursor.starts(Word::AttlistStart)
        || cursor.starts(Word::NotationStart)
}

/// Moves past a declaration, to after its first `>`, even one in quotes. If none follows, it is a fault at `start`, where the
/// document type declaration starts.
pub fn skip_declaration(cursor: &mut Cursor<'_>, start: usize) -> Result<(), Fault>
    ensures { Steps (λ x. x) cursor.old cursor.new result (skipped_declaration_at start) }
{
    let end = byte_from(cursor.text, cursor.pos, b'>');
    if end >= cursor.text.len() {
        return Err(Fault::UnknownToken(start));
    }
    cursor.pos = end + 1;
    Ok(())
}

/// Reads the end of a document type declaration, from the `]` of its internal subset (XML 1.0 [28] doctypedecl).
pub fn subset_end(cursor: &mut Cursor<'_>) -> Result<(), Fault>
    requires { slice_index cursor.old.text.now cursor.old.pos ≡ 93 }
    ensures { Steps (λ x. x) cursor.old cursor.new result subset_end_at }
{
    cursor.pos = after_byte(cursor.text, cursor.pos, b']');
    cursor.spaces();
    if cursor.pos >= cursor.text.len() {
        return Err(Fault::UnexpectedEndOfStream);
    }
    let here = cursor.text.as_bytes()[cursor.pos];
    if here != b'>' {
        return Err(Fault::InvalidChar2(Due::End, here, cursor.pos));
    }
    cursor.advance();
    Ok(())
}
