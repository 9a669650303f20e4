//! Comments and processing instructions, which content, the prolog and what follows the root element contain (XML 1.0 sections 2.5, 2.6,
//! 2.8 [27] Misc).

ghost use Rattle.std.specs.Prelude.{length};
ghost use Rattle.rox_grammar.specs.declared.fault.Word.TheVariants as word;
ghost use Rattle.rox_reading.specs.Machine as machine;
ghost use Rattle.rox_reading.specs.Refusals.{lifted};
ghost use Rattle.rox_reading.specs.WholeText as whole;
ghost use Rattle.rox_builder.specs.BuilderState.{IsConsistent};
ghost use Rattle.rox_builder.specs.Outcomes.{ScansAs};
ghost use Rattle.rox_builder.specs.Readiness.{MayRead};

use rox_builder::builder::Builder;
use rox_grammar::failure::Failure;
use rox_grammar::fault::Word;
use rox_markup::markup;
use rox_rows::row::{NodeKind, PI};
use rox_scan::cursor::Cursor;
use rox_storage::storage::StringStorage;

/// Reads a comment, from `<!--`.
pub fn comment<'input>(
    cursor: &mut Cursor<'input>,
    builder: &mut Builder<'input>,
) -> Result<(), Failure>
    requires { MayRead word.CommentStart cursor.old builder.old }
    ensures { ScansAs (λ limit src s. lifted (machine.comment_step limit src s)) cursor.old
        cursor.new builder.old builder.new result }
{
    let start = cursor.pos;
    let text = markup::comment(cursor)?;
    builder.leaf(
        start,
        cursor.pos,
        NodeKind::Comment(StringStorage::Borrowed(text)),
    )
}

/// Reads a processing instruction, from `<?`.
pub fn instruction<'input>(
    cursor: &mut Cursor<'input>,
    builder: &mut Builder<'input>,
) -> Result<(), Failure>
    requires { MayRead word.PIStart cursor.old builder.old }
    ensures { ScansAs (λ limit src s. lifted (machine.instruction_step limit src s)) cursor.old
        cursor.new builder.old builder.new result }
{
    let start = cursor.pos;
    let pi = markup::processing_instruction(cursor)?;
    builder.leaf(
        start,
        cursor.pos,
        NodeKind::PI(PI {
            target: pi.target,
            value: pi.value,
        }),
    )
}

/// Reads comments, processing instructions and white space.
#[inline(always)]
pub fn misc<'input>(
    cursor: &mut Cursor<'input>,
    builder: &mut Builder<'input>,
) -> Result<(), Failure>
    requires fine { IsConsistent builder.old.tables builder.old.opened.items }
    ensures { ScansAs (λ limit src s. lifted (whole.misc limit (length src) src s)) cursor.old
        cursor.new builder.old builder.new result }
{
    for _turn in 0..cursor.text.len() {
        cursor.spaces();
        if cursor.starts(Word::CommentStart) {
            comment(cursor, builder)?;
        } else if cursor.starts(Word::PIStart) {
            instruction(cursor, builder)?;
        } else {
            return Ok(());
        }
    }
    Ok(())
}
