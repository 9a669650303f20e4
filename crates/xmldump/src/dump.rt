//! The dump of a text: what the library answers of it.

use crate::axes::write_axes;
use crate::lookups::write_lookups;
use crate::node::write_node;
use crate::refusal::write_refusal;
use rox_dump::answers::{Answers, Recorder};
use rox_dump::options::Options;
use rox_dump::output::write_number;
use rox_programs::output::Output;
use rox_programs::program_error::ProgramError;
use roxmltree::{Document, Error, Node, ParsingOptions, ResolveWith};
use std::alloc::Global;
use std::io::Write;

/// Writes what is asked of a text's resolver, which gives these answers, and then the refusal of the text, or its nodes.
pub fn write_dump<W: Write>(
    alloc: Global,
    text: &str,
    answers: Answers<'_>,
    options: Options,
    out: &mut W,
) -> Result<(), ProgramError> {
    let recorder = Recorder::new(alloc, answers);
    let answer = parse(alloc, text, answers, &recorder, options);
    write_requests(recorder, out)?;
    write_answer(&answer, alloc, options, out)
}

fn write_answer<W: Write>(
    answer: &Result<Document<'_>, Error>,
    alloc: Global,
    options: Options,
    out: &mut W,
) -> Result<(), ProgramError> {
    match answer {
        Ok(document) => write_document(document, options, out),
        Err(error) => write_refusal(alloc, error, out),
    }
}

fn parse<'t>(
    alloc: Global,
    text: &'t str,
    answers: Answers<'t>,
    recorder: &Recorder<'t>,
    options: Options,
) -> Result<Document<'t>, Error> {
    let resolver = ResolveWith::new(|public_id, uri| recorder.answer(alloc, public_id, uri));
    let parsing = ParsingOptions {
        allow_dtd: options.allow_dtd,
        nodes_limit: options.nodes_limit,
        entity_resolver: if answers.is_none() {
            None
        } else {
            Some(resolver)
        },
        document_key: 0,
    };
    Document::parse_with_options(alloc, text, parsing)
}

fn write_requests<W: Write>(recorder: Recorder<'_>, out: &mut W) -> Result<(), ProgramError> {
    match recorder.into_requests() {
        Some(requests) => Ok(out.write_all(&requests)?),
        None => Err(ProgramError::OutOfMemory),
    }
}

// The nodes are written by a loop: however deep they lie, no stack is used up.
fn write_document<W: Write>(
    document: &Document<'_>,
    options: Options,
    out: &mut W,
) -> Result<(), ProgramError> {
    let nodes = document.descendants();
    let mut out = Output::new(out);
    out.text("OK ");
    write_number(nodes.len() as u64, &mut out);
    out.text("\n");
    for node in nodes {
        write_lines(&node, options, &mut out);
        if out.has_failed() {
            break;
        }
    }
    Ok(out.into_result()?)
}

fn write_lines<W: Write>(node: &Node<'_, '_>, options: Options, out: &mut Output<'_, W>) {
    write_node(node, out);
    if options.axes {
        write_axes(node, out);
    }
    if options.lookups {
        write_lookups(node, out);
    }
}
