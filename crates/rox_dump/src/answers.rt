//! What a resolver of external entities answers, and what it is asked.

ghost use Rattle.std.specs.Prelude.{◌≡◌, IfOk, option_map, string_bytes};
ghost use Rattle.std.specs.Result.{result_map_both};
ghost use Rattle.rox_dump.specs.Answers as spec;

use crate::output::write_text;
use rox_programs::output::Output;
use std::alloc::{AllocError, Global};
use std::cell::{Cell, RefCell};
use std::io;
use std::io::Write;

/// An answer of a resolver.
#[derive(Drop)]
pub enum Answer {
    /// This text.
    Text(String),
    /// No text.
    Nothing,
    /// A refusal of the document, in these words.
    Refusal(String),
}

/// The answers of a resolver.
#[derive(Clone, Copy)]
pub enum Answers<'a> {
    /// The answers to the first request, the second, and so on; the last answers all later ones. Without any there is no
    /// resolver.
    InOrder(&'a [Answer]),
    /// This text answers each request.
    Each(&'a str),
}

impl<'a> Answers<'a> {
    /// Returns whether there is no resolver.
    pub fn is_none(&self) -> bool
        ensures { result ≡ spec.is_none self.now }
    {
        match self {
            Answers::InOrder(answers) => answers.is_empty(),
            Answers::Each(_) => false,
        }
    }

    /// Returns the answer to a request, which is the first if `call` is 0. Fails if there is no memory for a refusal's words.
    fn reply(
        &self,
        alloc: Global,
        call: usize,
    ) -> Result<Result<Option<&'a str>, String>, AllocError>
        ensures { IfOk result (λ r. result_map_both (option_map (λ x. x.now)) string_bytes r
            ≡ spec.reply_at self.now call) }
    {
        let answers = match self {
            Answers::InOrder(answers) => *answers,
            Answers::Each(text) => return Ok(Ok(Some(*text))),
        };
        match answers.get(call).or(answers.last()) {
            Some(Answer::Text(text)) => Ok(Ok(Some(text.as_str()))),
            Some(Answer::Nothing) | None => Ok(Ok(None)),
            Some(Answer::Refusal(words)) => Ok(Err(String::from_str(alloc, words.as_str())?)),
        }
    }
}

/// A resolver that keeps what it is asked.
#[derive(Drop)]
pub struct Recorder<'a> {
    answers: Answers<'a>,
    calls: Cell<usize>,
    requests: RefCell<Vec<u8>>,
    lacks_memory: Cell<bool>,
}

impl<'a> Recorder<'a> {
    /// Returns a recorder with these answers, which was not asked yet.
    pub fn new(alloc: Global, answers: Answers<'a>) -> Recorder<'a>
        ensures { result.answers ≡ answers.entry }
    {
        Recorder {
            answers,
            calls: Cell::new(0),
            requests: RefCell::new(Vec::new(alloc)),
            lacks_memory: Cell::new(false),
        }
    }

    /// Notes a request, and returns the reply to it. If there is no memory for a refusal's words, the reply is a refusal without
    /// words. If memory ran out for these or for the note, `into_requests` returns `None`.
    pub fn answer(
        &self,
        alloc: Global,
        public_id: Option<&str>,
        uri: &str,
    ) -> Result<Option<&'a str>, String> {
        let call = self.calls.get();
        self.calls.set(call.saturating_add(1));
        if self.note(public_id, uri).is_err() {
            self.lacks_memory.set(true);
        }
        match self.answers.reply(alloc, call) {
            Ok(reply) => reply,
            Err(_) => {
                self.lacks_memory.set(true);
                Err(String::new(alloc))
            }
        }
    }

    fn note(&self, public_id: Option<&str>, uri: &str) -> io::Result<()> {
        if let Ok(mut requests) = self.requests.try_borrow_mut() {
            return write_request(public_id, uri, &mut *requests);
        }
        Ok(())
    }

    /// Returns the lines of all requests, or `None` if memory ran out for one, or for the words of a refusal.
    pub fn into_requests(self) -> Option<Vec<u8>> {
        if self.lacks_memory.get() {
            return None;
        }
        Some(self.requests.into_inner())
    }
}

/// Writes the line of a request: the public identifier and the system identifier.
fn write_request<W: Write>(public_id: Option<&str>, uri: &str, out: &mut W) -> io::Result<()> {
    let mut out = Output::new(out);
    write_text("REQ ", public_id, &mut out);
    write_text(" ", Some(uri), &mut out);
    out.text("\n");
    out.into_result()
}
