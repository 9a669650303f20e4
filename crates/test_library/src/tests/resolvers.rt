//! A resolver of a caller's own type.

use super::{child_count, same};
use roxmltree::{Document, EntityResolver, ParsingOptions};

/// Answers each request with one text.
#[derive(Drop)]
struct Always<'input>(&'input str);

impl<'input> EntityResolver<'input> for Always<'input> {
    ghost use Rattle.std.specs.Prelude.{◌≡◌, Ok, Some};

    ghost can_resolve = { λ self. Unit {0} };

    ghost allows = { λ self request reply. reply ≡ Ok (Some self.0.now) };

    fn resolve(&self, pub_id: Option<&str>, uri: &str) -> Result<Option<&'input str>, String> {
        Ok(Some(self.0))
    }
}

#[test]
fn a_type_answers(rt: HostRuntime) {
    let mut options = ParsingOptions::with_resolver(Always("<p/>"));
    options.allow_dtd = true;
    let text = "<!DOCTYPE r [<!ENTITY a SYSTEM 'a.xml'>]><r>&a;</r>";
    let document = Document::parse_with_options(rt.alloc(), text, options).expect(&rt, text);
    same(&rt, text, child_count(&document), 1);
}
