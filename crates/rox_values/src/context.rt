//! The context of a text: what differs between the main text and replacement texts.

ghost use Rattle.std.specs.Prelude.{◌≡◌, ◌-◌, ◌<◌, false, true, IfOk};
ghost use Rattle.rox_reading.specs.Machine.{left_behind};
ghost use Rattle.rox_values.specs.DeclaredEntities.{Opens, opened_at};

use crate::entities::Entities;
use rox_grammar::fault::Fault;

/// The maximum number of replacement texts that are open at once.
pub const MOST_DEEP: u32 = 10;

/// The maximum number of replacement texts opened inside the one that a main-text reference opens.
pub const MOST_WITHIN: u32 = 255;

/// The context in which a text is read.
#[derive(Clone, Copy)]
pub struct Context<'e, 'input> {
    /// Whether the text is the main text, not a replacement text.
    pub main: bool,
    /// How many replacement texts may be opened inside one another.
    pub depth_left: u32,
    /// How many elements are open around the text.
    pub open_around: usize,
    pub entities: &'e Entities<'input>,
}

impl<'e, 'input> Context<'e, 'input> {
    /// Returns the context of the main text.
    pub fn main_text(entities: &'e Entities<'input>) -> Context<'e, 'input>
        ensures { result ≡ record {
          main = true;
          depth_left = MOST_DEEP;
          open_around = 0;
          entities = entities.entry;
        } }
    {
        Context {
            main: true,
            depth_left: MOST_DEEP,
            open_around: 0,
            entities,
        }
    }

    /// Returns the context of a replacement text whose reference ends at `after`, and how many more may be opened inside it.
    /// `openings_left` could be opened before it, and `open_around` elements are open. It is a fault if none may be opened.
    pub fn opened(
        self,
        after: usize,
        openings_left: u32,
        open_around: usize,
    ) -> Result<(Context<'e, 'input>, u32), Fault>
        ensures value { Opens result (opened_at self.entry.depth_left self.entry.main after
            openings_left) }
        ensures context { IfOk result (λ x. x.0 ≡ record {
          main = false;
          depth_left = self.entry.depth_left - 1;
          open_around = open_around;
          entities = self.entry.entities;
        }) }
        ensures deeper { IfOk result (λ x. x.0.depth_left < self.entry.depth_left) }
    {
        if self.depth_left == 0 {
            return Err(Fault::EntityReferenceLoop(after));
        }
        let within = Context {
            main: false,
            depth_left: self.depth_left - 1,
            open_around,
            entities: self.entities,
        };
        if self.main {
            return Ok((within, MOST_WITHIN));
        }
        if openings_left == 0 {
            return Err(Fault::EntityReferenceLoop(after));
        }
        Ok((within, openings_left - 1))
    }

    /// Returns how many replacement texts may be opened after the reference: `before` in the main text, `inner` in a replacement
    /// text.
    pub fn left_behind(self, before: u32, inner: u32) -> u32
        ensures { result ≡ left_behind self.entry.main before inner }
    {
        if self.main { before } else { inner }
    }
}
