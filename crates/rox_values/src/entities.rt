//! The entities that a document type declaration declares (XML 1.0 sections 4.2 and 4.5).

ghost use Rattle.std.specs.Prelude.{◌≡◌, ◌<◌, ◌++◌, ◌∷◌, [], ℕ, Some, List, OnOk, IfSome, length, get_or, option_map};
ghost use Rattle.std.specs.BTreeMap.{get_by};
ghost use Rattle.rox_values.specs.declared.entities.Declared.{Declared};
ghost use Rattle.rox_grammar.specs.Entities.{Entity};
ghost use Rattle.rox_scan.specs.Views.{replacement_view};
ghost use Rattle.rox_values.specs.HeldEntities.{IsHeld, code_of, named_cmp};

use rox_scan::cursor::Cursor;
use std::alloc::{AllocError, Global};
use std::collections::BTreeMap;

/// The number of rows of entities.
const ROWS: usize = 61;

/// The number of entities tried in a row before the map is searched.
const FEW: u32 = 8;

/// The maximum number of entities that are in rows.
const MOST_LISTED: usize = 65536;

/// The index that means that there is no entity.
const NONE: u32 = u32::MAX;

/// An entity, and the index of the one before it in its row.
#[derive(Clone, Copy)]
struct Declared<'input> {
    code: u64,
    name: &'input str,
    text: Cursor<'input>,
    before: u32,
}

/// The entities of a document, by code and name. A replacement text is a cursor at its start, in a source that ends where the
/// text does. The source is the main text, or what follows any byte order mark and declaration of a resolver's answer.
#[derive(Drop)]
pub struct Entities<'input> {
    texts: BTreeMap<(u64, &'input str), Cursor<'input>>,
    /// The first entities, in the order of their declarations. Most references are found here, in rows by code, without a search
    /// of the map.
    listed: Vec<Declared<'input>>,
    /// The index of the last entity of each row. Empty as long as no entity is declared.
    rows: Vec<u32>,
    pub ghost held: { (i : ℕ) (d : Declared) → i < length listed.items → IsHeld texts (get_or listed.items i d) },
}

/// Returns a number that few names share, made from their length and four of their bytes. It is compared more quickly than names
/// are.
#[inline(always)]
#[tactic(auto, unfolding(crate::specs::HeldEntities::code_of))]
fn code(name: &str) -> u64
    ensures { result ≡ code_of name.now }
{
    let bytes = name.as_bytes();
    let count = bytes.len();
    if count < 2 {
        return 0;
    }
    let ends = bytes[0] as u64 * 256 + bytes[count - 1] as u64;
    let inner = bytes[count - 2] as u64 * 256 + bytes[count / 2] as u64;
    (count.min(255) as u64 * 65536 + ends) * 65536 + inner
}

/// Returns the row of a code.
#[inline(always)]
fn row_of(code: u64) -> usize {
    (code % ROWS as u64) as usize
}

/// Puts an entity at the end of its row. Returns the index of the entity that was there, or `NONE`.
fn link(rows: &mut Vec<u32>, code: u64, index: u32) -> Result<u32, AllocError> {
    if rows.is_empty() {
        rows.resize(ROWS, NONE)?;
    }
    let Some(last) = rows.get_mut(row_of(code)) else {
        return Ok(NONE);
    };
    let before = *last;
    *last = index;
    Ok(before)
}

impl<'input> Entities<'input> {
    ghost use Rattle.rox_values.specs.DeclaredEntities.{AreDeclared, text_in};

    /// Returns the entities of a document that declares none.
    pub fn new(alloc: Global) -> Entities<'input>
        ensures { AreDeclared [] result }
    {
        Entities {
            texts: BTreeMap::new(alloc),
            listed: Vec::new(alloc),
            rows: Vec::new(alloc),
        }
    }

    /// Returns the allocator of their tables.
    #[inline(always)]
    pub fn allocator(&self) -> Global {
        *self.listed.allocator()
    }

    /// Returns the replacement text of a name with the code `code`, if it is among the last `FEW` of its row.
    #[inline(always)]
    fn near(&self, code: u64, name: &str) -> Option<Cursor<'input>>
        ensures { IfSome result (λ text. get_by (named_cmp name.now) self.entry.now.texts
            ≡ Some text) }
    {
        let mut at = match self.rows.get(row_of(code)) {
            Some(last) => *last,
            None => NONE,
        };
        for _turn in 0..FEW {
            let Some(declared) = self.listed.get(at as usize) else {
                return None;
            };
            if declared.code == code && declared.name == name {
                return Some(declared.text);
            }
            at = declared.before;
        }
        None
    }

    /// Like `near`, but searches all entities.
    #[inline(never)]
    fn far(&self, name: &'input str) -> Option<Cursor<'input>>
        ensures { result ≡ get_by (named_cmp name.now) self.entry.now.texts }
    {
        match self.texts.get(&(code(name), name)) {
            Some(text) => Some(*text),
            None => None,
        }
    }

    /// Returns the replacement text of a name, if it is declared.
    #[inline(always)]
    pub fn get(&self, name: &'input str) -> Option<Cursor<'input>>
        ensures { option_map replacement_view result ≡ text_in self.entry.now name.entry.now }
    {
        match self.near(code(name), name) {
            Some(text) => Some(text),
            None => self.far(name),
        }
    }

    /// Puts an entity that the map has into its row.
    fn list(&mut self, name: &'input str, text: Cursor<'input>) -> Result<(), AllocError>
        requires { get_by (named_cmp name.now) self.old.texts ≡ Some text }
        ensures { self.new.texts ≡ self.old.texts }
    {
        let count = self.listed.len();
        if count < MOST_LISTED {
            let code = code(name);
            let before = link(&mut self.rows, code, count as u32)?;
            self.listed.push(Declared {
                code,
                name,
                text,
                before,
            })?;
        }
        Ok(())
    }

    /// Declares a name. If a name has several declarations, the first is binding (XML 1.0 section 4.2).
    pub fn declare(&mut self, name: &'input str, text: Cursor<'input>) -> Result<(), AllocError>
        ensures { (es : List Entity) → AreDeclared es self.old
            → OnOk result
            (AreDeclared (es ++ record { name = name.entry.now; text = replacement_view text.entry }
            ∷ []) self.new) }
    {
        if self.texts.contains_key(&(code(name), name)) {
            return Ok(());
        }
        match self.texts.insert((code(name), name), text) {
            Ok(_) => self.list(name, text),
            Err(_) => Err(AllocError),
        }
    }
}
