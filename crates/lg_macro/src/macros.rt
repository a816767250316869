// Macros, their table, and what an expansion keeps in mind.

ghost use Rattle.std.specs.Prelude.{◌≡◌, ◌<◌, ◌==◌, ◌++◌, ◌-◌, ◌∷◌, [], if◌then◌else◌, is_some, length, nat_le, slice_get, sum_by, IfOk, IfSome, OnOk, Some, None};
ghost use Rattle.std.specs.List.{list_any, remove};
ghost use Rattle.std.specs.Str.{bytes_eq};
ghost use Rattle.lg_macro.specs.Macros.{place_in, counted, without, with_macro, CountsAs};
ghost use Rattle.lg_macro.specs.Pieces.{text_length};
ghost use Rattle.lg_base.specs.declared.refusal.Stop.TheVariants.{Refused};

use crate::marks::Marks;
use crate::pieces::Pieces;
use crate::plain_text::PlainText;
use crate::spare::Spare;
use indexmap::IndexSet;
use lg_base::layout::MOST_TEXT;
use lg_base::{OutOfMemory, Refusal, RefusalKind, Stop};
use std::alloc::Global;
use std::marker::Model;

/// What is known of a piece of a body.
#[derive(Clone, Copy)]
pub struct Mark {
    /// The number of the parameter that it is.
    pub parameter: Option<usize>,
    /// Whether `##` is before it.
    pub glued: bool,
    /// Whether `##` is after it.
    pub glues: bool,
}

/// A macro.
#[derive(Drop)]
pub struct Macro {
    /// Its name.
    pub name: PlainText,
    /// The number of its parameters, where it has parentheses.
    pub arity: Option<usize>,
    /// The pieces of its body.
    pub body: Pieces,
    /// The marks of these, one for each.
    pub marks: Marks,
    /// How many bytes the body has.
    pub size: usize,
}

/// The macros that are defined, each name once.
#[derive(Drop)]
pub struct Table {
    alloc: Global,
    names: IndexSet<Vec<u8>>,
    macros: Vec<Macro>,
}

impl Model for Table {
    ghost use Rattle.std.specs.Prelude.{List};
    ghost use Rattle.lg_macro.specs.declared.macros.Macro.{Macro};
    ghost use Rattle.lg_macro.specs.Tables.{IsTable};

    ghost Value = { List Macro };

    ghost view = { λ t. t.macros.items };

    ghost invariant = { IsTable };
}

impl Table {
    /// No macros. No memory is taken yet.
    pub fn new(alloc: Global) -> Table
        ensures { result ≡ [] }
    {
        Table {
            alloc,
            names: IndexSet::new(alloc),
            macros: Vec::new(alloc),
        }
    }

    /// Returns the place of the macro of a name.
    pub fn place_in(&self, name: &[u8]) -> Option<usize>
        ensures value { result ≡ place_in self.now name.now }
        ensures inside { IfSome result (λ place. place < length self.now) }
    {
        self.names.get_index_of(name)
    }

    /// Returns the macro at a place.
    pub fn at(&self, place: usize) -> &Macro
        requires { place < length self.now }
        ensures { slice_get self.now place ≡ Some result.now }
    {
        &self.macros[place]
    }

    /// Takes the macro of a name out.
    pub fn undefine(&mut self, name: &[u8])
        ensures rest { self.new ≡ without self.old name.now }
        ensures gone { place_in self.new name.now ≡ None }
    {
        if let Some(place) = self.place_in(name) {
            let _ = self.names.shift_take(name);
            let _ = self.macros.remove(place);
        }
    }

    // Adds a macro, or gives it back where a macro has its name. The name is looked up once.
    fn add(&mut self, entry: Macro) -> Result<Option<Macro>, OutOfMemory>
        ensures given_back { IfOk result (λ r. r ≡ (if is_some (place_in self.old entry.name) then Some entry else None)) }
        ensures rest { OnOk result (self.new ≡ (if is_some (place_in self.old entry.name) then self.old else self.old ++ entry ∷ [])) }
    {
        let name = Vec::from_slice(self.alloc, entry.name.as_slice())?;
        self.macros.reserve(1)?;
        let (_, is_new) = self.names.insert_full(name)?;
        if !is_new {
            return Ok(Some(entry));
        }
        self.macros.push_reserved(entry);
        Ok(None)
    }

    /// Adds a macro in place of the one that had its name.
    pub fn define(&mut self, entry: Macro) -> Result<(), OutOfMemory>
        ensures { OnOk result (self.new ≡ with_macro self.old entry) }
    {
        if let Some(entry) = self.add(entry)? {
            self.undefine(entry.name.as_slice());
            let _ = self.add(entry)?;
        }
        Ok(())
    }
}

/// What an expansion keeps in mind.
#[derive(Drop)]
pub struct Work {
    /// Where lists take their memory.
    pub alloc: Global,
    /// The places of the hidden macros.
    pub hidden: Vec<usize>,
    /// The sum of all replacements so far.
    pub sum: usize,
    /// How many bytes the lists may still have that calls hold.
    pub room: usize,
    /// Lists that are not in use.
    pub spare: Spare,
}

/// The most bytes of the lists that calls hold at once: no definition bounds them.
pub const MOST_HELD: usize = 67_108_864;

/// Returns a fault.
pub fn refused(kind: RefusalKind, line: u32) -> Stop
    ensures { result ≡ Refused (record { kind = kind; line = line }) }
{
    Stop::Refused(Refusal { kind, line })
}

/// Returns whether a macro is hidden.
pub fn is_hidden(hidden: &[usize], place: usize) -> bool
    ensures { result ≡ list_any (λ h. h == place) hidden.now }
{
    hidden.contains(&place)
}

/// Takes the bytes of a list from the room, where they are there.
pub fn hold(room: &mut usize, list: &Pieces) -> bool
    ensures fits { result ≡ nat_le (sum_by text_length list.now) room.old }
    ensures rest { room.new ≡ (if result then room.old - sum_by text_length list.now else room.old) }
{
    let size = list.size();
    if size > *room {
        return false;
    }
    *room -= size;
    true
}

/// Adds the share of a replacement to the sum.
pub fn count(work: &mut Work, entry: &Macro, line: u32) -> Result<(), Stop>
    ensures counts { CountsAs result work.new.sum (counted line entry.now work.old.sum) }
    ensures hidden { work.new.hidden.items ≡ work.old.hidden.items }
{
    if work.sum >= MOST_TEXT || entry.size >= MOST_TEXT || work.sum + 1 + entry.size > MOST_TEXT {
        return Err(refused(RefusalKind::ExpandTooMuch, line));
    }
    work.sum += 1 + entry.size;
    Ok(())
}
