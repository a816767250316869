// Open conditions.

ghost use Rattle.std.specs.Prelude.{◌≡◌, ◌++◌, ◌∷◌, [], Ok, length};
ghost use Rattle.lg_pre.specs.Conditions.{is_full, innermost, outer, skipping, opens, is_crowded, closes_at, turns_at, skipped};
ghost use Rattle.lg_macro.specs.Macros.{CountsAs};

use crate::directive::Directive;
use lg_base::{RefusalKind, Stop};
use lg_macro::{Pieces, refused};
use std::alloc::Global;
use std::marker::Model;

/// An open condition: its line, whether its group is chosen, whether it is in a group that is chosen, and whether its `#else` has come.
#[derive(Clone, Copy)]
pub struct Condition {
    pub line: u32,
    pub chosen: bool,
    pub around: bool,
    pub other: bool,
}

/// The open conditions, the innermost at the end.
#[derive(Drop)]
pub struct Conditions {
    open: Vec<Condition>,
}

impl Model for Conditions {
    ghost use Rattle.std.specs.Prelude.{List};
    ghost use Rattle.lg_pre.specs.declared.conditions.Condition.{Condition};

    ghost Value = { List Condition };

    ghost view = { λ c. c.open.items };
}

const MOST_OPEN: usize = 64;

impl Conditions {
    /// No open condition.
    pub fn new(alloc: Global) -> Conditions
        ensures { result ≡ [] }
    {
        Conditions {
            open: Vec::new(alloc),
        }
    }

    /// Returns the innermost condition.
    pub fn innermost(&self) -> Option<Condition>
        ensures { result ≡ innermost self.now }
    {
        self.open.as_slice().last().copied()
    }

    /// Returns whether the group is not chosen.
    pub fn is_skipping(&self) -> bool
        ensures { result ≡ skipping self.now }
    {
        match self.innermost() {
            None => false,
            Some(condition) => !condition.chosen,
        }
    }

    /// Opens a condition (at most 64 may be open).
    pub fn open(&mut self, line: u32, around: bool, chosen: bool) -> Result<(), Stop>
        ensures { CountsAs result self.new (opens self.old line around chosen) }
    {
        if self.is_full() {
            return Err(refused(RefusalKind::BadDirective, line));
        }
        self.push(Condition {
            line,
            chosen,
            around,
            other: false,
        })
    }

    /// Returns whether no further condition may be open.
    pub fn is_full(&self) -> bool
        ensures { result ≡ is_full self.now }
    {
        self.open.as_slice().len() >= MOST_OPEN
    }

    // Adds a condition.
    fn push(&mut self, condition: Condition) -> Result<(), Stop>
        ensures { CountsAs result self.new (Ok (self.old ++ condition ∷ [])) }
    {
        match self.open.push(condition) {
            Ok(()) => Ok(()),
            Err(_) => Err(Stop::OutOfMemory),
        }
    }

    // Takes the innermost condition away.
    fn drop_innermost(&mut self)
        ensures { self.new ≡ outer self.old }
    {
        let n = self.open.as_slice().len();
        self.open.truncate(n.saturating_sub(1));
    }

    // Returns whether something is after the name of an #else or #endif that may not.
    fn is_crowded(&self, rest: &Pieces) -> bool
        ensures { result ≡ is_crowded self.now rest.now }
    {
        match self.innermost() {
            None => rest.len() != 0,
            Some(condition) => condition.around && rest.len() != 0,
        }
    }

    /// Ends the innermost condition, at an `#endif`.
    pub fn close(&mut self, line: u32, rest: &Pieces) -> Result<(), Stop>
        ensures { CountsAs result self.new (closes_at self.old line rest.now) }
    {
        if self.is_crowded(rest) {
            return Err(refused(RefusalKind::BadDirective, line));
        }
        match self.innermost() {
            None => Err(refused(RefusalKind::BadDirective, line)),
            Some(_) => {
                self.drop_innermost();
                Ok(())
            }
        }
    }

    /// Goes to the other group of the innermost condition, at an `#else`.
    pub fn turn(&mut self, line: u32, rest: &Pieces) -> Result<(), Stop>
        ensures { CountsAs result self.new (turns_at self.old line rest.now) }
    {
        if self.is_crowded(rest) {
            return Err(refused(RefusalKind::BadDirective, line));
        }
        match self.innermost() {
            None => Err(refused(RefusalKind::BadDirective, line)),
            Some(condition) if condition.other => Err(refused(RefusalKind::BadDirective, line)),
            Some(condition) => {
                self.drop_innermost();
                self.push(Condition {
                    line: condition.line,
                    chosen: condition.around && !condition.chosen,
                    around: condition.around,
                    other: true,
                })
            }
        }
    }

    /// Reads a directive of a group that is not chosen: conditional ones, by their names.
    pub fn skip(&mut self, line: u32, rest: &Pieces, directive: Directive) -> Result<(), Stop>
        ensures { CountsAs result self.new (skipped self.old line rest.now directive) }
    {
        match directive {
            Directive::If => self.open(line, false, false),
            Directive::IfDefined(_) => self.open(line, false, false),
            Directive::Else => self.turn(line, rest),
            Directive::EndIf => self.close(line, rest),
            _ => Ok(()),
        }
    }
}
