// Cases that agree with what is expected of them, and cases that differ.

ghost use Rattle.std.specs.Prelude.{◌≡◌, IfOk};
ghost use Rattle.lg_tally.specs.Counts.{Differing, counted};

use crate::one_more::count;
use std::alloc::{AllocError, Global};
use std::io;

// this many cases that differ are printed of a list
const SHOWN: u64 = 20;

/// Whether a case agrees, and else what was found in place of what is expected.
#[derive(Drop)]
pub enum Outcome {
    Agrees,
    Differs(String),
}

impl Outcome {
    /// Returns the outcome of a case whose line is not of the form.
    pub fn unread(alloc: Global) -> Result<Outcome, AllocError>
        ensures { IfOk result Differing }
    {
        Ok(Outcome::Differs(String::from_str(alloc, "a line of another form")?))
    }
}

/// How many cases of a list agree and differ.
#[derive(Clone, Copy)]
pub struct Counts {
    /// How many agree, at most 2^64 - 1.
    pub agree: u64,
    /// How many differ, at most 2^64 - 1.
    pub differ: u64,
}

impl Counts {
    /// No cases.
    pub fn new() -> Self
        ensures { (result.agree ≡ 0) × (result.differ ≡ 0) }
    {
        Counts {
            agree: 0,
            differ: 0,
        }
    }

    fn add(&mut self, outcome: &Outcome)
        ensures { self.new ≡ counted self.old outcome.now }
    {
        match outcome {
            Outcome::Agrees => count(&mut self.agree),
            Outcome::Differs(_) => count(&mut self.differ),
        }
    }

    /// Counts a case, and prints it, with the list's name, where it is one of the first twenty that differ.
    pub fn take(
        &mut self,
        rt: &impl Print,
        list: &str,
        case: &str,
        outcome: &Outcome,
    ) -> io::Result<()>
        ensures { self.new ≡ counted self.old outcome.now }
    {
        self.add(outcome);
        match outcome {
            Outcome::Differs(found) if self.differ <= SHOWN => {
                println!(rt; "{list} differs: {case}: found {found}")
            }
            _ => Ok(()),
        }
    }

    /// Prints the counts, after the list's name.
    pub fn print(self, rt: &impl Print, list: &str) -> io::Result<()> {
        let Counts { agree, differ } = self;
        if differ == 0 {
            println!(rt; "{list}: {agree} agree")
        } else {
            println!(rt; "{list}: {agree} agree, {differ} differ")
        }
    }
}
