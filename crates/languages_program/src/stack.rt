// The stack language: a text is run with some arguments, and of texts that are apart by empty lines is printed what is wrong with each.

ghost use Rattle.std.specs.Prelude.{◌≡◌, ◌≤◌, length, IfOk};
ghost use Rattle.lg_asm.specs.Addresses.{AreInside};

use crate::targets::run_made;
use crate::trouble::{Trouble, print_trouble};
use lg_node::{Unit, check};
use lg_stack_language::{Program, compile};
use std::alloc::Global;
use std::io;

/// Returns the program that a text is.
pub fn program_of<'a>(alloc: Global, text: &'a str) -> Result<Program<'a>, Trouble>
    ensures { IfOk result (λ p. AreInside p.unit.nodes (length p.unit.image)) }
{
    match compile(alloc, text) {
        Ok(program) => Ok(program),
        Err(fault) => Err(Trouble::Program(fault)),
    }
}

// Returns the unit of the program that a text is.
fn unit_of(alloc: Global, text: &str) -> Result<Unit, Trouble>
    ensures { IfOk result (λ u. AreInside u.nodes (length u.image)) }
{
    let Program { unit, .. } = program_of(alloc, text)?;
    Ok(unit)
}

/// Compiles a text, and runs its code on each target with each of the arguments, which have spaces between.
pub fn run_program(rt: &HostRuntime, text: &str, arguments: &str) -> io::Result<()> {
    run_made(rt, unit_of(rt.alloc(), text), arguments)
}

// What is wrong with a text, if anything is.
fn trouble_of(alloc: Global, text: &str) -> Option<Trouble> {
    match unit_of(alloc, text) {
        Ok(unit) => match check(alloc, &unit) {
            Ok(_) => None,
            Err(stop) => Some(Trouble::Stop(stop)),
        },
        Err(trouble) => Some(trouble),
    }
}

/// Prints what is wrong with each of some texts.
pub fn print_faults(rt: &HostRuntime, texts: &str) -> io::Result<()> {
    println!(rt; "faults")?;
    for text in texts.split("\n\n") {
        match trouble_of(rt.alloc(), text) {
            Some(trouble) => print_trouble(rt, &trouble)?,
            None => println!(rt; "  none")?,
        }
    }
    Ok(())
}
