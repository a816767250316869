// Expressions. A file of them has a line an expression: the expression, and after a tab the arguments, with spaces between.

ghost use Rattle.std.specs.Prelude.{◌≡◌, ◌≤◌, length, IfOk};
ghost use Rattle.lg_asm.specs.Addresses.{AreInside};

use crate::code::code_of;
use crate::targets::run_made;
use crate::trouble::{Trouble, print_trouble};
use lg_asm::Code;
use lg_base::{OutOfMemory, Stop, Target};
use lg_expression::{read, unit_of};
use lg_io::StdSink;
use lg_node::Unit;
use std::alloc::Global;
use std::io;

// Returns the unit of the expression that a text is.
fn unit_in(alloc: Global, text: &str) -> Result<Unit, Trouble>
    ensures { IfOk result (λ u. AreInside u.nodes (length u.image)) }
{
    match read(alloc, text.as_bytes()) {
        Ok(expression) => match unit_of(alloc, &expression) {
            Ok(unit) => Ok(unit),
            Err(OutOfMemory) => Err(Trouble::Stop(Stop::OutOfMemory)),
        },
        Err(error) => Err(Trouble::Expression(error)),
    }
}

/// Compiles and runs the expressions of lines.
pub fn run_expressions(rt: &HostRuntime, lines: &str) -> io::Result<()> {
    for line in lines.lines() {
        let (text, arguments) = line.split_once('\t').unwrap_or((line, "0"));
        println!(rt; "{text}")?;
        run_made(rt, unit_in(rt.alloc(), text), arguments)?;
    }
    Ok(())
}

// Writes the listing of code.
fn list_code(rt: &HostRuntime, code: &Code) -> io::Result<()> {
    let mut out = StdSink::new(rt.stdout());
    match code.list(&mut out) {
        Ok(()) => Ok(()),
        Err(_) => Err(io::Error::from(io::ErrorKind::WriteZero)),
    }
}

// Writes the listing of a unit's code.
fn list_unit(rt: &HostRuntime, unit: &Unit) -> io::Result<()>
    requires { AreInside unit.now.nodes (length unit.now.image) }
{
    match code_of(rt.alloc(), unit, Target::X86_64) {
        Ok(code) => list_code(rt, &code),
        Err(stop) => print_trouble(rt, &Trouble::Stop(stop)),
    }
}

/// Compiles an expression, and writes the listing of its code.
pub fn list_expression(rt: &HostRuntime, text: &str) -> io::Result<()> {
    match unit_in(rt.alloc(), text) {
        Ok(unit) => list_unit(rt, &unit),
        Err(trouble) => print_trouble(rt, &trouble),
    }
}
