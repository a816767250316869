// What is wrong with a text.

use lg_base::Stop;
use lg_expression::ReadError;
use lg_stack_language::Fault;
use std::io;

/// Why there is no code of a text, or no run.
#[derive(Clone, Copy)]
pub enum Trouble {
    /// It is no expression.
    Expression(ReadError),
    /// It is no program.
    Program(Fault),
    /// Its nodes are refused, or memory could not be had.
    Stop(Stop),
}

/// Prints what is wrong.
pub fn print_trouble(rt: &HostRuntime, trouble: &Trouble) -> io::Result<()> {
    match trouble {
        Trouble::Expression(error) => println!(rt; "  {error}"),
        Trouble::Program(fault) => println!(rt; "  line {}: {}", fault.line, fault.error),
        Trouble::Stop(Stop::Refused(refusal)) => {
            println!(rt; "  line {}: {}", refusal.line, refusal.kind.name())
        }
        Trouble::Stop(Stop::OutOfMemory) => println!(rt; "  out of memory"),
    }
}
