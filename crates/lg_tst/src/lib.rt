//! Reads a `.tst` text: its statements, and the nodes, labels and data bytes that they make.
#![tactic(auto)]

ghost use Rattle.std.specs.Prelude.{◌≤◌, length, IfOk};
ghost use Rattle.lg_tst.specs.Answers.{Reads, IsWhole};
ghost use Rattle.lg_tst.specs.Units.{unit_of};

mod data_part;
mod names;
mod parser;
mod source;
mod statement;
pub mod unit_laws;
mod words;

use lg_base::Stop;
use lg_node::Unit;
use parser::Parser;
use std::alloc::Global;

/// Reads a text of at most 16,777,216 bytes: its nodes with their labels, and the bytes of its data part, or its first fault with
/// its line.
///
/// The faults are those of tokens (`BadToken`, `BadExpr`), and of statements: `UnknownName`, `FloatRefused`, `BadOperand`,
/// `LabelTwice`, `NoSuchArg`, `UnknownHost`, `DataFull` and `TooManyNodes`.
pub fn parse(alloc: Global, text: &[u8]) -> Result<Unit, Stop>
    requires { length text.now ≤ 16777216 }
    ensures unit { Reads result (unit_of text.now) }
    ensures whole { IfOk result IsWhole }
{
    let Ok(mut parser) = Parser::new(alloc, text) else {
        return Err(Stop::OutOfMemory);
    };
    parser.statements()?;
    parser.into_unit()
}
