// Reading a text into a unit that is accepted.

ghost use Rattle.std.specs.Prelude.{◌≡◌, ◌≤◌, Ok, Err, length, IfOk};
ghost use Rattle.lg_base.specs.declared.refusal.Refusal.{Refusal};
ghost use Rattle.lg_base.specs.declared.refusal.Stop.{Stop};
ghost use Rattle.lg_command.specs.Commands.{Command};
ghost use Rattle.lg_node.specs.Shapes.{IsChecked};
ghost use Rattle.lg_tst.specs.Answers.{IsWhole};
ghost use Rattle.lg_tst.specs.Units.{unit_of};
ghost use Rattle.lg_run.specs.Refused.{IsRefusedAs, most_text};

use lg_base::Stop;
use lg_node::{Shape, Unit, check};
use lg_tst::parse;
use std::alloc::Global;

/// A unit that is accepted, with its shape.
#[derive(Drop)]
pub struct Accepted {
    pub unit: Unit,
    pub shape: Shape,
}

/// Returns the unit of a text of at most 16,777,216 bytes, where it is accepted, or why the text is refused: its first fault, or else the unit's.
pub fn read_unit(alloc: Global, text: &[u8]) -> Result<Accepted, Stop>
    requires { length text.now ≤ most_text }
    ensures unit { IfOk result (λ a. unit_of text.now ≡ Ok a.unit) }
    ensures whole { IfOk result (λ a. IsWhole a.unit) }
    ensures checked { IfOk result (λ a. IsChecked a.unit.nodes (Ok a.shape)) }
    ensures refused { (c : Command) (r : Refusal) → result ≡ Err (Stop.Refused r) → IsRefusedAs c (unit_of text.now) r }
{
    let unit = parse(alloc, text)?;
    let shape = check(alloc, &unit)?;
    Ok(Accepted { unit, shape })
}
