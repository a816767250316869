// Where the portable machine is before a step that is undefined.

ghost use Rattle.std.specs.Prelude.{◌≡◌};
ghost use Rattle.lg_explain.specs.Stops.{IsStuck, registers_of};
ghost use Rattle.lg_mean.specs.Machines.{state_of};
ghost use Rattle.lg_mean.specs.Programs.{IsTableOf};
ghost use Rattle.lg_meaning.specs.Fits.{Fits};
ghost use Rattle.lg_meaning.specs.Steps.{Undefined};
ghost use Rattle.lg_meaning.specs.Texts.{step};

use lg_mean::Portable;
use lg_meaning::laws::steps_are_undefined_by_the_table;
use lg_meaning::reason::Reason;
use lg_node::laws::accepted_nodes_are_well_shaped;
use lg_node::{Reg, Shape, Unit};

/// Why a step is undefined, and what the registers hold before it.
#[derive(Clone, Copy)]
pub struct StuckAt {
    /// The first row of the table of undefined steps that holds.
    pub reason: Reason,
    /// Each register with its word, where it is defined.
    pub registers: [(Reg, Option<u64>); 7],
}

// What the registers of a machine hold.
fn registers_of(machine: &Portable) -> [(Reg, Option<u64>); 7]
    ensures { result ≡ registers_of (state_of machine.now.machine) }
{
    [
        (Reg::R0, machine.register(Reg::R0)),
        (Reg::R1, machine.register(Reg::R1)),
        (Reg::R2, machine.register(Reg::R2)),
        (Reg::V0, machine.register(Reg::V0)),
        (Reg::V1, machine.register(Reg::V1)),
        (Reg::V2, machine.register(Reg::V2)),
        (Reg::Fp, machine.register(Reg::Fp)),
    ]
}

/// Why the next step of a machine is undefined, which it is, and what its registers hold. The machine is one of a run of this text, as for
/// `Portable::step`.
pub fn stuck_at(machine: &Portable, unit: &Unit, shape: &Shape) -> StuckAt
    requires made { IsTableOf unit.now.nodes shape.now machine.now.labels }
    requires fits { Fits unit.now.nodes shape.now (state_of machine.now.machine) }
    requires undefined { step unit.now.nodes shape.now machine.now.labels.addresses (state_of machine.now.machine) ≡ Undefined }
    ensures { IsStuck unit.now.nodes shape.now machine.now.labels.addresses (state_of machine.now.machine) result }
{
    steps_are_undefined_by_the_table();
    accepted_nodes_are_well_shaped();
    unit.nodes.what_holds();
    match machine.why(unit, shape) {
        Some(reason) => StuckAt {
            reason,
            registers: registers_of(machine),
        },
        None => unreachable!(),
    }
}
