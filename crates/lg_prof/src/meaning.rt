// Running the portable meaning, counted by lines.

ghost use Rattle.std.specs.Prelude.{◌≡◌, ◌<◌, ◌-◌, ◌+◌, ◌^◌, ℕ, length, None};
ghost use Rattle.lg_meaning.specs.Fits.{Fits};
ghost use Rattle.lg_meaning.specs.Means.{mean_from};
ghost use Rattle.lg_mean.specs.Machines.{state_of};
ghost use Rattle.lg_mean.specs.Programs.{IsTableOf};
ghost use Rattle.lg_prof.specs.Tallies.{AreBelow, ran_at, spent_at};
ghost use Rattle.lg_prof.specs.Counts.{count};

use crate::{Nowhere, Tally};
use lg_mean::Portable;
use lg_node::{Shape, Unit};

/// Takes at most this many steps of the portable meaning of a text, from the state before its first step, into a sink that keeps nothing, and counts each
/// that went or ended for the line of its node. There are fewer than `u64::MAX`; the lines of the nodes are those of the tally, which has counted no step of
/// the meaning.
pub fn count_meaning(
    machine: &mut Portable,
    unit: &Unit,
    shape: &Shape,
    most: u64,
    tally: &mut Tally,
)
    requires made { IsTableOf unit.now.nodes shape.now machine.old.labels }
    requires fits { Fits unit.now.nodes shape.now (state_of machine.old.machine) }
    requires running { machine.old.over ≡ None }
    requires steps { machine.old.steps ≡ 0 }
    requires most { most < 2 ^ 64 - 1 }
    requires lines { AreBelow unit.now.nodes.nodes (length tally.old) }
    requires none { (line : ℕ) → ran_at tally.old line ≡ 0 }
    ensures ran { (line : ℕ) → ran_at tally.new line
        ≡ count unit.now.nodes (mean_from unit.now.nodes shape.now machine.old.labels.addresses (state_of machine.old.machine)) line most }
    ensures spent { (line : ℕ) → spent_at tally.new line ≡ spent_at tally.old line }
    ensures kept { length tally.new ≡ length tally.old }
{
    let _ = machine.run_counted(unit, shape, most, &mut tally.ran, &mut Nowhere);
}
