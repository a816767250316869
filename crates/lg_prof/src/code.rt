// Running code, counted by lines.

ghost use Rattle.std.specs.Prelude.{◌≡◌, ◌<◌, ◌-◌, ◌^◌, ℕ, Some, length, slice_get};
ghost use Rattle.lg_cpu.specs.LineCounts.{table_line};
ghost use Rattle.lg_cpu.specs.Machines.{shown};
ghost use Rattle.lg_cpu.specs.Series.{Advances, run_from};
ghost use Rattle.lg_prof.specs.Tallies.{ran_at, spent_at};
ghost use Rattle.lg_prof.specs.Spent.{spent};

use crate::{LineTable, Tally};
use lg_cpu::{Cpu, CpuStep};
use lg_io::Sink;

/// Takes steps as `Cpu::run` does, and counts each that went or ended for the line of its program counter, by a table of the lines of the code; a host
/// step for the line of the code step before it. The run goes on, has taken no step yet, and takes fewer than `u64::MAX`; the lines of the table are
/// those of the tally, which has counted no step of code.
pub fn run_counted<O: Sink>(
    cpu: &mut Cpu,
    lines: &LineTable,
    tally: &mut Tally,
    most: u64,
    out: &mut O,
) -> CpuStep
    requires going { (shown cpu.old).answer ≡ CpuStep.Went }
    requires first { (shown cpu.old).steps ≡ 0 }
    requires most { most < 2 ^ 64 - 1 }
    requires some { 0 < length tally.old }
    requires lines { (place line : ℕ) → slice_get lines.now place ≡ Some line → line < length tally.old }
    requires none { (line : ℕ) → spent_at tally.old line ≡ 0 }
    ensures says { Advances (shown cpu.old) (shown cpu.new) most (O.taken out.old) (O.taken out.new) (O.faults out.old) (O.faults out.new) result }
    ensures spent { (line : ℕ) → spent_at tally.new line ≡ spent (table_line lines.now) (run_from (shown cpu.old)) line (shown cpu.new).steps }
    ensures ran { (line : ℕ) → ran_at tally.new line ≡ ran_at tally.old line }
    ensures kept { length tally.new ≡ length tally.old }
{
    cpu.run_counted(most, lines.as_slice(), &mut tally.spent, out)
}
