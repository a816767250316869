// Runs of the portable machine.

ghost use Rattle.std.specs.Prelude.{◌≡◌, ◌<◌, ◌≤◌, ◌-◌, ◌+◌, ◌^◌, ℕ, length, slice_index_or, None};
ghost use Rattle.lg_meaning.specs.Fits.{Fits};
ghost use Rattle.lg_meaning.specs.Means.{mean_from};
ghost use Rattle.lg_meaning.specs.Texts.{line_at};
ghost use Rattle.lg_mean.specs.LineCounts.{AreBelow, CountsSteps};
ghost use Rattle.lg_mean.specs.Machines.{state_of};
ghost use Rattle.lg_mean.specs.Programs.{IsTableOf};
ghost use Rattle.lg_mean.specs.Runs.{ComesTo, KeepsCountAfter, over_after};

use crate::mean_step::MeanStep;
use crate::portable::Portable;
use lg_io::Sink;
use lg_meaning::laws::steps_are_those_of_the_meaning;
use lg_node::{Shape, Unit};

/// What a run of the portable machine came to.
#[derive(Clone, Copy, Debug)]
pub enum RunEnd {
    /// It has ended with this status.
    Ended(u8),
    /// The next step is undefined.
    Undefined {
        /// The line of the node.
        line: u32,
    },
    /// The most steps went, and the run goes on, or its next step is undefined.
    StepsOut,
    /// A write to the sink failed. The state is as before the step.
    WriteFault,
}

impl Portable {
    /// Steps until the run ends, a step is undefined, a write fails, or this many more steps went. With n for the steps that `steps`
    /// counts more after it: `Ended` where the portable meaning from the state before has first ended at n; `Undefined`
    /// where it is first undefined at n + 1, with the line of its node; `StepsOut` where it has neither ended nor become undefined at
    /// `most`; each time `out` grew by exactly the bytes that the meaning has written. `WriteFault` only where the count of faults of
    /// `out` rose, and then a part of the bytes of step n + 1 may have been written after those of the first n. The state is one of a
    /// run of this text that is not over, as for `step`, and its steps and `most` together are fewer than 2^64. A step a turn.
    pub fn run<O: Sink>(&mut self, unit: &Unit, shape: &Shape, most: u64, out: &mut O) -> RunEnd
        requires made { IsTableOf unit.now.nodes shape.now self.old.labels }
        requires fits { Fits unit.now.nodes shape.now (state_of self.old.machine) }
        requires running { self.old.over ≡ None }
        requires count { self.old.steps + most < 2 ^ 64 }
        ensures says { ComesTo (mean_from unit.now.nodes shape.now self.old.labels.addresses (state_of self.old.machine)) result
            (self.new.steps - self.old.steps) most (state_of self.new.machine) (line_at unit.now.nodes (state_of self.new.machine))
            (O.taken out.old) (O.taken out.new) (O.faults out.old) (O.faults out.new) }
        ensures rises { self.old.steps ≤ self.new.steps }
        ensures fits { Fits unit.now.nodes shape.now (state_of self.new.machine) }
        ensures over { self.new.over ≡ over_after result }
        ensures labels { self.new.labels ≡ self.old.labels }
        ensures later { O.faults out.old ≤ O.faults out.new }
        ensures kept { KeepsCountAfter result (O.faults out.old) (O.faults out.new) }
    {
        self.run_counted(unit, shape, most, &mut [], out)
    }

    /// Steps as `run` does, and adds one for each of the n steps to the number of its node's line. The slice has a number for the line of each node, and each
    /// number and `most` together are below 2^64. Or it is empty, and then nothing is counted.
    pub fn run_counted<O: Sink>(
        &mut self,
        unit: &Unit,
        shape: &Shape,
        most: u64,
        ran: &mut [u64],
        out: &mut O,
    ) -> RunEnd
        requires made { IsTableOf unit.now.nodes shape.now self.old.labels }
        requires fits { Fits unit.now.nodes shape.now (state_of self.old.machine) }
        requires running { self.old.over ≡ None }
        requires count { self.old.steps + most < 2 ^ 64 }
        requires lines { 0 < length ran.old → AreBelow unit.now.nodes.nodes (length ran.old) }
        requires room { 0 < length ran.old → (line : ℕ) → slice_index_or ran.old line 0 + most < 2 ^ 64 }
        ensures says { ComesTo (mean_from unit.now.nodes shape.now self.old.labels.addresses (state_of self.old.machine)) result
            (self.new.steps - self.old.steps) most (state_of self.new.machine) (line_at unit.now.nodes (state_of self.new.machine))
            (O.taken out.old) (O.taken out.new) (O.faults out.old) (O.faults out.new) }
        ensures ran { CountsSteps unit.now.nodes (mean_from unit.now.nodes shape.now self.old.labels.addresses (state_of self.old.machine))
            (self.new.steps - self.old.steps) ran.old ran.new }
        ensures lines { length ran.new ≡ length ran.old }
        ensures rises { self.old.steps ≤ self.new.steps }
        ensures fits { Fits unit.now.nodes shape.now (state_of self.new.machine) }
        ensures over { self.new.over ≡ over_after result }
        ensures labels { self.new.labels ≡ self.old.labels }
        ensures later { O.faults out.old ≤ O.faults out.new }
        ensures kept { KeepsCountAfter result (O.faults out.old) (O.faults out.new) }
    {
        steps_are_those_of_the_meaning();
        let mut taken = 0;
        while taken < most {
            taken += self.run_resolved(unit, shape, most - taken, ran);
            if taken < most {
                match self.step_by_node(unit, shape, out) {
                    MeanStep::Went => taken += 1,
                    MeanStep::Ended(status) => return RunEnd::Ended(status),
                    MeanStep::Undefined { line } => {
                        self.take_back(unit, ran);
                        return RunEnd::Undefined { line };
                    }
                    MeanStep::WriteFault => {
                        self.take_back(unit, ran);
                        return RunEnd::WriteFault;
                    }
                }
            }
        }
        RunEnd::StepsOut
    }
}
