// Running the portable meaning.

ghost use Rattle.std.specs.Prelude.{◌≡◌, ◌<◌, ◌^◌, None};
ghost use Rattle.lg_meaning.specs.Fits.{Fits};
ghost use Rattle.lg_mean.specs.Machines.{state_of};
ghost use Rattle.lg_mean.specs.Programs.{IsTableOf};
ghost use Rattle.lg_io.specs.SinkChanges.{on_sink};
ghost use Rattle.lg_run.specs.Changes.{TellsWrites};
ghost use Rattle.lg_run.specs.Means.{MeantFrom, answer_of};

use crate::answer::Answer;
use crate::run::Ran;
use lg_io::Sink;
use lg_mean::{Portable, RunEnd};
use lg_node::{Shape, Unit};

/// Returns the answer of a run of the portable machine.
pub fn answer_of(end: RunEnd) -> Answer
    ensures { result ≡ answer_of end }
{
    match end {
        RunEnd::Ended(status) => Answer::Ended(status),
        RunEnd::Undefined { line } => Answer::Undefined { line },
        RunEnd::StepsOut => Answer::StepsOut,
        RunEnd::WriteFault => Answer::WriteFault,
    }
}

/// Runs the portable meaning of a text from the state before its first step, until it ends, a step is undefined, a write fails, or the
/// most steps were taken.
pub fn run_meaning<O: Sink>(
    machine: &mut Portable,
    unit: &Unit,
    shape: &Shape,
    most: u64,
    out: &mut O,
) -> Ran
    requires made { IsTableOf unit.now.nodes shape.now machine.old.labels }
    requires fits { Fits unit.now.nodes shape.now (state_of machine.old.machine) }
    requires running { machine.old.over ≡ None }
    requires steps { machine.old.steps ≡ 0 }
    ensures says { MeantFrom unit.now.nodes shape.now machine.old most (on_sink O.taken O.faults out.old out.new) result }
    ensures writes { TellsWrites result.answer (on_sink O.taken O.faults out.old out.new) }
{
    let end = machine.run(unit, shape, most, out);
    Ran {
        answer: answer_of(end),
        steps: machine.steps(),
    }
}
