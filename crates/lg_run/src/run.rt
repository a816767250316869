// Running code.

ghost use Rattle.std.specs.Prelude.{◌≡◌, ◌<◌, ◌-◌, ◌^◌};
ghost use Rattle.lg_cpu.specs.Machines.{shown};
ghost use Rattle.lg_cpu.specs.Series.{run_from};
ghost use Rattle.lg_cpu.specs.declared.answer.CpuStep.{CpuStep};
ghost use Rattle.lg_io.specs.SinkChanges.{on_sink};
ghost use Rattle.lg_run.specs.Changes.{TellsWrites};
ghost use Rattle.lg_run.specs.Runs.{RunSays};

use crate::answer::Answer;
use lg_cpu::{Cpu, CpuStep};
use lg_io::Sink;

/// What a run came to, and its steps.
#[derive(Drop)]
pub struct Ran {
    pub answer: Answer,
    pub steps: u64,
}

/// Runs a processor that goes on until it ends or faults, a write fails, or the most steps were taken.
#[inline(never)]
pub fn run<O: Sink>(cpu: &mut Cpu, most: u64, out: &mut O) -> Ran
    requires going { (shown cpu.old).answer ≡ CpuStep.Went }
    requires first { (shown cpu.old).steps ≡ 0 }
    requires most { most < 2 ^ 64 - 1 }
    ensures says { RunSays (run_from (shown cpu.old)) most result.steps (on_sink O.taken O.faults out.old out.new) result.answer }
    ensures writes { TellsWrites result.answer (on_sink O.taken O.faults out.old out.new) }
{
    match cpu.run(most, out) {
        CpuStep::Went => Ran {
            answer: Answer::StepsOut,
            steps: most,
        },
        CpuStep::Ended(status) => Ran {
            answer: Answer::Ended(status),
            steps: cpu.steps(),
        },
        CpuStep::Fault(kind) => Ran {
            answer: Answer::Fault { kind, pc: cpu.pc() },
            steps: cpu.steps(),
        },
        CpuStep::WriteFault => Ran {
            answer: Answer::WriteFault,
            steps: cpu.steps(),
        },
    }
}
