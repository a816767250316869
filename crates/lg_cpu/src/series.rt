// Many steps of a processor at once.

ghost use Rattle.std.specs.Prelude.{◌≡◌, ◌<◌, ◌≤◌, ◌+◌, ◌-◌, ◌^◌, ◌%◌, ◌==◌, ℕ, List, drop, length, slice_index_or, true, false, if◌then◌else◌, None, IfNone, IfSome};
ghost use Rattle.lg_base.specs.Layout.{code_base};
ghost use Rattle.lg_cpu.specs.Answers.{counted, is_counted};
ghost use Rattle.lg_cpu.specs.Fetches.{in_code};
ghost use Rattle.lg_cpu.specs.LineCounts.{Adds, AddsSteps, MayAdd, begun};
ghost use Rattle.lg_cpu.specs.Machines.{Does, Inner, StepSays, effect_in, shown_of, x86_inner, a64_inner, rv_inner};
ghost use Rattle.lg_cpu.specs.declared.answer.CpuStep.TheVariants.{Went};
ghost use Rattle.lg_cpu.specs.Series.{Advances, Executes, code_run, going_on, run_from};

use crate::aarch64::Aarch64;
use crate::answer::CpuStep;
use crate::line_counts::{count_step, take_back};
use crate::riscv64::Riscv64;
use crate::x86_64::X86_64;
use lg_io::Sink;

/// A processor that takes steps.
pub trait Stepping {
    /// What is seen of it.
    ghost inner: { Self → Inner };

    /// No instruction is read at the program counter.
    ghost elsewhere: { Self → Type 0 };

    /// Returns the program counter.
    fn pc(&self) -> u64
        ensures { result ≡ (inner self.now).state.pc };

    /// Executes the instruction at the program counter, and returns what it came to; None where none is read there. It writes nothing.
    fn step_code(&mut self) -> Option<CpuStep>
        ensures some { IfSome result (λ answer. Does (effect_in (inner self.old)) (inner self.old) (inner self.new) answer) }
        ensures same { IfNone result (inner self.new ≡ inner self.old) }
        ensures none { IfNone result (elsewhere self.new) };

    /// Takes a step where no instruction is read: faults, or runs a host function.
    fn step_elsewhere<O: Sink>(&mut self, out: &mut O) -> CpuStep
        requires { elsewhere self.old }
        ensures says { StepSays (effect_in (inner self.old)) (inner self.old) (inner self.new)
            (O.taken out.old) (O.taken out.new) (O.faults out.old) (O.faults out.new) result }
        ensures later { O.faults out.old ≤ O.faults out.new };
}

impl Stepping for X86_64 {
    ghost use Rattle.lg_x86.specs.Reading.{front_of};

    ghost inner = { λ p. x86_inner p };

    ghost elsewhere = { λ p. in_code p.code p.pc ≡ true → front_of (drop (p.pc - code_base) p.code) ≡ None };

    #[inline(always)]
    fn pc(&self) -> u64 {
        self.pc
    }

    #[inline(always)]
    fn step_code(&mut self) -> Option<CpuStep> {
        self.step_code()
    }

    fn step_elsewhere<O: Sink>(&mut self, out: &mut O) -> CpuStep {
        self.step_elsewhere(out)
    }
}

impl Stepping for Aarch64 {
    ghost use Rattle.lg_a64.specs.Reading.{front_of};

    ghost inner = { λ p. a64_inner p };

    ghost elsewhere = { λ p. in_code p.code p.pc ≡ true → (p.pc % 4 == 0) ≡ true → front_of (drop (p.pc - code_base) p.code) ≡ None };

    #[inline(always)]
    fn pc(&self) -> u64 {
        self.pc
    }

    #[inline(always)]
    fn step_code(&mut self) -> Option<CpuStep> {
        self.step_code()
    }

    fn step_elsewhere<O: Sink>(&mut self, out: &mut O) -> CpuStep {
        self.step_elsewhere(out)
    }
}

impl Stepping for Riscv64 {
    ghost use Rattle.lg_rv.specs.Reading.{front_of};

    ghost inner = { λ p. rv_inner p };

    ghost elsewhere = { λ p. in_code p.code p.pc ≡ true → (p.pc % 4 == 0) ≡ true → front_of (drop (p.pc - code_base) p.code) ≡ None };

    #[inline(always)]
    fn pc(&self) -> u64 {
        self.pc
    }

    #[inline(always)]
    fn step_code(&mut self) -> Option<CpuStep> {
        self.step_code()
    }

    fn step_elsewhere<O: Sink>(&mut self, out: &mut O) -> CpuStep {
        self.step_elsewhere(out)
    }
}

/// How far steps have come: what the last one answered, and how many the run has taken that went or ended.
#[derive(Clone, Copy)]
pub struct Advanced {
    pub answer: CpuStep,
    pub steps: u64,
}

// How far instructions of the code have come: what the last one answered, `Went` where none came to another answer, how many went, and the line of the last
// step that was begun.
#[derive(Clone, Copy)]
struct Executed {
    answer: CpuStep,
    went: u64,
    line: u32,
}

// Executes instructions of the code until one gives another answer than `Went`, none is read, or this many went, and counts each step that it begins for its
// line. It is one loop whatever sink the run writes to, and the one place of a program where instructions of a target are executed.
#[inline(never)]
fn execute_code<P: Stepping>(
    processor: &mut P,
    most: u64,
    lines: &[u32],
    before: u32,
    counts: &mut [u64],
) -> Executed
    requires may { MayAdd lines.now most counts.old }
    requires before { 0 < length counts.old → before < length counts.old }
    ensures executes { Executes (P.inner processor.old) (P.inner processor.new) most result.answer result.went }
    ensures elsewhere { result.answer ≡ Went → result.went < most → P.elsewhere processor.new }
    ensures counts { (out : List ℕ)
        → AddsSteps lines.now (code_run (P.inner processor.old) out) before result.line (begun result.went most) counts.old counts.new }
    ensures below { 0 < length counts.old → result.line < length counts.old }
{
    let mut line = before;
    let mut left = most;
    while left > 0 {
        line = count_step(lines, processor.pc(), line, counts);
        match processor.step_code() {
            Some(CpuStep::Went) => left -= 1,
            Some(answer) => {
                return Executed {
                    answer,
                    went: most - left,
                    line,
                };
            }
            None => {
                return Executed {
                    answer: CpuStep::Went,
                    went: most - left,
                    line,
                };
            }
        }
    }
    Executed {
        answer: CpuStep::Went,
        went: most,
        line,
    }
}

// How far a run comes with a step that answers so, before which it has taken this many. The step is counted for its line, and is taken back there where it
// did not go and did not end the run.
fn stopped(answer: CpuStep, steps: u64, line: u32, counts: &mut [u64]) -> Advanced
    requires steps { steps < 2 ^ 64 - 1 }
    requires line { 0 < length counts.old → line < length counts.old }
    requires some { 0 < length counts.old → 0 < slice_index_or counts.old line 0 }
    ensures answer { result.answer ≡ answer }
    ensures steps { result.steps ≡ counted answer steps }
    ensures long { length counts.new ≡ length counts.old }
    ensures counted { is_counted answer ≡ true → counts.new ≡ counts.old }
    ensures back { is_counted answer ≡ false → 0 < length counts.old → (l : ℕ)
        → slice_index_or counts.old l 0 ≡ slice_index_or counts.new l 0 + (if line == l then 1 else 0) }
{
    match answer {
        CpuStep::Went | CpuStep::Ended(_) => Advanced {
            answer,
            steps: steps + 1,
        },
        CpuStep::Fault(_) | CpuStep::WriteFault => {
            take_back(counts, line);
            Advanced { answer, steps }
        }
    }
}

/// Takes one step, whether the run is over or not.
#[inline(always)]
pub fn step<P: Stepping, O: Sink>(processor: &mut P, out: &mut O) -> CpuStep
    ensures says { StepSays (effect_in (P.inner processor.old)) (P.inner processor.old) (P.inner processor.new)
        (O.taken out.old) (O.taken out.new) (O.faults out.old) (O.faults out.new) result }
    ensures later { O.faults out.old ≤ O.faults out.new }
{
    let Executed { answer, went, .. } = execute_code(processor, 1, &[], 0, &mut []);
    if went == 1 {
        return CpuStep::Went;
    }
    match answer {
        CpuStep::Went => processor.step_elsewhere(out),
        answer => answer,
    }
}

/// Takes steps of a run that has taken this many, until one gives another answer than `Went`, and at most this many more, and adds those that went or ended
/// to the numbers of their lines, where there are any.
pub fn advance<P: Stepping, O: Sink>(
    processor: &mut P,
    steps: u64,
    most: u64,
    lines: &[u32],
    counts: &mut [u64],
    out: &mut O,
) -> Advanced
    requires few { steps + most < 2 ^ 64 }
    requires may { MayAdd lines.now most counts.old }
    ensures says { Advances (going_on (P.inner processor.old) steps) (shown_of (P.inner processor.new) result.answer result.steps) most
        (O.taken out.old) (O.taken out.new) (O.faults out.old) (O.faults out.new) result.answer }
    ensures later { O.faults out.old ≤ O.faults out.new }
    ensures counts { Adds lines.now (run_from (going_on (P.inner processor.old) steps)) (result.steps - steps) counts.old counts.new }
{
    let mut went = 0;
    let mut line = 0;
    while went < most {
        let executed = execute_code(processor, most - went, lines, line, counts);
        went += executed.went;
        line = executed.line;
        match executed.answer {
            CpuStep::Went => {}
            answer => return stopped(answer, steps + went, line, counts),
        }
        if went < most {
            match processor.step_elsewhere(out) {
                CpuStep::Went => went += 1,
                answer => return stopped(answer, steps + went, line, counts),
            }
        }
    }
    Advanced {
        answer: CpuStep::Went,
        steps: steps + most,
    }
}
