// The profile of a run.

ghost use Rattle.std.specs.Prelude.{◌≡◌, ◌<◌, ◌≤◌, ◌-◌, ◌^◌, ℕ, Ok, Some, None, if◌then◌else◌, length, slice_get, IfOk};
ghost use Rattle.lg_base.specs.Arguments.{args_of, most_args, texts_of};
ghost use Rattle.lg_carry.specs.Agreement.{Agrees};
ghost use Rattle.lg_command.specs.Commands.{IsInRange, shown as shown_command};
ghost use Rattle.lg_command.specs.Plans.{report_of};
ghost use Rattle.lg_command.specs.declared.plan.Action.TheVariants as actions;
ghost use Rattle.lg_command.specs.declared.plan.Report.TheVariants as reports;
ghost use Rattle.lg_cpu.specs.Machines.{shown, shown_at_start};
ghost use Rattle.lg_cpu.specs.Series.{run_from};
ghost use Rattle.lg_cpu.specs.declared.answer.CpuStep.{CpuStep};
ghost use Rattle.lg_dead.specs.Rewritten.{AreFinal};
ghost use Rattle.lg_io.specs.SinkChanges.{WroteTo, on_sink};
ghost use Rattle.lg_node.specs.Shapes.{IsChecked};
ghost use Rattle.lg_prof.specs.Places.{AreLines};
ghost use Rattle.lg_prof.specs.Tallies.{ran_at, spent_at};
ghost use Rattle.lg_cpu.specs.LineCounts.{table_line};
ghost use Rattle.lg_prof.specs.Spent.{spent};
ghost use Rattle.lg_run.specs.Changes.{TellsWrites};
ghost use Rattle.lg_run.specs.ProfileStarts.{IsStartOf, RanTells, StandsAtStart, TalliesFor};
ghost use Rattle.lg_run.specs.Profiles.{is_run_end, table_of};
ghost use Rattle.lg_run.specs.Runs.{RunSays};
ghost use Rattle.lg_run.specs.Work.{RanSays};
ghost use Rattle.lg_tst.specs.Answers.{IsWhole};

use crate::answer::{Answer, Done};
use crate::reading::Accepted;
use crate::run::Ran;
use crate::work::{TRASH, not_run};
use lg_asm::Code;
use lg_base::{ArgImage, OutOfMemory};
use lg_command::Command;
use lg_cpu::{Cpu, CpuStep};
use lg_explain::line::Shown;
use lg_explain::stop::StuckAt;
use lg_io::{Sink, SinkFault};
use lg_mean::Portable;
use lg_prof::laws::tables_have_the_lines;
use lg_prof::{LineTable, Tally, count_meaning, run_counted};
use std::alloc::Global;

/// What ran, and what is said of it besides.
#[derive(Drop)]
pub struct Profiled {
    /// What the run came to.
    pub ran: Ran,
    /// The numbers of the lines, where the mode asks for a profile.
    pub tally: Option<Tally>,
    /// Where a step of the meaning is undefined, where the mode asks for an explanation.
    pub stuck: Option<StuckAt>,
}

/// What was done, and what is said of it besides.
#[derive(Drop)]
pub struct Worked {
    /// What was done.
    pub done: Done,
    /// The numbers of the lines, where the mode asks for a profile.
    pub tally: Option<Tally>,
    /// Where a step of the meaning is undefined, where the mode asks for an explanation.
    pub stuck: Option<StuckAt>,
    /// What was read and expanded, where that was done.
    pub read: Option<Vec<u8>>,
    /// The word that a refusal of it blames, where the mode asks for an explanation.
    pub word: Option<Shown>,
}

/// Returns what ran, and nothing besides.
pub fn untold_run(ran: Ran) -> Profiled
    ensures { (result.ran ≡ ran) × (result.tally ≡ None) × (result.stuck ≡ None) }
{
    Profiled {
        ran,
        tally: None,
        stuck: None,
    }
}

/// Returns what was done, and nothing besides.
pub fn untold(done: Done) -> Worked
    ensures { (result.done ≡ done) × (result.tally ≡ None) × (result.stuck ≡ None) × (result.read ≡ None) × (result.word ≡ None) }
{
    Worked {
        done,
        tally: None,
        stuck: None,
        read: None,
        word: None,
    }
}

/// Writes the numbers of the lines, where there are some.
pub fn write_table<E: Sink>(tally: &Option<Tally>, err: &mut E) -> Result<(), SinkFault>
    ensures { WroteTo (on_sink E.taken E.faults err.old err.new) result (table_of tally.now) }
{
    match tally {
        Some(tally) => tally.write(err),
        None => Ok(()),
    }
}

// Returns whether an answer is one that a run results in, but a write fault.
fn is_run_end(answer: Answer) -> bool
    ensures { result ≡ is_run_end answer }
{
    matches!(
        answer,
        Answer::Ended(_) | Answer::StepsOut | Answer::Fault { .. }
    )
}

// Returns the lines of the code of a text.
fn line_table(alloc: Global, code: &Code) -> Result<LineTable, OutOfMemory>
    ensures { IfOk result (λ l. AreLines code.now.nodes.nodes code.now.places l) }
{
    let _ = code.target();
    LineTable::new(alloc, code.nodes(), code.places())
}

// Runs a processor before its first step, and counts its steps for the lines of the code.
fn run_by_lines<O: Sink>(
    cpu: &mut Cpu,
    lines: &LineTable,
    tally: &mut Tally,
    most: u64,
    out: &mut O,
) -> Ran
    requires going { (shown cpu.old).answer ≡ CpuStep.Went }
    requires first { (shown cpu.old).steps ≡ 0 }
    requires most { most < 2 ^ 64 - 1 }
    requires some { 0 < length tally.old }
    requires lines { (place line : ℕ) → slice_get lines.now place ≡ Some line → line < length tally.old }
    requires none { (line : ℕ) → spent_at tally.old line ≡ 0 }
    ensures says { RunSays (run_from (shown cpu.old)) most result.steps (on_sink O.taken O.faults out.old out.new) result.answer }
    ensures writes { TellsWrites result.answer (on_sink O.taken O.faults out.old out.new) }
    ensures spent { (line : ℕ) → spent_at tally.new line ≡ spent (table_line lines.now) (run_from (shown cpu.old)) line result.steps }
    ensures ran { (line : ℕ) → ran_at tally.new line ≡ ran_at tally.old line }
    ensures kept { length tally.new ≡ length tally.old }
{
    match run_counted(cpu, lines, tally, most, out) {
        CpuStep::Went => Ran {
            answer: Answer::StepsOut,
            steps: cpu.steps(),
        },
        CpuStep::Ended(status) => Ran {
            answer: Answer::Ended(status),
            steps: cpu.steps(),
        },
        CpuStep::Fault(kind) => Ran {
            answer: Answer::Fault { kind, pc: cpu.pc() },
            steps: cpu.steps(),
        },
        CpuStep::WriteFault => Ran {
            answer: Answer::WriteFault,
            steps: cpu.steps(),
        },
    }
}

/// What a profile takes before the first step: the lines of the code, the numbers, the processor, and the portable machine.
#[derive(Drop)]
pub struct Start {
    lines: LineTable,
    tally: Tally,
    cpu: Cpu,
    machine: Portable,
}

// Takes the memory of a profile.
fn begin(
    alloc: Global,
    command: &Command<'_>,
    args: &ArgImage,
    text: &Accepted,
    code: &Code,
) -> Result<Start, OutOfMemory>
    requires range { IsInRange command.now }
    requires args_size { length args.now ≤ most_args }
    requires whole { IsWhole text.now.unit }
    requires checked { IsChecked text.now.unit.nodes (Ok text.now.shape) }
    requires size { length code.now.bytes ≤ command.now.size }
    requires agrees { Agrees code.now.bytes code.now.labels text.now.unit command.now.target }
    ensures { IfOk result (IsStartOf text.now.unit text.now.shape code.now args.now) }
{
    let _ = text.unit.nodes.labels();
    let lines = line_table(alloc, code)?;
    let tally = Tally::new(alloc, &text.unit.nodes)?;
    let cpu = Cpu::new(
        alloc,
        code.target(),
        code.bytes(),
        &text.unit.image,
        args,
        TRASH,
    )?;
    let machine = Portable::new(alloc, &text.unit, &text.shape, code.labels(), args)?;
    Ok(Start {
        lines,
        tally,
        cpu,
        machine,
    })
}

// Returns the numbers of the lines, where the run came to its end.
fn told_tally(answer: Answer, tally: Tally) -> Option<Tally>
    ensures { result ≡ (if is_run_end answer then Some tally else None) }
{
    if is_run_end(answer) {
        Some(tally)
    } else {
        None
    }
}

// Runs the code, and then, where its run came to an end, the meaning for the numbers of the lines.
fn run_both<O: Sink>(start: &mut Start, most: u64, text: &Accepted, out: &mut O) -> Ran
    requires going { (shown start.old.cpu).answer ≡ CpuStep.Went }
    requires first { (shown start.old.cpu).steps ≡ 0 }
    requires most { most < 2 ^ 64 - 1 }
    requires machine { StandsAtStart text.now.unit text.now.shape start.old }
    requires lines { (place line : ℕ) → slice_get start.old.lines place ≡ Some line → line < length start.old.tally }
    ensures says { RunSays (run_from (shown start.old.cpu)) most result.steps (on_sink O.taken O.faults out.old out.new) result.answer }
    ensures writes { TellsWrites result.answer (on_sink O.taken O.faults out.old out.new) }
    ensures told { let told = if is_run_end result.answer then Some start.new.tally else None in
        TalliesFor (is_run_end result.answer) text.now.unit text.now.shape start.old most result.steps told }
{
    let ran = run_by_lines(&mut start.cpu, &start.lines, &mut start.tally, most, out);
    if !is_run_end(ran.answer) {
        return ran;
    }
    count_meaning(
        &mut start.machine,
        &text.unit,
        &text.shape,
        most,
        &mut start.tally,
    );
    ran
}

// Runs them, and reports the numbers of the lines.
fn run_start<O: Sink>(start: Start, most: u64, text: &Accepted, out: &mut O) -> Profiled
    requires going { (shown start.cpu).answer ≡ CpuStep.Went }
    requires first { (shown start.cpu).steps ≡ 0 }
    requires most { most < 2 ^ 64 - 1 }
    requires machine { StandsAtStart text.now.unit text.now.shape start }
    requires lines { (place line : ℕ) → slice_get start.lines place ≡ Some line → line < length start.tally }
    ensures says { RunSays (run_from (shown start.cpu)) most result.ran.steps (on_sink O.taken O.faults out.old out.new) result.ran.answer }
    ensures writes { TellsWrites result.ran.answer (on_sink O.taken O.faults out.old out.new) }
    ensures told { TalliesFor (is_run_end result.ran.answer) text.now.unit text.now.shape start most result.ran.steps result.tally }
    ensures stuck { result.stuck ≡ None }
{
    let mut start = start;
    let ran = run_both(&mut start, most, text, out);
    let tally = told_tally(ran.answer, start.tally);
    Profiled {
        ran,
        tally,
        stuck: None,
    }
}

/// Runs code as `run` does, and returns how many of its steps, and of those of its meaning over the addresses of the code's labels, belong to each line.
pub fn run_profile<O: Sink>(
    alloc: Global,
    command: &Command<'_>,
    args: &ArgImage,
    text: &Accepted,
    code: &Code,
    out: &mut O,
) -> Profiled
    requires profile { report_of command.now.mode ≡ reports.Profile }
    requires range { IsInRange command.now }
    requires args { args.now ≡ args_of (texts_of command.now.arguments.items) }
    requires args_size { length args.now ≤ most_args }
    requires whole { IsWhole text.now.unit }
    requires checked { IsChecked text.now.unit.nodes (Ok text.now.shape) }
    requires target { code.now.target ≡ command.now.target }
    requires rewritten { AreFinal text.now.unit.nodes code.now.nodes code.now.shape code.now.origin }
    requires size { length code.now.bytes ≤ command.now.size }
    requires agrees { Agrees code.now.bytes code.now.labels text.now.unit command.now.target }
    ensures says { RanSays actions.Run (shown_command command.now) code.now text.now.unit (on_sink O.taken O.faults out.old out.new) result.ran }
    ensures writes { TellsWrites result.ran.answer (on_sink O.taken O.faults out.old out.new) }
    ensures told { RanTells (shown_command command.now) code.now text.now.unit result }
{
    tables_have_the_lines();
    let _ = code.target();
    match begin(alloc, command, args, text, code) {
        Ok(start) => run_start(start, command.steps, text, out),
        Err(_) => untold_run(not_run()),
    }
}
