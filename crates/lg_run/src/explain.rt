// Explaining an answer.

ghost use Rattle.std.specs.Prelude.{◌≡◌, ◌≤◌, true, Ok, None, length, IfOk, OnErr};
ghost use Rattle.lg_base.specs.Arguments.{args_of, most_args, texts_of};
ghost use Rattle.lg_carry.specs.Agreement.{Agrees};
ghost use Rattle.lg_command.specs.Commands.{IsInRange, shown};
ghost use Rattle.lg_command.specs.Plans.{report_of};
ghost use Rattle.lg_command.specs.declared.plan.Action.TheVariants as actions;
ghost use Rattle.lg_command.specs.declared.plan.Report.TheVariants as reports;
ghost use Rattle.lg_io.specs.SinkChanges.{WroteTo, on_sink};
ghost use Rattle.lg_mean.specs.Machines.{state_of};
ghost use Rattle.lg_mean.specs.Programs.{IsTableOf};
ghost use Rattle.lg_meaning.specs.Fits.{Fits};
ghost use Rattle.lg_node.specs.Shapes.{IsChecked};
ghost use Rattle.lg_run.specs.Changes.{TellsWrites};
ghost use Rattle.lg_run.specs.Explained.{answer_explained, is_explain, names_line, refusal_explained, step_explained};
ghost use Rattle.lg_run.specs.Explanations.{IsStepUndefined, StuckWhere, explained_of, is_refused, is_undefined, read_explained, word_explained};
ghost use Rattle.lg_run.specs.Means.{MeantFrom, answer_of, meaning_from};
ghost use Rattle.lg_run.specs.ProfileStarts.{RanTells};
ghost use Rattle.lg_run.specs.Refused.{most_text};
ghost use Rattle.lg_run.specs.Work.{RanSays};
ghost use Rattle.lg_tst.specs.Answers.{IsWhole};

use crate::answer::Answer;
use crate::mean::answer_of;
use crate::profile::{Profiled, Worked, untold_run};
use crate::reading::Accepted;
use crate::run::Ran;
use crate::work::not_run;
use lg_asm::Code;
use lg_base::{ArgImage, OutOfMemory, Refusal, RefusalKind};
use lg_command::{Command, Report};
use lg_explain::line::Shown;
use lg_explain::say::{write_refused, write_undefined};
use lg_explain::stop::{StuckAt, stuck_at};
use lg_explain::word::blamed_word;
use lg_io::{Sink, SinkFault};
use lg_mean::{Portable, RunEnd};
use lg_meaning::laws::steps_are_those_of_the_meaning;
use lg_node::{Shape, Unit};
use std::alloc::Global;

// ---- the run

// Why the next step of a machine is undefined, where its run came to such a step.
fn stuck_after(end: RunEnd, machine: &Portable, unit: &Unit, shape: &Shape) -> Option<StuckAt>
    requires made { IsTableOf unit.now.nodes shape.now machine.now.labels }
    requires fits { Fits unit.now.nodes shape.now (state_of machine.now.machine) }
    requires undefined { IsStepUndefined end unit.now.nodes shape.now machine.now.labels.addresses (state_of machine.now.machine) }
    ensures { StuckWhere (is_undefined (answer_of end)) unit.now.nodes shape.now machine.now.labels.addresses (state_of machine.now.machine) result }
{
    match end {
        RunEnd::Undefined { .. } => Some(stuck_at(machine, unit, shape)),
        RunEnd::Ended(_) | RunEnd::StepsOut | RunEnd::WriteFault => None,
    }
}

// Runs the portable meaning as with `--mode mean`, and where a step is undefined says why, and what the registers hold.
fn run_explained<O: Sink>(
    machine: &mut Portable,
    unit: &Unit,
    shape: &Shape,
    most: u64,
    out: &mut O,
) -> Profiled
    requires made { IsTableOf unit.now.nodes shape.now machine.old.labels }
    requires fits { Fits unit.now.nodes shape.now (state_of machine.old.machine) }
    requires running { machine.old.over ≡ None }
    requires steps { machine.old.steps ≡ 0 }
    ensures says { MeantFrom unit.now.nodes shape.now machine.old most (on_sink O.taken O.faults out.old out.new) result.ran }
    ensures writes { TellsWrites result.ran.answer (on_sink O.taken O.faults out.old out.new) }
    ensures none { result.tally ≡ None }
    ensures stuck { let s = (meaning_from unit.now.nodes shape.now machine.old result.ran.steps).state in
        StuckWhere (is_undefined result.ran.answer) unit.now.nodes shape.now machine.old.labels.addresses s result.stuck }
{
    steps_are_those_of_the_meaning();
    let end = machine.run(unit, shape, most, out);
    Profiled {
        ran: Ran {
            answer: answer_of(end),
            steps: machine.steps(),
        },
        tally: None,
        stuck: stuck_after(end, machine, unit, shape),
    }
}

/// Runs the portable meaning over the addresses of the code's labels as with `--mode mean`, and where a step is undefined says why, and what the registers
/// hold.
pub fn run_explain<O: Sink>(
    alloc: Global,
    command: &Command<'_>,
    args: &ArgImage,
    text: &Accepted,
    code: &Code,
    out: &mut O,
) -> Profiled
    requires explain { report_of command.now.mode ≡ reports.Explanation }
    requires range { IsInRange command.now }
    requires args { args.now ≡ args_of (texts_of command.now.arguments.items) }
    requires args_size { length args.now ≤ most_args }
    requires whole { IsWhole text.now.unit }
    requires checked { IsChecked text.now.unit.nodes (Ok text.now.shape) }
    requires agrees { Agrees code.now.bytes code.now.labels text.now.unit command.now.target }
    ensures says { RanSays actions.Mean (shown command.now) code.now text.now.unit (on_sink O.taken O.faults out.old out.new) result.ran }
    ensures writes { TellsWrites result.ran.answer (on_sink O.taken O.faults out.old out.new) }
    ensures told { RanTells (shown command.now) code.now text.now.unit result }
{
    let _ = text.unit.nodes.labels();
    match Portable::new(alloc, &text.unit, &text.shape, code.labels(), args) {
        Ok(mut machine) => run_explained(&mut machine, &text.unit, &text.shape, command.steps, out),
        Err(_) => untold_run(not_run()),
    }
}

// ---- the word

/// Returns the word that an answer blames in what was read, which has at most 16,777,216 bytes, where answers are explained. Memory is requested
/// for it only where the answer is a refusal.
pub fn blamed_word_of(
    alloc: Global,
    report: Report,
    read: &[u8],
    answer: Answer,
) -> Result<Option<Shown>, OutOfMemory>
    requires { length read.now ≤ most_text }
    ensures word { IfOk result (λ word. word ≡ word_explained report read.now answer) }
    ensures refused { OnErr result (is_refused answer ≡ true) }
{
    if !is_explain(report) {
        return Ok(None);
    }
    match answer {
        Answer::Refused(refusal) => blamed_word(alloc, refusal.kind, read),
        _ => Ok(None),
    }
}

// ---- the lines

// Returns whether a kind of refusal names a line.
fn names_line(kind: RefusalKind) -> bool
    ensures { result ≡ names_line kind }
{
    !matches!(
        kind,
        RefusalKind::TextTooLong | RefusalKind::CodeFull | RefusalKind::ArgsTooLong
    )
}

// Writes what explains a refusal of what was read, with the word that it blames.
fn write_refusal<E: Sink>(
    file: &str,
    read: &[u8],
    word: &Option<Shown>,
    refusal: Refusal,
    err: &mut E,
) -> Result<(), SinkFault>
    ensures { WroteTo (on_sink E.taken E.faults err.old err.new) result (refusal_explained file.now read.now word.now refusal) }
{
    if names_line(refusal.kind) {
        write_refused(file.as_bytes(), read, word, refusal, err)
    } else {
        Ok(())
    }
}

// Writes what explains a step that is undefined.
fn write_step<E: Sink>(
    file: &str,
    read: &[u8],
    line: u32,
    stuck: &Option<StuckAt>,
    err: &mut E,
) -> Result<(), SinkFault>
    ensures { WroteTo (on_sink E.taken E.faults err.old err.new) result (step_explained file.now read.now line stuck.now) }
{
    match stuck {
        Some(stuck) => write_undefined(file.as_bytes(), read, line, stuck, err),
        None => Ok(()),
    }
}

// Writes what explains an answer.
fn write_answer<E: Sink>(
    file: &str,
    read: &[u8],
    word: &Option<Shown>,
    stuck: &Option<StuckAt>,
    answer: Answer,
    err: &mut E,
) -> Result<(), SinkFault>
    ensures { WroteTo (on_sink E.taken E.faults err.old err.new) result (answer_explained file.now read.now word.now stuck.now answer) }
{
    match answer {
        Answer::Undefined { line } => write_step(file, read, line, stuck, err),
        Answer::Refused(refusal) => write_refusal(file, read, word, refusal, err),
        _ => Ok(()),
    }
}

// Writes it where something was read.
fn write_read<E: Sink>(
    file: &str,
    read: &Option<Vec<u8>>,
    word: &Option<Shown>,
    stuck: &Option<StuckAt>,
    answer: Answer,
    err: &mut E,
) -> Result<(), SinkFault>
    ensures { WroteTo (on_sink E.taken E.faults err.old err.new) result (read_explained file.now read.now word.now stuck.now answer) }
{
    match read {
        Some(read) => write_answer(file, read, word, stuck, answer, err),
        None => Ok(()),
    }
}

// Returns whether answers are explained.
fn is_explain(report: Report) -> bool
    ensures { result ≡ is_explain report }
{
    matches!(report, Report::Explanation)
}

/// Writes the lines that explain what was done for a command, where its mode asks for that.
pub fn write_explained<E: Sink>(
    report: Report,
    file: &str,
    worked: &Worked,
    err: &mut E,
) -> Result<(), SinkFault>
    ensures { WroteTo (on_sink E.taken E.faults err.old err.new) result (explained_of report file.now worked.now) }
{
    if is_explain(report) {
        write_read(
            file,
            &worked.read,
            &worked.word,
            &worked.stuck,
            worked.done.answer,
            err,
        )
    } else {
        Ok(())
    }
}
