// What is done with the text that a command names.

ghost use Rattle.std.specs.Prelude.{◌≡◌, ◌≤◌, Ok, Err, length, IfOk, Some, None, Option, false};
ghost use Rattle.lg_base.specs.Arguments.{args_of, most_args, texts_of};
ghost use Rattle.lg_base.specs.declared.refusal.Refusal.{Refusal};
ghost use Rattle.lg_base.specs.declared.refusal.Stop.{Stop};
ghost use Rattle.lg_carry.specs.Agreement.{Agrees};
ghost use Rattle.lg_command.specs.Commands.{IsInRange, shown};
ghost use Rattle.lg_command.specs.Plans.{action_of, source_of};
ghost use Rattle.lg_command.specs.declared.plan.Action.TheVariants as actions;
ghost use Rattle.lg_command.specs.declared.plan.Source.TheVariants as sources;
ghost use Rattle.lg_cpu.specs.Laws.{AreBytes};
ghost use Rattle.lg_node.specs.Labels.{taken_labels};
ghost use Rattle.lg_node.specs.Shapes.{IsChecked};
ghost use Rattle.lg_tst.specs.Answers.{IsWhole};
ghost use Rattle.lg_io.specs.NamedTexts.{NamedTexts};
ghost use Rattle.lg_io.specs.Readings.{IsReadOnce};
ghost use Rattle.lg_io.specs.SinkChanges.{on_sink};
ghost use Rattle.lg_run.specs.Changes.{TellsWrites, TextsChange, on_texts};
ghost use Rattle.lg_dead.specs.Rewritten.{AreFinal};
ghost use Rattle.lg_run.specs.Explanations.{ReadExplains, WorkExplains, is_undefined};
ghost use Rattle.lg_run.specs.ProfileStarts.{RanTells, ReadTold, TextTells, UnitTells, WorkTells};
ghost use Rattle.lg_run.specs.Profiles.{is_run_end};
ghost use Rattle.lg_run.specs.Reads.{ReadsFewOf};
ghost use Rattle.lg_run.specs.Refused.{ArgumentsFit, IsRefusedAccepted, most_text};
ghost use Rattle.lg_run.specs.Says.{ReadsFile};
ghost use Rattle.lg_run.specs.Work.{RanSays, ReadDone, TellsNoRead, TextDone, UnitDone, WorkDone};

use crate::answer::{Answer, Done};
use crate::back::do_back;
use crate::explain::{blamed_word_of, run_explain};
use crate::listing::list_code;
use crate::made;
use crate::mean::run_meaning;
use crate::profile::{Profiled, Worked, run_profile, untold, untold_run};
use crate::reading::{Accepted, read_unit};
use crate::run::{Ran, run};
use crate::source::{ReadStop, read_text};
use lg_asm::{Code, assemble};
use lg_base::{ArgImage, OutOfMemory, Refusal, RefusalKind, Stop, args_image};
use lg_command::{Action, Command, Report, Source};
use lg_cpu::Cpu;
use lg_explain::line::Shown;
use lg_io::{Sink, Texts};
use lg_mean::Portable;
use lg_pre::expand;
use std::alloc::Global;

/// What registers hold at first, and after a call of a host function.
pub const TRASH: u64 = 0x5A5A_5A5A_5A5A_5A5A;

/// Returns an answer with no code, and nothing run.
pub fn without_code(answer: Answer) -> Done
    ensures { (result.answer ≡ answer) × (result.code ≡ None) × (result.steps ≡ 0) }
{
    Done {
        answer,
        code: None,
        steps: 0,
    }
}

/// Nothing ran, since memory ran out.
pub fn not_run() -> Ran
    ensures { (result.answer ≡ Answer.OutOfMemory) × (result.steps ≡ 0) }
{
    Ran {
        answer: Answer::OutOfMemory,
        steps: 0,
    }
}

/// Returns the answer of what stops a call before it runs.
pub fn stopped(stop: Stop) -> Answer
    ensures refused { (r : Refusal) → stop ≡ Stop.Refused r → result ≡ Answer.Refused r }
    ensures memory { stop ≡ Stop.OutOfMemory → result ≡ Answer.OutOfMemory }
    ensures end { is_run_end result ≡ false }
    ensures defined { is_undefined result ≡ false }
{
    match stop {
        Stop::Refused(refusal) => Answer::Refused(refusal),
        Stop::OutOfMemory => Answer::OutOfMemory,
    }
}

/// Returns a refusal at no line.
pub fn refusal(kind: RefusalKind) -> Refusal
    ensures { result ≡ record { kind = kind; line = 0 } }
{
    Refusal { kind, line: 0 }
}

// Returns the code of an accepted text.
fn code_of(alloc: Global, command: &Command<'_>, text: &Accepted) -> Result<Code, Stop>
    requires range { IsInRange command.now }
    requires whole { IsWhole text.now.unit }
    requires checked { IsChecked text.now.unit.nodes (Ok text.now.shape) }
    ensures target { IfOk result (λ c. c.target ≡ command.now.target) }
    ensures size_is { IfOk result (λ c. c.size ≡ command.now.size) }
    ensures taken { IfOk result (λ c. c.shape.taken ≡ taken_labels text.now.unit.nodes) }
    ensures rewritten { IfOk result (λ c. AreFinal text.now.unit.nodes c.nodes c.shape c.origin) }
    ensures size { IfOk result (λ c. length c.bytes ≤ command.now.size) }
    ensures agrees { IfOk result (λ c. Agrees c.bytes c.labels text.now.unit command.now.target) }
    ensures refused { (r : Refusal) → result ≡ Err (Stop.Refused r) → IsRefusedAccepted (shown command.now) text.now.unit.nodes r }
{
    assemble(alloc, &text.unit, &text.shape, command.target, command.size)
}

// Runs code.
fn run_code<O: Sink>(
    alloc: Global,
    command: &Command<'_>,
    args: &ArgImage,
    text: &Accepted,
    code: &Code,
    out: &mut O,
) -> Ran
    requires range { IsInRange command.now }
    requires args { args.now ≡ args_of (texts_of command.now.arguments.items) }
    requires args_size { length args.now ≤ most_args }
    requires whole { IsWhole text.now.unit }
    requires target { code.now.target ≡ command.now.target }
    requires size { length code.now.bytes ≤ command.now.size }
    ensures says { RanSays actions.Run (shown command.now) code.now text.now.unit (on_sink O.taken O.faults out.old out.new) result }
    ensures writes { TellsWrites result.answer (on_sink O.taken O.faults out.old out.new) }
{
    match Cpu::new(
        alloc,
        code.target(),
        code.bytes(),
        &text.unit.image,
        args,
        TRASH,
    ) {
        Ok(mut cpu) => run(&mut cpu, command.steps, out),
        Err(_) => not_run(),
    }
}

// Runs the portable meaning over the addresses of the code's labels.
fn run_mean<O: Sink>(
    alloc: Global,
    command: &Command<'_>,
    args: &ArgImage,
    text: &Accepted,
    code: &Code,
    out: &mut O,
) -> Ran
    requires range { IsInRange command.now }
    requires args { args.now ≡ args_of (texts_of command.now.arguments.items) }
    requires args_size { length args.now ≤ most_args }
    requires whole { IsWhole text.now.unit }
    requires checked { IsChecked text.now.unit.nodes (Ok text.now.shape) }
    requires agrees { Agrees code.now.bytes code.now.labels text.now.unit command.now.target }
    ensures says { RanSays actions.Mean (shown command.now) code.now text.now.unit (on_sink O.taken O.faults out.old out.new) result }
    ensures writes { TellsWrites result.answer (on_sink O.taken O.faults out.old out.new) }
{
    let _ = text.unit.nodes.labels();
    match Portable::new(alloc, &text.unit, &text.shape, code.labels(), args) {
        Ok(mut machine) => run_meaning(&mut machine, &text.unit, &text.shape, command.steps, out),
        Err(_) => not_run(),
    }
}

// Runs code, or its meaning, or writes its listing, and reports nothing besides.
fn act<O: Sink>(
    alloc: Global,
    command: &Command<'_>,
    args: &ArgImage,
    text: &Accepted,
    code: &Code,
    out: &mut O,
) -> Ran
    requires range { IsInRange command.now }
    requires args { args.now ≡ args_of (texts_of command.now.arguments.items) }
    requires args_size { length args.now ≤ most_args }
    requires whole { IsWhole text.now.unit }
    requires checked { IsChecked text.now.unit.nodes (Ok text.now.shape) }
    requires target { code.now.target ≡ command.now.target }
    requires size { length code.now.bytes ≤ command.now.size }
    requires agrees { Agrees code.now.bytes code.now.labels text.now.unit command.now.target }
    requires wanted { action_of command.now.mode ≡ actions.ReadBack → ⊥ }
    ensures says { RanSays (action_of command.now.mode) (shown command.now) code.now text.now.unit (on_sink O.taken O.faults out.old out.new) result }
    ensures writes { TellsWrites result.answer (on_sink O.taken O.faults out.old out.new) }
{
    match command.mode.plan().action {
        Action::Run => run_code(alloc, command, args, text, code, out),
        Action::List => list_code(command, text, code, out),
        Action::Mean => run_mean(alloc, command, args, text, code, out),
        Action::ReadBack => unreachable!(),
    }
}

// Does what is asked for with code, and reports what is asked for besides.
fn run_mode<O: Sink>(
    alloc: Global,
    command: &Command<'_>,
    args: &ArgImage,
    text: &Accepted,
    code: &Code,
    out: &mut O,
) -> Profiled
    requires range { IsInRange command.now }
    requires args { args.now ≡ args_of (texts_of command.now.arguments.items) }
    requires args_size { length args.now ≤ most_args }
    requires whole { IsWhole text.now.unit }
    requires checked { IsChecked text.now.unit.nodes (Ok text.now.shape) }
    requires target { code.now.target ≡ command.now.target }
    requires rewritten { AreFinal text.now.unit.nodes code.now.nodes code.now.shape code.now.origin }
    requires size { length code.now.bytes ≤ command.now.size }
    requires agrees { Agrees code.now.bytes code.now.labels text.now.unit command.now.target }
    requires wanted { action_of command.now.mode ≡ actions.ReadBack → ⊥ }
    ensures says { RanSays (action_of command.now.mode) (shown command.now) code.now text.now.unit (on_sink O.taken O.faults out.old out.new) result.ran }
    ensures writes { TellsWrites result.ran.answer (on_sink O.taken O.faults out.old out.new) }
    ensures told { RanTells (shown command.now) code.now text.now.unit result }
{
    match command.mode.plan().report {
        Report::Nothing => untold_run(act(alloc, command, args, text, code, out)),
        Report::Profile => run_profile(alloc, command, args, text, code, out),
        Report::Explanation => run_explain(alloc, command, args, text, code, out),
    }
}

// The bytes of an argument part are bytes.
fn see_bytes(bytes: &[u8])
    ensures { AreBytes bytes.now }
{
    let _count = bytes.len();
}

// Makes code of an accepted text, and does what is asked for.
fn do_unit<O: Sink>(
    alloc: Global,
    command: &Command<'_>,
    args: &ArgImage,
    text: &Accepted,
    out: &mut O,
) -> Worked
    requires range { IsInRange command.now }
    requires args { args.now ≡ args_of (texts_of command.now.arguments.items) }
    requires args_size { length args.now ≤ most_args }
    requires whole { IsWhole text.now.unit }
    requires checked { IsChecked text.now.unit.nodes (Ok text.now.shape) }
    requires wanted { action_of command.now.mode ≡ actions.ReadBack → ⊥ }
    ensures says { UnitDone (shown command.now) text.now.unit (on_sink O.taken O.faults out.old out.new) result.done }
    ensures told { UnitTells (shown command.now) text.now.unit result }
    ensures writes { TellsWrites result.done.answer (on_sink O.taken O.faults out.old out.new) }
    ensures reads { TellsNoRead result.done.answer }
{
    see_bytes(args.as_slice());
    match code_of(alloc, command, text) {
        Ok(code) => {
            let profiled = run_mode(alloc, command, args, text, &code, out);
            Worked {
                done: Done {
                    answer: profiled.ran.answer,
                    code: Some(code),
                    steps: profiled.ran.steps,
                },
                tally: profiled.tally,
                stuck: profiled.stuck,
                read: None,
                word: None,
            }
        }
        Err(stop) => untold(without_code(stopped(stop))),
    }
}

// Reads the unit of the command's text, and does what is asked for.
fn do_text<O: Sink>(
    alloc: Global,
    command: &Command<'_>,
    args: &ArgImage,
    text: &[u8],
    out: &mut O,
) -> Worked
    requires range { IsInRange command.now }
    requires args { args.now ≡ args_of (texts_of command.now.arguments.items) }
    requires args_size { length args.now ≤ most_args }
    requires short { length text.now ≤ most_text }
    requires wanted { action_of command.now.mode ≡ actions.ReadBack → ⊥ }
    ensures says { TextDone (shown command.now) text.now (on_sink O.taken O.faults out.old out.new) result.done }
    ensures told { TextTells (shown command.now) text.now result }
    ensures writes { TellsWrites result.done.answer (on_sink O.taken O.faults out.old out.new) }
    ensures reads { TellsNoRead result.done.answer }
{
    match read_unit(alloc, text) {
        Ok(text) => do_unit(alloc, command, args, &text, out),
        Err(stop) => untold(without_code(stopped(stop))),
    }
}

// Expands what was read, and does what is asked for.
fn do_read<O: Sink>(
    alloc: Global,
    command: &Command<'_>,
    args: &ArgImage,
    read: &[u8],
    out: &mut O,
) -> Worked
    requires file { source_of command.now.mode ≡ sources.File }
    requires range { IsInRange command.now }
    requires args { args.now ≡ args_of (texts_of command.now.arguments.items) }
    requires args_size { length args.now ≤ most_args }
    requires short { length read.now ≤ most_text }
    ensures says { ReadDone (shown command.now) read.now (on_sink O.taken O.faults out.old out.new) result.done }
    ensures told { ReadTold (shown command.now) read.now result }
    ensures writes { TellsWrites result.done.answer (on_sink O.taken O.faults out.old out.new) }
    ensures reads { TellsNoRead result.done.answer }
{
    match expand(alloc, read) {
        Ok(text) => do_text(alloc, command, args, text.as_slice(), out),
        Err(stop) => untold(without_code(stopped(stop))),
    }
}

// What was done with what was read, which is kept with the word that is to blame.
fn keep(worked: Worked, read: Vec<u8>, word: Option<Shown>) -> Worked
    ensures done { result.done ≡ worked.done }
    ensures tally { result.tally ≡ worked.tally }
    ensures stuck { result.stuck ≡ worked.stuck }
    ensures read { result.read ≡ Some read }
    ensures word { result.word ≡ word }
{
    let Worked {
        done,
        tally,
        stuck,
        ..
    } = worked;
    Worked {
        done,
        tally,
        stuck,
        read: Some(read),
        word,
    }
}

// Expands what was read, does what is asked for, and keeps what was read, with the word that a refusal blames.
fn do_kept<O: Sink>(
    alloc: Global,
    command: &Command<'_>,
    args: &ArgImage,
    read: Vec<u8>,
    out: &mut O,
) -> Worked
    requires file { source_of command.now.mode ≡ sources.File }
    requires range { IsInRange command.now }
    requires args { args.now ≡ args_of (texts_of command.now.arguments.items) }
    requires args_size { length args.now ≤ most_args }
    requires short { length read.items ≤ most_text }
    ensures says { ReadDone (shown command.now) read.items (on_sink O.taken O.faults out.old out.new) result.done }
    ensures told { ReadTold (shown command.now) read.items result }
    ensures explains { ReadExplains (shown command.now) read.items result }
    ensures writes { TellsWrites result.done.answer (on_sink O.taken O.faults out.old out.new) }
    ensures reads { TellsNoRead result.done.answer }
{
    let worked = do_read(alloc, command, args, &read, out);
    match blamed_word_of(alloc, command.mode.plan().report, &read, worked.done.answer) {
        Ok(word) => keep(worked, read, word),
        Err(OutOfMemory) => untold(without_code(Answer::OutOfMemory)),
    }
}

// A file that is expanded is read, and the arguments fit.
fn see_file(command: &Command<'_>, args: &ArgImage)
    requires file { source_of command.now.mode ≡ sources.File }
    requires args { args.now ≡ args_of (texts_of command.now.arguments.items) }
    requires args_size { length args.now ≤ most_args }
    ensures { (ReadsFile (source_of command.now.mode) → ArgumentsFit (shown command.now) → ⊥) → ⊥ }
{
    let (_, _) = (command, args);
}

// Reads what is under the name of a command's file, and does what is asked for.
fn do_file<T: Texts, O: Sink>(
    alloc: Global,
    command: &Command<'_>,
    args: &ArgImage,
    texts: &mut T,
    out: &mut O,
) -> Worked
    requires file { source_of command.now.mode ≡ sources.File }
    requires range { IsInRange command.now }
    requires args { args.now ≡ args_of (texts_of command.now.arguments.items) }
    requires args_size { length args.now ≤ most_args }
    ensures says { WorkDone (shown command.now) (on_texts T.held T.faults T.sure texts.old texts.new) (on_sink O.taken O.faults out.old out.new) result.done }
    ensures told { WorkTells (shown command.now) (T.held texts.old) result }
    ensures explains { WorkExplains (shown command.now) (T.held texts.old) result }
    ensures once { IsReadOnce (T.reading texts.old) (T.reading texts.new) }
    ensures unread { (ReadsFile (source_of command.now.mode) → ArgumentsFit (shown command.now) → ⊥) → T.reading texts.new ≡ T.reading texts.old }
    ensures few { ReadsFewOf (T.held texts.old) command.now.file.now (T.left texts.old) (T.left texts.new) }
{
    see_file(command, args);
    match read_text(alloc, command.file, texts) {
        Ok(read) => do_kept(alloc, command, args, read, out),
        Err(ReadStop::ReadFault) => untold(without_code(Answer::ReadFault)),
        Err(ReadStop::TooLong) => untold(without_code(Answer::Refused(refusal(
            RefusalKind::TextTooLong,
        )))),
        Err(ReadStop::OutOfMemory) => untold(without_code(Answer::OutOfMemory)),
    }
}

// Makes the generator's text, and does what is asked for.
fn do_made<O: Sink>(alloc: Global, command: &Command<'_>, args: &ArgImage, out: &mut O) -> Worked
    requires made { source_of command.now.mode ≡ sources.Generator }
    requires range { IsInRange command.now }
    requires args { args.now ≡ args_of (texts_of command.now.arguments.items) }
    requires args_size { length args.now ≤ most_args }
    ensures says { (t : TextsChange) → t.faults' ≡ t.faults → WorkDone (shown command.now) t (on_sink O.taken O.faults out.old out.new) result.done }
    ensures told { (held : Option NamedTexts) → WorkTells (shown command.now) held result }
    ensures explains { (held : Option NamedTexts) → WorkExplains (shown command.now) held result }
{
    match made(alloc, command.seed) {
        Ok(text) => do_text(alloc, command, args, text.as_slice(), out),
        Err(_) => untold(without_code(Answer::OutOfMemory)),
    }
}

/// Reads the text of a command's file, or makes the generator's, and does what is asked for; or reads the file as a listing. Words of
/// arguments that are too long are refused first.
pub fn work<T: Texts, O: Sink>(
    alloc: Global,
    command: &Command<'_>,
    texts: &mut T,
    out: &mut O,
) -> Worked
    requires { IsInRange command.now }
    ensures says { WorkDone (shown command.now) (on_texts T.held T.faults T.sure texts.old texts.new) (on_sink O.taken O.faults out.old out.new) result.done }
    ensures told { WorkTells (shown command.now) (T.held texts.old) result }
    ensures explains { WorkExplains (shown command.now) (T.held texts.old) result }
    ensures once { IsReadOnce (T.reading texts.old) (T.reading texts.new) }
    ensures unread { (ReadsFile (source_of command.now.mode) → ArgumentsFit (shown command.now) → ⊥) → T.reading texts.new ≡ T.reading texts.old }
    ensures few { ReadsFewOf (T.held texts.old) command.now.file.now (T.left texts.old) (T.left texts.new) }
{
    let args = match args_image(alloc, &command.arguments) {
        Ok(args) => args,
        Err(stop) => return untold(without_code(stopped(stop))),
    };
    match command.mode.plan().source {
        Source::File => do_file(alloc, command, &args, texts, out),
        Source::Generator => do_made(alloc, command, &args, out),
        Source::Listing => untold(do_back(alloc, command, texts, out)),
    }
}
