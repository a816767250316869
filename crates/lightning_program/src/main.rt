// The program `lightning`: the top call on the words of the process, its files and its standard streams.
#![tactic(auto)]

ghost use Rattle.std.specs.Prelude.{◌≡◌};
ghost use Rattle.std.specs.Process.{exit_status};
ghost use Rattle.lg_base.specs.Arguments.{texts_of};
ghost use Rattle.lg_io.specs.SinkChanges.{on_sink};
ghost use Rattle.lg_run.specs.Calls.{Says};
ghost use Rattle.lg_run.specs.Changes.{on_texts};
ghost use Rattle.lg_run.specs.Statuses.{status_of_answer};
ghost use Rattle.lg_run.specs.declared.answer.Done.{Done as CallDone};

use lg_io::{StdSink, StdTexts, Texts};
use lg_run::top::{lightning, report_words};
use lg_run::{Answer, status};
use std::alloc::Global;
use std::process::ExitCode;
use std::rt::{Stderr, Stdout};
use std::{env, io};

// Returns the words of the process, the program's name first, or the answer where there are none: words that are no text are of no form of the command.
fn words(rt: &HostRuntime) -> Result<Vec<String>, Answer> {
    let mut words = Vec::new(rt.alloc());
    match env::args(rt) {
        Ok(args) => {
            for word in args {
                if words.push(word).is_err() {
                    return Err(Answer::OutOfMemory);
                }
            }
            Ok(words)
        }
        Err(fault) if fault.kind() == io::ErrorKind::OutOfMemory => Err(Answer::OutOfMemory),
        Err(_) => Err(Answer::Usage),
    }
}

// Returns the status that the process ends with.
fn exit_code(answer: &Answer) -> ExitCode
    ensures { exit_status result ≡ status_of_answer answer.now }
{
    ExitCode::from(status(answer))
}

// Makes the call, and ends with the status of its answer. The two streams have types of their own, so that one is not taken for the other.
fn ended<T: Texts>(
    alloc: Global,
    words: &Vec<String>,
    texts: &mut T,
    out: &mut StdSink<Stdout>,
    err: &mut StdSink<Stderr>,
) -> ExitCode
    ensures { let texts_change = on_texts T.held T.faults T.sure texts.old texts.new in
        let out_change = on_sink (λ sink. sink.held) (λ sink. sink.faults) out.old out.new in
        let err_change = on_sink (λ sink. sink.held) (λ sink. sink.faults) err.old err.new in
        (done : CallDone) × Says (texts_of words.now.items) texts_change out_change err_change done × (exit_status result ≡ status_of_answer done.answer) }
{
    let done = lightning(alloc, words, texts, out, err);
    exit_code(&done.answer)
}

fn main(rt: HostRuntime) -> ExitCode {
    let mut texts = StdTexts::new(&rt);
    let mut out = StdSink::new(rt.stdout());
    let mut err = StdSink::new(rt.stderr());
    match words(&rt) {
        Ok(words) => ended(rt.alloc(), &words, &mut texts, &mut out, &mut err),
        Err(answer) => exit_code(&report_words(answer, &mut err)),
    }
}
