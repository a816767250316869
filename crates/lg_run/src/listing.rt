// Writing the listing of code.

ghost use Rattle.lg_command.specs.Commands.{shown};
ghost use Rattle.lg_command.specs.declared.plan.Action.TheVariants as actions;
ghost use Rattle.lg_io.specs.SinkChanges.{on_sink};
ghost use Rattle.lg_run.specs.Changes.{TellsWrites};
ghost use Rattle.lg_run.specs.Work.{RanSays};

use crate::answer::Answer;
use crate::reading::Accepted;
use crate::run::Ran;
use lg_asm::Code;
use lg_command::Command;
use lg_io::Sink;
use lg_list::list;

/// Writes the listing of the code of a text, in pieces and without memory. Nothing runs.
pub fn list_code<O: Sink>(command: &Command<'_>, text: &Accepted, code: &Code, out: &mut O) -> Ran
    ensures says { RanSays actions.List (shown command.now) code.now text.now.unit (on_sink O.taken O.faults out.old out.new) result }
    ensures writes { TellsWrites result.answer (on_sink O.taken O.faults out.old out.new) }
{
    let (_, _) = (command, text);
    let written = list(
        code.target(),
        code.bytes(),
        code.nodes(),
        code.places(),
        code.labels(),
        out,
    );
    let answer = match written {
        Ok(()) => Answer::Listed,
        Err(_) => Answer::WriteFault,
    };
    Ran { answer, steps: 0 }
}
