// What the top call answers.

ghost use Rattle.std.specs.Prelude.{◌≡◌};
ghost use Rattle.lg_run.specs.Statuses.{status_of_answer};

use lg_asm::Code;
use lg_base::{FaultKind, Refusal};

/// The outcome of the top call.
#[derive(Clone, Copy, Debug, PartialEq, Eq)]
pub enum Answer {
    /// The run ended with a status.
    Ended(u8),
    /// The listing was written.
    Listed,
    /// The portable meaning is undefined at a step of this line.
    Undefined {
        /// The line, counted from 1.
        line: u32,
    },
    /// The text is refused.
    Refused(Refusal),
    /// The words of the command are not of its form.
    Usage,
    /// A text could not be read.
    ReadFault,
    /// Bytes could not be written.
    WriteFault,
    /// The run has neither ended nor faulted after the most steps.
    StepsOut,
    /// The processor faulted.
    Fault {
        /// Why.
        kind: FaultKind,
        /// The program counter of the instruction that faulted.
        pc: u64,
    },
    /// Memory could not be had.
    OutOfMemory,
}

/// The answer, the code wherever assembling succeeded, and the number of steps of the run, which is 0 where
/// nothing ran.
#[derive(Drop)]
pub struct Done {
    /// What the call came to.
    pub answer: Answer,
    /// The code that ran, or over the addresses of whose labels the portable meaning ran.
    pub code: Option<Code>,
    /// How many steps the run took, of the processor or of the portable meaning.
    pub steps: u64,
}

/// Returns the status that the program ends with: the run's own where it ended, 0 for a listing, and from 120 on for
/// every other answer.
pub fn status(answer: &Answer) -> u8
    ensures { result ≡ status_of_answer answer.now }
{
    match *answer {
        Answer::Ended(status) => status,
        Answer::Listed => 0,
        Answer::Undefined { .. } => 120,
        Answer::Refused(_) => 121,
        Answer::Usage => 122,
        Answer::ReadFault => 123,
        Answer::WriteFault => 124,
        Answer::StepsOut => 125,
        Answer::Fault { .. } => 126,
        Answer::OutOfMemory => 127,
    }
}
