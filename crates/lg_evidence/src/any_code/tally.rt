// What runs came to, counted.

ghost use Rattle.std.specs.Prelude.{◌≡◌};
ghost use Rattle.lg_evidence.specs.Tally.{counted};

use lg_base::FaultKind;
use lg_cpu::CpuStep;
use lg_tally::count;

/// How many runs ended, faulted by each kind, failed to write, and went on to the last step.
#[derive(Clone, Copy)]
pub struct Tally {
    pub ended: u64,
    pub went_on: u64,
    pub write: u64,
    pub fetch: u64,
    pub decode: u64,
    pub memory: u64,
    pub align: u64,
    pub divide: u64,
    pub flag: u64,
    pub host: u64,
}

impl Tally {
    /// No runs.
    pub fn new() -> Tally {
        Tally {
            ended: 0,
            went_on: 0,
            write: 0,
            fetch: 0,
            decode: 0,
            memory: 0,
            align: 0,
            divide: 0,
            flag: 0,
            host: 0,
        }
    }

    /// Counts a run that came to this.
    pub fn count(&mut self, answer: CpuStep)
        ensures { self.new ≡ counted answer self.old }
    {
        match answer {
            CpuStep::Went => count(&mut self.went_on),
            CpuStep::Ended(_) => count(&mut self.ended),
            CpuStep::WriteFault => count(&mut self.write),
            CpuStep::Fault(FaultKind::Fetch) => count(&mut self.fetch),
            CpuStep::Fault(FaultKind::Decode) => count(&mut self.decode),
            CpuStep::Fault(FaultKind::Memory) => count(&mut self.memory),
            CpuStep::Fault(FaultKind::Align) => count(&mut self.align),
            CpuStep::Fault(FaultKind::Divide) => count(&mut self.divide),
            CpuStep::Fault(FaultKind::Flag) => count(&mut self.flag),
            CpuStep::Fault(FaultKind::Host) => count(&mut self.host),
        }
    }
}
