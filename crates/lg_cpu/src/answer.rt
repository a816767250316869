// The answers of steps.

use lg_base::FaultKind;

/// The outcome of one step.
#[derive(Clone, Copy, Debug, PartialEq, Eq)]
pub enum CpuStep {
    /// The run goes on.
    Went,
    /// The run has ended with a status: 0 at the stop address, else that of the host function.
    Ended(u8),
    /// The step can't be taken, and nothing changed.
    Fault(FaultKind),
    /// A write failed. A part of the output may have been written, and nothing else changed.
    WriteFault,
}
