// Why a processor stops.

ghost use Rattle.std.specs.Prelude.{◌≡◌};
ghost use Rattle.lg_base.specs.Faults.{name_of_fault};

/// Why a processor cannot take its next step.
#[derive(Clone, Copy, Debug, PartialEq, Eq)]
pub enum FaultKind {
    /// The program counter is no code byte, host entry or stop address.
    Fetch,
    /// The bytes at the program counter are no instruction of the target's table.
    Decode,
    /// Not all bytes of an access lie in one part of the memory.
    Memory,
    /// An access, jump or fetch is not at a multiple of its width.
    Align,
    /// A zero divisor, or a quotient that does not fit.
    Divide,
    /// A condition or a carry that is undefined is read.
    Flag,
    /// A host entry is entered wrongly, or its function is undefined there.
    Host,
}

impl FaultKind {
    /// Returns the name of the kind, as the program prints it.
    pub fn name(self) -> &'static str
        ensures { result.now ≡ name_of_fault self }
    {
        match self {
            FaultKind::Fetch => "Fetch",
            FaultKind::Decode => "Decode",
            FaultKind::Memory => "Memory",
            FaultKind::Align => "Align",
            FaultKind::Divide => "Divide",
            FaultKind::Flag => "Flag",
            FaultKind::Host => "Host",
        }
    }
}
