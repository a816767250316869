// The processors that code is made for.

/// A processor that code can be made for.
#[derive(Clone, Copy, Debug, PartialEq, Eq)]
pub enum Target {
    /// x86-64, with the System V AMD64 calling convention.
    X86_64,
    /// AArch64 (A64 instructions), with the AAPCS64 calling convention.
    Aarch64,
    /// RV64IM, with the RISC-V integer calling convention.
    Riscv64,
}
