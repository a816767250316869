// The instructions of all targets.

ghost use Rattle.std.specs.Prelude.{◌≡◌, ◌<◌, ◌≤◌, ◌+◌, ◌*◌, ◌^◌, ◌++◌, ℕ, List, length, Some, IfSome, IfNone};
ghost use Rattle.lg_list.specs.Instructions.{IsInstruction, BeginsWith, target_of, spelling, text_of, front};
ghost use Rattle.lg_rv.specs.Spelling as rv_spelling;
ghost use Rattle.lg_list.specs.Lines.{instruction_line};

use crate::line::Line;
use crate::{aarch64, riscv64, x86_64};
use lg_base::Target;

/// An instruction of one of the targets.
#[derive(Clone, Copy)]
pub enum Instruction {
    /// Of x86-64.
    X86_64(lg_x86::Instr),
    /// Of A64.
    Aarch64(lg_a64::Instr),
    /// Of RV64IM.
    Riscv64(lg_rv::Instr),
}

impl Instruction {
    /// Appends the text of the instruction at an address.
    fn push_text(&self, at: u32, line: &mut Line)
        requires { length line.old ≤ 52 }
        ensures text { line.new ≡ line.old ++ text_of at self.now }
        ensures room { length line.new ≤ 274 }
    {
        match self {
            Instruction::X86_64(instr) => x86_64::push_instruction(line, at, instr),
            Instruction::Aarch64(instr) => aarch64::push_instruction(line, at, instr),
            Instruction::Riscv64(instr) => riscv64::push_instruction(line, at, instr),
        }
    }

    /// Puts the line of the instruction at an address in the place of what a line has. Its bytes are given.
    pub fn write_line(&self, at: u32, bytes: &[u8], line: &mut Line)
        requires { bytes.now ≡ spelling self.now }
        ensures { line.new ≡ instruction_line at self.now }
    {
        line.clear();
        line.push_hex(&at.to_be_bytes());
        line.push(b"  ");
        line.push_hex(bytes);
        line.push(b"  ");
        self.push_text(at, line);
        line.push(b"\n");
    }
}

/// Returns the instruction of a target that the bytes begin with, and its length.
#[tactic(auto, unfolding(crate::specs::Instructions::front))]
pub fn decode(target: Target, bytes: &[u8]) -> Option<(Instruction, u32)>
    ensures front { IfSome result (λ found. BeginsWith target bytes.now found.0 × (found.1 ≡ length (spelling found.0))) }
    ensures within { IfSome result (λ found. (0 < found.1) × (found.1 ≤ length bytes.now)) }
    ensures value { result ≡ front target bytes.now }
{
    match target {
        Target::X86_64 => decode_x86_64(bytes),
        Target::Aarch64 => decode_aarch64(bytes),
        Target::Riscv64 => decode_riscv64(bytes),
    }
}

#[tactic(auto, using(crate::proofs::SpellingLemmas::x86_some), unfolding(crate::specs::Instructions::front))]
fn decode_x86_64(bytes: &[u8]) -> Option<(Instruction, u32)>
    ensures front { IfSome result (λ found. BeginsWith Target.X86_64 bytes.now found.0 × (found.1 ≡ length (spelling found.0))) }
    ensures within { IfSome result (λ found. (0 < found.1) × (found.1 ≤ length bytes.now)) }
    ensures value { result ≡ front Target.X86_64 bytes.now }
{
    match lg_x86::decode(bytes) {
        Some((instr, length)) => Some((Instruction::X86_64(instr), length)),
        None => None,
    }
}

#[tactic(auto, unfolding(crate::specs::Instructions::front))]
fn decode_aarch64(bytes: &[u8]) -> Option<(Instruction, u32)>
    ensures front { IfSome result (λ found. BeginsWith Target.Aarch64 bytes.now found.0 × (found.1 ≡ length (spelling found.0))) }
    ensures within { IfSome result (λ found. (0 < found.1) × (found.1 ≤ length bytes.now)) }
    ensures value { result ≡ front Target.Aarch64 bytes.now }
{
    match lg_a64::decode(bytes) {
        Some((instr, length)) => Some((Instruction::Aarch64(instr), length)),
        None => None,
    }
}

#[tactic(auto, unfolding(crate::specs::Instructions::front))]
fn decode_riscv64(bytes: &[u8]) -> Option<(Instruction, u32)>
    ensures front { IfSome result (λ found. BeginsWith Target.Riscv64 bytes.now found.0 × (found.1 ≡ length (spelling found.0))) }
    ensures within { IfSome result (λ found. (0 < found.1) × (found.1 ≤ length bytes.now)) }
    ensures value { result ≡ front Target.Riscv64 bytes.now }
{
    match lg_rv::decode(bytes) {
        Some((instr, length)) => Some((Instruction::Riscv64(instr), length)),
        None => None,
    }
}
