// The RV64IM processor.

ghost use Rattle.std.specs.Prelude.{◌≡◌, ◌<◌, ◌≤◌, ◌⊎◌, slice_index};
ghost use Rattle.lg_cpu.specs.RvStep.{store_width};

mod host;
mod operators;
mod start;

use self::operators::{is_taken, reg_value, shift_value};
use crate::answer::CpuStep;
use crate::board::{Board, STOP};
use crate::decode_cache::{Decodable, DecodeCache, copied};
use lg_base::FaultKind;
use lg_base::number::sign_extended;
use lg_base::wide::sign_part;
use lg_base::word::sign_extend_32;
use lg_rv::{ImmOp, Instr, RegOp, StoreOp, UpperOp, decode};

/// The program counter and the registers, and what the processor works on.
#[derive(Drop)]
pub struct Riscv64 {
    pub(crate) pc: u64,
    pub(crate) registers: [u64; 32],
    pub(crate) code: DecodeCache<Instr>,
    pub(crate) board: Board,
}

// Returns how many bytes a store writes.
fn store_width(op: StoreOp) -> u32
    ensures width { result ≡ store_width op }
    ensures known { (result ≡ 1) ⊎ (result ≡ 2) ⊎ (result ≡ 4) ⊎ (result ≡ 8) }
{
    match op {
        StoreOp::Sb => 1,
        StoreOp::Sh => 2,
        StoreOp::Sw => 4,
        StoreOp::Sd => 8,
    }
}

impl Decodable for Instr {
    ghost use Rattle.std.specs.Prelude.{◌%◌, ◌/◌, ◌==◌, true};
    ghost use Rattle.lg_rv.specs.Spelling.{IsInstr};
    ghost use Rattle.lg_rv.specs.Reading.{front_of};

    ghost front = { front_of };

    ghost valid = { IsInstr };

    ghost aligned = { λ pc. pc % 4 == 0 };

    ghost slot = { λ pc. pc / 4 % 4096 };

    fn placeholder() -> Self {
        Instr::Jal { rd: 0, offset: 0 }
    }

    #[inline(always)]
    fn slot_of(pc: u64) -> usize {
        (pc / 4 % 4096) as usize
    }

    fn is_aligned(pc: u64) -> bool {
        pc % 4 == 0
    }

    #[inline(always)]
    fn copied(&self) -> Self {
        copied!(
            self,
            Upper { op, rd, imm },
            Jal { rd, offset },
            Branch {
                op,
                rs1,
                rs2,
                offset
            },
            Imm { op, rd, rs1, imm },
            Shift {
                op,
                rd,
                rs1,
                amount
            },
            Store { op, rs1, rs2, imm },
            Reg { op, rd, rs1, rs2 }
        )
    }

    #[inline(always)]
    fn decode(bytes: &[u8]) -> Option<(Self, u32)> {
        decode(bytes)
    }
}

impl Riscv64 {
    ghost use Rattle.lg_rv.specs.Reading.{front_of};
    ghost use Rattle.lg_cpu.specs.Decodings.{IsDecodedAt};
    ghost use Rattle.std.specs.Prelude.{◌%◌, ◌==◌};
    ghost use Rattle.lg_rv.specs.Spelling.{IsInstr};
    ghost use Rattle.lg_base.specs.Layout.{code_base};
    ghost use Rattle.lg_base.specs.Words.{add_words};
    ghost use Rattle.lg_cpu.specs.RvStep.{read, sets, load_at, store_at, jump_to, branch_to, imm_effect, act, fetch};
    ghost use Rattle.std.specs.Prelude.{true};
    ghost use Rattle.lg_cpu.specs.States.{goes_on};
    ghost use Rattle.lg_cpu.specs.Machines.{rv_state, rv_inner, Does};

    // What a register reads as.
    pub(crate) fn read(&self, register: u8) -> u64
        requires { register < 32 }
        ensures { result ≡ read (slice_index self.now.registers) register }
    {
        if register == 0 {
            0
        } else {
            self.registers[register as usize]
        }
    }

    // Goes on at an address.
    #[inline(always)]
    pub(crate) fn go(&mut self, pc: u64) -> CpuStep
        ensures { Does (goes_on (rv_state self.old) pc) (rv_inner self.old) (rv_inner self.new) result }
    {
        self.pc = pc;
        if pc == STOP {
            CpuStep::Ended(0)
        } else {
            CpuStep::Went
        }
    }

    // Goes on at the next instruction, which is never at the stop address: that is below the code.
    #[inline(always)]
    fn next(&mut self) -> CpuStep
        requires { code_base ≤ self.old.pc }
        ensures { Does (goes_on (rv_state self.old) (add_words self.old.pc 4)) (rv_inner self.old) (rv_inner self.new) result }
    {
        self.pc = self.pc.wrapping_add(4);
        CpuStep::Went
    }

    // Sets a register, and goes on at the next instruction.
    #[inline(always)]
    fn set(&mut self, register: u8, value: u64) -> CpuStep
        requires inside { code_base ≤ self.old.pc }
        requires register { register < 32 }
        ensures { Does (sets (rv_state self.old) register value) (rv_inner self.old) (rv_inner self.new) result }
    {
        self.registers[register as usize] = value;
        self.next()
    }

    // Loads this many bytes, extended by their sign or with zeros.
    #[inline(always)]
    fn load(&mut self, register: u8, address: u64, width: u32, signed: bool) -> CpuStep
        requires inside { code_base ≤ self.old.pc }
        requires register { register < 32 }
        requires width { (width ≡ 1) ⊎ (width ≡ 2) ⊎ (width ≡ 4) ⊎ (width ≡ 8) }
        ensures { Does (load_at (rv_state self.old) register address width signed) (rv_inner self.old) (rv_inner self.new) result }
    {
        if address % u64::from(width) != 0 {
            return CpuStep::Fault(FaultKind::Align);
        }
        match self.board.memory.load(address, width) {
            Some(value) => {
                let value = if signed {
                    sign_part(value, width)
                } else {
                    value
                };
                self.set(register, value)
            }
            None => CpuStep::Fault(FaultKind::Memory),
        }
    }

    // Stores the low bytes of a word.
    #[inline(always)]
    fn store(&mut self, address: u64, width: u32, value: u64) -> CpuStep
        requires inside { code_base ≤ self.old.pc }
        requires width { (width ≡ 1) ⊎ (width ≡ 2) ⊎ (width ≡ 4) ⊎ (width ≡ 8) }
        ensures { Does (store_at (rv_state self.old) address width value) (rv_inner self.old) (rv_inner self.new) result }
    {
        if address % u64::from(width) != 0 {
            return CpuStep::Fault(FaultKind::Align);
        }
        if self.board.memory.store(address, width, value) {
            self.next()
        } else {
            CpuStep::Fault(FaultKind::Memory)
        }
    }

    // Jumps, and links.
    #[inline(always)]
    fn jump(&mut self, link: u8, target: u64) -> CpuStep
        requires { link < 32 }
        ensures { Does (jump_to (rv_state self.old) link target) (rv_inner self.old) (rv_inner self.new) result }
    {
        if target % 4 != 0 {
            return CpuStep::Fault(FaultKind::Align);
        }
        self.registers[link as usize] = self.pc.wrapping_add(4);
        self.go(target)
    }

    // Branches.
    #[inline(always)]
    fn branch(&mut self, target: u64, taken: bool) -> CpuStep
        requires inside { code_base ≤ self.old.pc }
        ensures { Does (branch_to (rv_state self.old) target taken) (rv_inner self.old) (rv_inner self.new) result }
    {
        if !taken {
            return self.next();
        }
        if target % 4 != 0 {
            return CpuStep::Fault(FaultKind::Align);
        }
        self.go(target)
    }

    // Executes an instruction with a number of 12 bits.
    #[inline(always)]
    fn act_imm(&mut self, op: ImmOp, rd: u8, a: u64, n: u64) -> CpuStep
        requires inside { code_base ≤ self.old.pc }
        requires register { rd < 32 }
        ensures { Does (imm_effect op rd a n (rv_state self.old)) (rv_inner self.old) (rv_inner self.new) result }
    {
        let sum = a.wrapping_add(n);
        match op {
            ImmOp::Jalr => self.jump(rd, sum / 2 * 2),
            ImmOp::Lb => self.load(rd, sum, 1, true),
            ImmOp::Lh => self.load(rd, sum, 2, true),
            ImmOp::Lw => self.load(rd, sum, 4, true),
            ImmOp::Ld => self.load(rd, sum, 8, false),
            ImmOp::Lbu => self.load(rd, sum, 1, false),
            ImmOp::Lhu => self.load(rd, sum, 2, false),
            ImmOp::Lwu => self.load(rd, sum, 4, false),
            ImmOp::Addi => self.set(rd, sum),
            ImmOp::Slti => self.set(rd, reg_value(RegOp::Slt, a, n)),
            ImmOp::Sltiu => self.set(rd, reg_value(RegOp::Sltu, a, n)),
            ImmOp::Xori => self.set(rd, a ^ n),
            ImmOp::Ori => self.set(rd, a | n),
            ImmOp::Andi => self.set(rd, a & n),
            ImmOp::Addiw => self.set(rd, sign_extend_32(sum)),
        }
    }

    // Executes an instruction with a number of 20 bits.
    #[inline(always)]
    fn act_upper(&mut self, op: UpperOp, rd: u8, imm: u32) -> CpuStep
        requires inside { code_base ≤ self.old.pc }
        requires valid { IsInstr (Instr.Upper op rd imm) }
        ensures { Does (act (Instr.Upper op rd imm) (rv_state self.old)) (rv_inner self.old) (rv_inner self.new) result }
    {
        let upper = sign_extend_32(u64::from(imm) * 4096);
        match op {
            UpperOp::Lui => self.set(rd, upper),
            UpperOp::Auipc => self.set(rd, self.pc.wrapping_add(upper)),
        }
    }

    // Executes an instruction.
    #[inline(always)]
    fn act(&mut self, instr: Instr) -> CpuStep
        requires inside { code_base ≤ self.old.pc }
        requires valid { IsInstr instr }
        ensures { Does (act instr (rv_state self.old)) (rv_inner self.old) (rv_inner self.new) result }
    {
        match instr {
            Instr::Upper { op, rd, imm } => self.act_upper(op, rd, imm),
            Instr::Jal { rd, offset } => self.jump(rd, self.pc.wrapping_add(sign_extended(offset))),
            Instr::Branch {
                op,
                rs1,
                rs2,
                offset,
            } => self.branch(
                self.pc.wrapping_add(sign_extended(offset)),
                is_taken(op, self.read(rs1), self.read(rs2)),
            ),
            Instr::Imm { op, rd, rs1, imm } => {
                self.act_imm(op, rd, self.read(rs1), sign_extended(imm))
            }
            Instr::Shift {
                op,
                rd,
                rs1,
                amount,
            } => self.set(rd, shift_value(op, self.read(rs1), amount)),
            Instr::Store { op, rs1, rs2, imm } => self.store(
                self.read(rs1).wrapping_add(sign_extended(imm)),
                store_width(op),
                self.read(rs2),
            ),
            Instr::Reg { op, rd, rs1, rs2 } => {
                self.set(rd, reg_value(op, self.read(rs1), self.read(rs2)))
            }
        }
    }

    // Executes the instruction that is read at the program counter.
    #[inline(always)]
    pub(crate) fn execute(&mut self, instr: Instr, len: u32) -> CpuStep
        requires { IsDecodedAt front_of IsInstr (λ pc. pc % 4 == 0) self.old.code self.old.pc instr len }
        ensures { Does (fetch self.old.code (rv_state self.old)) (rv_inner self.old) (rv_inner self.new) result }
    {
        let _ = len;
        self.act(instr)
    }
}
