// The AArch64 processor.

ghost use Rattle.std.specs.Prelude.{◌≡◌, ◌<◌, ◌≤◌, ◌⊎◌, slice_index};
ghost use Rattle.lg_cpu.specs.A64Step.{scaled_width};
ghost use Rattle.lg_cpu.specs.A64Operators.{condition_holds, carry_word, borrow_word, sum_of, difference_of, sum_flags, difference_flags, result_flags};

mod fields;
mod flags;
mod host;
mod lazy_flags;
mod operators;
mod start;

use self::fields::bitfield_value;
use self::flags::{difference_flags, difference_of, sum_flags, sum_of};
use self::lazy_flags::LazyFlags;
use self::operators::{
    csinc_value, imm_number, mul_add_value, plain_value, reverse_value, wide_value,
};
use crate::answer::CpuStep;
use crate::board::{Board, STOP};
use crate::decode_cache::{Decodable, DecodeCache, copied};
use lg_a64::{BranchOp, BranchRegOp, Cond, ImmOp, Instr, RegOp, ScaledOp, UnscaledOp, decode};
use lg_base::number::sign_extended;
use lg_base::wide::sign_part;
use lg_base::{FaultKind, Flags};

/// The program counter, the registers with the stack pointer, 31, the flags, and what the processor works on.
#[derive(Drop)]
pub struct Aarch64 {
    pub(crate) pc: u64,
    pub(crate) registers: [u64; 32],
    pub(crate) flags: LazyFlags,
    pub(crate) code: DecodeCache<Instr>,
    pub(crate) board: Board,
}

// Returns how many bytes a load or store moves.
fn scaled_width(op: ScaledOp) -> u64
    ensures width { result ≡ scaled_width op }
    ensures known { result ≤ 8 }
{
    match op {
        ScaledOp::Ldr64 | ScaledOp::Str64 => 8,
        ScaledOp::Ldr32 | ScaledOp::Ldrs32 | ScaledOp::Str32 => 4,
        ScaledOp::Ldr16 | ScaledOp::Ldrs16 | ScaledOp::Str16 => 2,
        ScaledOp::Ldr8 | ScaledOp::Ldrs8 | ScaledOp::Str8 => 1,
    }
}

impl Decodable for Instr {
    ghost use Rattle.std.specs.Prelude.{◌%◌, ◌/◌, ◌==◌, true};
    ghost use Rattle.lg_a64.specs.Spelling.{IsInstr};
    ghost use Rattle.lg_a64.specs.Reading.{front_of};

    ghost front = { front_of };

    ghost valid = { IsInstr };

    ghost aligned = { λ pc. pc % 4 == 0 };

    ghost slot = { λ pc. pc / 4 % 4096 };

    fn placeholder() -> Self {
        Instr::Nop
    }

    #[inline(always)]
    fn slot_of(pc: u64) -> usize {
        (pc / 4 % 4096) as usize
    }

    fn is_aligned(pc: u64) -> bool {
        pc % 4 == 0
    }

    #[inline(always)]
    fn copied(&self) -> Self {
        copied!(
            self,
            Reg { op, rd, rn, rm },
            Imm {
                op,
                rd,
                rn,
                imm,
                shifted
            },
            Wide { op, rd, imm, hw },
            MulAdd { op, rd, rn, rm, ra },
            Bitfield {
                op,
                rd,
                rn,
                immr,
                imms
            },
            Csinc { rd, rn, rm, cond },
            Reverse { op, rd, rn },
            Scaled { op, rt, rn, imm },
            Ldrx { rt, rn, rm },
            Unscaled { op, rt, rn, imm },
            Branch { op, words },
            BranchIf { cond, words },
            BranchReg { op, rn },
            Nop
        )
    }

    #[inline(always)]
    fn decode(bytes: &[u8]) -> Option<(Self, u32)> {
        decode(bytes)
    }
}

impl Aarch64 {
    ghost use Rattle.lg_a64.specs.Reading.{front_of};
    ghost use Rattle.lg_cpu.specs.Decodings.{IsDecodedAt};
    ghost use Rattle.std.specs.Prelude.{◌%◌, ◌==◌};
    ghost use Rattle.lg_base.specs.Fields.{word_of};
    ghost use Rattle.lg_a64.specs.Spelling.{IsInstr};
    ghost use Rattle.lg_base.specs.Layout.{code_base};
    ghost use Rattle.lg_base.specs.Words.{add_words, sub_words};
    ghost use Rattle.lg_cpu.specs.A64Step.{read, write, computes, sets, sets_both, load_at, store_at, link_to, branch_to};
    ghost use Rattle.lg_cpu.specs.A64Step.{reg_effect, imm_effect, scaled_effect, unscaled_effect, branch_effect, branch_reg_effect};
    ghost use Rattle.lg_cpu.specs.A64Step.{away, act, fetch};
    ghost use Rattle.std.specs.Prelude.{true, false};
    ghost use Rattle.lg_cpu.specs.HostSteps.{put};
    ghost use Rattle.lg_cpu.specs.States.{goes_on};
    ghost use Rattle.lg_cpu.specs.Machines.{a64_state, a64_inner, Does};
    ghost use Rattle.lg_cpu.specs.A64Groups.{is_rest};

    // What a register reads as where it is no stack pointer.
    pub(crate) fn read(&self, register: u8) -> u64
        requires { register < 32 }
        ensures { result ≡ read (slice_index self.now.registers) register }
    {
        if register == 31 {
            0
        } else {
            self.registers[register as usize]
        }
    }

    // Writes a register where it is no stack pointer.
    #[inline(always)]
    fn write(&mut self, register: u8, value: u64)
        requires { register < 32 }
        ensures { a64_inner self.new ≡ record (a64_inner self.old) {
          state = record (a64_state self.old) { registers = write (a64_state self.old).registers register value };
        } }
    {
        if register != 31 {
            self.registers[register as usize] = value;
        }
    }

    // Goes on at an address.
    #[inline(always)]
    pub(crate) fn go(&mut self, pc: u64) -> CpuStep
        ensures { Does (goes_on (a64_state self.old) pc) (a64_inner self.old) (a64_inner self.new) result }
    {
        self.pc = pc;
        if pc == STOP {
            CpuStep::Ended(0)
        } else {
            CpuStep::Went
        }
    }

    // Goes on at the next instruction, which is never at the stop address: that is below the code.
    #[inline(always)]
    fn next(&mut self) -> CpuStep
        requires { code_base ≤ self.old.pc }
        ensures { Does (goes_on (a64_state self.old) (add_words self.old.pc 4)) (a64_inner self.old) (a64_inner self.new) result }
    {
        self.pc = self.pc.wrapping_add(4);
        CpuStep::Went
    }

    // Writes a register, and goes on at the next instruction.
    #[inline(always)]
    fn set(&mut self, register: u8, value: u64) -> CpuStep
        requires inside { code_base ≤ self.old.pc }
        requires register { register < 32 }
        ensures { Does (sets (a64_state self.old) register value) (a64_inner self.old) (a64_inner self.new) result }
    {
        self.write(register, value);
        self.next()
    }

    // Writes a register and the flags, and goes on at the next instruction.
    #[inline(always)]
    fn set_with(&mut self, register: u8, value: u64, flags: Flags) -> CpuStep
        requires inside { code_base ≤ self.old.pc }
        requires register { register < 32 }
        ensures { Does (sets_both (a64_state self.old) register value flags) (a64_inner self.old) (a64_inner self.new) result }
    {
        self.write(register, value);
        self.flags.set(flags);
        self.next()
    }

    // Writes a register, the stack pointer too, and goes on at the next instruction.
    #[inline(always)]
    fn set_stack(&mut self, register: u8, value: u64) -> CpuStep
        requires inside { code_base ≤ self.old.pc }
        requires register { register < 32 }
        ensures { Does (computes (a64_state self.old) (put (a64_state self.old).registers register value) (a64_state self.old).flags)
            (a64_inner self.old) (a64_inner self.new) result }
    {
        self.registers[register as usize] = value;
        self.next()
    }

    // Writes a sum, and the flags by it.
    #[inline(always)]
    fn set_sum(&mut self, register: u8, a: u64, b: u64) -> CpuStep
        requires inside { code_base ≤ self.old.pc }
        requires register { register < 32 }
        ensures { Does (sets_both (a64_state self.old) register (add_words a b) (sum_flags a b 0)) (a64_inner self.old) (a64_inner self.new) result }
    {
        self.write(register, a.wrapping_add(b));
        self.flags.set_sum(a, b);
        self.next()
    }

    // Writes a difference, and the flags by it.
    #[inline(always)]
    fn set_difference(&mut self, register: u8, a: u64, b: u64) -> CpuStep
        requires inside { code_base ≤ self.old.pc }
        requires register { register < 32 }
        ensures { Does (sets_both (a64_state self.old) register (sub_words a b) (difference_flags a b 0)) (a64_inner self.old) (a64_inner self.new) result }
    {
        self.write(register, a.wrapping_sub(b));
        self.flags.set_difference(a, b);
        self.next()
    }

    // Returns whether a condition holds.
    #[inline(always)]
    fn holds(&self, cond: Cond) -> bool
        ensures { result ≡ condition_holds cond (a64_state self.now).flags }
    {
        self.flags.holds(cond)
    }

    // C as a word: 0 or 1.
    #[inline(always)]
    fn carry_word(&self) -> u64
        ensures word { result ≡ carry_word (a64_state self.now).flags }
        ensures small { result ≤ 1 }
    {
        u64::from(self.flags.carry())
    }

    // C turned, the borrow, as a word: 0 or 1.
    #[inline(always)]
    fn borrow_word(&self) -> u64
        ensures word { result ≡ borrow_word (a64_state self.now).flags }
        ensures small { result ≤ 1 }
    {
        u64::from(!self.flags.carry())
    }

    // Writes a sum with a carry of 0 or 1, and the flags by it.
    #[inline(always)]
    fn add_carry(&mut self, register: u8, a: u64, b: u64, carry: u64) -> CpuStep
        requires inside { code_base ≤ self.old.pc }
        requires register { register < 32 }
        requires carry { carry ≤ 1 }
        ensures { Does (sets_both (a64_state self.old) register (sum_of a b carry) (sum_flags a b carry)) (a64_inner self.old) (a64_inner self.new) result }
    {
        self.set_with(register, sum_of(a, b, carry), sum_flags(a, b, carry))
    }

    // Writes a difference with a borrow of 0 or 1, and the flags by it.
    #[inline(always)]
    fn subtract_borrow(&mut self, register: u8, a: u64, b: u64, borrow: u64) -> CpuStep
        requires inside { code_base ≤ self.old.pc }
        requires register { register < 32 }
        requires borrow { borrow ≤ 1 }
        ensures { Does (sets_both (a64_state self.old) register (difference_of a b borrow) (difference_flags a b borrow))
            (a64_inner self.old) (a64_inner self.new) result }
    {
        self.set_with(
            register,
            difference_of(a, b, borrow),
            difference_flags(a, b, borrow),
        )
    }

    // Writes bits, and the flags by them.
    #[inline(always)]
    fn set_bits(&mut self, register: u8, bits: u64) -> CpuStep
        requires inside { code_base ≤ self.old.pc }
        requires register { register < 32 }
        ensures { Does (sets_both (a64_state self.old) register bits (result_flags bits false false)) (a64_inner self.old) (a64_inner self.new) result }
    {
        self.write(register, bits);
        self.flags.set_bits(bits);
        self.next()
    }

    // Loads this many bytes, extended by their sign or with zeros.
    #[inline(always)]
    fn load(&mut self, register: u8, address: u64, width: u32, signed: bool) -> CpuStep
        requires inside { code_base ≤ self.old.pc }
        requires register { register < 32 }
        requires width { (width ≡ 1) ⊎ (width ≡ 2) ⊎ (width ≡ 4) ⊎ (width ≡ 8) }
        ensures { Does (load_at (a64_state self.old) register address width signed) (a64_inner self.old) (a64_inner self.new) result }
    {
        match self.board.memory.load(address, width) {
            Some(value) => {
                let value = if signed {
                    sign_part(value, width)
                } else {
                    value
                };
                self.set(register, value)
            }
            None => CpuStep::Fault(FaultKind::Memory),
        }
    }

    // Stores the low bytes of a word.
    #[inline(always)]
    fn store(&mut self, address: u64, width: u32, value: u64) -> CpuStep
        requires inside { code_base ≤ self.old.pc }
        requires width { (width ≡ 1) ⊎ (width ≡ 2) ⊎ (width ≡ 4) ⊎ (width ≡ 8) }
        ensures { Does (store_at (a64_state self.old) address width value) (a64_inner self.old) (a64_inner self.new) result }
    {
        if self.board.memory.store(address, width, value) {
            self.next()
        } else {
            CpuStep::Fault(FaultKind::Memory)
        }
    }

    // Jumps, and links.
    #[inline(always)]
    fn link(&mut self, target: u64) -> CpuStep
        ensures { Does (link_to (a64_state self.old) target) (a64_inner self.old) (a64_inner self.new) result }
    {
        self.registers[30] = self.pc.wrapping_add(4);
        self.go(target)
    }

    // Returns the address this many words away.
    #[inline(always)]
    fn away(&self, words: i32) -> u64
        ensures { result ≡ away (a64_state self.now).pc (word_of words) }
    {
        self.pc.wrapping_add(sign_extended(words).wrapping_mul(4))
    }

    // Adds or subtracts a number.
    #[inline(always)]
    fn act_imm(&mut self, op: ImmOp, rd: u8, a: u64, n: u64) -> CpuStep
        requires inside { code_base ≤ self.old.pc }
        requires register { rd < 32 }
        ensures { Does (imm_effect op rd a n (a64_state self.old)) (a64_inner self.old) (a64_inner self.new) result }
    {
        match op {
            ImmOp::Addi => self.set_stack(rd, a.wrapping_add(n)),
            ImmOp::Subi => self.set_stack(rd, a.wrapping_sub(n)),
            ImmOp::Addsi => self.set_sum(rd, a, n),
            ImmOp::Subsi => self.set_difference(rd, a, n),
        }
    }

    // Loads or stores at an address.
    #[inline(always)]
    fn act_scaled(&mut self, op: ScaledOp, rt: u8, a: u64) -> CpuStep
        requires inside { code_base ≤ self.old.pc }
        requires register { rt < 32 }
        ensures { Does (scaled_effect op rt a (a64_state self.old)) (a64_inner self.old) (a64_inner self.new) result }
    {
        match op {
            ScaledOp::Ldr64 => self.load(rt, a, 8, false),
            ScaledOp::Str64 => self.store(a, 8, self.read(rt)),
            ScaledOp::Ldr32 => self.load(rt, a, 4, false),
            ScaledOp::Ldrs32 => self.load(rt, a, 4, true),
            ScaledOp::Str32 => self.store(a, 4, self.read(rt)),
            ScaledOp::Ldr16 => self.load(rt, a, 2, false),
            ScaledOp::Ldrs16 => self.load(rt, a, 2, true),
            ScaledOp::Str16 => self.store(a, 2, self.read(rt)),
            ScaledOp::Ldr8 => self.load(rt, a, 1, false),
            ScaledOp::Ldrs8 => self.load(rt, a, 1, true),
            ScaledOp::Str8 => self.store(a, 1, self.read(rt)),
        }
    }

    #[inline(always)]
    fn act_unscaled(&mut self, op: UnscaledOp, rt: u8, a: u64) -> CpuStep
        requires inside { code_base ≤ self.old.pc }
        requires register { rt < 32 }
        ensures { Does (unscaled_effect op rt a (a64_state self.old)) (a64_inner self.old) (a64_inner self.new) result }
    {
        match op {
            UnscaledOp::Ldur => self.load(rt, a, 8, false),
            UnscaledOp::Stur => self.store(a, 8, self.read(rt)),
        }
    }

    // Jumps to an address.
    #[inline(always)]
    fn act_branch(&mut self, op: BranchOp, target: u64) -> CpuStep
        ensures { Does (branch_effect op target (a64_state self.old)) (a64_inner self.old) (a64_inner self.new) result }
    {
        match op {
            BranchOp::B => self.go(target),
            BranchOp::Bl => self.link(target),
        }
    }

    #[inline(always)]
    fn act_branch_reg(&mut self, op: BranchRegOp, target: u64) -> CpuStep
        ensures { Does (branch_reg_effect op target (a64_state self.old)) (a64_inner self.old) (a64_inner self.new) result }
    {
        match op {
            BranchRegOp::Br => self.go(target),
            BranchRegOp::Blr => self.link(target),
            BranchRegOp::Ret => self.go(target),
        }
    }

    // Computes a word and the flags from two.
    #[inline(always)]
    fn act_reg(&mut self, op: RegOp, rd: u8, a: u64, b: u64) -> CpuStep
        requires inside { code_base ≤ self.old.pc }
        requires register { rd < 32 }
        ensures { Does (reg_effect op rd a b (a64_state self.old)) (a64_inner self.old) (a64_inner self.new) result }
    {
        match op {
            RegOp::Add => self.set(rd, a.wrapping_add(b)),
            RegOp::Sub => self.set(rd, a.wrapping_sub(b)),
            RegOp::And => self.set(rd, a & b),
            RegOp::Orr => self.set(rd, a | b),
            RegOp::Eor => self.set(rd, a ^ b),
            RegOp::Adds => self.set_sum(rd, a, b),
            RegOp::Subs => self.set_difference(rd, a, b),
            RegOp::Ands => self.set_bits(rd, a & b),
            RegOp::Adc => self.set(rd, sum_of(a, b, self.carry_word())),
            RegOp::Adcs => self.add_carry(rd, a, b, self.carry_word()),
            RegOp::Sbc => self.set(rd, difference_of(a, b, self.borrow_word())),
            RegOp::Sbcs => self.subtract_borrow(rd, a, b, self.borrow_word()),
            _ => self.set(rd, plain_value(op, a, b)),
        }
    }

    // Branches where a condition holds.
    #[inline(always)]
    fn act_branch_if(&mut self, holds: bool, target: u64) -> CpuStep
        requires inside { code_base ≤ self.old.pc }
        ensures { Does (branch_to (a64_state self.old) holds target) (a64_inner self.old) (a64_inner self.new) result }
    {
        if holds { self.go(target) } else { self.next() }
    }

    // Executes an instruction, here one that makes a register of registers and numbers.
    #[inline(always)]
    fn act(&mut self, instr: Instr) -> CpuStep
        requires inside { code_base ≤ self.old.pc }
        requires valid { IsInstr instr }
        ensures { Does (act instr (a64_state self.old)) (a64_inner self.old) (a64_inner self.new) result }
    {
        match instr {
            Instr::Reg { op, rd, rn, rm } => self.act_reg(op, rd, self.read(rn), self.read(rm)),
            Instr::Imm {
                op,
                rd,
                rn,
                imm,
                shifted,
            } => self.act_imm(
                op,
                rd,
                self.registers[rn as usize],
                imm_number(imm, shifted),
            ),
            Instr::Wide { op, rd, imm, hw } => {
                self.set(rd, wide_value(op, self.read(rd), u64::from(imm), hw))
            }
            Instr::MulAdd { op, rd, rn, rm, ra } => self.set(
                rd,
                mul_add_value(op, self.read(rn), self.read(rm), self.read(ra)),
            ),
            Instr::Bitfield {
                op,
                rd,
                rn,
                immr,
                imms,
            } => self.set(rd, bitfield_value(op, self.read(rn), immr, imms)),
            Instr::Csinc { rd, rn, rm, cond } => self.set(
                rd,
                csinc_value(self.holds(cond), self.read(rn), self.read(rm)),
            ),
            Instr::Reverse { op, rd, rn } => self.set(rd, reverse_value(op, self.read(rn))),
            other => self.act_rest(other),
        }
    }

    // Executes any other instruction: a load, a store, a branch or `nop`.
    #[inline(always)]
    fn act_rest(&mut self, instr: Instr) -> CpuStep
        requires inside { code_base ≤ self.old.pc }
        requires fits { IsInstr instr }
        requires rest { is_rest instr ≡ true }
        ensures { Does (act instr (a64_state self.old)) (a64_inner self.old) (a64_inner self.new) result }
    {
        match instr {
            Instr::Scaled { op, rt, rn, imm } => self.act_scaled(
                op,
                rt,
                self.registers[rn as usize].wrapping_add(u64::from(imm) * scaled_width(op)),
            ),
            Instr::Ldrx { rt, rn, rm } => self.load(
                rt,
                self.registers[rn as usize].wrapping_add(self.read(rm)),
                8,
                false,
            ),
            Instr::Unscaled { op, rt, rn, imm } => self.act_unscaled(
                op,
                rt,
                self.registers[rn as usize].wrapping_add(sign_extended(imm)),
            ),
            Instr::Branch { op, words } => self.act_branch(op, self.away(words)),
            Instr::BranchIf { cond, words } => {
                self.act_branch_if(self.holds(cond), self.away(words))
            }
            Instr::BranchReg { op, rn } => self.act_branch_reg(op, self.read(rn)),
            Instr::Nop => self.next(),
            _ => CpuStep::Fault(FaultKind::Decode),
        }
    }

    // Executes the instruction that is read at the program counter.
    #[inline(always)]
    pub(crate) fn execute(&mut self, instr: Instr, len: u32) -> CpuStep
        requires { IsDecodedAt front_of IsInstr (λ pc. pc % 4 == 0) self.old.code self.old.pc instr len }
        ensures { Does (fetch self.old.code (a64_state self.old)) (a64_inner self.old) (a64_inner self.new) result }
    {
        let _ = len;
        self.act(instr)
    }
}
