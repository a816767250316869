// The x86-64 processor.

ghost use Rattle.std.specs.Prelude.{◌≡◌, ◌≢◌, ◌<◌, ◌⊎◌, ◌+◌, nat_lt, slice_index};
ghost use Rattle.lg_cpu.specs.Loads.{extended_by};
ghost use Rattle.lg_cpu.specs.X86Step.{store_width, load_width, load_value};

mod flags;
mod host;
mod lazy_flags;
mod operators;
mod start;

use self::flags::{
    difference_flags, negation_flags, no_flags, product_flags, shift_flags, sum_flags,
};
use self::lazy_flags::LazyFlags;
use self::operators::{
    alu_of, alu_value, high_signed, needs_high, needs_high_signed, reg_rm_value, shift_value,
    sign_word,
};
use crate::answer::CpuStep;
use crate::board::{Board, STOP};
use crate::decode_cache::{Decodable, DecodeCache, copied};
use lg_base::number::sign_extended;
use lg_base::wide::{div_wide_u, div_wide_words, mul_high_u, sign_part, swap_bytes};
use lg_base::{FaultKind, Flags};
use lg_x86::{
    BareOp, Cond, Instr, JumpNearOp, JumpRegOp, LoadOp, RegRmOp, RmRegOp, ShiftOp, StackOp,
    StoreOp, UnaryOp, decode,
};

/// The program counter, the registers and the flags, and what the processor works on.
#[derive(Drop)]
pub struct X86_64 {
    pub pc: u64,
    pub(crate) registers: [u64; 16],
    pub(crate) flags: LazyFlags,
    pub(crate) code: DecodeCache<Instr>,
    pub(crate) board: Board,
}

fn store_width(op: StoreOp) -> u32
    ensures width { result ≡ store_width op }
    ensures known { (result ≡ 1) ⊎ (result ≡ 2) ⊎ (result ≡ 4) ⊎ (result ≡ 8) }
{
    match op {
        StoreOp::St64 => 8,
        StoreOp::St32 => 4,
        StoreOp::St16 => 2,
        StoreOp::St8 => 1,
    }
}

// Returns the number in this many bytes, extended by its sign or with zeros.
fn extended(value: u64, width: u32, signed: bool) -> u64
    requires { (width ≡ 1) ⊎ (width ≡ 2) ⊎ (width ≡ 4) ⊎ (width ≡ 8) }
    ensures { result ≡ extended_by signed width value }
{
    if signed {
        sign_part(value, width)
    } else {
        value
    }
}

impl Decodable for Instr {
    ghost use Rattle.std.specs.Prelude.{◌%◌, ◌/◌, ◌==◌, true};
    ghost use Rattle.lg_x86.specs.Spelling.{IsInstr};
    ghost use Rattle.lg_x86.specs.Reading.{front_of};

    ghost front = { front_of };

    ghost valid = { IsInstr };

    ghost aligned = { λ pc. true };

    ghost slot = { λ pc. pc % 4096 };

    fn placeholder() -> Self {
        Instr::Bare { op: BareOp::Nop }
    }

    #[inline(always)]
    fn slot_of(pc: u64) -> usize {
        (pc % 4096) as usize
    }

    fn is_aligned(pc: u64) -> bool {
        let _ = pc;
        true
    }

    #[inline(always)]
    fn copied(&self) -> Self {
        copied!(
            self,
            RmReg { op, rm, reg },
            Imm { op, rm, imm },
            RegRm { op, reg, rm },
            Load {
                op,
                reg,
                base,
                disp
            },
            Store {
                op,
                base,
                disp,
                reg
            },
            Lea2 { reg, base, index },
            Movi32 { reg, imm },
            Movs32 { rm, imm },
            Movi64 { reg, imm },
            Unary { op, rm },
            Shift { op, rm, count },
            Bswap { reg },
            Stack { op, reg },
            JumpIfShort { cond, distance },
            JumpIfNear { cond, distance },
            Set { cond, rm },
            JumpShort { distance },
            JumpNear { op, distance },
            JumpReg { op, rm },
            Bare { op }
        )
    }

    fn decode(bytes: &[u8]) -> Option<(Self, u32)> {
        decode(bytes)
    }
}

impl X86_64 {
    ghost use Rattle.lg_x86.specs.Reading.{front_of};
    ghost use Rattle.lg_cpu.specs.Decodings.{IsDecodedAt};
    ghost use Rattle.std.specs.Prelude.{◌%◌, ◌==◌};
    ghost use Rattle.std.specs.Prelude.{ℕ, true, Some, None, if◌then◌else◌};
    ghost use Rattle.lg_base.specs.Fields.{word_of};
    ghost use Rattle.lg_base.specs.Layout.{stop_address};
    ghost use Rattle.lg_base.specs.Spaces.{loaded};
    ghost use Rattle.lg_base.specs.Wide.{quotient_wide, quotient_wide_signed};
    ghost use Rattle.lg_base.specs.Words.{add_words, sub_words};
    ghost use Rattle.lg_base.specs.declared.fault.FaultKind.{FaultKind};
    ghost use Rattle.lg_x86.specs.Spelling.{IsInstr};
    ghost use Rattle.lg_x86.specs.declared.instruction.Instr.{Instr};
    ghost use Rattle.lg_cpu.specs.States.{goes_on};
    ghost use Rattle.lg_cpu.specs.X86Operators.{bit, bit_flags, condition_holds, difference_flags, sum_flags};
    ghost use Rattle.lg_x86.specs.declared.instruction.RmRegOp.{RmRegOp};
    ghost use Rattle.lg_cpu.specs.X86Step.{with_register, with_flags, with_wide, combined_with, combined, loads, sets_loaded, stores};
    ghost use Rattle.lg_cpu.specs.X86Step.{shifted, sets_quotient, one_register};
    ghost use Rattle.lg_cpu.specs.X86Step.{pops, pushes, sets_byte, goes_where, returns, does, fetch};
    ghost use Rattle.lg_cpu.specs.Machines as machines;
    ghost use Rattle.lg_cpu.specs.Machines.{x86_scene, x86_state, x86_inner, with_state, Does, Leads, Makes};
    ghost use Rattle.lg_cpu.specs.X86Groups.{is_rest};

    // What a register reads as; there are 16.
    pub(crate) fn register(&self, number: u8) -> u64
        ensures { result ≡ slice_index self.now.registers number }
    {
        if number < 16 {
            self.registers[number as usize]
        } else {
            0
        }
    }

    // Sets a register, where there is one of the number.
    pub(crate) fn set_register(&mut self, number: u8, value: u64)
        ensures { x86_inner self.new ≡ (
            if nat_lt number 16
            then with_state (x86_inner self.old) (machines.with_register (x86_state self.old) number value)
            else x86_inner self.old) }
    {
        if number < 16 {
            self.registers[number as usize] = value;
        }
    }

    // Goes on at an address.
    #[inline(always)]
    pub(crate) fn go(&mut self, pc: u64) -> CpuStep
        ensures { Does (goes_on (x86_state self.old) pc) (x86_inner self.old) (x86_inner self.new) result }
    {
        self.pc = pc;
        if pc == STOP {
            CpuStep::Ended(0)
        } else {
            CpuStep::Went
        }
    }

    // Goes on at the next instruction, which is never at the stop address: that is below the code.
    #[inline(always)]
    fn go_on(&mut self, next: u64) -> CpuStep
        requires { next ≢ stop_address }
        ensures { Does (goes_on (x86_state self.old) next) (x86_inner self.old) (x86_inner self.new) result }
    {
        self.pc = next;
        CpuStep::Went
    }

    // Sets a register and the flags, and goes on at an address.
    #[inline(always)]
    fn set(&mut self, next: u64, register: u8, value: u64, flags: Flags) -> CpuStep
        requires next { next ≢ stop_address }
        requires register { register < 16 }
        ensures { Leads next (with_register (x86_scene self.old) register value flags) self.old self.new result }
    {
        self.registers[register as usize] = value;
        self.flags.set(flags);
        self.go_on(next)
    }

    // Sets a register, keeps the flags, and goes on at an address.
    #[inline(always)]
    fn write(&mut self, next: u64, register: u8, value: u64) -> CpuStep
        requires next { next ≢ stop_address }
        requires register { register < 16 }
        ensures { Leads next (with_register (x86_scene self.old) register value (x86_scene self.old).flags) self.old self.new result }
    {
        self.registers[register as usize] = value;
        self.go_on(next)
    }

    // Sets a register to a sum, and the flags by it.
    #[inline(always)]
    fn set_sum(&mut self, next: u64, rm: u8, a: u64, b: u64) -> CpuStep
        requires next { next ≢ stop_address }
        requires register { rm < 16 }
        ensures { Leads next (with_register (x86_scene self.old) rm (add_words a b) (sum_flags a b 0 (add_words a b))) self.old self.new result }
    {
        self.registers[rm as usize] = a.wrapping_add(b);
        self.flags.set_sum(a, b);
        self.go_on(next)
    }

    // Sets a register to a difference, and the flags by it.
    #[inline(always)]
    fn set_difference(&mut self, next: u64, rm: u8, a: u64, b: u64) -> CpuStep
        requires next { next ≢ stop_address }
        requires register { rm < 16 }
        ensures { Leads next (with_register (x86_scene self.old) rm (sub_words a b) (difference_flags a b 0 (sub_words a b))) self.old self.new result }
    {
        self.registers[rm as usize] = a.wrapping_sub(b);
        self.flags.set_difference(a, b);
        self.go_on(next)
    }

    // Sets the flags by a difference.
    #[inline(always)]
    fn compare(&mut self, next: u64, a: u64, b: u64) -> CpuStep
        requires next { next ≢ stop_address }
        ensures { Leads next (with_flags (x86_scene self.old) (difference_flags a b 0 (sub_words a b))) self.old self.new result }
    {
        self.flags.set_difference(a, b);
        self.go_on(next)
    }

    // Sets the flags by bits.
    #[inline(always)]
    fn test(&mut self, next: u64, bits: u64) -> CpuStep
        requires next { next ≢ stop_address }
        ensures { Leads next (with_flags (x86_scene self.old) (bit_flags bits)) self.old self.new result }
    {
        self.flags.set_bits(bits);
        self.go_on(next)
    }

    // Adds a word and a carry to a register.
    #[inline(always)]
    fn add(&mut self, next: u64, rm: u8, b: u64, carry: bool) -> CpuStep
        requires next { next ≢ stop_address }
        requires register { rm < 16 }
        ensures { Leads next (combined_with RmRegOp.Adc rm b (bit carry) (x86_scene self.old)) self.old self.new result }
    {
        let a = self.registers[rm as usize];
        let sum = alu_value(RmRegOp::Adc, a, b, carry);
        self.set(next, rm, sum, sum_flags(a, b, carry, sum))
    }

    // Subtracts a word and a borrow from a register.
    #[inline(always)]
    fn subtract(&mut self, next: u64, rm: u8, b: u64, borrow: bool) -> CpuStep
        requires next { next ≢ stop_address }
        requires register { rm < 16 }
        ensures { Leads next (combined_with RmRegOp.Sbb rm b (bit borrow) (x86_scene self.old)) self.old self.new result }
    {
        let a = self.registers[rm as usize];
        let difference = alu_value(RmRegOp::Sbb, a, b, borrow);
        self.set(
            next,
            rm,
            difference,
            difference_flags(a, b, borrow, difference),
        )
    }

    // Sets a register to bits, and the flags by them.
    #[inline(always)]
    fn set_bits(&mut self, next: u64, rm: u8, bits: u64) -> CpuStep
        requires next { next ≢ stop_address }
        requires register { rm < 16 }
        ensures { Leads next (with_register (x86_scene self.old) rm bits (bit_flags bits)) self.old self.new result }
    {
        self.registers[rm as usize] = bits;
        self.flags.set_bits(bits);
        self.go_on(next)
    }

    // Combines a register and a word, with the carry that the row reads.
    #[inline(always)]
    fn combine(&mut self, next: u64, op: RmRegOp, rm: u8, b: u64) -> CpuStep
        requires next { next ≢ stop_address }
        requires register { rm < 16 }
        ensures { Makes next FaultKind.Flag (combined op rm b (x86_scene self.old)) self.old self.new result }
    {
        let a = self.registers[rm as usize];
        match op {
            RmRegOp::Add => self.set_sum(next, rm, a, b),
            RmRegOp::Sub => self.set_difference(next, rm, a, b),
            RmRegOp::Cmp => self.compare(next, a, b),
            RmRegOp::Or => self.set_bits(next, rm, a | b),
            RmRegOp::And => self.set_bits(next, rm, a & b),
            RmRegOp::Xor => self.set_bits(next, rm, a ^ b),
            RmRegOp::Test => self.test(next, a & b),
            RmRegOp::Mov => self.write(next, rm, b),
            RmRegOp::Adc => match self.flags.carry() {
                Some(carry) => self.add(next, rm, b, carry),
                None => CpuStep::Fault(FaultKind::Flag),
            },
            RmRegOp::Sbb => match self.flags.carry() {
                Some(borrow) => self.subtract(next, rm, b, borrow),
                None => CpuStep::Fault(FaultKind::Flag),
            },
        }
    }

    // Loads a number, or takes the address.
    #[inline(always)]
    fn load(&mut self, next: u64, op: LoadOp, register: u8, address: u64) -> CpuStep
        requires next { next ≢ stop_address }
        requires register { register < 16 }
        ensures { Makes next FaultKind.Memory (loads op register address (x86_scene self.old)) self.old self.new result }
    {
        match op {
            LoadOp::Lea => self.write(next, register, address),
            LoadOp::Ld64 => self.load_wide(next, LoadOp::Ld64, 8, false, register, address),
            LoadOp::Ld32u => self.load_wide(next, LoadOp::Ld32u, 4, false, register, address),
            LoadOp::Ld32s => self.load_wide(next, LoadOp::Ld32s, 4, true, register, address),
            LoadOp::Ld8u => self.load_wide(next, LoadOp::Ld8u, 1, false, register, address),
            LoadOp::Ld16u => self.load_wide(next, LoadOp::Ld16u, 2, false, register, address),
            LoadOp::Ld8s => self.load_wide(next, LoadOp::Ld8s, 1, true, register, address),
            LoadOp::Ld16s => self.load_wide(next, LoadOp::Ld16s, 2, true, register, address),
        }
    }

    // Loads this many bytes, extended by their sign or with zeros.
    #[inline(always)]
    fn load_wide(
        &mut self,
        next: u64,
        op: LoadOp,
        width: u32,
        signed: bool,
        register: u8,
        address: u64,
    ) -> CpuStep
        requires next { next ≢ stop_address }
        requires register { register < 16 }
        requires width { (width ≡ 1) ⊎ (width ≡ 2) ⊎ (width ≡ 4) ⊎ (width ≡ 8) }
        requires is_width { width ≡ load_width op }
        requires value { (v : ℕ) → load_value op v ≡ extended_by signed width v }
        ensures { Makes next FaultKind.Memory (sets_loaded op register (x86_scene self.old) (loaded (x86_state self.old).bytes address width))
            self.old self.new result }
    {
        match self.board.memory.load(address, width) {
            Some(value) => self.write(next, register, extended(value, width, signed)),
            None => CpuStep::Fault(FaultKind::Memory),
        }
    }

    // Stores the low bytes of a word.
    #[inline(always)]
    fn store(&mut self, next: u64, address: u64, width: u32, value: u64) -> CpuStep
        requires next { next ≢ stop_address }
        requires width { (width ≡ 1) ⊎ (width ≡ 2) ⊎ (width ≡ 4) ⊎ (width ≡ 8) }
        ensures { Makes next FaultKind.Memory (stores (x86_scene self.old) (x86_scene self.old).registers address width value) self.old self.new result }
    {
        if self.board.memory.store(address, width, value) {
            self.go_on(next)
        } else {
            CpuStep::Fault(FaultKind::Memory)
        }
    }

    // Sets rax and rdx, and the flags.
    #[inline(always)]
    fn set_wide(&mut self, next: u64, high: u64, low: u64, flags: Flags) -> CpuStep
        requires next { next ≢ stop_address }
        ensures { Leads next (with_wide (x86_scene self.old) high low flags) self.old self.new result }
    {
        self.registers[0] = low;
        self.registers[2] = high;
        self.flags.set(flags);
        self.go_on(next)
    }

    #[inline(always)]
    fn shift(&mut self, next: u64, op: ShiftOp, rm: u8, count: u32) -> CpuStep
        requires next { next ≢ stop_address }
        requires register { rm < 16 }
        requires count { count < 64 }
        ensures { Leads next (shifted op rm count (x86_scene self.old)) self.old self.new result }
    {
        let a = self.registers[rm as usize];
        let value = shift_value(op, a, count);
        if count == 0 {
            return self.write(next, rm, value);
        }
        self.set(next, rm, value, shift_flags(op, no_flags(), a, count))
    }

    // Divides rdx and rax, unsigned.
    fn divide_unsigned(&mut self, next: u64, by: u64) -> CpuStep
        requires next { next ≢ stop_address }
        ensures { Makes next FaultKind.Divide (sets_quotient (x86_scene self.old)
            (quotient_wide ((x86_state self.old).registers 2) ((x86_state self.old).registers 0) by)) self.old self.new result }
    {
        match div_wide_u(self.registers[2], self.registers[0], by) {
            Some((quotient, remainder)) => self.set_wide(next, remainder, quotient, no_flags()),
            None => CpuStep::Fault(FaultKind::Divide),
        }
    }

    // Divides rdx and rax, signed.
    fn divide_signed(&mut self, next: u64, by: u64) -> CpuStep
        requires next { next ≢ stop_address }
        ensures { Makes next FaultKind.Divide (sets_quotient (x86_scene self.old)
            (quotient_wide_signed ((x86_state self.old).registers 2) ((x86_state self.old).registers 0) by)) self.old self.new result }
    {
        match div_wide_words(self.registers[2], self.registers[0], by) {
            Some((quotient, remainder)) => self.set_wide(next, remainder, quotient, no_flags()),
            None => CpuStep::Fault(FaultKind::Divide),
        }
    }

    // Executes an instruction on one register.
    #[inline(always)]
    fn act_unary(&mut self, next: u64, op: UnaryOp, rm: u8) -> CpuStep
        requires next { next ≢ stop_address }
        requires register { rm < 16 }
        ensures { Makes next FaultKind.Divide (one_register op rm (x86_scene self.old)) self.old self.new result }
    {
        let a = self.registers[rm as usize];
        let low = self.registers[0];
        let count = (self.registers[1] % 64) as u32;
        match op {
            UnaryOp::Not => self.write(next, rm, !a),
            UnaryOp::Neg => self.set(next, rm, 0u64.wrapping_sub(a), negation_flags(a)),
            UnaryOp::Mul => self.set_wide(
                next,
                mul_high_u(low, a),
                low.wrapping_mul(a),
                product_flags(needs_high(low, a)),
            ),
            UnaryOp::Imul1 => self.set_wide(
                next,
                high_signed(low, a),
                low.wrapping_mul(a),
                product_flags(needs_high_signed(low, a)),
            ),
            UnaryOp::Div => self.divide_unsigned(next, a),
            UnaryOp::Idiv => self.divide_signed(next, a),
            UnaryOp::Shl => self.shift(next, ShiftOp::Shli, rm, count),
            UnaryOp::Shr => self.shift(next, ShiftOp::Shri, rm, count),
            UnaryOp::Sar => self.shift(next, ShiftOp::Sari, rm, count),
        }
    }

    // Pushes a word, and goes on at an address.
    #[inline(always)]
    fn push(&mut self, next: u64, value: u64) -> CpuStep
        ensures { Makes next FaultKind.Memory (pushes value (x86_scene self.old)) self.old self.new result }
    {
        let stack = self.registers[4].wrapping_sub(8);
        if self.board.memory.store(stack, 8, value) {
            self.registers[4] = stack;
            self.go(next)
        } else {
            CpuStep::Fault(FaultKind::Memory)
        }
    }

    // Pops a word into a register.
    #[inline(always)]
    fn pop(&mut self, next: u64, register: u8) -> CpuStep
        requires next { next ≢ stop_address }
        requires register { register < 16 }
        ensures { Makes next FaultKind.Memory (pops register (x86_scene self.old)
            (loaded (x86_state self.old).bytes ((x86_state self.old).registers 4) 8)) self.old self.new result }
    {
        let stack = self.registers[4];
        match self.board.memory.load(stack, 8) {
            Some(value) => {
                self.set_stack(stack.wrapping_add(8));
                self.write(next, register, value)
            }
            None => CpuStep::Fault(FaultKind::Memory),
        }
    }

    #[inline(always)]
    fn set_stack(&mut self, stack: u64)
        ensures { x86_inner self.new ≡ with_state (x86_inner self.old) (machines.with_register (x86_state self.old) 4 stack) }
    {
        self.registers[4] = stack;
    }

    // Returns to the word at rsp.
    #[inline(always)]
    fn ret(&mut self) -> CpuStep
        ensures { Does (returns (x86_state self.old) (loaded (x86_state self.old).bytes ((x86_state self.old).registers 4) 8))
            (x86_inner self.old) (x86_inner self.new) result }
    {
        let stack = self.registers[4];
        match self.board.memory.load(stack, 8) {
            Some(target) => {
                self.registers[4] = stack.wrapping_add(8);
                self.go(target)
            }
            None => CpuStep::Fault(FaultKind::Memory),
        }
    }

    // Sets the low byte of a register where a condition holds, and clears it where it does not.
    #[inline(always)]
    fn set_byte(&mut self, next: u64, cond: Cond, rm: u8) -> CpuStep
        requires next { next ≢ stop_address }
        requires register { rm < 16 }
        ensures { Makes next FaultKind.Flag (sets_byte rm (x86_scene self.old) (condition_holds cond (x86_scene self.old).flags)) self.old self.new result }
    {
        match self.flags.holds(cond) {
            Some(holds) => {
                let value = self.registers[rm as usize] / 256 * 256 + u64::from(holds);
                self.write(next, rm, value)
            }
            None => CpuStep::Fault(FaultKind::Flag),
        }
    }

    // Jumps where a condition holds.
    #[inline(always)]
    fn jump_if(&mut self, next: u64, cond: Cond, distance: i32) -> CpuStep
        requires next { next ≢ stop_address }
        ensures { Does (goes_where (x86_state self.old) next (add_words next (word_of distance)) (condition_holds cond (x86_state self.old).flags))
            (x86_inner self.old) (x86_inner self.new) result }
    {
        match self.flags.holds(cond) {
            Some(true) => self.go(next.wrapping_add(sign_extended(distance))),
            Some(false) => self.go_on(next),
            None => CpuStep::Fault(FaultKind::Flag),
        }
    }

    // Jumps or calls by a distance.
    #[inline(always)]
    fn jump_near(&mut self, next: u64, op: JumpNearOp, distance: i32) -> CpuStep
        ensures { Does (does (Instr.JumpNear op distance) next (x86_state self.old)) (x86_inner self.old) (x86_inner self.new) result }
    {
        let target = next.wrapping_add(sign_extended(distance));
        match op {
            JumpNearOp::Jmp32 => self.go(target),
            JumpNearOp::Call32 => self.push(target, next),
        }
    }

    // Jumps or calls to the address in a register.
    #[inline(always)]
    fn jump_register(&mut self, next: u64, op: JumpRegOp, rm: u8) -> CpuStep
        requires { rm < 16 }
        ensures { Does (does (Instr.JumpReg op rm) next (x86_state self.old)) (x86_inner self.old) (x86_inner self.new) result }
    {
        let target = self.registers[rm as usize];
        match op {
            JumpRegOp::Jmpr => self.go(target),
            JumpRegOp::Callr => self.push(target, next),
        }
    }

    #[inline(always)]
    fn act_reg_rm(&mut self, next: u64, op: RegRmOp, reg: u8, rm: u8) -> CpuStep
        requires next { next ≢ stop_address }
        requires reg { reg < 16 }
        requires rm { rm < 16 }
        ensures { Does (does (Instr.RegRm op reg rm) next (x86_state self.old)) (x86_inner self.old) (x86_inner self.new) result }
    {
        let a = self.registers[reg as usize];
        let b = self.registers[rm as usize];
        let value = reg_rm_value(op, a, b);
        match op {
            RegRmOp::Imul => self.set(next, reg, value, product_flags(needs_high_signed(a, b))),
            _ => self.write(next, reg, value),
        }
    }

    #[inline(always)]
    fn act_bare(&mut self, next: u64, op: BareOp) -> CpuStep
        requires next { next ≢ stop_address }
        ensures { Does (does (Instr.Bare op) next (x86_state self.old)) (x86_inner self.old) (x86_inner self.new) result }
    {
        match op {
            BareOp::Cqo => self.write(next, 2, sign_word(self.registers[0])),
            BareOp::Ret => self.ret(),
            BareOp::Nop => self.go_on(next),
        }
    }

    #[inline(always)]
    fn act_stack(&mut self, next: u64, op: StackOp, register: u8) -> CpuStep
        requires next { next ≢ stop_address }
        requires register { register < 16 }
        ensures { Does (does (Instr.Stack op register) next (x86_state self.old)) (x86_inner self.old) (x86_inner self.new) result }
    {
        match op {
            StackOp::Push => self.push(next, self.registers[register as usize]),
            StackOp::Pop => self.pop(next, register),
        }
    }

    // Executes an instruction that makes a register of registers and numbers.
    #[inline(always)]
    fn act_registers(&mut self, next: u64, instr: Instr) -> CpuStep
        requires next { next ≢ stop_address }
        requires fits { IsInstr instr }
        ensures { Does (does instr next (x86_state self.old)) (x86_inner self.old) (x86_inner self.new) result }
    {
        match instr {
            Instr::RmReg { op, rm, reg } => self.combine(
                next,
                op,
                rm,
                self.registers[reg as usize],
            ),
            Instr::Imm { op, rm, imm } => self.combine(next, alu_of(op), rm, sign_extended(imm)),
            Instr::RegRm { op, reg, rm } => self.act_reg_rm(next, op, reg, rm),
            Instr::Lea2 { reg, base, index } => self.write(
                next,
                reg,
                self.registers[base as usize].wrapping_add(self.registers[index as usize]),
            ),
            Instr::Movi32 { reg, imm } => self.write(next, reg, u64::from(imm)),
            Instr::Movs32 { rm, imm } => self.write(next, rm, sign_extended(imm)),
            Instr::Movi64 { reg, imm } => self.write(next, reg, imm),
            Instr::Unary { op, rm } => self.act_unary(next, op, rm),
            Instr::Shift { op, rm, count } => self.shift(next, op, rm, u32::from(count)),
            Instr::Bswap { reg } => {
                self.write(next, reg, swap_bytes(self.registers[reg as usize], 8))
            }
            Instr::Set { cond, rm } => self.set_byte(next, cond, rm),
            other => self.act_rest(next, other),
        }
    }

    // Executes any other instruction.
    #[inline(always)]
    fn act_rest(&mut self, next: u64, instr: Instr) -> CpuStep
        requires next { next ≢ stop_address }
        requires fits { IsInstr instr }
        requires rest { is_rest instr ≡ true }
        ensures { Does (does instr next (x86_state self.old)) (x86_inner self.old) (x86_inner self.new) result }
    {
        match instr {
            Instr::Load {
                op,
                reg,
                base,
                disp,
            } => self.load(
                next,
                op,
                reg,
                self.registers[base as usize].wrapping_add(sign_extended(disp)),
            ),
            Instr::Store {
                op,
                base,
                disp,
                reg,
            } => self.store(
                next,
                self.registers[base as usize].wrapping_add(sign_extended(disp)),
                store_width(op),
                self.registers[reg as usize],
            ),
            Instr::Stack { op, reg } => self.act_stack(next, op, reg),
            Instr::JumpIfShort { cond, distance } => self.jump_if(next, cond, distance),
            Instr::JumpIfNear { cond, distance } => self.jump_if(next, cond, distance),
            Instr::JumpShort { distance } => self.go(next.wrapping_add(sign_extended(distance))),
            Instr::JumpNear { op, distance } => self.jump_near(next, op, distance),
            Instr::JumpReg { op, rm } => self.jump_register(next, op, rm),
            Instr::Bare { op } => self.act_bare(next, op),
            _ => CpuStep::Fault(FaultKind::Decode),
        }
    }

    // Executes the instruction that is read at the program counter.
    #[inline(always)]
    pub(crate) fn execute(&mut self, instr: Instr, len: u32) -> CpuStep
        requires { IsDecodedAt front_of IsInstr (λ pc. true) self.old.code self.old.pc instr len }
        ensures { Does (fetch self.old.code (x86_state self.old)) (x86_inner self.old) (x86_inner self.new) result }
    {
        self.act_registers(self.pc.wrapping_add(u64::from(len)), instr)
    }
}
