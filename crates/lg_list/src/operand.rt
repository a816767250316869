// The operands of the instructions of all targets, and how a listing prints them.

ghost use Rattle.std.specs.Prelude.{◌≡◌, ◌<◌, ◌≤◌, ◌+◌, ◌*◌, ◌^◌, ◌++◌, codes, length};
ghost use Rattle.lg_list.specs.Texts.{decimal, signed_decimal, displacement, hex};
ghost use Rattle.lg_list.specs.Operands.{register_name, x86_name, spelled, spelled_after, listed, text};

use crate::line::Line;

/// A register, by the name that it has in a listing.
#[derive(Clone, Copy)]
pub enum Register {
    /// `x0` to `x31`.
    X(u8),
    /// `sp`.
    Sp,
    /// `xzr`.
    Xzr,
    /// `rax` to `r15`, by their numbers from 0.
    X86(u8),
}

/// An operand.
#[derive(Clone, Copy)]
pub enum Operand {
    /// A register.
    Register(Register),
    /// A signed number.
    Signed(i64),
    /// An unsigned number.
    Unsigned(u64),
    /// Memory at a register and a displacement.
    Memory { base: Register, displacement: i64 },
    /// Memory at the sum of two registers.
    Indexed { base: Register, index: Register },
    /// An address, modulo 2^32.
    Target(u32),
}

/// The operands of an instruction, in their order.
#[derive(Clone, Copy)]
pub enum Operands {
    /// None.
    Zero,
    /// One.
    One(Operand),
    /// Two.
    Two(Operand, Operand),
    /// Three.
    Three(Operand, Operand, Operand),
}

impl Line {
    /// Appends a register's name.
    #[inline(always)]
    pub fn push_register(&mut self, register: Register)
        requires { length self.old + 23 ≤ 288 }
        ensures value { self.new ≡ self.old ++ register_name register }
        ensures room { length self.new ≤ length self.old + 23 }
    {
        match register {
            Register::X(number) => {
                self.push(b"x");
                self.push_decimal(number as u64);
            }
            Register::Sp => self.push(b"sp"),
            Register::Xzr => self.push(b"xzr"),
            Register::X86(number) => self.push(x86_name(number)),
        }
    }

    /// Appends a signed number in decimal digits.
    #[inline(always)]
    pub fn push_signed(&mut self, number: i64)
        requires { length self.old + 23 ≤ 288 }
        ensures value { self.new ≡ self.old ++ signed_decimal number }
        ensures room { length self.new ≤ length self.old + 23 }
    {
        if number < 0 {
            self.push(b"-");
        }
        self.push_decimal(number.unsigned_abs());
    }

    /// Appends a displacement, with its sign.
    #[inline(always)]
    pub fn push_displacement(&mut self, number: i64)
        requires { length self.old + 23 ≤ 288 }
        ensures value { self.new ≡ self.old ++ displacement number }
        ensures room { length self.new ≤ length self.old + 23 }
    {
        if number < 0 {
            self.push_signed(number);
        } else {
            self.push(b"+");
            self.push_decimal(number.unsigned_abs());
        }
    }

    /// Appends an operand.
    #[inline(always)]
    pub fn push_operand(&mut self, operand: Operand)
        requires { length self.old + 49 ≤ 288 }
        ensures value { self.new ≡ self.old ++ spelled operand }
        ensures room { length self.new ≤ length self.old + 49 }
    {
        match operand {
            Operand::Register(register) => self.push_register(register),
            Operand::Signed(number) => self.push_signed(number),
            Operand::Unsigned(number) => self.push_decimal(number),
            Operand::Memory { base, displacement } => self.push_memory(base, displacement),
            Operand::Indexed { base, index } => self.push_indexed(base, index),
            Operand::Target(address) => self.push_target(address),
        }
    }

    #[inline(always)]
    fn push_memory(&mut self, base: Register, displacement: i64)
        requires { length self.old + 49 ≤ 288 }
        ensures value { self.new ≡ self.old ++ spelled (Operand.Memory base displacement) }
        ensures room { length self.new ≤ length self.old + 49 }
    {
        self.push(b"[");
        self.push_register(base);
        self.push_displacement(displacement);
        self.push(b"]");
    }

    fn push_indexed(&mut self, base: Register, index: Register)
        requires { length self.old + 49 ≤ 288 }
        ensures value { self.new ≡ self.old ++ spelled (Operand.Indexed base index) }
        ensures room { length self.new ≤ length self.old + 49 }
    {
        self.push(b"[");
        self.push_register(base);
        self.push(b"+");
        self.push_register(index);
        self.push(b"]");
    }

    #[inline(always)]
    fn push_target(&mut self, address: u32)
        requires { length self.old + 49 ≤ 288 }
        ensures value { self.new ≡ self.old ++ spelled (Operand.Target address) }
        ensures room { length self.new ≤ length self.old + 49 }
    {
        self.push(b"0x");
        self.push_hex(&address.to_be_bytes());
    }

    /// Appends an operand after what is before it.
    #[inline(always)]
    pub(crate) fn push_after(&mut self, before: &[u8], operand: Operand)
        requires before { length before.now ≤ 2 }
        requires room { length self.old + 51 ≤ 288 }
        ensures value { self.new ≡ self.old ++ before.now ++ spelled operand }
        ensures room { length self.new ≤ length self.old + 51 }
    {
        self.push(before);
        self.push_operand(operand);
    }

    // Appends operands, each after a comma but the first, which these bytes are before.
    fn push_operands(&mut self, before: &[u8], operands: &[Operand])
        requires before { length before.now ≤ 2 }
        requires room { length self.old + 51 * length operands.now ≤ 288 }
        ensures value { self.new ≡ self.old ++ spelled_after before.now operands.now }
        ensures room { length self.new ≤ length self.old + 51 * length operands.now }
    {
        match operands {
            [] => {}
            [operand, operands @ ..] => {
                self.push_after(before, *operand);
                self.push_operands(b", ", operands);
            }
        }
    }

    // Appends operands, each after a comma. Up to two are written without a call.
    #[inline(always)]
    fn push_more(&mut self, operands: &[Operand])
        requires room { length self.old + 51 * length operands.now ≤ 288 }
        ensures value { self.new ≡ self.old ++ spelled_after (codes ", ") operands.now }
        ensures room { length self.new ≤ length self.old + 51 * length operands.now }
    {
        match operands {
            [] => {}
            [operand] => self.push_after(b", ", *operand),
            [operand, last] => {
                self.push_after(b", ", *operand);
                self.push_after(b", ", *last);
            }
            _ => self.push_operands(b", ", operands),
        }
    }

    /// Appends the text of an instruction: its name and its operands. Each operand adds at most 51 bytes with what is before it, and the line has at most 288
    /// bytes after. Up to three, as most instructions have, are written without a call.
    #[inline(always)]
    pub fn push_text(&mut self, name: &[u8], operands: &[Operand])
        requires { length self.old + length name.now + 51 * length operands.now ≤ 288 }
        ensures value { self.new ≡ self.old ++ text name.now operands.now }
        ensures room { length self.new ≤ length self.old + length name.now + 51 * length operands.now }
    {
        self.push(name);
        match operands {
            [] => {}
            [operand, operands @ ..] => {
                self.push_after(b" ", *operand);
                self.push_more(operands);
            }
        }
    }

    /// Appends the text of an instruction: its name and its operands, up to three.
    #[inline(always)]
    pub fn push_named(&mut self, name: &[u8], operands: Operands)
        requires { length self.old + length name.now + 153 ≤ 288 }
        ensures value { self.new ≡ self.old ++ text name.now (listed operands) }
        ensures room { length self.new ≤ length self.old + length name.now + 153 }
    {
        match operands {
            Operands::Zero => self.push_text(name, &[]),
            Operands::One(first) => self.push_text(name, &[first]),
            Operands::Two(first, second) => self.push_text(name, &[first, second]),
            Operands::Three(first, second, third) => self.push_text(name, &[first, second, third]),
        }
    }
}

#[tactic(auto, unfolding(crate::specs::Operands::x86_name))]
fn x86_name(number: u8) -> &'static [u8]
    ensures name { result.now ≡ x86_name number }
    ensures short { length result.now ≤ 3 }
{
    match number {
        0 => b"rax",
        1 => b"rcx",
        2 => b"rdx",
        3 => b"rbx",
        4 => b"rsp",
        5 => b"rbp",
        6 => b"rsi",
        7 => b"rdi",
        8 => b"r8",
        9 => b"r9",
        10 => b"r10",
        11 => b"r11",
        12 => b"r12",
        13 => b"r13",
        14 => b"r14",
        _ => b"r15",
    }
}
