// The rows of the table: each is written once, in a macro that the functions on rows use.

ghost use Rattle.std.specs.Prelude.{◌≡◌, ◌<◌, ◌≤◌, ◌+◌, ◌++◌, length};
ghost use Rattle.lg_x86.specs.Rows.{rm_reg_row, imm_row, reg_rm_row, load_row, store_row, unary_row, shift_row, stack_row, jump_near_row, jump_reg_row, bare_row, cond_row};
ghost use Rattle.lg_x86.specs.Spelling.{name_of};
ghost use Rattle.lg_x86.specs.Reading.{rm_reg_by_opcode, imm_by_digit, reg_rm_by_prefixes, load_by_prefixes, store_by_prefixes, unary_by_digit, shift_by_digit, stack_by_opcode, jump_near_by_opcode, jump_reg_by_digit, bare_by_prefixes, cond_by_number};

use crate::instruction::{
    BareOp, Cond, ImmOp, Instr, JumpNearOp, JumpRegOp, LoadOp, RegRmOp, RmRegOp, ShiftOp, StackOp,
    StoreOp, UnaryOp,
};
use lg_base::Piece;

/// When the byte REX stands.
#[derive(Clone, Copy)]
pub(crate) enum Mark {
    /// Always, with the bit W set: 64 bits.
    Wide,
    /// Always: the low byte of each register.
    Low,
    /// Where a register of 8 to 15 occurs.
    Plain,
}

// a row's number
macro_rules! number_of {
    ($op:expr; $type:ident; $($name:ident, $text:literal = $number:literal;)*) => {
        match $op { $($type::$name => $number,)* }
    };
}

// a row's name
macro_rules! name_of {
    ($op:expr; $type:ident; $($name:ident, $text:literal = $($column:tt),*;)*) => {
        match $op { $($type::$name => $text,)* }
    };
}

// the row with this number
macro_rules! op_with {
    ($of:expr; $type:ident; $($name:ident, $text:literal = $number:literal;)*) => {
        match $of { $($number => Some($type::$name),)* _ => None }
    };
}

// the columns of a row with a digit: the opcode, the digit
macro_rules! digit_opcode_of {
    ($op:expr; $type:ident; $($name:ident, $text:literal = $opcode:literal, $digit:literal;)*) => {
        match $op { $($type::$name => $opcode,)* }
    };
}

macro_rules! digit_of {
    ($op:expr; $type:ident; $($name:ident, $text:literal = $opcode:literal, $digit:literal;)*) => {
        match $op { $($type::$name => $digit,)* }
    };
}

macro_rules! op_with_digit {
    ($of:expr; $type:ident; $($name:ident, $text:literal = $opcode:literal, $digit:literal;)*) => {
        match $of { $(($opcode, $digit) => Some($type::$name),)* _ => None }
    };
}

// the columns of a row with prefixes of its own: whether the byte 66 is first, when REX stands,
// whether the byte 0F is before the opcode, the opcode
macro_rules! word_sized_of {
    ($op:expr; $type:ident; $($name:ident, $text:literal = $word_sized:literal, $mark:ident, $escaped:literal, $opcode:literal;)*) => {
        match $op { $($type::$name => $word_sized,)* }
    };
}

macro_rules! mark_of {
    ($op:expr; $type:ident; $($name:ident, $text:literal = $word_sized:literal, $mark:ident, $escaped:literal, $opcode:literal;)*) => {
        match $op { $($type::$name => Mark::$mark,)* }
    };
}

macro_rules! escaped_of {
    ($op:expr; $type:ident; $($name:ident, $text:literal = $word_sized:literal, $mark:ident, $escaped:literal, $opcode:literal;)*) => {
        match $op { $($type::$name => $escaped,)* }
    };
}

macro_rules! opcode_of {
    ($op:expr; $type:ident; $($name:ident, $text:literal = $word_sized:literal, $mark:ident, $escaped:literal, $opcode:literal;)*) => {
        match $op { $($type::$name => $opcode,)* }
    };
}

macro_rules! op_with_prefixes {
    ($of:expr; $type:ident; $($name:ident, $text:literal = $word_sized:literal, $mark:ident, $escaped:literal, $opcode:literal;)*) => {
        match $of { $(($word_sized, Mark::$mark, $escaped, $opcode) => Some($type::$name),)* _ => None }
    };
}

macro_rules! rm_reg_rows {
    ($use:ident, $of:expr) => { $use! { $of; RmRegOp;
        Add, b"add" = 0x01;
        Or, b"or" = 0x09;
        Adc, b"adc" = 0x11;
        Sbb, b"sbb" = 0x19;
        And, b"and" = 0x21;
        Sub, b"sub" = 0x29;
        Xor, b"xor" = 0x31;
        Cmp, b"cmp" = 0x39;
        Test, b"test" = 0x85;
        Mov, b"mov" = 0x89;
    } };
}

macro_rules! imm_rows {
    ($use:ident, $of:expr) => { $use! { $of; ImmOp;
        Addi, b"addi" = 0;
        Ori, b"ori" = 1;
        Adci, b"adci" = 2;
        Sbbi, b"sbbi" = 3;
        Andi, b"andi" = 4;
        Subi, b"subi" = 5;
        Xori, b"xori" = 6;
        Cmpi, b"cmpi" = 7;
    } };
}

macro_rules! reg_rm_rows {
    ($use:ident, $of:expr) => { $use! { $of; RegRmOp;
        Ext32u, b"ext32u" = false, Plain, false, 0x8b;
        Ext32s, b"ext32s" = false, Wide, false, 0x63;
        Ext8u, b"ext8u" = false, Wide, true, 0xb6;
        Ext16u, b"ext16u" = false, Wide, true, 0xb7;
        Ext8s, b"ext8s" = false, Wide, true, 0xbe;
        Ext16s, b"ext16s" = false, Wide, true, 0xbf;
        Imul, b"imul" = false, Wide, true, 0xaf;
    } };
}

macro_rules! load_rows {
    ($use:ident, $of:expr) => { $use! { $of; LoadOp;
        Ld64, b"ld64" = false, Wide, false, 0x8b;
        Ld32u, b"ld32u" = false, Plain, false, 0x8b;
        Ld32s, b"ld32s" = false, Wide, false, 0x63;
        Ld8u, b"ld8u" = false, Wide, true, 0xb6;
        Ld16u, b"ld16u" = false, Wide, true, 0xb7;
        Ld8s, b"ld8s" = false, Wide, true, 0xbe;
        Ld16s, b"ld16s" = false, Wide, true, 0xbf;
        Lea, b"lea" = false, Wide, false, 0x8d;
    } };
}

macro_rules! store_rows {
    ($use:ident, $of:expr) => { $use! { $of; StoreOp;
        St64, b"st64" = false, Wide, false, 0x89;
        St32, b"st32" = false, Plain, false, 0x89;
        St16, b"st16" = true, Plain, false, 0x89;
        St8, b"st8" = false, Low, false, 0x88;
    } };
}

macro_rules! unary_rows {
    ($use:ident, $of:expr) => { $use! { $of; UnaryOp;
        Not, b"not" = 0xf7, 2;
        Neg, b"neg" = 0xf7, 3;
        Mul, b"mul" = 0xf7, 4;
        Imul1, b"imul1" = 0xf7, 5;
        Div, b"div" = 0xf7, 6;
        Idiv, b"idiv" = 0xf7, 7;
        Shl, b"shl" = 0xd3, 4;
        Shr, b"shr" = 0xd3, 5;
        Sar, b"sar" = 0xd3, 7;
    } };
}

macro_rules! shift_rows {
    ($use:ident, $of:expr) => { $use! { $of; ShiftOp;
        Shli, b"shli" = 4;
        Shri, b"shri" = 5;
        Sari, b"sari" = 7;
    } };
}

macro_rules! stack_rows {
    ($use:ident, $of:expr) => { $use! { $of; StackOp;
        Push, b"push" = 0x50;
        Pop, b"pop" = 0x58;
    } };
}

macro_rules! jump_near_rows {
    ($use:ident, $of:expr) => { $use! { $of; JumpNearOp;
        Jmp32, b"jmp32" = 0xe9;
        Call32, b"call32" = 0xe8;
    } };
}

macro_rules! jump_reg_rows {
    ($use:ident, $of:expr) => { $use! { $of; JumpRegOp;
        Jmpr, b"jmpr" = 4;
        Callr, b"callr" = 2;
    } };
}

macro_rules! bare_rows {
    ($use:ident, $of:expr) => { $use! { $of; BareOp;
        Cqo, b"cqo" = false, Wide, false, 0x99;
        Ret, b"ret" = false, Plain, false, 0xc3;
        Nop, b"nop" = false, Plain, false, 0x90;
    } };
}

macro_rules! conds {
    ($use:ident, $of:expr) => { $use! { $of; Cond;
        Overflow, b"o" = 0;
        NoOverflow, b"no" = 1;
        Below, b"b" = 2;
        AboveOrEqual, b"ae" = 3;
        Equal, b"e" = 4;
        NotEqual, b"ne" = 5;
        BelowOrEqual, b"be" = 6;
        Above, b"a" = 7;
        Sign, b"s" = 8;
        NoSign, b"ns" = 9;
        Less, b"l" = 12;
        GreaterOrEqual, b"ge" = 13;
        LessOrEqual, b"le" = 14;
        Greater, b"g" = 15;
    } };
}

impl RmRegOp {
    /// Returns the row's opcode.
    pub(crate) fn opcode(self) -> u8
        ensures { result ≡ (rm_reg_row self).number }
    {
        rm_reg_rows!(number_of, self)
    }

    /// Returns the row's name.
    pub(crate) fn name(self) -> &'static [u8]
        ensures same { result.now ≡ (rm_reg_row self).name }
        ensures short { length result.now ≤ 16 }
    {
        rm_reg_rows!(name_of, self)
    }

    /// Returns the row with this opcode.
    #[inline(always)]
    #[tactic(auto, unfolding(crate::specs::Reading::rm_reg_by_opcode))]
    pub(crate) fn find(opcode: u8) -> Option<RmRegOp>
        ensures { result ≡ rm_reg_by_opcode opcode }
    {
        rm_reg_rows!(op_with, opcode)
    }
}

impl ImmOp {
    /// Returns the row's digit, which is in the field reg of ModRM.
    pub(crate) fn digit(self) -> u8
        ensures same { result ≡ (imm_row self).number }
        ensures fits { result < 8 }
    {
        imm_rows!(number_of, self)
    }

    /// Returns the row's name.
    pub(crate) fn name(self) -> &'static [u8]
        ensures same { result.now ≡ (imm_row self).name }
        ensures short { length result.now ≤ 16 }
    {
        imm_rows!(name_of, self)
    }

    /// Returns the row with this digit.
    #[inline(always)]
    #[tactic(auto, unfolding(crate::specs::Reading::imm_by_digit))]
    pub(crate) fn find(digit: u8) -> Option<ImmOp>
        ensures { result ≡ imm_by_digit digit }
    {
        imm_rows!(op_with, digit)
    }
}

impl RegRmOp {
    /// When REX stands.
    pub(crate) fn mark(self) -> Mark
        ensures { result ≡ (reg_rm_row self).mark }
    {
        reg_rm_rows!(mark_of, self)
    }

    /// Returns whether the byte 0F is before the opcode.
    pub(crate) fn is_escaped(self) -> bool
        ensures { result ≡ (reg_rm_row self).escaped }
    {
        reg_rm_rows!(escaped_of, self)
    }

    /// Returns the row's opcode.
    pub(crate) fn opcode(self) -> u8
        ensures { result ≡ (reg_rm_row self).opcode }
    {
        reg_rm_rows!(opcode_of, self)
    }

    /// Returns the row's name.
    pub(crate) fn name(self) -> &'static [u8]
        ensures same { result.now ≡ (reg_rm_row self).name }
        ensures short { length result.now ≤ 16 }
    {
        reg_rm_rows!(name_of, self)
    }

    /// Returns the row with these prefixes and this opcode.
    #[inline(always)]
    #[tactic(auto, unfolding(crate::specs::Reading::reg_rm_by_prefixes))]
    pub(crate) fn find(word_sized: bool, mark: Mark, escaped: bool, opcode: u8) -> Option<RegRmOp>
        ensures { result ≡ reg_rm_by_prefixes word_sized mark escaped opcode }
    {
        reg_rm_rows!(op_with_prefixes, (word_sized, mark, escaped, opcode))
    }
}

impl LoadOp {
    /// When REX stands.
    pub(crate) fn mark(self) -> Mark
        ensures { result ≡ (load_row self).mark }
    {
        load_rows!(mark_of, self)
    }

    /// Returns whether the byte 0F is before the opcode.
    pub(crate) fn is_escaped(self) -> bool
        ensures { result ≡ (load_row self).escaped }
    {
        load_rows!(escaped_of, self)
    }

    /// Returns the row's opcode.
    pub(crate) fn opcode(self) -> u8
        ensures { result ≡ (load_row self).opcode }
    {
        load_rows!(opcode_of, self)
    }

    /// Returns the row's name.
    pub(crate) fn name(self) -> &'static [u8]
        ensures same { result.now ≡ (load_row self).name }
        ensures short { length result.now ≤ 16 }
    {
        load_rows!(name_of, self)
    }

    /// Returns the row with these prefixes and this opcode.
    #[inline(always)]
    #[tactic(auto, unfolding(crate::specs::Reading::load_by_prefixes))]
    pub(crate) fn find(word_sized: bool, mark: Mark, escaped: bool, opcode: u8) -> Option<LoadOp>
        ensures { result ≡ load_by_prefixes word_sized mark escaped opcode }
    {
        load_rows!(op_with_prefixes, (word_sized, mark, escaped, opcode))
    }
}

impl StoreOp {
    /// Returns whether the byte 66 is first.
    pub(crate) fn is_word_sized(self) -> bool
        ensures { result ≡ (store_row self).word_sized }
    {
        store_rows!(word_sized_of, self)
    }

    /// When REX stands.
    pub(crate) fn mark(self) -> Mark
        ensures { result ≡ (store_row self).mark }
    {
        store_rows!(mark_of, self)
    }

    /// Returns the row's opcode.
    pub(crate) fn opcode(self) -> u8
        ensures { result ≡ (store_row self).opcode }
    {
        store_rows!(opcode_of, self)
    }

    /// Returns the row's name.
    pub(crate) fn name(self) -> &'static [u8]
        ensures same { result.now ≡ (store_row self).name }
        ensures short { length result.now ≤ 16 }
    {
        store_rows!(name_of, self)
    }

    /// Returns the row with these prefixes and this opcode.
    #[inline(always)]
    #[tactic(auto, unfolding(crate::specs::Reading::store_by_prefixes))]
    pub(crate) fn find(word_sized: bool, mark: Mark, escaped: bool, opcode: u8) -> Option<StoreOp>
        ensures { result ≡ store_by_prefixes word_sized mark escaped opcode }
    {
        store_rows!(op_with_prefixes, (word_sized, mark, escaped, opcode))
    }
}

impl UnaryOp {
    /// Returns the row's opcode.
    pub(crate) fn opcode(self) -> u8
        ensures { result ≡ (unary_row self).opcode }
    {
        unary_rows!(digit_opcode_of, self)
    }

    /// Returns the row's digit, which is in the field reg of ModRM.
    pub(crate) fn digit(self) -> u8
        ensures same { result ≡ (unary_row self).digit }
        ensures fits { result < 8 }
    {
        unary_rows!(digit_of, self)
    }

    /// Returns the row's name.
    pub(crate) fn name(self) -> &'static [u8]
        ensures same { result.now ≡ (unary_row self).name }
        ensures short { length result.now ≤ 16 }
    {
        unary_rows!(name_of, self)
    }

    /// Returns the row with this opcode and digit.
    #[inline(always)]
    #[tactic(auto, unfolding(crate::specs::Reading::unary_by_digit))]
    pub(crate) fn find(opcode: u8, digit: u8) -> Option<UnaryOp>
        ensures { result ≡ unary_by_digit opcode digit }
    {
        unary_rows!(op_with_digit, (opcode, digit))
    }
}

impl ShiftOp {
    /// Returns the row's digit, which is in the field reg of ModRM.
    pub(crate) fn digit(self) -> u8
        ensures same { result ≡ (shift_row self).number }
        ensures fits { result < 8 }
    {
        shift_rows!(number_of, self)
    }

    /// Returns the row's name.
    pub(crate) fn name(self) -> &'static [u8]
        ensures same { result.now ≡ (shift_row self).name }
        ensures short { length result.now ≤ 16 }
    {
        shift_rows!(name_of, self)
    }

    /// Returns the row with this digit.
    #[inline(always)]
    #[tactic(auto, unfolding(crate::specs::Reading::shift_by_digit))]
    pub(crate) fn find(digit: u8) -> Option<ShiftOp>
        ensures { result ≡ shift_by_digit digit }
    {
        shift_rows!(op_with, digit)
    }
}

impl StackOp {
    /// Returns the row's opcode for register 0.
    pub(crate) fn opcode(self) -> u8
        ensures same { result ≡ (stack_row self).number }
        ensures fits { result < 248 }
    {
        stack_rows!(number_of, self)
    }

    /// Returns the row's name.
    pub(crate) fn name(self) -> &'static [u8]
        ensures same { result.now ≡ (stack_row self).name }
        ensures short { length result.now ≤ 16 }
    {
        stack_rows!(name_of, self)
    }

    /// Returns the row with this opcode.
    #[inline(always)]
    #[tactic(auto, unfolding(crate::specs::Reading::stack_by_opcode))]
    pub(crate) fn find(opcode: u8) -> Option<StackOp>
        ensures { result ≡ stack_by_opcode opcode }
    {
        stack_rows!(op_with, opcode)
    }
}

impl JumpNearOp {
    /// Returns the row's opcode.
    pub(crate) fn opcode(self) -> u8
        ensures { result ≡ (jump_near_row self).number }
    {
        jump_near_rows!(number_of, self)
    }

    /// Returns the row's name.
    pub(crate) fn name(self) -> &'static [u8]
        ensures same { result.now ≡ (jump_near_row self).name }
        ensures short { length result.now ≤ 16 }
    {
        jump_near_rows!(name_of, self)
    }

    /// Returns the row with this opcode.
    #[inline(always)]
    #[tactic(auto, unfolding(crate::specs::Reading::jump_near_by_opcode))]
    pub(crate) fn find(opcode: u8) -> Option<JumpNearOp>
        ensures { result ≡ jump_near_by_opcode opcode }
    {
        jump_near_rows!(op_with, opcode)
    }
}

impl JumpRegOp {
    /// Returns the row's digit, which is in the field reg of ModRM.
    pub(crate) fn digit(self) -> u8
        ensures same { result ≡ (jump_reg_row self).number }
        ensures fits { result < 8 }
    {
        jump_reg_rows!(number_of, self)
    }

    /// Returns the row's name.
    pub(crate) fn name(self) -> &'static [u8]
        ensures same { result.now ≡ (jump_reg_row self).name }
        ensures short { length result.now ≤ 16 }
    {
        jump_reg_rows!(name_of, self)
    }

    /// Returns the row with this digit.
    #[inline(always)]
    #[tactic(auto, unfolding(crate::specs::Reading::jump_reg_by_digit))]
    pub(crate) fn find(digit: u8) -> Option<JumpRegOp>
        ensures { result ≡ jump_reg_by_digit digit }
    {
        jump_reg_rows!(op_with, digit)
    }
}

impl BareOp {
    /// When REX stands.
    pub(crate) fn mark(self) -> Mark
        ensures { result ≡ (bare_row self).mark }
    {
        bare_rows!(mark_of, self)
    }

    /// Returns the row's opcode.
    pub(crate) fn opcode(self) -> u8
        ensures { result ≡ (bare_row self).opcode }
    {
        bare_rows!(opcode_of, self)
    }

    /// Returns the row's name.
    pub(crate) fn name(self) -> &'static [u8]
        ensures same { result.now ≡ (bare_row self).name }
        ensures short { length result.now ≤ 16 }
    {
        bare_rows!(name_of, self)
    }

    /// Returns the row with these prefixes and this opcode.
    #[inline(always)]
    #[tactic(auto, unfolding(crate::specs::Reading::bare_by_prefixes))]
    pub(crate) fn find(word_sized: bool, mark: Mark, escaped: bool, opcode: u8) -> Option<BareOp>
        ensures { result ≡ bare_by_prefixes word_sized mark escaped opcode }
    {
        bare_rows!(op_with_prefixes, (word_sized, mark, escaped, opcode))
    }
}

impl Cond {
    /// Returns the condition's number in opcodes: 0 to 9 and 12 to 15.
    pub fn number(self) -> u8
        ensures same { result ≡ (cond_row self).number }
        ensures fits { result < 16 }
    {
        conds!(number_of, self)
    }

    /// The condition's letters in names: `ae`.
    pub fn name(self) -> Piece
        ensures { result ≡ (cond_row self).name }
    {
        Piece::of(self.letters())
    }

    fn letters(self) -> &'static [u8]
        ensures same { result.now ≡ (cond_row self).name }
        ensures short { length result.now ≤ 2 }
    {
        conds!(name_of, self)
    }

    /// Returns the condition with this number.
    #[inline(always)]
    #[tactic(auto, unfolding(crate::specs::Reading::cond_by_number))]
    pub(crate) fn find(number: u8) -> Option<Cond>
        ensures { result ≡ cond_by_number number }
    {
        conds!(op_with, number)
    }
}

impl Instr {
    /// Returns the row's name, as a listing prints it: `addi`, and with the letters of its condition `jne32`.
    pub fn name(&self) -> Piece
        ensures { result ≡ name_of self.now }
    {
        match *self {
            Instr::RmReg { op, .. } => Piece::of(op.name()),
            Instr::Imm { op, .. } => Piece::of(op.name()),
            Instr::RegRm { op, .. } => Piece::of(op.name()),
            Instr::Load { op, .. } => Piece::of(op.name()),
            Instr::Store { op, .. } => Piece::of(op.name()),
            Instr::Lea2 { .. } => Piece::of(b"lea2"),
            Instr::Movi32 { .. } => Piece::of(b"movi32"),
            Instr::Movs32 { .. } => Piece::of(b"movs32"),
            Instr::Movi64 { .. } => Piece::of(b"movi64"),
            Instr::Unary { op, .. } => Piece::of(op.name()),
            Instr::Shift { op, .. } => Piece::of(op.name()),
            Instr::Bswap { .. } => Piece::of(b"bswap"),
            Instr::Stack { op, .. } => Piece::of(op.name()),
            Instr::JumpIfShort { cond, .. } => named_by_cond(b"j", cond, b"8"),
            Instr::JumpIfNear { cond, .. } => named_by_cond(b"j", cond, b"32"),
            Instr::Set { cond, .. } => named_by_cond(b"set", cond, b""),
            Instr::JumpShort { .. } => Piece::of(b"jmp8"),
            Instr::JumpNear { op, .. } => Piece::of(op.name()),
            Instr::JumpReg { op, .. } => Piece::of(op.name()),
            Instr::Bare { op } => Piece::of(op.name()),
        }
    }
}

// a name with the letters of a condition in it
fn named_by_cond(before: &[u8], cond: Cond, behind: &[u8]) -> Piece
    requires { length before.now + length behind.now ≤ 14 }
    ensures { result ≡ before.now ++ (cond_row cond).name ++ behind.now }
{
    let mut name = Piece::of(before);
    name.extend(cond.letters());
    name.extend(behind);
    name
}
