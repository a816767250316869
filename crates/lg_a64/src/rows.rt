// The rows of the table: each is written once, in a macro that the functions on rows use.

ghost use Rattle.std.specs.Prelude.{◌≡◌, ◌<◌, ◌≤◌, ◌++◌, length};
ghost use Rattle.lg_base.specs.Fields.{part};
ghost use Rattle.lg_a64.specs.Rows.{reg_row, imm_row, wide_row, mul_add_row, bitfield_row, reverse_row, scaled_row, unscaled_row, branch_row, branch_reg_row, branch_if_row, cond_row};
ghost use Rattle.lg_a64.specs.Spelling.{name_of};
ghost use Rattle.lg_a64.specs.Reading.{reg_by_word, imm_by_word, wide_by_word, mul_add_by_word, bitfield_by_word, reverse_by_word, scaled_by_word, unscaled_by_word, branch_by_word, branch_reg_by_word, cond_by_number};

use crate::instruction::{
    BitfieldOp, BranchOp, BranchRegOp, Cond, ImmOp, Instr, MulAddOp, RegOp, ReverseOp, ScaledOp,
    UnscaledOp, WideOp,
};
use lg_base::Piece;

// the rows that stand alone
pub(crate) const CSINC: u32 = 0x9a80_0400;

pub(crate) const LDRX: u32 = 0xf860_6800;

pub(crate) const BRANCH_IF: u32 = 0x5400_0000;

pub(crate) const NOP: u32 = 0xd503_201f;

// a row's word
macro_rules! word_of {
    ($op:expr; $type:ident; $($name:ident, $text:literal = $word:literal;)*) => {
        match $op { $($type::$name => $word,)* }
    };
}

// a row's name
macro_rules! name_of {
    ($op:expr; $type:ident; $($name:ident, $text:literal = $word:literal;)*) => {
        match $op { $($type::$name => $text,)* }
    };
}

// the row with this word
macro_rules! op_with {
    ($of:expr; $type:ident; $($name:ident, $text:literal = $word:literal;)*) => {
        match $of { $($word => Some($type::$name),)* _ => None }
    };
}

macro_rules! reg_rows {
    ($use:ident, $of:expr) => { $use! { $of; RegOp;
        Add, b"add" = 0x8b00_0000;
        Adds, b"adds" = 0xab00_0000;
        Sub, b"sub" = 0xcb00_0000;
        Subs, b"subs" = 0xeb00_0000;
        Adc, b"adc" = 0x9a00_0000;
        Adcs, b"adcs" = 0xba00_0000;
        Sbc, b"sbc" = 0xda00_0000;
        Sbcs, b"sbcs" = 0xfa00_0000;
        And, b"and" = 0x8a00_0000;
        Orr, b"orr" = 0xaa00_0000;
        Eor, b"eor" = 0xca00_0000;
        Ands, b"ands" = 0xea00_0000;
        Orn, b"orn" = 0xaa20_0000;
        Smulh, b"smulh" = 0x9b40_7c00;
        Umulh, b"umulh" = 0x9bc0_7c00;
        Udiv, b"udiv" = 0x9ac0_0800;
        Sdiv, b"sdiv" = 0x9ac0_0c00;
        Lslv, b"lslv" = 0x9ac0_2000;
        Lsrv, b"lsrv" = 0x9ac0_2400;
        Asrv, b"asrv" = 0x9ac0_2800;
    } };
}

macro_rules! imm_rows {
    ($use:ident, $of:expr) => { $use! { $of; ImmOp;
        Addi, b"addi" = 0x9100_0000;
        Addsi, b"addsi" = 0xb100_0000;
        Subi, b"subi" = 0xd100_0000;
        Subsi, b"subsi" = 0xf100_0000;
    } };
}

macro_rules! wide_rows {
    ($use:ident, $of:expr) => { $use! { $of; WideOp;
        Movz, b"movz" = 0xd280_0000;
        Movn, b"movn" = 0x9280_0000;
        Movk, b"movk" = 0xf280_0000;
    } };
}

macro_rules! mul_add_rows {
    ($use:ident, $of:expr) => { $use! { $of; MulAddOp;
        Madd, b"madd" = 0x9b00_0000;
        Msub, b"msub" = 0x9b00_8000;
    } };
}

macro_rules! bitfield_rows {
    ($use:ident, $of:expr) => { $use! { $of; BitfieldOp;
        Sbfm, b"sbfm" = 0x9340_0000;
        Ubfm, b"ubfm" = 0xd340_0000;
    } };
}

macro_rules! reverse_rows {
    ($use:ident, $of:expr) => { $use! { $of; ReverseOp;
        Rev, b"rev" = 0xdac0_0c00;
        Rev32, b"rev32" = 0xdac0_0800;
        Rev16, b"rev16" = 0xdac0_0400;
    } };
}

macro_rules! scaled_rows {
    ($use:ident, $of:expr) => { $use! { $of; ScaledOp;
        Ldr64, b"ldr64" = 0xf940_0000;
        Str64, b"str64" = 0xf900_0000;
        Ldr32, b"ldr32" = 0xb940_0000;
        Ldrs32, b"ldrs32" = 0xb980_0000;
        Str32, b"str32" = 0xb900_0000;
        Ldr16, b"ldr16" = 0x7940_0000;
        Ldrs16, b"ldrs16" = 0x7980_0000;
        Str16, b"str16" = 0x7900_0000;
        Ldr8, b"ldr8" = 0x3940_0000;
        Ldrs8, b"ldrs8" = 0x3980_0000;
        Str8, b"str8" = 0x3900_0000;
    } };
}

macro_rules! unscaled_rows {
    ($use:ident, $of:expr) => { $use! { $of; UnscaledOp;
        Ldur, b"ldur" = 0xf840_0000;
        Stur, b"stur" = 0xf800_0000;
    } };
}

macro_rules! branch_rows {
    ($use:ident, $of:expr) => { $use! { $of; BranchOp;
        B, b"b" = 0x1400_0000;
        Bl, b"bl" = 0x9400_0000;
    } };
}

macro_rules! branch_reg_rows {
    ($use:ident, $of:expr) => { $use! { $of; BranchRegOp;
        Br, b"br" = 0xd61f_0000;
        Blr, b"blr" = 0xd63f_0000;
        Ret, b"ret" = 0xd65f_0000;
    } };
}

macro_rules! conds {
    ($use:ident, $of:expr) => { $use! { $of; Cond;
        Eq, b"eq" = 0;
        Ne, b"ne" = 1;
        Cs, b"cs" = 2;
        Cc, b"cc" = 3;
        Mi, b"mi" = 4;
        Pl, b"pl" = 5;
        Vs, b"vs" = 6;
        Vc, b"vc" = 7;
        Hi, b"hi" = 8;
        Ls, b"ls" = 9;
        Ge, b"ge" = 10;
        Lt, b"lt" = 11;
        Gt, b"gt" = 12;
        Le, b"le" = 13;
    } };
}

impl RegOp {
    /// Returns the row's word, with 0 in the fields of the operands.
    pub(crate) fn word(self) -> u32
        ensures same { result ≡ (reg_row self).word }
        ensures free { (part 0 5 result ≡ 0) × (part 5 5 result ≡ 0) × (part 16 5 result ≡ 0) }
    {
        reg_rows!(word_of, self)
    }

    /// Returns the row's name.
    pub(crate) fn name(self) -> &'static [u8]
        ensures same { result.now ≡ (reg_row self).name }
        ensures short { length result.now ≤ 16 }
    {
        reg_rows!(name_of, self)
    }

    /// Returns the row with this word.
    #[tactic(auto, unfolding(crate::specs::Reading::reg_by_word))]
    pub(crate) fn find(word: u32) -> Option<RegOp>
        ensures { result ≡ reg_by_word word }
    {
        reg_rows!(op_with, word)
    }
}

impl ImmOp {
    /// Returns the row's word, with 0 in the fields of the operands.
    pub(crate) fn word(self) -> u32
        ensures same { result ≡ (imm_row self).word }
        ensures free { (part 0 5 result ≡ 0) × (part 5 5 result ≡ 0) × (part 10 12 result ≡ 0) × (part 22 1 result ≡ 0) }
    {
        imm_rows!(word_of, self)
    }

    /// Returns the row's name.
    pub(crate) fn name(self) -> &'static [u8]
        ensures same { result.now ≡ (imm_row self).name }
        ensures short { length result.now ≤ 16 }
    {
        imm_rows!(name_of, self)
    }

    /// Returns the row with this word.
    #[tactic(auto, unfolding(crate::specs::Reading::imm_by_word))]
    pub(crate) fn find(word: u32) -> Option<ImmOp>
        ensures { result ≡ imm_by_word word }
    {
        imm_rows!(op_with, word)
    }
}

impl WideOp {
    /// Returns the row's word, with 0 in the fields of the operands.
    pub(crate) fn word(self) -> u32
        ensures same { result ≡ (wide_row self).word }
        ensures free { (part 0 5 result ≡ 0) × (part 5 16 result ≡ 0) × (part 21 2 result ≡ 0) }
    {
        wide_rows!(word_of, self)
    }

    /// Returns the row's name.
    pub(crate) fn name(self) -> &'static [u8]
        ensures same { result.now ≡ (wide_row self).name }
        ensures short { length result.now ≤ 16 }
    {
        wide_rows!(name_of, self)
    }

    /// Returns the row with this word.
    #[tactic(auto, unfolding(crate::specs::Reading::wide_by_word))]
    pub(crate) fn find(word: u32) -> Option<WideOp>
        ensures { result ≡ wide_by_word word }
    {
        wide_rows!(op_with, word)
    }
}

impl MulAddOp {
    /// Returns the row's word, with 0 in the fields of the operands.
    pub(crate) fn word(self) -> u32
        ensures same { result ≡ (mul_add_row self).word }
        ensures free { (part 0 5 result ≡ 0) × (part 5 5 result ≡ 0) × (part 10 5 result ≡ 0) × (part 16 5 result ≡ 0) }
    {
        mul_add_rows!(word_of, self)
    }

    /// Returns the row's name.
    pub(crate) fn name(self) -> &'static [u8]
        ensures same { result.now ≡ (mul_add_row self).name }
        ensures short { length result.now ≤ 16 }
    {
        mul_add_rows!(name_of, self)
    }

    /// Returns the row with this word.
    #[tactic(auto, unfolding(crate::specs::Reading::mul_add_by_word))]
    pub(crate) fn find(word: u32) -> Option<MulAddOp>
        ensures { result ≡ mul_add_by_word word }
    {
        mul_add_rows!(op_with, word)
    }
}

impl BitfieldOp {
    /// Returns the row's word, with 0 in the fields of the operands.
    pub(crate) fn word(self) -> u32
        ensures same { result ≡ (bitfield_row self).word }
        ensures free { (part 0 5 result ≡ 0) × (part 5 5 result ≡ 0) × (part 10 6 result ≡ 0) × (part 16 6 result ≡ 0) }
    {
        bitfield_rows!(word_of, self)
    }

    /// Returns the row's name.
    pub(crate) fn name(self) -> &'static [u8]
        ensures same { result.now ≡ (bitfield_row self).name }
        ensures short { length result.now ≤ 16 }
    {
        bitfield_rows!(name_of, self)
    }

    /// Returns the row with this word.
    #[tactic(auto, unfolding(crate::specs::Reading::bitfield_by_word))]
    pub(crate) fn find(word: u32) -> Option<BitfieldOp>
        ensures { result ≡ bitfield_by_word word }
    {
        bitfield_rows!(op_with, word)
    }
}

impl ReverseOp {
    /// Returns the row's word, with 0 in the fields of the operands.
    pub(crate) fn word(self) -> u32
        ensures same { result ≡ (reverse_row self).word }
        ensures free { (part 0 5 result ≡ 0) × (part 5 5 result ≡ 0) }
    {
        reverse_rows!(word_of, self)
    }

    /// Returns the row's name.
    pub(crate) fn name(self) -> &'static [u8]
        ensures same { result.now ≡ (reverse_row self).name }
        ensures short { length result.now ≤ 16 }
    {
        reverse_rows!(name_of, self)
    }

    /// Returns the row with this word.
    #[tactic(auto, unfolding(crate::specs::Reading::reverse_by_word))]
    pub(crate) fn find(word: u32) -> Option<ReverseOp>
        ensures { result ≡ reverse_by_word word }
    {
        reverse_rows!(op_with, word)
    }
}

impl ScaledOp {
    /// Returns the row's word, with 0 in the fields of the operands.
    pub(crate) fn word(self) -> u32
        ensures same { result ≡ (scaled_row self).word }
        ensures free { (part 0 5 result ≡ 0) × (part 5 5 result ≡ 0) × (part 10 12 result ≡ 0) }
    {
        scaled_rows!(word_of, self)
    }

    /// Returns the row's name.
    pub(crate) fn name(self) -> &'static [u8]
        ensures same { result.now ≡ (scaled_row self).name }
        ensures short { length result.now ≤ 16 }
    {
        scaled_rows!(name_of, self)
    }

    /// Returns the row with this word.
    #[tactic(auto, unfolding(crate::specs::Reading::scaled_by_word))]
    pub(crate) fn find(word: u32) -> Option<ScaledOp>
        ensures { result ≡ scaled_by_word word }
    {
        scaled_rows!(op_with, word)
    }
}

impl UnscaledOp {
    /// Returns the row's word, with 0 in the fields of the operands.
    pub(crate) fn word(self) -> u32
        ensures same { result ≡ (unscaled_row self).word }
        ensures free { (part 0 5 result ≡ 0) × (part 5 5 result ≡ 0) × (part 12 9 result ≡ 0) }
    {
        unscaled_rows!(word_of, self)
    }

    /// Returns the row's name.
    pub(crate) fn name(self) -> &'static [u8]
        ensures same { result.now ≡ (unscaled_row self).name }
        ensures short { length result.now ≤ 16 }
    {
        unscaled_rows!(name_of, self)
    }

    /// Returns the row with this word.
    #[tactic(auto, unfolding(crate::specs::Reading::unscaled_by_word))]
    pub(crate) fn find(word: u32) -> Option<UnscaledOp>
        ensures { result ≡ unscaled_by_word word }
    {
        unscaled_rows!(op_with, word)
    }
}

impl BranchOp {
    /// Returns the row's word, with 0 in the fields of the operands.
    pub(crate) fn word(self) -> u32
        ensures same { result ≡ (branch_row self).word }
        ensures free { part 0 26 result ≡ 0 }
    {
        branch_rows!(word_of, self)
    }

    /// Returns the row's name.
    pub(crate) fn name(self) -> &'static [u8]
        ensures same { result.now ≡ (branch_row self).name }
        ensures short { length result.now ≤ 16 }
    {
        branch_rows!(name_of, self)
    }

    /// Returns the row with this word.
    #[tactic(auto, unfolding(crate::specs::Reading::branch_by_word))]
    pub(crate) fn find(word: u32) -> Option<BranchOp>
        ensures { result ≡ branch_by_word word }
    {
        branch_rows!(op_with, word)
    }
}

impl BranchRegOp {
    /// Returns the row's word, with 0 in the fields of the operands.
    pub(crate) fn word(self) -> u32
        ensures same { result ≡ (branch_reg_row self).word }
        ensures free { part 5 5 result ≡ 0 }
    {
        branch_reg_rows!(word_of, self)
    }

    /// Returns the row's name.
    pub(crate) fn name(self) -> &'static [u8]
        ensures same { result.now ≡ (branch_reg_row self).name }
        ensures short { length result.now ≤ 16 }
    {
        branch_reg_rows!(name_of, self)
    }

    /// Returns the row with this word.
    #[tactic(auto, unfolding(crate::specs::Reading::branch_reg_by_word))]
    pub(crate) fn find(word: u32) -> Option<BranchRegOp>
        ensures { result ≡ branch_reg_by_word word }
    {
        branch_reg_rows!(op_with, word)
    }
}

impl Cond {
    /// Returns the condition's number in words: 0 to 13.
    pub fn number(self) -> u8
        ensures same { result ≡ (cond_row self).word }
        ensures fits { result < 14 }
    {
        conds!(word_of, self)
    }

    /// Returns the condition's name: `eq`.
    pub fn name(self) -> Piece
        ensures { result ≡ (cond_row self).name }
    {
        Piece::of(self.letters())
    }

    fn letters(self) -> &'static [u8]
        ensures same { result.now ≡ (cond_row self).name }
        ensures short { length result.now ≤ 2 }
    {
        conds!(name_of, self)
    }

    /// Returns the condition with this number.
    #[tactic(auto, unfolding(crate::specs::Reading::cond_by_number))]
    pub(crate) fn find(number: u32) -> Option<Cond>
        ensures { result ≡ cond_by_number number }
    {
        conds!(op_with, number)
    }
}

impl Instr {
    /// Returns the row's name, as a listing prints it: `addi`, and with its condition `b.eq`.
    pub fn name(&self) -> Piece
        ensures { result ≡ name_of self.now }
    {
        match *self {
            Instr::Reg { op, .. } => Piece::of(op.name()),
            Instr::Imm { op, .. } => Piece::of(op.name()),
            Instr::Wide { op, .. } => Piece::of(op.name()),
            Instr::MulAdd { op, .. } => Piece::of(op.name()),
            Instr::Bitfield { op, .. } => Piece::of(op.name()),
            Instr::Csinc { .. } => Piece::of(b"csinc"),
            Instr::Reverse { op, .. } => Piece::of(op.name()),
            Instr::Scaled { op, .. } => Piece::of(op.name()),
            Instr::Ldrx { .. } => Piece::of(b"ldrx"),
            Instr::Unscaled { op, .. } => Piece::of(op.name()),
            Instr::Branch { op, .. } => Piece::of(op.name()),
            Instr::BranchIf { cond, .. } => branch_if_name(cond),
            Instr::BranchReg { op, .. } => Piece::of(op.name()),
            Instr::Nop => Piece::of(b"nop"),
        }
    }
}

fn branch_if_name(cond: Cond) -> Piece
    ensures { result ≡ branch_if_row.name ++ (cond_row cond).name }
{
    let mut name = Piece::of(b"b.");
    name.extend(cond.letters());
    name
}
