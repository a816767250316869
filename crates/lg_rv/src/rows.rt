// The rows of the table: each is written once, in a macro that the functions on rows use.

ghost use Rattle.std.specs.Prelude.{◌≡◌, ◌<◌, ◌≤◌, length};
ghost use Rattle.lg_rv.specs.Rows.{upper_row, branch_row, imm_row, shift_row, store_row, reg_row};
ghost use Rattle.lg_rv.specs.Spelling.{row_of};
ghost use Rattle.lg_rv.specs.Reading.{upper_by_row, branch_by_row, imm_by_row, shift_by_row, store_by_row, reg_by_row};

use crate::instruction::{BranchOp, ImmOp, Instr, RegOp, ShiftOp, StoreOp, UpperOp};
use lg_base::Piece;

/// The fields of a word that its row fixes: opcode, funct3 and the highest (funct7; of a shift by a
/// number funct6). A row that has something else in one of the last two has 0 there.
#[derive(Clone, Copy)]
pub struct Fixed {
    pub opcode: u32,
    pub funct3: u32,
    pub high: u32,
}

// `jal`, the one row with a jump's offset
pub(crate) const JAL: Fixed = Fixed {
    opcode: 0x6f,
    funct3: 0,
    high: 0,
};

// what a row fixes
macro_rules! fixed_of {
    ($op:expr; $type:ident; $($name:ident, $text:literal = $opcode:literal, $funct3:literal, $high:literal;)*) => {
        match $op { $($type::$name => Fixed { opcode: $opcode, funct3: $funct3, high: $high },)* }
    };
}

// a row's name
macro_rules! name_of {
    ($op:expr; $type:ident; $($name:ident, $text:literal = $opcode:literal, $funct3:literal, $high:literal;)*) => {
        match $op { $($type::$name => $text,)* }
    };
}

// the row that fixes these, of an opcode, a highest field and a funct3: in this order, since the rows of one opcode and highest field
// have few numbers in the third place, and the choice among them becomes a look-up in a table
macro_rules! op_with {
    ($fixed:expr; $type:ident; $($name:ident, $text:literal = $opcode:literal, $funct3:literal, $high:literal;)*) => {
        match $fixed { $(($opcode, $high, $funct3) => Some($type::$name),)* _ => None }
    };
}

macro_rules! upper_rows {
    ($use:ident, $of:expr) => { $use! { $of; UpperOp;
        Lui, b"lui" = 0x37, 0, 0;
        Auipc, b"auipc" = 0x17, 0, 0;
    } };
}

macro_rules! branch_rows {
    ($use:ident, $of:expr) => { $use! { $of; BranchOp;
        Beq, b"beq" = 0x63, 0, 0;
        Bne, b"bne" = 0x63, 1, 0;
        Blt, b"blt" = 0x63, 4, 0;
        Bge, b"bge" = 0x63, 5, 0;
        Bltu, b"bltu" = 0x63, 6, 0;
        Bgeu, b"bgeu" = 0x63, 7, 0;
    } };
}

macro_rules! imm_rows {
    ($use:ident, $of:expr) => { $use! { $of; ImmOp;
        Jalr, b"jalr" = 0x67, 0, 0;
        Lb, b"lb" = 0x03, 0, 0;
        Lh, b"lh" = 0x03, 1, 0;
        Lw, b"lw" = 0x03, 2, 0;
        Ld, b"ld" = 0x03, 3, 0;
        Lbu, b"lbu" = 0x03, 4, 0;
        Lhu, b"lhu" = 0x03, 5, 0;
        Lwu, b"lwu" = 0x03, 6, 0;
        Addi, b"addi" = 0x13, 0, 0;
        Slti, b"slti" = 0x13, 2, 0;
        Sltiu, b"sltiu" = 0x13, 3, 0;
        Xori, b"xori" = 0x13, 4, 0;
        Ori, b"ori" = 0x13, 6, 0;
        Andi, b"andi" = 0x13, 7, 0;
        Addiw, b"addiw" = 0x1b, 0, 0;
    } };
}

macro_rules! shift_rows {
    ($use:ident, $of:expr) => { $use! { $of; ShiftOp;
        Slli, b"slli" = 0x13, 1, 0;
        Srli, b"srli" = 0x13, 5, 0;
        Srai, b"srai" = 0x13, 5, 16;
        Slliw, b"slliw" = 0x1b, 1, 0;
        Srliw, b"srliw" = 0x1b, 5, 0;
        Sraiw, b"sraiw" = 0x1b, 5, 16;
    } };
}

macro_rules! store_rows {
    ($use:ident, $of:expr) => { $use! { $of; StoreOp;
        Sb, b"sb" = 0x23, 0, 0;
        Sh, b"sh" = 0x23, 1, 0;
        Sw, b"sw" = 0x23, 2, 0;
        Sd, b"sd" = 0x23, 3, 0;
    } };
}

macro_rules! reg_rows {
    ($use:ident, $of:expr) => { $use! { $of; RegOp;
        Add, b"add" = 0x33, 0, 0;
        Sub, b"sub" = 0x33, 0, 32;
        Sll, b"sll" = 0x33, 1, 0;
        Slt, b"slt" = 0x33, 2, 0;
        Sltu, b"sltu" = 0x33, 3, 0;
        Xor, b"xor" = 0x33, 4, 0;
        Srl, b"srl" = 0x33, 5, 0;
        Sra, b"sra" = 0x33, 5, 32;
        Or, b"or" = 0x33, 6, 0;
        And, b"and" = 0x33, 7, 0;
        Addw, b"addw" = 0x3b, 0, 0;
        Subw, b"subw" = 0x3b, 0, 32;
        Sllw, b"sllw" = 0x3b, 1, 0;
        Srlw, b"srlw" = 0x3b, 5, 0;
        Sraw, b"sraw" = 0x3b, 5, 32;
        Mul, b"mul" = 0x33, 0, 1;
        Mulh, b"mulh" = 0x33, 1, 1;
        Mulhsu, b"mulhsu" = 0x33, 2, 1;
        Mulhu, b"mulhu" = 0x33, 3, 1;
        Div, b"div" = 0x33, 4, 1;
        Divu, b"divu" = 0x33, 5, 1;
        Rem, b"rem" = 0x33, 6, 1;
        Remu, b"remu" = 0x33, 7, 1;
        Mulw, b"mulw" = 0x3b, 0, 1;
        Divw, b"divw" = 0x3b, 4, 1;
        Divuw, b"divuw" = 0x3b, 5, 1;
        Remw, b"remw" = 0x3b, 6, 1;
        Remuw, b"remuw" = 0x3b, 7, 1;
    } };
}

impl UpperOp {
    /// What the row fixes.
    pub(crate) fn fixed(self) -> Fixed
        ensures same { result ≡ (upper_row self).fixed }
        ensures fits { (result.opcode < 128) × (result.funct3 < 8) × (result.high < 128) }
    {
        upper_rows!(fixed_of, self)
    }

    /// Returns the row's name.
    pub(crate) fn name(self) -> &'static [u8]
        ensures same { result.now ≡ (upper_row self).name }
        ensures short { length result.now ≤ 16 }
    {
        upper_rows!(name_of, self)
    }

    /// Returns the row that fixes these.
    #[tactic(auto, unfolding(crate::specs::Reading::upper_by_row))]
    pub(crate) fn find(opcode: u32, funct3: u32, high: u32) -> Option<UpperOp>
        ensures { result ≡ upper_by_row opcode funct3 high }
    {
        upper_rows!(op_with, (opcode, high, funct3))
    }
}

impl BranchOp {
    /// What the row fixes.
    pub(crate) fn fixed(self) -> Fixed
        ensures same { result ≡ (branch_row self).fixed }
        ensures fits { (result.opcode < 128) × (result.funct3 < 8) × (result.high < 128) }
    {
        branch_rows!(fixed_of, self)
    }

    /// Returns the row's name.
    pub(crate) fn name(self) -> &'static [u8]
        ensures same { result.now ≡ (branch_row self).name }
        ensures short { length result.now ≤ 16 }
    {
        branch_rows!(name_of, self)
    }

    /// Returns the row that fixes these.
    #[tactic(auto, unfolding(crate::specs::Reading::branch_by_row))]
    pub(crate) fn find(opcode: u32, funct3: u32, high: u32) -> Option<BranchOp>
        ensures { result ≡ branch_by_row opcode funct3 high }
    {
        branch_rows!(op_with, (opcode, high, funct3))
    }
}

impl ImmOp {
    /// What the row fixes.
    pub(crate) fn fixed(self) -> Fixed
        ensures same { result ≡ (imm_row self).fixed }
        ensures fits { (result.opcode < 128) × (result.funct3 < 8) × (result.high < 128) }
    {
        imm_rows!(fixed_of, self)
    }

    /// Returns the row's name.
    pub(crate) fn name(self) -> &'static [u8]
        ensures same { result.now ≡ (imm_row self).name }
        ensures short { length result.now ≤ 16 }
    {
        imm_rows!(name_of, self)
    }

    /// Returns the row that fixes these.
    #[tactic(auto, unfolding(crate::specs::Reading::imm_by_row))]
    pub(crate) fn find(opcode: u32, funct3: u32, high: u32) -> Option<ImmOp>
        ensures { result ≡ imm_by_row opcode funct3 high }
    {
        imm_rows!(op_with, (opcode, high, funct3))
    }
}

impl ShiftOp {
    /// What the row fixes.
    pub(crate) fn fixed(self) -> Fixed
        ensures same { result ≡ (shift_row self).fixed }
        ensures fits { (result.opcode < 128) × (result.funct3 < 8) × (result.high < 128) }
    {
        shift_rows!(fixed_of, self)
    }

    /// Returns the row's name.
    pub(crate) fn name(self) -> &'static [u8]
        ensures same { result.now ≡ (shift_row self).name }
        ensures short { length result.now ≤ 16 }
    {
        shift_rows!(name_of, self)
    }

    /// Returns the row that fixes these.
    #[tactic(auto, unfolding(crate::specs::Reading::shift_by_row))]
    pub(crate) fn find(opcode: u32, funct3: u32, high: u32) -> Option<ShiftOp>
        ensures { result ≡ shift_by_row opcode funct3 high }
    {
        shift_rows!(op_with, (opcode, high, funct3))
    }
}

impl StoreOp {
    /// What the row fixes.
    pub(crate) fn fixed(self) -> Fixed
        ensures same { result ≡ (store_row self).fixed }
        ensures fits { (result.opcode < 128) × (result.funct3 < 8) × (result.high < 128) }
    {
        store_rows!(fixed_of, self)
    }

    /// Returns the row's name.
    pub(crate) fn name(self) -> &'static [u8]
        ensures same { result.now ≡ (store_row self).name }
        ensures short { length result.now ≤ 16 }
    {
        store_rows!(name_of, self)
    }

    /// Returns the row that fixes these.
    #[tactic(auto, unfolding(crate::specs::Reading::store_by_row))]
    pub(crate) fn find(opcode: u32, funct3: u32, high: u32) -> Option<StoreOp>
        ensures { result ≡ store_by_row opcode funct3 high }
    {
        store_rows!(op_with, (opcode, high, funct3))
    }
}

impl RegOp {
    /// What the row fixes.
    pub(crate) fn fixed(self) -> Fixed
        ensures same { result ≡ (reg_row self).fixed }
        ensures fits { (result.opcode < 128) × (result.funct3 < 8) × (result.high < 128) }
    {
        reg_rows!(fixed_of, self)
    }

    /// Returns the row's name.
    pub(crate) fn name(self) -> &'static [u8]
        ensures same { result.now ≡ (reg_row self).name }
        ensures short { length result.now ≤ 16 }
    {
        reg_rows!(name_of, self)
    }

    /// Returns the row that fixes these.
    #[tactic(auto, unfolding(crate::specs::Reading::reg_by_row))]
    pub(crate) fn find(opcode: u32, funct3: u32, high: u32) -> Option<RegOp>
        ensures { result ≡ reg_by_row opcode funct3 high }
    {
        reg_rows!(op_with, (opcode, high, funct3))
    }
}

impl Instr {
    /// Returns the row's name, as a listing prints it: `addi`.
    pub fn name(&self) -> Piece
        ensures { result ≡ (row_of self.now).name }
    {
        match *self {
            Instr::Upper { op, .. } => Piece::of(op.name()),
            Instr::Jal { .. } => Piece::of(b"jal"),
            Instr::Branch { op, .. } => Piece::of(op.name()),
            Instr::Imm { op, .. } => Piece::of(op.name()),
            Instr::Shift { op, .. } => Piece::of(op.name()),
            Instr::Store { op, .. } => Piece::of(op.name()),
            Instr::Reg { op, .. } => Piece::of(op.name()),
        }
    }
}
