// From instructions to bytes.

ghost use Rattle.std.specs.Prelude.{◌≡◌, ◌<◌, ◌≤◌, ◌+◌, ◌++◌, length};
ghost use Rattle.lg_x86.specs.Spelling.{IsInstr, spelling, rex, size_prefix, opcode_bytes, memory, memory_mode, number_bytes, imm_opcode};

use crate::fields::{extension_of, fits_short, long_of, modrm_of, short_byte, sib_of};
use crate::instruction::{
    BareOp, Cond, ImmOp, Instr, JumpNearOp, JumpRegOp, LoadOp, RegRmOp, RmRegOp, ShiftOp, StackOp,
    StoreOp, UnaryOp,
};
use crate::rows::Mark;
use lg_base::Piece;

/// Returns the bytes of an instruction whose numbers are in its row's ranges: 1 to 10 bytes.
pub fn encode(instr: &Instr) -> Piece
    requires { IsInstr instr.now }
    ensures { result ≡ spelling instr.now }
{
    match *instr {
        Instr::RmReg { op, rm, reg } => rm_reg(op, rm, reg),
        Instr::Imm { op, rm, imm } => imm_piece(op, rm, imm),
        Instr::RegRm { op, reg, rm } => reg_rm(op, reg, rm),
        Instr::Load {
            op,
            reg,
            base,
            disp,
        } => load(op, reg, base, disp),
        Instr::Store {
            op,
            base,
            disp,
            reg,
        } => store(op, base, disp, reg),
        Instr::Lea2 { reg, base, index } => lea2(reg, base, index),
        Instr::Movi32 { reg, imm } => movi32(reg, imm),
        Instr::Movs32 { rm, imm } => movs32(rm, imm),
        Instr::Movi64 { reg, imm } => movi64(reg, imm),
        Instr::Unary { op, rm } => unary(op, rm),
        Instr::Shift { op, rm, count } => shift(op, rm, count),
        Instr::Bswap { reg } => bswap(reg),
        Instr::Stack { op, reg } => stack(op, reg),
        Instr::JumpIfShort { cond, distance } => jump_if_short(cond, distance),
        Instr::JumpIfNear { cond, distance } => jump_if_near(cond, distance),
        Instr::Set { cond, rm } => set(cond, rm),
        Instr::JumpShort { distance } => jump_short(distance),
        Instr::JumpNear { op, distance } => jump_near(op, distance),
        Instr::JumpReg { op, rm } => jump_reg(op, rm),
        Instr::Bare { op } => bare(op),
    }
}

// REX, where it is
fn rex_piece(mark: Mark, bits: u8) -> Piece
    requires { bits < 8 }
    ensures value { result ≡ rex mark bits }
    ensures short { length result ≤ 1 }
{
    match mark {
        Mark::Wide => Piece::of(&[0x48 + bits]),
        Mark::Low => Piece::of(&[0x40 + bits]),
        Mark::Plain => plain_rex(bits),
    }
}

fn plain_rex(bits: u8) -> Piece
    requires { bits < 8 }
    ensures value { result ≡ rex Mark.Plain bits }
    ensures short { length result ≤ 1 }
{
    if bits == 0 {
        Piece::new()
    } else {
        Piece::of(&[0x40 + bits])
    }
}

// the size prefix and REX, where they are
fn sized_rex_piece(is_word_sized: bool, mark: Mark, bits: u8) -> Piece
    requires { bits < 8 }
    ensures value { result ≡ size_prefix is_word_sized ++ rex mark bits }
    ensures short { length result ≤ 2 }
{
    if !is_word_sized {
        return rex_piece(mark, bits);
    }
    let mut piece = Piece::of(&[0x66]);
    piece.extend(rex_piece(mark, bits).as_slice());
    piece
}

fn push_opcode(piece: &mut Piece, is_escaped: bool, opcode: u8)
    requires { length piece.old ≤ 2 }
    ensures value { piece.new ≡ piece.old ++ opcode_bytes is_escaped opcode }
    ensures short { length piece.new ≤ length piece.old + 2 }
{
    if is_escaped {
        piece.extend(&[0x0f, opcode]);
    } else {
        piece.push(opcode);
    }
}

// ModRM, SIB and the displacement of the operand [base + disp]
fn push_memory(piece: &mut Piece, reg: u8, base: u8, disp: i32)
    requires { length piece.old ≤ 4 }
    ensures { piece.new ≡ piece.old ++ memory reg base disp }
{
    piece.push(modrm_of(mode_of(disp), reg, base));
    if base % 8 == 4 {
        piece.push(sib_of(4, base));
    }
    push_number(piece, disp);
}

fn mode_of(disp: i32) -> u8
    ensures value { result ≡ memory_mode disp }
    ensures fits { result < 4 }
{
    if fits_short(disp) { 1 } else { 2 }
}

// a number in one byte, or else in four
fn push_number(piece: &mut Piece, number: i32)
    requires { length piece.old ≤ 12 }
    ensures { piece.new ≡ piece.old ++ number_bytes number }
{
    if fits_short(number) {
        piece.push(short_byte(number));
    } else {
        piece.extend(&long_of(number));
    }
}

fn rm_reg(op: RmRegOp, rm: u8, reg: u8) -> Piece
    requires { IsInstr (Instr.RmReg op rm reg) }
    ensures { result ≡ spelling (Instr.RmReg op rm reg) }
{
    let mut piece = rex_piece(Mark::Wide, extension_of(reg, 0, rm));
    piece.extend(&[op.opcode(), modrm_of(3, reg, rm)]);
    piece
}

fn imm_piece(op: ImmOp, rm: u8, imm: i32) -> Piece
    requires { IsInstr (Instr.Imm op rm imm) }
    ensures { result ≡ spelling (Instr.Imm op rm imm) }
{
    let mut piece = rex_piece(Mark::Wide, extension_of(0, 0, rm));
    piece.extend(&[imm_opcode_of(imm), modrm_of(3, op.digit(), rm)]);
    push_number(&mut piece, imm);
    piece
}

fn imm_opcode_of(imm: i32) -> u8
    ensures { result ≡ imm_opcode imm }
{
    if fits_short(imm) { 0x83 } else { 0x81 }
}

fn reg_rm(op: RegRmOp, reg: u8, rm: u8) -> Piece
    requires { IsInstr (Instr.RegRm op reg rm) }
    ensures { result ≡ spelling (Instr.RegRm op reg rm) }
{
    let mut piece = rex_piece(op.mark(), extension_of(reg, 0, rm));
    push_opcode(&mut piece, op.is_escaped(), op.opcode());
    piece.extend(&[modrm_of(3, reg, rm)]);
    piece
}

fn load(op: LoadOp, reg: u8, base: u8, disp: i32) -> Piece
    requires { IsInstr (Instr.Load op reg base disp) }
    ensures { result ≡ spelling (Instr.Load op reg base disp) }
{
    let mut piece = rex_piece(op.mark(), extension_of(reg, 0, base));
    push_opcode(&mut piece, op.is_escaped(), op.opcode());
    push_memory(&mut piece, reg, base, disp);
    piece
}

fn store(op: StoreOp, base: u8, disp: i32, reg: u8) -> Piece
    requires { IsInstr (Instr.Store op base disp reg) }
    ensures { result ≡ spelling (Instr.Store op base disp reg) }
{
    let bits = extension_of(reg, 0, base);
    let mut piece = sized_rex_piece(op.is_word_sized(), op.mark(), bits);
    piece.push(op.opcode());
    push_memory(&mut piece, reg, base, disp);
    piece
}

fn lea2(reg: u8, base: u8, index: u8) -> Piece
    requires { IsInstr (Instr.Lea2 reg base index) }
    ensures { result ≡ spelling (Instr.Lea2 reg base index) }
{
    let mut piece = rex_piece(Mark::Wide, extension_of(reg, index, base));
    piece.extend(&[0x8d, modrm_of(1, reg, 4), sib_of(index, base), 0]);
    piece
}

fn movi32(reg: u8, imm: u32) -> Piece
    requires { IsInstr (Instr.Movi32 reg imm) }
    ensures { result ≡ spelling (Instr.Movi32 reg imm) }
{
    let mut piece = rex_piece(Mark::Plain, extension_of(0, 0, reg));
    piece.extend(&[0xb8 + reg % 8]);
    piece.extend(&imm.to_le_bytes());
    piece
}

fn movs32(rm: u8, imm: i32) -> Piece
    requires { IsInstr (Instr.Movs32 rm imm) }
    ensures { result ≡ spelling (Instr.Movs32 rm imm) }
{
    let mut piece = rex_piece(Mark::Wide, extension_of(0, 0, rm));
    piece.extend(&[0xc7, modrm_of(3, 0, rm)]);
    piece.extend(&long_of(imm));
    piece
}

fn movi64(reg: u8, imm: u64) -> Piece
    requires { IsInstr (Instr.Movi64 reg imm) }
    ensures { result ≡ spelling (Instr.Movi64 reg imm) }
{
    let mut piece = rex_piece(Mark::Wide, extension_of(0, 0, reg));
    piece.extend(&[0xb8 + reg % 8]);
    piece.extend(&imm.to_le_bytes());
    piece
}

fn unary(op: UnaryOp, rm: u8) -> Piece
    requires { IsInstr (Instr.Unary op rm) }
    ensures { result ≡ spelling (Instr.Unary op rm) }
{
    let mut piece = rex_piece(Mark::Wide, extension_of(0, 0, rm));
    piece.extend(&[op.opcode(), modrm_of(3, op.digit(), rm)]);
    piece
}

fn shift(op: ShiftOp, rm: u8, count: u8) -> Piece
    requires { IsInstr (Instr.Shift op rm count) }
    ensures { result ≡ spelling (Instr.Shift op rm count) }
{
    let mut piece = rex_piece(Mark::Wide, extension_of(0, 0, rm));
    piece.extend(&[0xc1, modrm_of(3, op.digit(), rm), count]);
    piece
}

fn bswap(reg: u8) -> Piece
    requires { IsInstr (Instr.Bswap reg) }
    ensures { result ≡ spelling (Instr.Bswap reg) }
{
    let mut piece = rex_piece(Mark::Wide, extension_of(0, 0, reg));
    piece.extend(&[0x0f, 0xc8 + reg % 8]);
    piece
}

fn stack(op: StackOp, reg: u8) -> Piece
    requires { IsInstr (Instr.Stack op reg) }
    ensures { result ≡ spelling (Instr.Stack op reg) }
{
    let mut piece = rex_piece(Mark::Plain, extension_of(0, 0, reg));
    piece.extend(&[op.opcode() + reg % 8]);
    piece
}

fn jump_if_short(cond: Cond, distance: i32) -> Piece
    requires { IsInstr (Instr.JumpIfShort cond distance) }
    ensures { result ≡ spelling (Instr.JumpIfShort cond distance) }
{
    Piece::of(&[0x70 + cond.number(), short_byte(distance)])
}

fn jump_if_near(cond: Cond, distance: i32) -> Piece
    requires { IsInstr (Instr.JumpIfNear cond distance) }
    ensures { result ≡ spelling (Instr.JumpIfNear cond distance) }
{
    let mut piece = Piece::of(&[0x0f, 0x80 + cond.number()]);
    piece.extend(&long_of(distance));
    piece
}

fn set(cond: Cond, rm: u8) -> Piece
    requires { IsInstr (Instr.Set cond rm) }
    ensures { result ≡ spelling (Instr.Set cond rm) }
{
    let mut piece = rex_piece(Mark::Low, extension_of(0, 0, rm));
    piece.extend(&[0x0f, 0x90 + cond.number(), modrm_of(3, 0, rm)]);
    piece
}

fn jump_short(distance: i32) -> Piece
    requires { IsInstr (Instr.JumpShort distance) }
    ensures { result ≡ spelling (Instr.JumpShort distance) }
{
    Piece::of(&[0xeb, short_byte(distance)])
}

fn jump_near(op: JumpNearOp, distance: i32) -> Piece
    requires { IsInstr (Instr.JumpNear op distance) }
    ensures { result ≡ spelling (Instr.JumpNear op distance) }
{
    let mut piece = Piece::of(&[op.opcode()]);
    piece.extend(&long_of(distance));
    piece
}

fn jump_reg(op: JumpRegOp, rm: u8) -> Piece
    requires { IsInstr (Instr.JumpReg op rm) }
    ensures { result ≡ spelling (Instr.JumpReg op rm) }
{
    let mut piece = rex_piece(Mark::Plain, extension_of(0, 0, rm));
    piece.extend(&[0xff, modrm_of(3, op.digit(), rm)]);
    piece
}

fn bare(op: BareOp) -> Piece
    requires { IsInstr (Instr.Bare op) }
    ensures { result ≡ spelling (Instr.Bare op) }
{
    let mut piece = rex_piece(op.mark(), 0);
    piece.extend(&[op.opcode()]);
    piece
}
