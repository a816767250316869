// Nodes of each kind of operand, and a set of each kind of register.

ghost use Rattle.std.specs.Prelude.{◌≤◌, length};

use bitflags::Flags;
use lg_live::{RegSet, reads, writes};
use lg_op::{Label, Node, Op, Operand, Operands, Reg};

// the registers that an operation with these operands reads and writes
fn used(name: &[u8], operands: &[Operand]) -> Option<(u8, u8)>
    requires { length operands.now ≤ 4 }
{
    let node = Node {
        op: Op::by_name(name)?,
        operands: Operands::of(operands),
        line: 1,
    };
    Some((reads(&node).bits(), writes(&node).bits()))
}

const R0: Operand = Operand::Reg(Reg::R0);

const R2: Operand = Operand::Reg(Reg::R2);

const V1: Operand = Operand::Reg(Reg::V1);

const FP: Operand = Operand::Reg(Reg::Fp);

const LABEL: Operand = Operand::Label(Label(0));

const NUMBER: Operand = Operand::Number(8);

// Operations with their operands, and the bits of the registers that are read and written.
const USES: &[(&[u8], &[Operand], (u8, u8))] = &[
    (b"addr", &[R0, R2, V1], (0b1_0100, 0b00_0001)),
    (b"qdivr", &[R0, V1, R0, V1], (0b1_0001, 0b1_0001)),
    (b"boaddi", &[LABEL, V1, NUMBER], (0b1_0000, 0b1_0000)),
    (b"stxi", &[NUMBER, FP, R2], (0b0_0100, 0)),
    (b"ldxr", &[R0, FP, R0], (0b0_0001, 0b0_0001)),
    (b"callr", &[V1], (0b1_0000, 0b0_0111)),
    (b"finishi", &[LABEL], (0, 0b0_0111)),
    (b"retr", &[V1], (0b1_0000, 0)),
    (b"epilog", &[], (0, 0)),
];

// Returns the first operation of the table that reads or writes others.
fn first_other_use() -> Option<&'static [u8]> {
    for (name, operands, wanted) in USES {
        if operands.len() > 4 || used(name, operands) != Some(*wanted) {
            return Some(name);
        }
    }
    None
}

// Returns whether a set holds the registers that were put in, but FP, which is none of the six.
fn are_registers_held() -> bool {
    let set = RegSet::none().with(Reg::V2).with(Reg::R1).with(Reg::Fp);
    let has_them = set.has(Reg::R1) && !set.has(Reg::R0) && !set.has(Reg::Fp);
    has_them && set.bits() == 0b10_0010 && RegSet::from_bits(64) == None
}

#[test]
fn follows_the_instruction_table(rt: HostRuntime) {
    assert_eq!(rt; first_other_use(), None);
    assert!(rt; are_registers_held());
}
