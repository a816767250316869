// What is made of texts: nodes with their operands, places of labels and bytes of data; and the largest texts.

use crate::rows::{Kind, Made, Piece, Table, made};
use crate::units::read;
use lg_node::{Label, Node, NodeList, Op, Operand, Place, Reg};
use std::alloc::{AllocError, Global};
use std::test::Fail;

// Every operation, each with operands in a line of its own. A name that ends with `_l` is that of an operation whose own name does not.
const INSTRUCTIONS: &str =
    "addr %r0 %v1 %v1\naddi %r0 %v1 'a'\nsubr %r0 %v1 %v1\nsubi %r0 %v1 'a'\nrsbr %r0 %v1 %v1\nrsbi %r0 %v1 'a'\nmulr %r0 %v1 %v1\n\
    muli %r0 %v1 'a'\nandr %r0 %v1 %v1\nandi %r0 %v1 'a'\norr %r0 %v1 %v1\nori %r0 %v1 'a'\nxorr %r0 %v1 %v1\nxori %r0 %v1 'a'\n\
    lshr %r0 %v1 %v1\nlshi %r0 %v1 'a'\nrshr %r0 %v1 %v1\nrshi %r0 %v1 'a'\nrshr_u %r0 %v1 %v1\nrshi_u %r0 %v1 'a'\ndivr %r0 %v1 %v1\n\
    divi %r0 %v1 'a'\ndivr_u %r0 %v1 %v1\ndivi_u %r0 %v1 'a'\nremr %r0 %v1 %v1\nremi %r0 %v1 'a'\nremr_u %r0 %v1 %v1\nremi_u %r0 %v1 'a'\n\
    addcr %r0 %v1 %v1\naddci %r0 %v1 'a'\nsubcr %r0 %v1 %v1\nsubci %r0 %v1 'a'\naddxr %r0 %v1 %v1\naddxi %r0 %v1 'a'\nsubxr %r0 %v1 %v1\n\
    subxi %r0 %v1 'a'\nltr %r0 %v1 %v1\nlti %r0 %v1 'a'\nltr_u %r0 %v1 %v1\nlti_u %r0 %v1 'a'\nler %r0 %v1 %v1\nlei %r0 %v1 'a'\n\
    ler_u %r0 %v1 %v1\nlei_u %r0 %v1 'a'\nger %r0 %v1 %v1\ngei %r0 %v1 'a'\nger_u %r0 %v1 %v1\ngei_u %r0 %v1 'a'\ngtr %r0 %v1 %v1\n\
    gti %r0 %v1 'a'\ngtr_u %r0 %v1 %v1\ngti_u %r0 %v1 'a'\neqr %r0 %v1 %v1\neqi %r0 %v1 'a'\nner %r0 %v1 %v1\nnei %r0 %v1 'a'\n\
    qmulr %r0 %v1 %v1 %v1\nqmuli %r0 %v1 %v1 'a'\nqmulr_u %r0 %v1 %v1 %v1\nqmuli_u %r0 %v1 %v1 'a'\nqdivr %r0 %v1 %v1 %v1\n\
    qdivi %r0 %v1 %v1 'a'\nqdivr_u %r0 %v1 %v1 %v1\nqdivi_u %r0 %v1 %v1 'a'\nbltr here %v1 %v1\nblti here %v1 'a'\nbltr_u here %v1 %v1\n\
    blti_u here %v1 'a'\nbler here %v1 %v1\nblei here %v1 'a'\nbler_u here %v1 %v1\nblei_u here %v1 'a'\nbger here %v1 %v1\n\
    bgei here %v1 'a'\nbger_u here %v1 %v1\nbgei_u here %v1 'a'\nbgtr here %v1 %v1\nbgti here %v1 'a'\nbgtr_u here %v1 %v1\n\
    bgti_u here %v1 'a'\nbeqr here %v1 %v1\nbeqi here %v1 'a'\nbner here %v1 %v1\nbnei here %v1 'a'\nbmsr here %v1 %v1\nbmsi here %v1 'a'\n\
    bmcr here %v1 %v1\nbmci here %v1 'a'\nboaddr here %v1 %v1\nboaddi here %v1 'a'\nboaddr_u here %v1 %v1\nboaddi_u here %v1 'a'\n\
    bosubr here %v1 %v1\nbosubi here %v1 'a'\nbosubr_u here %v1 %v1\nbosubi_u here %v1 'a'\nbxaddr here %v1 %v1\nbxaddi here %v1 'a'\n\
    bxaddr_u here %v1 %v1\nbxaddi_u here %v1 'a'\nbxsubr here %v1 %v1\nbxsubi here %v1 'a'\nbxsubr_u here %v1 %v1\nbxsubi_u here %v1 'a'\n\
    jmpr %r0\njmpi here\ncallr %r0\ncalli @puts\nfinishr %r0\nfinishi @puts\npushargr %r0\npushargi 'a'\nretr %r0\nreti 'a'\nnegr %r0 %v1\n\
    comr %r0 %v1\nmovr %r0 %v1\nextr_c %r0 %v1\nextr_uc %r0 %v1\nextr_s %r0 %v1\nextr_us %r0 %v1\nextr_i %r0 %v1\nextr_ui %r0 %v1\n\
    htonr_us %r0 %v1\nhtonr_ui %r0 %v1\nhtonr_ul %r0 %v1\nmovi %r0 'a'\nprepare\nellipsis\nprolog\nepilog\nret\narg $a\nallocai 010 $b\n\
    .align $(1 << 4)\nva_start %r0\nva_arg %r0 %v1\nva_end %r0\nldr_c %r0 %v1\nldi_c %r0 'a'\nldxr_c %r0 %v1 %v1\nldxi_c %r0 %v1 'a'\n\
    ldr_uc %r0 %v1\nldi_uc %r0 'a'\nldxr_uc %r0 %v1 %v1\nldxi_uc %r0 %v1 'a'\nldr_s %r0 %v1\nldi_s %r0 'a'\nldxr_s %r0 %v1 %v1\n\
    ldxi_s %r0 %v1 'a'\nldr_us %r0 %v1\nldi_us %r0 'a'\nldxr_us %r0 %v1 %v1\nldxi_us %r0 %v1 'a'\nldr_i %r0 %v1\nldi_i %r0 'a'\n\
    ldxr_i %r0 %v1 %v1\nldxi_i %r0 %v1 'a'\nldr_ui %r0 %v1\nldi_ui %r0 'a'\nldxr_ui %r0 %v1 %v1\nldxi_ui %r0 %v1 'a'\nldr %r0 %v1\n\
    ldi %r0 'a'\nldxr %r0 %v1 %v1\nldxi %r0 %v1 'a'\nstr_c %r0 %v1\nsti_c 'a' %v1\nstxr_c %r0 %v1 %v1\nstxi_c 'a' %v1 %v1\nstr_s %r0 %v1\n\
    sti_s 'a' %v1\nstxr_s %r0 %v1 %v1\nstxi_s 'a' %v1 %v1\nstr_i %r0 %v1\nsti_i 'a' %v1\nstxr_i %r0 %v1 %v1\nstxi_i 'a' %v1 %v1\n\
    str %r0 %v1\nsti 'a' %v1\nstxr %r0 %v1 %v1\nstxi 'a' %v1 %v1\nretval_c %r0\nretval_uc %r0\nretval_s %r0\nretval_us %r0\nretval_i %r0\n\
    retval_ui %r0\nretval %r0\ngetarg_c %r0 $a\ngetarg_uc %r0 $a\ngetarg_s %r0 $a\ngetarg_us %r0 $a\ngetarg_i %r0 $a\ngetarg_ui %r0 $a\n\
    getarg %r0 $a\nldr_l %r0 %v1\nldi_l %r0 'a'\nldxr_l %r0 %v1 %v1\nldxi_l %r0 %v1 'a'\nstr_l %r0 %v1\nsti_l 'a' %v1\nstxr_l %r0 %v1 %v1\n\
    stxi_l 'a' %v1 %v1\nretval_l %r0\ngetarg_l %r0 $a\n";

// A text of `prolog`, and 1,048,575 times `ret` in lines of their own.
const FULL: &[Piece] = &[Piece::Of(b"prolog"), Piece::Times(b"\nret", 1_048_575)];

// What is after 1,048,576 nodes, and what comes of the whole text.
const BEHIND_THE_LAST_NODE: &str = "1048576\x1f x: .data 1 .align 1 note\x1e\
        TooManyNodes 1048576\x1f ret\x1e\
        TooManyNodes 1048576\x1f movi\x1e\
        TooManyNodes 1048576\x1f .align 3\x1e\
        UnknownName 1048576\x1f nop\x1e\
        FloatRefused 1048576\x1f x_f";

const TABLES: &[Table] = &[(Kind::Nodes, FULL, BEHIND_THE_LAST_NODE)];

// A text of 16,777,216 bytes of data, and a label after them.
const FULL_DATA: &[Piece] = &[
    Piece::Of(b".data 16777216 .c \""),
    Piece::Times(b"a", 16_777_151),
    Piece::Of(b"\" .size 64 x:"),
];

// What comes of texts of pieces: bytes of data.
const MADE: &[Made] = &[
    (
        Kind::Image,
        &[Piece::Of(b".data 4 word: .s -2 .code main: prolog\nallocai 9 $x movi %r0 $x jmpi main")],
        (b"\xfe\xff\0\0", &[]),
    ),
    (
        Kind::Image,
        &[Piece::Of(
            b".data 24 .c -1 256 \"a\\n\" 'b' .s 0x1234 .i -2 .align 4 .l $(1 << 40 | 3) .size 1",
        )],
        (
            b"\xff\0a\n\0b\x34\x12\xfe\xff\xff\xff\x03\0\0\0\0\x01\0\0\0\0\0\0",
            &[],
        ),
    ),
    (
        Kind::Image,
        FULL_DATA,
        (
            b"",
            &[Piece::Times(b"a", 16_777_151), Piece::Times(b"\0", 65)],
        ),
    ),
];

// The last operand of a node, with its line.
type Last = (u32, Option<Operand>);

// A text, the places of its labels, and the lines and last operands of its nodes.
type Reading = (&'static [Piece], &'static [Place], &'static [Last]);

// Labels, bound to nodes and bytes; a local that is at -144; arguments and locals at -136, -152 and, in the second function, -136; numbers of the first
// variable argument, which count the `arg`s since the `prolog`; and a label after the largest data.
const READINGS: &[Reading] = &[
    (
        &[Piece::Of(b"prolog f: jmpi g .data 16 .c 1 x: .align 8 y: .c 1 z: .code ret g:")],
        &[
            Place::Node(1),
            Place::Node(3),
            Place::Image(1),
            Place::Image(8),
            Place::Image(9),
        ],
        &[(1, None), (1, Some(Operand::Label(Label(1)))), (1, None)],
    ),
    (
        &[Piece::Of(b".data 4 word: .s -2 .code main: prolog\nallocai 9 $x movi %r0 $x jmpi main")],
        &[Place::Image(0), Place::Node(0)],
        &[
            (1, None),
            (2, Some(Operand::Slot(0))),
            (2, Some(Operand::Number(18_446_744_073_709_551_472))),
            (2, Some(Operand::Label(Label(1)))),
        ],
    ),
    (
        &[Piece::Of(
            b"prolog arg $a allocai 8 $b arg $c allocai 9 $d\nmovi %r0 $b movi %r0 $d getarg %r0 $c prolog allocai 1 $d movi %r0 $d",
        )],
        &[],
        &[
            (1, None),
            (1, Some(Operand::Slot(0))),
            (1, Some(Operand::Slot(0))),
            (1, Some(Operand::Slot(1))),
            (1, Some(Operand::Slot(1))),
            (2, Some(Operand::Number(18_446_744_073_709_551_480))),
            (2, Some(Operand::Number(18_446_744_073_709_551_464))),
            (2, Some(Operand::Slot(1))),
            (2, None),
            (2, Some(Operand::Slot(0))),
            (2, Some(Operand::Number(18_446_744_073_709_551_480))),
        ],
    ),
    (
        &[Piece::Of(
            b"prolog va_start %r0 arg $a arg $b ellipsis va_start %r0\nva_arg %r1 %r0 va_end %r0 prolog va_start %v0",
        )],
        &[],
        &[
            (1, None),
            (1, Some(Operand::Number(0))),
            (1, Some(Operand::Slot(0))),
            (1, Some(Operand::Slot(1))),
            (1, None),
            (1, Some(Operand::Number(2))),
            (2, Some(Operand::Reg(Reg::R0))),
            (2, Some(Operand::Reg(Reg::R0))),
            (2, None),
            (2, Some(Operand::Number(0))),
        ],
    ),
    (FULL_DATA, &[Place::Image(16_777_216)], &[]),
];

// Returns whether the labels of nodes have these places.
fn are_bound(nodes: &NodeList, places: &[Place]) -> bool {
    for label in 0..nodes.labels() {
        if nodes.place(Label(label)) != places.get(label as usize).copied() {
            return false;
        }
    }
    nodes.labels() as usize == places.len()
}

// Returns whether the nodes have these lines and last operands.
fn end_so(nodes: &NodeList, ends: &[Last]) -> bool {
    for index in 0..nodes.len() {
        let Node { operands, line, .. } = nodes.node(index);
        let last = (line, operands.as_slice().last().copied());
        if ends.get(index as usize).copied() != Some(last) {
            return false;
        }
    }
    nodes.len() as usize == ends.len()
}

// Whether a text is read so.
fn is_read_so(alloc: Global, reading: &Reading) -> Result<bool, AllocError> {
    let (pieces, places, ends) = reading;
    let text = made(alloc, pieces)?;
    match read(alloc, &text) {
        Ok(unit) => Ok(are_bound(&unit.nodes, places) && end_so(&unit.nodes, ends)),
        Err(_) => Ok(false),
    }
}

// Returns whether a node is that of an instruction, in a line of its own.
fn is_instruction(node: &Node, instruction: &str, index: u32) -> bool {
    let (name, _) = instruction.split_once(' ').unwrap_or((instruction, ""));
    let own = name.strip_suffix("_l").unwrap_or(name);
    Op::by_name(name.as_bytes()) == Some(node.op)
        && node.op.name().as_slice() == own.as_bytes()
        && node.line == index.wrapping_add(1)
}

// Returns whether the nodes are those of the instructions.
fn are_instructions(nodes: &NodeList) -> bool {
    let mut index = 0u32;
    for instruction in INSTRUCTIONS.lines() {
        if index >= nodes.len() || !is_instruction(&nodes.node(index), instruction, index) {
            return false;
        }
        index = index.wrapping_add(1);
    }
    (index, nodes.len()) == (206, 206)
}

// Returns whether every instruction is read.
fn is_every_instruction_read(alloc: Global) -> bool {
    match read(alloc, INSTRUCTIONS.as_bytes()) {
        Ok(unit) => are_instructions(&unit.nodes),
        Err(_) => false,
    }
}

// Whether every instruction is read, and each text as it should be.
fn are_read(alloc: Global) -> Result<bool, AllocError> {
    for reading in READINGS {
        if !is_read_so(alloc, reading)? {
            return Ok(false);
        }
    }
    Ok(is_every_instruction_read(alloc))
}

#[test]
fn reads_nodes(rt: HostRuntime) -> Result<(), Fail> {
    assert!(rt; are_read(rt.alloc())?);
    Ok(())
}

/// What comes of texts.
pub(crate) fn tables() -> &'static [Table] {
    TABLES
}

/// What comes of texts of pieces.
pub(crate) fn pieces() -> &'static [Made] {
    MADE
}
