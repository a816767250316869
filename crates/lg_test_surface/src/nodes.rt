// lg_lex, lg_tst and lg_node: tokens, texts, nodes and their shape.

ghost use Rattle.std.specs.Prelude.{◌≡◌, [], IfOk};
ghost use Rattle.lg_tst.specs.Answers.{IsWhole};

use lg_base::{OutOfMemory, Refusal, Stop};
use lg_lex::{Lexer, Token, TokenKind, string_bytes};
use lg_node::{
    Label, LabelAddresses, Node, NodeList, Op, Operand, Operands, Place, Reg, Shape, Unit, check,
    reshape,
};
use lg_tst::parse;
use std::alloc::Global;
use std::test::Fail;

// Returns the first token of a text, and the first byte of a string.
fn are_tokens_right() -> bool {
    let mut lexer: Lexer<'_> = Lexer::new(b"movi");
    let first: Result<Option<Token>, Refusal> = lexer.next();
    let mut at: usize = 0;
    let byte: Option<u8> = string_bytes(b"\"a\"", &mut at);
    match first {
        Ok(Some(token)) => {
            let place: (u32, u32, u32, u64) = (token.line, token.start, token.end, token.value);
            token.kind == TokenKind::Word && place == (1, 0, 4, 0) && byte == Some(b'a')
        }
        _ => false,
    }
}

/// A function of four nodes with a label whose address is taken.
pub(crate) const TEXT: &[u8] = b"prolog\nmovi %r0 there\nthere: retr %r0\nepilog";

/// Returns the unit of a text.
pub(crate) fn unit_of(alloc: Global, text: &[u8]) -> Result<Unit, Stop>
    ensures { IfOk result IsWhole }
{
    if text.len() > 16_777_216 {
        return Err(Stop::OutOfMemory);
    }
    parse(alloc, text)
}

/// `addi %r0 %r0 1`.
pub(crate) fn addition() -> Option<Node> {
    let r0: Operand = Operand::Reg(Reg::R0);
    let op: Option<Op> = Op::by_name(b"addi");
    Some(Node {
        op: op?,
        operands: Operands::of(&[r0, r0, Operand::Number(1)]),
        line: 1,
    })
}

// Nodes that are made by calls.
fn are_nodes_made(nodes: &mut NodeList) -> Result<bool, OutOfMemory>
    requires words { nodes.old.words ≡ [] }
    requires nodes { nodes.old.nodes ≡ [] }
{
    let label: Label = nodes.label(b"main")?;
    let Some(op) = Op::by_name(b"prolog") else {
        return Ok(false);
    };
    let name = op.name();
    let bound: bool = nodes.bind(label, Place::Node(0));
    let place: Option<Place> = nodes.place(label);
    let word: &[u8] = nodes.word(label);
    let is_main = word == b"main".as_slice();
    let labels: u32 = nodes.labels();
    Ok(
        bound
            && place == Some(Place::Node(0))
            && is_main
            && labels == 1
            && name.as_slice() == b"prolog".as_slice(),
    )
}

// The same in a list of its own.
fn is_list_made(alloc: Global) -> Result<bool, OutOfMemory> {
    let mut nodes: NodeList = NodeList::new(alloc);
    are_nodes_made(&mut nodes)
}

// A shape's functions.
fn is_shape_right(shape: &Shape) -> bool {
    if shape.functions() != 1 {
        return false;
    }
    let nodes: (u32, u32, u32) = (shape.entry(0), shape.last(0), shape.frame(0));
    let function: Option<u32> = shape.function_of(2);
    let taken: bool = shape.taken(Label(0));
    nodes == (0, 3, 272) && function == Some(0) && taken
}

// Whether a unit has the shape that it should have, and the same where it is made anew.
fn is_shaped(alloc: Global, unit: &Unit) -> Result<bool, Stop> {
    let shape: Shape = check(alloc, unit)?;
    let again: Shape = reshape(alloc, &unit.nodes, &shape)?;
    Ok(is_shape_right(&shape) && is_shape_right(&again))
}

// Returns whether a unit has the nodes that it should have.
fn are_nodes_right(unit: &Unit) -> bool {
    let count: u32 = unit.nodes.len();
    if count != 4 {
        return false;
    }
    let node: Node = unit.nodes.node(1);
    let operands: Operands = Operands::of(&[Operand::Reg(Reg::R0), Operand::Label(Label(0))]);
    Some(node.op) == Op::by_name(b"movi")
        && node.operands.as_slice() == operands.as_slice()
        && node.line == 2
}

fn is_text_right(alloc: Global) -> Result<bool, Stop> {
    let unit: Unit = unit_of(alloc, TEXT)?;
    let addresses: LabelAddresses = LabelAddresses::of(alloc, &[0x1000_0008])?;
    Ok(are_nodes_right(&unit) && is_shaped(alloc, &unit)? && addresses.len() == 1)
}

#[test]
fn calls_lg_lex_lg_tst_and_lg_node(rt: HostRuntime) -> Result<(), Fail> {
    assert!(rt; are_tokens_right());
    assert!(rt; is_list_made(rt.alloc())?);
    assert!(rt; is_text_right(rt.alloc()) == Ok(true));
    Ok(())
}
