// Passes over the nodes of texts.

ghost use Rattle.std.specs.Prelude.{IfOk};
ghost use Rattle.lg_node.specs.Shapes.{IsShapeOf};
ghost use Rattle.lg_tst.specs.Answers.{IsWhole};

use crate::texts::{Parts, push_text};
use crate::works::Pass;
use lg_asm::{Code, assemble};
use lg_base::{OutOfMemory, Refusal, RefusalKind, Stop, Target};
use lg_dead::{drop_dead, fold, rewrite};
use lg_live::Live;
use lg_node::{Reg, Shape, Unit, check};
use lg_opt::Rewritten;
use lg_tst::parse;
use std::alloc::Global;

// Returns the code of a unit on a target. What it is promised to be is of no use here.
fn code_of(alloc: Global, unit: &Unit, target: Target) -> Result<Code, Stop>
    requires { IsWhole unit.now }
{
    let shape = check(alloc, unit)?;
    assemble(alloc, unit, &shape, target, 67_108_864)
}

// How many bytes of code a unit becomes.
fn unit_bytes(alloc: Global, unit: &Unit, target: Target) -> Result<u64, Stop>
    requires { IsWhole unit.now }
{
    match code_of(alloc, unit, target) {
        Ok(code) => Ok(u64::from(code.bytes().len())),
        Err(stop) => Err(stop),
    }
}

// The same this many times.
fn code_bytes(alloc: Global, unit: &Unit, times: u32, target: Target) -> Result<u64, Stop>
    requires { IsWhole unit.now }
{
    let mut bytes = 0;
    for _ in 0..times {
        bytes = unit_bytes(alloc, unit, target)?;
    }
    Ok(bytes)
}

// At how many nodes V0 is live.
fn live_nodes(alloc: Global, unit: &Unit, shape: &Shape) -> Result<u64, OutOfMemory>
    requires { IsShapeOf unit.now.nodes shape.now }
{
    let live = Live::of(alloc, &unit.nodes, shape)?;
    let mut count = 0u64;
    for index in 0..unit.nodes.len() {
        if live.before(index).has(Reg::V0) {
            count = count.wrapping_add(1);
        }
    }
    Ok(count)
}

// Returns the nodes that a pass leaves. What they are promised to be is of no use here.
fn rewritten(
    alloc: Global,
    pass: &Pass,
    unit: &Unit,
    shape: &Shape,
) -> Result<Rewritten, OutOfMemory>
    requires { IsShapeOf unit.now.nodes shape.now }
{
    match pass {
        Pass::Fold => fold(alloc, &unit.nodes, shape),
        Pass::Dead => drop_dead(alloc, &unit.nodes, shape),
        _ => rewrite(alloc, &unit.nodes, shape),
    }
}

// How many nodes a pass leaves, or, where live registers are found, at how many V0 is live.
fn nodes_left(alloc: Global, pass: &Pass, unit: &Unit, shape: &Shape) -> Result<u64, OutOfMemory>
    requires { IsShapeOf unit.now.nodes shape.now }
{
    match pass {
        Pass::Live => live_nodes(alloc, unit, shape),
        _ => match rewritten(alloc, pass, unit, shape) {
            Ok(left) => Ok(u64::from(left.nodes.len())),
            Err(error) => Err(error),
        },
    }
}

// The same this many times.
fn pass_nodes(alloc: Global, pass: &Pass, unit: &Unit, times: u32) -> Result<u64, Stop> {
    let shape = check(alloc, unit)?;
    let mut left = 0;
    for _ in 0..times {
        left = nodes_left(alloc, pass, unit, &shape)?;
    }
    Ok(left)
}

/// Returns the unit of a text. What it is promised to be is of no use here, but that it is whole.
pub fn unit_of(alloc: Global, text: &[u8]) -> Result<Unit, Stop>
    ensures { IfOk result IsWhole }
{
    if text.len() > 16_777_216 {
        return Err(Stop::Refused(Refusal {
            kind: RefusalKind::TextTooLong,
            line: 0,
        }));
    }
    parse(alloc, text)
}

// Returns the outcome of this many passes over a unit.
fn pass_unit(
    alloc: Global,
    pass: &Pass,
    unit: &Unit,
    times: u32,
    target: Target,
) -> Result<u64, Stop>
    requires { IsWhole unit.now }
{
    match pass {
        Pass::Code | Pass::Nodes => code_bytes(alloc, unit, times, target),
        _ => pass_nodes(alloc, pass, unit, times),
    }
}

// Returns the outcome of this many passes over a text, which is read once.
fn pass_text(
    alloc: Global,
    pass: &Pass,
    text: &[u8],
    times: u32,
    target: Target,
) -> Result<u64, Stop> {
    match unit_of(alloc, text) {
        Ok(unit) => pass_unit(alloc, pass, &unit, times, target),
        Err(stop) => Err(stop),
    }
}

// Returns the outcome of this many passes over a text, which is read each time where code is made of it.
fn pass_texts(
    alloc: Global,
    pass: &Pass,
    text: &[u8],
    times: u32,
    target: Target,
) -> Result<u64, Stop> {
    if !matches!(pass, Pass::Code) {
        return pass_text(alloc, pass, text, times, target);
    }
    let mut bytes = 0;
    for _ in 0..times {
        bytes = pass_text(alloc, pass, text, 1, target)?;
    }
    Ok(bytes)
}

/// Makes this many passes over the text of parts with this many lines, at most 1,000,000, and says their outcomes: how many bytes of code, how many nodes are
/// left, or at how many V0 is live.
pub fn pass_lines(
    alloc: Global,
    pass: &Pass,
    parts: &Parts,
    [lines, times]: [u32; 2],
    target: Target,
) -> Result<u64, Stop> {
    let mut text = String::new(alloc);
    match push_text(&mut text, parts, lines.min(1_000_000)) {
        Ok(()) => pass_texts(alloc, pass, text.as_bytes(), times, target),
        Err(_) => Err(Stop::OutOfMemory),
    }
}
