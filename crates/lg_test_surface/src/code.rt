// lg_opt, lg_live, lg_temp and lg_buf: rewrites, live registers, temporaries and the buffer.

ghost use Rattle.std.specs.Prelude.{◌≡◌, ◌<◌, ◌∷◌, [], None, length};
ghost use Rattle.lg_node.specs.Shapes.{IsShapeOf};

use crate::nodes::{TEXT, addition, unit_of};
use lg_base::{OutOfMemory, Stop, Target};
use lg_buf::{CodeBuf, Finished, FixKind, Label32};
use lg_live::{Live, RegSet, reads, writes};
use lg_node::{Node, NodeList, Reg, Shape, Unit, check};
use lg_opt::{Rewritten, drop_moves, thread};
use lg_temp::{Abi, ArgPlace, Choice, Choices, Need, Needs, Staged, choose};
use std::alloc::Global;
use std::test::Fail;

// How many nodes each rewrite of lg_opt leaves.
fn are_rewritten(alloc: Global, nodes: &NodeList, shape: &Shape) -> Result<bool, OutOfMemory>
    requires { IsShapeOf nodes.now shape.now }
{
    let threaded: Rewritten = thread(alloc, nodes, shape)?;
    let dropped: Rewritten = drop_moves(alloc, nodes, shape)?;
    Ok(threaded.nodes.len() == 4 && dropped.nodes.len() == 4 && dropped.origin.len() == 4)
}

// Returns the registers that are live at a node.
fn is_live_so(live: &Live, index: u32) -> bool
    requires before { index < length live.now.before }
    requires after { index < length live.now.behind }
{
    let before: RegSet = live.before(index);
    let after: RegSet = live.after(index);
    !before.has(Reg::R0) && after.has(Reg::R0)
}

fn are_live(alloc: Global, nodes: &NodeList, shape: &Shape) -> Result<bool, OutOfMemory>
    requires { IsShapeOf nodes.now shape.now }
{
    if nodes.len() < 2 {
        return Ok(false);
    }
    let live: Live = Live::of(alloc, nodes, shape)?;
    Ok(is_live_so(&live, 1))
}

fn is_unit_right(alloc: Global, unit: &Unit) -> Result<bool, Stop> {
    let shape: Shape = check(alloc, unit)?;
    let rewritten = are_rewritten(alloc, &unit.nodes, &shape)?;
    let live = are_live(alloc, &unit.nodes, &shape)?;
    Ok(rewritten && live)
}

fn is_text_right(alloc: Global) -> Result<bool, Stop> {
    let unit = unit_of(alloc, TEXT)?;
    is_unit_right(alloc, &unit)
}

// A temporary for a node, and the convention of a target.
fn is_choice_right(node: &Node) -> bool {
    let read: RegSet = reads(node);
    let written: RegSet = writes(node);
    let needs: Needs = Needs::of(&[Need::Any]);
    let choices: Choices = choose(Target::X86_64, &needs, node, written, Staged::none());
    match choices.as_slice() {
        [Choice::Free(_)] => read.has(Reg::R0),
        _ => false,
    }
}

fn is_convention_right() -> bool {
    let abi: Abi = Abi::of(Target::X86_64);
    let place: ArgPlace = abi.argument(6);
    let registers: (u8, u8) = (abi.result(), abi.portable(Reg::V0));
    let kept: bool = abi.kept(12);
    place == ArgPlace::Stack(0) && registers == (0, 3) && kept
}

// Emits `jal x0` and binds its label after it.
fn is_emitted(buf: &mut CodeBuf) -> bool
    requires fixes { buf.old.fixes ≡ [] }
    requires room { buf.old.room ≡ 1 }
    requires labels { buf.old.labels ≡ None ∷ [] }
{
    let emitted: bool = buf.emit(&[0x6f, 0, 0, 0]);
    if !emitted || buf.here() != 4 {
        return false;
    }
    buf.fix(0, FixKind::RvJal, Label32(0));
    buf.bind(Label32(0));
    let patched: bool = buf.patch(0, FixKind::RvJal, 4);
    patched
}

// A buffer that is finished.
fn is_finished(alloc: Global) -> Result<bool, OutOfMemory> {
    let mut buf: CodeBuf = CodeBuf::new(alloc, 64, 1, 1)?;
    let _alloc: Global = buf.allocator();
    if !is_emitted(&mut buf) || !buf.is_ready() {
        return Ok(false);
    }
    let finished: Finished = buf.finish();
    let is_patched = finished.bytes.as_slice() == [0x6f, 0, 0x40, 0].as_slice();
    Ok(is_patched && finished.places.as_slice() == [4].as_slice())
}

#[test]
fn calls_lg_opt_lg_live_lg_temp_and_lg_buf(rt: HostRuntime) -> Result<(), Fail> {
    assert!(rt; is_text_right(rt.alloc()) == Ok(true));
    match addition() {
        Some(node) => assert!(rt; is_choice_right(&node)),
        None => assert!(rt; false),
    }
    assert!(rt; is_convention_right() && is_finished(rt.alloc())?);
    Ok(())
}
