// The parts that code is made of.

ghost use Rattle.std.specs.Prelude.{◌≡◌, ◌+◌, ◌*◌, ◌<◌, ◌≤◌, length, IfOk, IfErr};
ghost use Rattle.lg_cpu.specs.Laws.{AreBytes};
ghost use Rattle.lg_asm.specs.Addresses.{AreMade};
ghost use Rattle.lg_asm.specs.Assembled.{ArePushed, IsRefusedFor};
ghost use Rattle.lg_asm.specs.Lowered.{is_marked, IsGiven};
ghost use Rattle.lg_asm.specs.NodeChoices.{spills_in};
ghost use Rattle.lg_base.specs.Layout.{most_code};
ghost use Rattle.lg_base.specs.declared.target.Target.{Target};
ghost use Rattle.lg_live.specs.Liveness.{AreLive};
ghost use Rattle.lg_node.specs.Checks.{IsAccepted};
ghost use Rattle.lg_node.specs.Shapes.{IsShapeOf};

use crate::addresses::addresses;
use crate::counts::{Counts, counted};
use crate::lowering::lower_with;
use lg_base::{CodeBytes, OutOfMemory, Places, Refusal, RefusalKind, Stop, Target};
use lg_buf::CodeBuf;
use lg_live::Live;
use lg_node::{LabelAddresses, NodeList, Shape};
use std::alloc::Global;

/// The bytes of a text's code, the places of its nodes and of the end, and the place of each label that is bound at a node.
#[derive(Drop)]
pub(crate) struct TextBytes {
    /// The bytes.
    pub(crate) bytes: CodeBytes,
    /// The places of the nodes and of the end.
    pub(crate) places: Places,
    /// The places of the labels.
    pub(crate) tags: Places,
}

// The bytes of code are bytes.
fn see_bytes(bytes: &CodeBytes)
    ensures { AreBytes bytes.now.items }
{
    see_slice(bytes.as_slice());
}

/// The bytes of a slice are bytes.
pub(crate) fn see_slice(bytes: &[u8])
    ensures { AreBytes bytes.now }
{
    let _count = bytes.len();
}

// Returns how many bytes a buffer of a size has room for: no more than this many nodes can have, and as many more as one may have, so that a large size takes
// no more memory or time than they do.
fn room_for(size: u32, nodes: u32) -> u32
    ensures within { result ≤ size }
    ensures enough { result < size → 256 * nodes + 256 ≤ result }
{
    let most = 256 * nodes as u64 + 256;
    if most < size as u64 {
        most as u32
    } else {
        size
    }
}

/// Returns the bytes of a text in a buffer of a size, whose functions at marked nodes are called from outside. They are refused with CodeFull only where at some node fewer than 256 bytes were free after those of
/// the nodes before it.
pub(crate) fn text_bytes(
    alloc: Global,
    nodes: &NodeList,
    shape: &Shape,
    live: &Live,
    target: Target,
    outward: &[bool],
    size: u32,
) -> Result<TextBytes, Stop>
    requires shape { IsShapeOf nodes.now shape.now }
    requires live { AreLive nodes.now shape.now live.now }
    requires size { size ≤ most_code }
    ensures given { IfOk result
        (λ t. IsGiven target nodes.now shape.now live.now (is_marked nodes.now outward.now) size t.places.items t.tags.items t.bytes.items) }
    ensures refused { IfErr result (IsRefusedFor target nodes.now shape.now (is_marked nodes.now outward.now) size) }
{
    let count = nodes.len();
    let Some(stops) = count.checked_add(1) else {
        return Err(Stop::OutOfMemory);
    };
    let room = room_for(size, count);
    let Ok(mut buf) = CodeBuf::with_capacity(alloc, size, room, nodes.labels(), count) else {
        return Err(Stop::OutOfMemory);
    };
    let Ok(mut places) = Places::with_room(alloc, stops) else {
        return Err(Stop::OutOfMemory);
    };
    if !lower_with(nodes, shape, live, target, outward, &mut buf, &mut places) {
        return Err(Stop::Refused(Refusal {
            kind: RefusalKind::CodeFull,
            line: 0,
        }));
    }
    let _end = buf.here();
    let finished = buf.finish();
    see_bytes(&finished.bytes);
    Ok(TextBytes {
        bytes: finished.bytes,
        places,
        tags: finished.places,
    })
}

/// What code is made of beside its nodes.
#[derive(Drop)]
pub(crate) struct Parts {
    /// The registers that are live.
    pub(crate) live: Live,
    /// The bytes with their places.
    pub(crate) text: TextBytes,
    /// The addresses of the labels.
    pub(crate) labels: LabelAddresses,
    /// The counts of the nodes.
    pub(crate) counts: Counts,
}

// Returns the addresses of the labels that lie at these places of the code, and the counts of the nodes.
fn tables(
    alloc: Global,
    nodes: &NodeList,
    live: &Live,
    target: Target,
    tags: &Places,
) -> Result<(LabelAddresses, Counts), OutOfMemory>
    requires accepted { IsAccepted nodes.now }
    requires live { length live.now.behind ≡ length nodes.now.nodes }
    requires tags { length tags.now.items ≡ length nodes.now.words }
    ensures labels { IfOk result (λ t. AreMade nodes.now.places tags.now.items t.0 (length nodes.now.places)) }
    ensures passed { IfOk result (λ t. ArePushed nodes.now.nodes t.1.passed.items (length nodes.now.nodes)) }
    ensures spills { IfOk result (λ t. t.1.spills ≡ spills_in target nodes.now.nodes live.now (length nodes.now.nodes)) }
{
    let labels = addresses(alloc, nodes, tags)?;
    let counts = counted(alloc, nodes, live, target)?;
    Ok((labels, counts))
}

/// Returns the parts of the code of final nodes of this shape, in at most this many bytes, whose functions at marked nodes are called from outside. They are refused as `text_bytes` refuses them.
pub(crate) fn parts_of(
    alloc: Global,
    nodes: &NodeList,
    shape: &Shape,
    target: Target,
    outward: &[bool],
    size: u32,
) -> Result<Parts, Stop>
    requires shape { IsShapeOf nodes.now shape.now }
    requires size { size ≤ most_code }
    ensures live { IfOk result (λ p. AreLive nodes.now shape.now p.live) }
    ensures given { IfOk result (λ p. IsGiven target nodes.now shape.now p.live (is_marked nodes.now outward.now) size
        p.text.places.items p.text.tags.items p.text.bytes.items) }
    ensures labels { IfOk result (λ p. AreMade nodes.now.places p.text.tags.items p.labels (length nodes.now.places)) }
    ensures passed { IfOk result (λ p. ArePushed nodes.now.nodes p.counts.passed.items (length nodes.now.nodes)) }
    ensures spills { IfOk result (λ p. p.counts.spills ≡ spills_in target nodes.now.nodes p.live (length nodes.now.nodes)) }
    ensures refused { IfErr result (IsRefusedFor target nodes.now shape.now (is_marked nodes.now outward.now) size) }
{
    let live = Live::of(alloc, nodes, shape)?;
    let text = text_bytes(alloc, nodes, shape, &live, target, outward, size)?;
    let (labels, counts) = tables(alloc, nodes, &live, target, &text.tags)?;
    Ok(Parts {
        live,
        text,
        labels,
        counts,
    })
}
