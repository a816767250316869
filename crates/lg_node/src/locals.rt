// The locals of a function that is built node by node.

ghost use Rattle.std.specs.Prelude.{◌≡◌, ◌↔◌, ◌⊎◌, ◌<◌, ◌+◌, None, IfSome};
ghost use Rattle.lg_op.specs.Nodes.{InForm};
ghost use Rattle.lg_node.specs.Functions.{local_size};
ghost use Rattle.lg_node.specs.Locals.{allocai, offset_below, rounded};

use lg_op::{Node, Op, Operand, Operands, PlainOp};
use std::marker::Model;

// The most bytes of a function's locals.
const MOST_BYTES: u32 = 65_536;

/// The locals that a function has so far: how many, and the bytes that they take. There are at most 65,536 bytes.
#[derive(Drop)]
pub struct Locals {
    count: u32,
    bytes: u32,
}

impl Model for Locals {
    ghost use Rattle.lg_node.specs.Locals.{LocalBytes, AreLocals};

    ghost Value = { LocalBytes };

    ghost view = { λ l. record { count = l.count; bytes = l.bytes } };

    ghost invariant = { λ l. AreLocals l.count l.bytes };
}

/// A local: the `allocai` that makes it, and where it lies.
#[derive(Clone, Copy)]
pub struct Local {
    /// The `allocai`, which is appended in its function, after those of the locals before it.
    pub node: Node,
    /// The offset of its first byte from FP, as a word of 64 bits.
    pub offset: u64,
}

impl Locals {
    /// Those of a function that has none yet.
    pub fn none() -> Locals
        ensures { result ≡ record { count = 0; bytes = 0 } }
    {
        Locals { count: 0, bytes: 0 }
    }

    /// Makes the next local, of this many bytes, from 1 to 65,536, which are rounded up to a multiple of 8: the first one lies that much below the 128 bytes
    /// under FP, each further one that much below the one before. The line is the node's. None exactly where there are no bytes, or the locals would take
    /// more than 65,536 of them, which `check` would refuse; then nothing changes.
    pub fn next(&mut self, size: u32, line: u32) -> Option<Local>
        ensures node { IfSome result (λ local. local.node ≡ allocai size self.old.count line) }
        ensures form { IfSome result (λ local. InForm local.node) }
        ensures new { IfSome result (λ local. self.new ≡ record { count = self.old.count + 1; bytes = self.old.bytes + local_size local.node }) }
        ensures offset { IfSome result (λ local. local.offset ≡ offset_below self.new.bytes) }
        ensures none { (result ≡ None) ↔ ((size ≡ 0) ⊎ (65536 < self.old.bytes + rounded size)) }
        ensures kept { result ≡ None → self.new ≡ self.old }
    {
        if size == 0 || MOST_BYTES < size {
            return None;
        }
        let bytes = self.bytes + size.div_ceil(8) * 8;
        if MOST_BYTES < bytes {
            return None;
        }
        let operands = [Operand::Number(u64::from(size)), Operand::Slot(self.count)];
        self.count += 1;
        self.bytes = bytes;
        Some(Local {
            node: Node {
                op: Op::Plain(PlainOp::Allocai),
                operands: Operands::of(&operands),
                line,
            },
            offset: (128 + u64::from(bytes)).wrapping_neg(),
        })
    }
}
