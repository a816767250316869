// A walk along the nodes in order.

ghost use Rattle.std.specs.Prelude.{◌≡◌, ◌≤◌, false};
ghost use Rattle.lg_op.specs.Nodes.{InForm};
ghost use Rattle.lg_node.specs.Functions.{is_prolog, is_epilog, home_of, open_after, local_size};
ghost use Rattle.lg_node.specs.Preparations.{prepared_after, pushed_of, varies_after};
ghost use Rattle.lg_node.specs.Checks.{is_arg};
ghost use Rattle.lg_node.specs.Walks.{is_mark, walk_after, IsWithinLimits};

use crate::preparation::Preparation;
use lg_op::{ControlOp, Node, Op, Operand, PlainOp};

/// What is known before a node.
#[derive(Clone, Copy)]
pub struct Walk {
    /// The `prolog` of the function that is open.
    pub function: Option<u32>,
    /// Whether a `prolog` came.
    pub begun: bool,
    /// How many `arg` nodes the open function has so far.
    pub args: u32,
    /// How many bytes of locals the open function has so far.
    pub locals: u32,
    /// The call that is being prepared.
    pub call: Option<Preparation>,
    /// Whether the open function has variable arguments.
    pub varies: bool,
}

/// Returns whether an operation is `prolog`.
pub fn is_prolog(op: Op) -> bool
    ensures { result ≡ is_prolog op }
{
    matches!(op, Op::Plain(PlainOp::Prolog))
}

/// Returns whether an operation is `epilog`.
pub fn is_epilog(op: Op) -> bool
    ensures { result ≡ is_epilog op }
{
    matches!(op, Op::Plain(PlainOp::Epilog))
}

/// Returns whether an operation may change what is known within a function: it is a plain one, or a jump, a call or what is passed by one.
pub fn is_mark(op: Op) -> bool
    ensures { result ≡ is_mark op }
{
    matches!(op, Op::Plain(_) | Op::Control(_, _))
}

/// Returns whether an operation is `arg`.
pub fn is_arg(op: Op) -> bool
    ensures { result ≡ is_arg op }
{
    matches!(op, Op::Plain(PlainOp::Arg))
}

/// Returns the function of a node with an operation, where this one is open before it.
pub fn home_of(current: Option<u32>, index: u32, op: Op) -> Option<u32>
    ensures { result ≡ home_of current index op }
{
    if current.is_none() && is_prolog(op) {
        Some(index)
    } else {
        current
    }
}

/// Returns the bytes that the local of a node takes, a multiple of 8. The node is in form.
pub fn local_size(node: &Node) -> u32
    requires { InForm node.now }
    ensures value { result ≡ local_size node.now }
    ensures small { result ≤ 65536 }
{
    match (node.op, node.operands.as_slice()) {
        (Op::Plain(PlainOp::Allocai), [Operand::Number(size), ..]) => (*size as u32).div_ceil(8)
            * 8,
        _ => 0,
    }
}

// Returns the call that is being prepared after an operation.
fn prepared_after(current: Option<Preparation>, op: Op) -> Option<Preparation>
    requires { pushed_of current ≤ 16 }
    ensures { result ≡ prepared_after current op }
{
    match (current, op) {
        (_, Op::Plain(PlainOp::Prepare)) => Some(Preparation {
            pushed: 0,
            variadic: false,
        }),
        (_, Op::Control(ControlOp::Finish, _)) => None,
        (Some(call), Op::Plain(PlainOp::Ellipsis)) => Some(Preparation {
            variadic: true,
            ..call
        }),
        (Some(call), Op::Control(ControlOp::Pusharg, _)) => Some(Preparation {
            pushed: call.pushed + 1,
            ..call
        }),
        _ => current,
    }
}

// Returns whether the open function has variable arguments, after an operation.
fn varies_after(varies: bool, call: Option<Preparation>, op: Op) -> bool
    ensures { result ≡ varies_after varies call op }
{
    match (call, op) {
        (_, Op::Plain(PlainOp::Prolog)) => false,
        (None, Op::Plain(PlainOp::Ellipsis)) => true,
        _ => varies,
    }
}

/// Returns the function that is open after a node of this function.
pub fn open_after(home: Option<u32>, op: Op) -> Option<u32>
    ensures { result ≡ open_after home op }
{
    if is_epilog(op) { None } else { home }
}

impl Walk {
    /// What is known before the first node.
    pub fn new() -> Walk
        ensures { result ≡ record { function = None; begun = false; args = 0; locals = 0; call = None; varies = false } }
    {
        Walk {
            function: None,
            begun: false,
            args: 0,
            locals: 0,
            call: None,
            varies: false,
        }
    }

    // What is known after the next node, which is in form: all is looked at.
    fn past(self, index: u32, node: &Node) -> Walk
        requires form { InForm node.now }
        requires limits { IsWithinLimits self }
        ensures { result ≡ walk_after self index node.now }
    {
        let function = open_after(home_of(self.function, index, node.op), node.op);
        let is_open = function.is_some();
        Walk {
            function,
            begun: self.begun || is_prolog(node.op),
            args: if is_open {
                self.args + is_arg(node.op) as u32
            } else {
                0
            },
            locals: if is_open {
                self.locals + local_size(node)
            } else {
                0
            },
            call: prepared_after(self.call, node.op),
            varies: varies_after(self.varies, self.call, node.op),
        }
    }

    // Moves past the next node, which is in form: all is looked at.
    #[inline(never)]
    fn pass_any(&mut self, index: u32, node: &Node)
        requires form { InForm node.now }
        requires limits { IsWithinLimits self.old }
        ensures { self.new ≡ walk_after self.old index node.now }
    {
        *self = self.past(index, node);
    }

    /// Moves past the next node, which is in form. Within a function only a mark changes what is known.
    #[inline(always)]
    #[tactic(auto, using(crate::proofs::MarkLemmas::unmarked))]
    pub fn pass(&mut self, index: u32, node: &Node)
        requires form { InForm node.now }
        requires limits { IsWithinLimits self.old }
        ensures { self.new ≡ walk_after self.old index node.now }
    {
        if self.function.is_none() || is_mark(node.op) {
            self.pass_any(index, node);
        }
    }
}
