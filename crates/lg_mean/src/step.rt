// One step of the portable machine.

ghost use Rattle.std.specs.Prelude.{◌≡◌, ◌<◌, ◌≤◌, ◌-◌, ◌+◌, ◌^◌, ◌∷◌, [], ℕ, take, length, Bool, true, false, Some, None, if◌then◌else◌, IsTrue};
ghost use Rattle.lg_op.specs.declared.op.Op.TheVariants as op_of;
ghost use Rattle.lg_op.specs.declared.op.ControlOp.TheVariants as control;
ghost use Rattle.lg_meaning.specs.States.{value};
ghost use Rattle.lg_meaning.specs.Steps.{need, quiet, on, enter, prolog_step, leave, ret_step, function_here, call_node, call_operand, call_named, call_word, call_step, entry_target, operand_at, plain_step, node_step, node_of_label, begun};
ghost use Rattle.lg_mean.specs.Machines.{state_of};
ghost use Rattle.lg_mean.specs.Programs.{text_of};
ghost use Rattle.lg_mean.specs.Says.{AreKnown, IsKnown, Does, Quiet, Steps, HasBegun, CanBegin, Suits, stays, answer_of, KeepsCount};

use crate::calls::frame_size;
use crate::functions::function_here;
use crate::machine::{Machine, node_of_label, operand};
use crate::mean_step::MeanStep;
use crate::program::Program;
use lg_base::HostName;
use lg_io::Sink;
use lg_node::{ControlOp, Function, LastOperand, Node, Op, Operand, PlainOp};

// Returns the answer of a step that neither ends the run nor writes.
fn answer(went: bool, line: u32) -> MeanStep
    ensures { result ≡ answer_of went line }
{
    if went {
        MeanStep::Went
    } else {
        MeanStep::Undefined { line }
    }
}

// Returns whether a node neither calls nor returns.
fn stays(op: Op) -> bool
    ensures { result ≡ stays op }
{
    !matches!(
        op,
        Op::Control(ControlOp::Call | ControlOp::Finish | ControlOp::Ret, _)
            | Op::Plain(PlainOp::Epilog | PlainOp::Ret)
    )
}

impl Machine {
    // A function begins.
    fn prolog(&mut self, program: &Program) -> bool
        requires room { self.old.at < 2 ^ 32 - 1 }
        requires can { CanBegin program.now.shape.functions (state_of self.old) }
        ensures { Does (prolog_step (text_of program.now) (state_of self.old)) (state_of self.old) result (state_of self.new) }
    {
        match function_here(program.shape(), self.at) {
            Some(function) => {
                self.begin(function, frame_size(function));
                self.go_on();
                true
            }
            None => false,
        }
    }

    // Goes into a function with this many of the staged arguments, where its frame fits.
    fn enter(&mut self, count: u32, function: Function) -> bool
        requires room { self.old.at < 2 ^ 32 - 1 }
        requires small { function.locals ≤ 65536 }
        requires begun { HasBegun (state_of self.old) }
        ensures { Does (enter (state_of self.old) (take count self.old.staged) function) (state_of self.old) result (state_of self.new) }
    {
        if !self.has_room(frame_size(function)) {
            return false;
        }
        let callee = self.callee(count);
        self.down(callee);
        self.start(function.entry);
        true
    }

    // Calls the function that begins at a node.
    fn call_node(&mut self, count: u32, node: u32, program: &Program) -> bool
        requires room { self.old.at < 2 ^ 32 - 1 }
        requires begun { HasBegun (state_of self.old) }
        ensures { Does (call_node (text_of program.now) (state_of self.old) (take count self.old.staged) node) (state_of self.old) result (state_of self.new) }
    {
        match function_here(program.shape(), node) {
            Some(function) => self.enter(count, function),
            None => false,
        }
    }

    // The answer of a call of the function that begins at a node.
    fn call_at(&mut self, count: u32, target: u32, node: &Node, program: &Program) -> MeanStep
        requires room { self.old.at < 2 ^ 32 - 1 }
        requires begun { HasBegun (state_of self.old) }
        ensures { Quiet (call_node (text_of program.now) (state_of self.old) (take count self.old.staged) target) node.now.line
            (state_of self.old) result (state_of self.new) }
    {
        let went = self.call_node(count, target, program);
        answer(went, node.line)
    }

    // Calls a label or a host function.
    fn call_operand<O: Sink>(
        &mut self,
        count: u32,
        node: &Node,
        program: &Program,
        out: &mut O,
    ) -> MeanStep
        requires room { self.old.at < 2 ^ 32 - 1 }
        requires few { count ≤ 16 }
        requires begun { HasBegun (state_of self.old) }
        requires known { AreKnown (length program.now.labels.addresses) node.now }
        ensures says { Steps (call_operand (text_of program.now) (state_of self.old) (take count self.old.staged) (operand_at node.now 0))
            node.now.line (state_of self.old) result (state_of self.new) (O.taken out.old) (O.taken out.new) (O.faults out.old) (O.faults out.new) }
        ensures later { O.faults out.old ≤ O.faults out.new }
        ensures kept { KeepsCount result (O.faults out.old) (O.faults out.new) }
    {
        match operand(node, 0) {
            Operand::Host(name) => self.host(name, count, node.line, out),
            other => {
                let target = node_of_label(program.nodes(), other);
                self.call_at(count, target, node, program)
            }
        }
    }

    // Calls a function of the text by a word that is the address of its label.
    fn call_address(&mut self, count: u32, word: u64, node: &Node, program: &Program) -> MeanStep
        requires room { self.old.at < 2 ^ 32 - 1 }
        requires begun { HasBegun (state_of self.old) }
        ensures { Quiet (need (entry_target (text_of program.now) word) (call_node (text_of program.now) (state_of self.old)
            (take count self.old.staged))) node.now.line (state_of self.old) result (state_of self.new) }
    {
        match program.entry_target(word) {
            Some(target) => self.call_at(count, target, node, program),
            None => MeanStep::Undefined { line: node.line },
        }
    }

    // Calls a word.
    fn call_word<O: Sink>(
        &mut self,
        count: u32,
        word: u64,
        node: &Node,
        program: &Program,
        out: &mut O,
    ) -> MeanStep
        requires room { self.old.at < 2 ^ 32 - 1 }
        requires few { count ≤ 16 }
        requires begun { HasBegun (state_of self.old) }
        ensures says { Steps (call_word (text_of program.now) (state_of self.old) (take count self.old.staged) word) node.now.line
            (state_of self.old) result (state_of self.new) (O.taken out.old) (O.taken out.new) (O.faults out.old) (O.faults out.new) }
        ensures later { O.faults out.old ≤ O.faults out.new }
        ensures kept { KeepsCount result (O.faults out.old) (O.faults out.new) }
    {
        match HostName::from_address(word) {
            Some(name) => self.host(name, count, node.line, out),
            None => self.call_address(count, word, node, program),
        }
    }

    // A call with this many of the staged arguments.
    fn call<O: Sink>(
        &mut self,
        last: LastOperand,
        count: u32,
        node: &Node,
        program: &Program,
        out: &mut O,
    ) -> MeanStep
        requires room { self.old.at < 2 ^ 32 - 1 }
        requires few { count ≤ 16 }
        requires begun { HasBegun (state_of self.old) }
        requires known { AreKnown (length program.now.labels.addresses) node.now }
        ensures says { Steps (call_step (text_of program.now) node.now last (take count self.old.staged) (state_of self.old)) node.now.line
            (state_of self.old) result (state_of self.new) (O.taken out.old) (O.taken out.new) (O.faults out.old) (O.faults out.new) }
        ensures later { O.faults out.old ≤ O.faults out.new }
        ensures kept { KeepsCount result (O.faults out.old) (O.faults out.new) }
    {
        match last {
            LastOperand::Immediate => self.call_operand(count, node, program, out),
            LastOperand::Register => match self.value(program.addresses(), operand(node, 0)) {
                Some(word) => self.call_word(count, word, node, program, out),
                None => MeanStep::Undefined { line: node.line },
            },
        }
    }

    // A return.
    fn go_back(&mut self, word: Option<u64>) -> MeanStep
        requires { HasBegun (state_of self.old) }
        ensures { Quiet (leave (state_of self.old) word) 0 (state_of self.old) result (state_of self.new) }
    {
        match self.leave(word) {
            Some(status) => MeanStep::Ended(status),
            None => MeanStep::Went,
        }
    }

    // A return with a result.
    fn go_back_with(&mut self, node: &Node, labels: &[u64]) -> MeanStep
        requires begun { HasBegun (state_of self.old) }
        requires known { AreKnown (length labels.now) node.now }
        ensures { Quiet (ret_step labels.now node.now (state_of self.old)) node.now.line (state_of self.old) result (state_of self.new) }
    {
        match self.value(labels, operand(node, 0)) {
            Some(word) => self.go_back(Some(word)),
            None => MeanStep::Undefined { line: node.line },
        }
    }

    // A jump.
    fn jump_node(&mut self, last: LastOperand, node: &Node, program: &Program) -> bool
        requires room { self.old.at < 2 ^ 32 - 1 }
        requires known { AreKnown (length program.now.labels.addresses) node.now }
        ensures { Does (node_step (text_of program.now) node.now (op_of.Control control.Jmp last) (state_of self.old)) (state_of self.old) result
            (state_of self.new) }
    {
        match last {
            LastOperand::Register => self.jump(node, program),
            LastOperand::Immediate => self.branch(true, program.nodes(), operand(node, 0)),
        }
    }

    // A node that changes nothing.
    fn pass(&mut self) -> bool
        requires { self.old.at < 2 ^ 32 - 1 }
        ensures { Does (quiet (on (state_of self.old))) (state_of self.old) result (state_of self.new) }
    {
        self.go_on();
        true
    }

    // A node that comes in one form and is no return.
    fn plain(&mut self, form: PlainOp, node: &Node, program: &Program) -> bool
        requires room { self.old.at < 2 ^ 32 - 1 }
        requires stays { IsTrue (stays (op_of.Plain form)) }
        requires suits { Suits program.now.shape.functions (op_of.Plain form) (state_of self.old) self.old.count }
        requires known { AreKnown (length program.now.labels.addresses) node.now }
        ensures { Does (plain_step (text_of program.now) node.now form (state_of self.old)) (state_of self.old) result (state_of self.new) }
    {
        match form {
            PlainOp::Movi => self.movi(node, program.addresses()),
            PlainOp::Prepare => {
                self.prepare();
                true
            }
            PlainOp::Ellipsis => {
                self.ellipsis();
                true
            }
            PlainOp::Prolog => self.prolog(program),
            PlainOp::Arg | PlainOp::Allocai | PlainOp::Align => self.pass(),
            PlainOp::VaStart => self.va_start(node, program.addresses()),
            PlainOp::VaArg => self.va_arg(node, program.addresses()),
            PlainOp::VaEnd => self.va_end(node, program.addresses()),
            PlainOp::Epilog | PlainOp::Ret => false,
        }
    }

    // A node that neither calls nor returns.
    fn stay(&mut self, node: &Node, program: &Program) -> bool
        requires room { self.old.at < 2 ^ 32 - 1 }
        requires stays { IsTrue (stays node.now.op) }
        requires suits { Suits program.now.shape.functions node.now.op (state_of self.old) self.old.count }
        requires known { AreKnown (length program.now.labels.addresses) node.now }
        ensures { Does (node_step (text_of program.now) node.now node.now.op (state_of self.old)) (state_of self.old) result (state_of self.new) }
    {
        match node.op {
            Op::Binary(op, _) => self.binary_node(op, node, program.addresses()),
            Op::Wide(op, _) => self.wide(op, node, program.addresses()),
            Op::Branch(condition, _) => self.branch_where(condition, node, program),
            Op::BranchSum(op, _) => self.branch_sum(op, node, program),
            Op::Control(ControlOp::Jmp, last) => self.jump_node(last, node, program),
            Op::Control(ControlOp::Pusharg, _) => self.push(node, program.addresses()),
            Op::Control(_, _) => false,
            Op::Unary(op) => self.unary(op, node, program.addresses()),
            Op::Plain(form) => self.plain(form, node, program),
            Op::Load(value_type, addressing) => self.load(
                value_type,
                addressing,
                node,
                program.addresses(),
            ),
            Op::Store(store_type, addressing) => self.store(
                store_type,
                addressing,
                node,
                program.addresses(),
            ),
            Op::Retval(value_type) => self.retval(node, value_type),
            Op::Getarg(value_type) => self.getarg(node, value_type),
        }
    }

    // A finish, with the arguments that are staged.
    fn finish<O: Sink>(
        &mut self,
        last: LastOperand,
        node: &Node,
        program: &Program,
        out: &mut O,
    ) -> MeanStep
        requires room { self.old.at < 2 ^ 32 - 1 }
        requires begun { HasBegun (state_of self.old) }
        requires known { AreKnown (length program.now.labels.addresses) node.now }
        ensures says { Steps (call_step (text_of program.now) node.now last (state_of self.old).pushed (state_of self.old)) node.now.line
            (state_of self.old) result (state_of self.new) (O.taken out.old) (O.taken out.new) (O.faults out.old) (O.faults out.new) }
        ensures later { O.faults out.old ≤ O.faults out.new }
        ensures kept { KeepsCount result (O.faults out.old) (O.faults out.new) }
    {
        let count = self.count;
        self.call(last, count, node, program, out)
    }

    // A node that calls or returns.
    fn move_on<O: Sink>(&mut self, node: &Node, program: &Program, out: &mut O) -> MeanStep
        requires room { self.old.at < 2 ^ 32 - 1 }
        requires moves { stays node.now.op ≡ false }
        requires suits { Suits program.now.shape.functions node.now.op (state_of self.old) self.old.count }
        requires known { AreKnown (length program.now.labels.addresses) node.now }
        ensures says { Steps (node_step (text_of program.now) node.now node.now.op (state_of self.old)) node.now.line (state_of self.old) result
            (state_of self.new) (O.taken out.old) (O.taken out.new) (O.faults out.old) (O.faults out.new) }
        ensures later { O.faults out.old ≤ O.faults out.new }
        ensures kept { KeepsCount result (O.faults out.old) (O.faults out.new) }
    {
        match node.op {
            Op::Control(ControlOp::Call, last) => self.call(last, 0, node, program, out),
            Op::Control(ControlOp::Finish, last) => self.finish(last, node, program, out),
            Op::Control(ControlOp::Ret, _) => self.go_back_with(node, program.addresses()),
            Op::Plain(PlainOp::Epilog) => self.go_back(None),
            Op::Plain(PlainOp::Ret) => self.go_back(None),
            _ => MeanStep::Undefined { line: node.line },
        }
    }

    // One step of a node.
    pub(crate) fn step_node<O: Sink>(
        &mut self,
        node: &Node,
        program: &Program,
        out: &mut O,
    ) -> MeanStep
        requires room { self.old.at < 2 ^ 32 - 1 }
        requires suits { Suits program.now.shape.functions node.now.op (state_of self.old) self.old.count }
        requires known { AreKnown (length program.now.labels.addresses) node.now }
        ensures says { Steps (node_step (text_of program.now) node.now node.now.op (state_of self.old)) node.now.line (state_of self.old) result
            (state_of self.new) (O.taken out.old) (O.taken out.new) (O.faults out.old) (O.faults out.new) }
        ensures later { O.faults out.old ≤ O.faults out.new }
        ensures kept { KeepsCount result (O.faults out.old) (O.faults out.new) }
    {
        if stays(node.op) {
            let went = self.stay(node, program);
            return answer(went, node.line);
        }
        self.move_on(node, program, out)
    }
}
