// Why a step is undefined: the table of undefined steps, row by row.

ghost use Rattle.std.specs.Prelude.{◌≡◌, ◌≤◌, ◌<◌, ◌∷◌, ◌++◌, [], length, IfSome};
ghost use Rattle.std.specs.Option.{option_map};
ghost use Rattle.lg_base.specs.HostNames.{host_by_address};
ghost use Rattle.lg_base.specs.Spaces.{loaded};
ghost use Rattle.lg_meaning.specs.States.{value};
ghost use Rattle.lg_meaning.specs.Steps.{Undefined, function_here, node_step, operand_at, stored_operand};
ghost use Rattle.lg_meaning.specs.Reasons.{address_reads, call_of, called_at, called_by_name, called_from, called_here, cannot_divide, cannot_divide_widely, control_reads, finds_no_room, first, outside, plain_reads, register, row_1, row_2, row_4, row_6, row_7, row_8, row_9, row_10, row_11, row_12, row_13, unset_among, where_none, where_so, why_of};
ghost use Rattle.lg_op.specs.Operators.{is_least_by_minus_one, width};
ghost use Rattle.lg_mean.specs.Machines.{state_of};
ghost use Rattle.lg_mean.specs.Programs.{text_of};
ghost use Rattle.lg_mean.specs.Says.{AreKnown, IsKnown, IsSmall, not_allowed};

use crate::access::is_indexed;
use crate::calls::frame_size;
use crate::functions::function_here;
use crate::machine::{Machine, node_of_label, operand, slot};
use crate::program::Program;
use lg_base::HostName;
use lg_meaning::reason::{Called, Reason};
use lg_node::{
    Addressing, BinaryOp, ControlOp, LastOperand, Node, Op, Operand, PlainOp, Reg, ValueType,
    WideOp,
};
use lg_op::operators;

// Returns the first of some rows that holds.
fn first(rows: &[Option<Reason>]) -> Option<Reason>
    ensures { result ≡ first rows.now }
{
    match rows {
        [] => None,
        [Some(reason), ..] => Some(*reason),
        [None, rest @ ..] => first(rest),
    }
}

// Returns the register that an operand names; one that has no word is a register.
fn register(operand: Operand) -> Reg
    ensures { result ≡ register operand }
{
    match operand {
        Operand::Reg(reg) => reg,
        _ => Reg::Fp,
    }
}

// Returns whether a word is the least number and another one -1.
fn is_least_by_minus_one(a: u64, b: u64) -> bool
    ensures { result ≡ is_least_by_minus_one a b }
{
    a == 0x8000_0000_0000_0000 && b == 0xFFFF_FFFF_FFFF_FFFF
}

// Returns whether an operation cannot divide a word by another one.
fn cannot_divide(op: BinaryOp, a: u64, b: u64) -> bool
    ensures { result ≡ cannot_divide op a b }
{
    match op {
        BinaryOp::Div | BinaryOp::Rem => b == 0 || is_least_by_minus_one(a, b),
        BinaryOp::DivU | BinaryOp::RemU => b == 0,
        _ => false,
    }
}

// The same of operations with two results.
fn cannot_divide_widely(op: WideOp, a: u64, b: u64) -> bool
    ensures { result ≡ cannot_divide_widely op a b }
{
    match op {
        WideOp::Div => b == 0 || is_least_by_minus_one(a, b),
        WideOp::DivU => b == 0,
        _ => false,
    }
}

// A reason where something is so.
fn where_so(so: bool, reason: Reason) -> Option<Reason>
    ensures { result ≡ where_so so reason }
{
    if so { Some(reason) } else { None }
}

// Returns the last operand of a call.
fn call_of(op: Op) -> Option<LastOperand>
    ensures { result ≡ call_of op }
{
    match op {
        Op::Control(ControlOp::Call | ControlOp::Finish, last) => Some(last),
        _ => None,
    }
}

// A host function that is called does not allow its arguments.
fn not_allowed(called: Called) -> Option<Reason>
    ensures { result ≡ not_allowed called }
{
    match called {
        Called::OfHost(name) => Some(Reason::NotAllowed(name)),
        Called::OfText(_) => None,
    }
}

// Returns the function of the text at a node, as what is called.
fn function_at(program: &Program, node: u32) -> Option<Called>
    ensures value { result ≡ option_map Called.OfText (function_here program.now.shape.functions node) }
    ensures small { IfSome result IsSmall }
{
    match function_here(program.shape(), node) {
        Some(function) => Some(Called::OfText(function)),
        None => None,
    }
}

// What is called by a word.
fn called_at(program: &Program, word: u64) -> Option<Called>
    ensures value { result ≡ called_at (text_of program.now) word (host_by_address word) }
    ensures small { IfSome result IsSmall }
{
    match HostName::from_address(word) {
        Some(name) => Some(Called::OfHost(name)),
        None => match program.entry_target(word) {
            Some(node) => function_at(program, node),
            None => None,
        },
    }
}

// What is called by the name of a host function or the label of a node.
fn called_by_name(program: &Program, operand: Operand) -> Option<Called>
    requires known { IsKnown (length program.now.labels.addresses) operand }
    ensures value { result ≡ called_by_name (text_of program.now) operand }
    ensures small { IfSome result IsSmall }
{
    match operand {
        Operand::Host(name) => Some(Called::OfHost(name)),
        other => function_at(program, node_of_label(program.nodes(), other)),
    }
}

impl Machine {
    // 1: an operand that is read is an undefined register.
    fn unset(&self, node: &Node, place: usize, labels: &[u64]) -> Option<Reason>
        requires known { AreKnown (length labels.now) node.now }
        requires place { place < 4 }
        ensures { let read = operand_at node.now place in
            result ≡ where_none (value labels.now (state_of self.now) read) (Reason.Unset (register read)) }
    {
        let operand = operand(node, place);
        match self.value(labels, operand) {
            Some(_) => None,
            None => Some(Reason::Unset(register(operand))),
        }
    }

    // One of two operands is one.
    fn unset_of_two(&self, node: &Node, place: usize, next: usize, labels: &[u64]) -> Option<Reason>
        requires known { AreKnown (length labels.now) node.now }
        requires place { place < 4 }
        requires next { next < 4 }
        ensures { result ≡ unset_among labels.now node.now (state_of self.now) (place ∷ next ∷ []) }
    {
        match self.unset(node, place, labels) {
            Some(reason) => Some(reason),
            None => self.unset(node, next, labels),
        }
    }

    // One of the first three operands is one.
    fn unset_of_three(&self, node: &Node, labels: &[u64]) -> Option<Reason>
        requires known { AreKnown (length labels.now) node.now }
        ensures { result ≡ unset_among labels.now node.now (state_of self.now) (0 ∷ 1 ∷ 2 ∷ []) }
    {
        match self.unset(node, 0, labels) {
            Some(reason) => Some(reason),
            None => self.unset_of_two(node, 1, 2, labels),
        }
    }

    // An operand of a jump, a call, an argument or a return is one.
    fn unset_control(
        &self,
        op: ControlOp,
        last: LastOperand,
        node: &Node,
        labels: &[u64],
    ) -> Option<Reason>
        requires known { AreKnown (length labels.now) node.now }
        ensures { result ≡ unset_among labels.now node.now (state_of self.now) (control_reads op last) }
    {
        match (op, last) {
            (ControlOp::Jmp | ControlOp::Call | ControlOp::Finish, LastOperand::Immediate) => None,
            _ => self.unset(node, 0, labels),
        }
    }

    // An operand of a node that comes in one form is one.
    fn unset_plain(&self, op: PlainOp, node: &Node, labels: &[u64]) -> Option<Reason>
        requires known { AreKnown (length labels.now) node.now }
        ensures { result ≡ unset_among labels.now node.now (state_of self.now) (plain_reads op) }
    {
        match op {
            PlainOp::Movi | PlainOp::VaStart | PlainOp::VaArg => self.unset(node, 1, labels),
            PlainOp::VaEnd => self.unset(node, 0, labels),
            _ => None,
        }
    }

    // An operand of a load is one.
    fn unset_load(&self, addressing: Addressing, node: &Node, labels: &[u64]) -> Option<Reason>
        requires known { AreKnown (length labels.now) node.now }
        ensures { result ≡ unset_among labels.now node.now (state_of self.now) (address_reads addressing 1) }
    {
        if is_indexed(addressing) {
            self.unset_of_two(node, 1, 2, labels)
        } else {
            self.unset(node, 1, labels)
        }
    }

    // An operand of a store is one.
    fn unset_store(&self, addressing: Addressing, node: &Node, labels: &[u64]) -> Option<Reason>
        requires known { AreKnown (length labels.now) node.now }
        ensures { result ≡ unset_among labels.now node.now (state_of self.now) (address_reads addressing 0 ++ stored_operand addressing ∷ []) }
    {
        if is_indexed(addressing) {
            self.unset_of_three(node, labels)
        } else {
            self.unset_of_two(node, 0, 1, labels)
        }
    }

    // 1: a register that is read is undefined.
    fn row_1(&self, node: &Node, program: &Program) -> Option<Reason>
        requires known { AreKnown (length program.now.labels.addresses) node.now }
        ensures { result ≡ row_1 (text_of program.now) node.now node.now.op (state_of self.now) }
    {
        let labels = program.addresses();
        match node.op {
            Op::Binary(_, _) | Op::Branch(_, _) | Op::BranchSum(_, _) => self.unset_of_two(
                node, 1, 2, labels,
            ),
            Op::Wide(_, _) => self.unset_of_two(node, 2, 3, labels),
            Op::Control(op, last) => self.unset_control(op, last, node, labels),
            Op::Unary(_) => self.unset(node, 1, labels),
            Op::Plain(op) => self.unset_plain(op, node, labels),
            Op::Load(_, addressing) => self.unset_load(addressing, node, labels),
            Op::Store(_, addressing) => self.unset_store(addressing, node, labels),
            Op::Retval(_) | Op::Getarg(_) => None,
        }
    }

    // 2: `addx` or `subx` finds no carry of its kind.
    fn row_2(&self, node: &Node) -> Option<Reason>
        ensures { result ≡ row_2 node.now.op (state_of self.now) }
    {
        match node.op {
            Op::Binary(op, _) => where_so(
                operators::sets_carry(op) && operators::carry_in(op, self.carry).is_none(),
                Reason::NoCarry,
            ),
            _ => None,
        }
    }

    // 4: an operation cannot divide a word by another one.
    fn row_4(&self, node: &Node, program: &Program) -> Option<Reason>
        requires known { AreKnown (length program.now.labels.addresses) node.now }
        ensures { result ≡ row_4 (text_of program.now) node.now node.now.op (state_of self.now) }
    {
        let labels = program.addresses();
        match node.op {
            Op::Binary(op, _) => {
                let first = self.value(labels, operand(node, 1))?;
                let second = self.value(labels, operand(node, 2))?;
                where_so(
                    cannot_divide(op, first, second),
                    Reason::NoQuotient { first, second },
                )
            }
            Op::Wide(op, _) => {
                let first = self.value(labels, operand(node, 2))?;
                let second = self.value(labels, operand(node, 3))?;
                where_so(
                    cannot_divide_widely(op, first, second),
                    Reason::NoQuotient { first, second },
                )
            }
            _ => None,
        }
    }

    // The bytes of an access do not lie in one part.
    fn outside(&self, address: u64, width: u32) -> Option<Reason>
        requires { width ≤ 8 }
        ensures { result ≡ outside (state_of self.now) address width }
    {
        where_so(
            !self.memory.can_store(address, width),
            Reason::Outside { width, address },
        )
    }

    // A byte that is loaded was never written.
    fn unwritten(&self, address: u64, width: u32) -> Option<Reason>
        requires { width ≤ 8 }
        ensures { result ≡ where_none (loaded (state_of self.now).mem address width) (Reason.Unwritten width address) }
    {
        match self.memory.load(address, width) {
            Some(_) => None,
            None => Some(Reason::Unwritten { width, address }),
        }
    }

    // 6: a load from an address.
    fn row_6_load(&self, value_type: ValueType, address: u64) -> Option<Reason>
        ensures { let wide = width value_type in
            result ≡ first (outside (state_of self.now) address wide
            ∷ where_none (loaded (state_of self.now).mem address wide) (Reason.Unwritten wide address) ∷ []) }
    {
        let width = operators::width(value_type);
        match self.outside(address, width) {
            Some(reason) => Some(reason),
            None => self.unwritten(address, width),
        }
    }

    // 6: an access leaves the memory that may be used, or loads a byte that was never written.
    fn row_6(&self, node: &Node, program: &Program) -> Option<Reason>
        requires known { AreKnown (length program.now.labels.addresses) node.now }
        ensures { result ≡ row_6 (text_of program.now) node.now node.now.op (state_of self.now) }
    {
        let labels = program.addresses();
        match node.op {
            Op::Load(value_type, addressing) => {
                let address = self.address(addressing, node, 1, labels)?;
                self.row_6_load(value_type, address)
            }
            Op::Store(store_type, addressing) => {
                let address = self.address(addressing, node, 0, labels)?;
                self.outside(address, operators::store_width(store_type))
            }
            _ => None,
        }
    }

    // 7: `jmpr` goes to no label of its function whose address was taken.
    fn row_7(&self, node: &Node, program: &Program) -> Option<Reason>
        requires known { AreKnown (length program.now.labels.addresses) node.now }
        ensures { result ≡ row_7 (text_of program.now) node.now node.now.op (state_of self.now) }
    {
        match node.op {
            Op::Control(ControlOp::Jmp, LastOperand::Register) => {
                let word = self.value(program.addresses(), operand(node, 0))?;
                where_so(
                    program.jump_target(self.at, word).is_none(),
                    Reason::NoLabel(word),
                )
            }
            _ => None,
        }
    }

    // What a call goes to.
    fn called_here(&self, node: &Node, last: LastOperand, program: &Program) -> Option<Called>
        requires known { AreKnown (length program.now.labels.addresses) node.now }
        ensures value { result ≡ called_here (text_of program.now) node.now last (state_of self.now) }
        ensures small { IfSome result IsSmall }
    {
        match last {
            LastOperand::Immediate => called_by_name(program, operand(node, 0)),
            LastOperand::Register => match self.value(program.addresses(), operand(node, 0)) {
                Some(word) => called_at(program, word),
                None => None,
            },
        }
    }

    // What a node calls, if anything.
    fn called_from(&self, node: &Node, program: &Program) -> Option<Called>
        requires known { AreKnown (length program.now.labels.addresses) node.now }
        ensures value { result ≡ called_from (text_of program.now) node.now node.now.op (state_of self.now) }
        ensures small { IfSome result IsSmall }
    {
        match call_of(node.op) {
            Some(last) => self.called_here(node, last, program),
            None => None,
        }
    }

    // 8: a call goes to no label at a `prolog` and to no host function.
    fn row_8(&self, node: &Node, program: &Program) -> Option<Reason>
        requires known { AreKnown (length program.now.labels.addresses) node.now }
        ensures { result ≡ row_8 (text_of program.now) node.now node.now.op (state_of self.now) }
    {
        let last = call_of(node.op)?;
        let word = self.value(program.addresses(), operand(node, 0))?;
        match self.called_here(node, last, program) {
            Some(_) => None,
            None => Some(Reason::NoFunction(word)),
        }
    }

    // What is called finds no room for its frame.
    fn no_room(&self, called: Called) -> Option<Reason>
        requires { IsSmall called }
        ensures { result ≡ finds_no_room (state_of self.now) called }
    {
        match called {
            Called::OfText(function) => {
                let size = frame_size(function);
                where_so(!self.has_room(size), Reason::NoRoom(size))
            }
            Called::OfHost(_) => None,
        }
    }

    // 9: a call finds the stack full.
    fn row_9(&self, node: &Node, program: &Program) -> Option<Reason>
        requires known { AreKnown (length program.now.labels.addresses) node.now }
        ensures { result ≡ row_9 (text_of program.now) node.now node.now.op (state_of self.now) }
    {
        match self.called_from(node, program) {
            Some(called) => self.no_room(called),
            None => None,
        }
    }

    // 10: a `retval` is not directly after a call that gave a result.
    fn row_10(&self, node: &Node) -> Option<Reason>
        ensures { result ≡ row_10 node.now.op (state_of self.now) }
    {
        match node.op {
            Op::Retval(_) => where_so(self.answer.is_none(), Reason::NoResult),
            _ => None,
        }
    }

    // 11: a `getarg` wants an argument that was not pushed.
    fn row_11(&self, node: &Node) -> Option<Reason>
        ensures { result ≡ row_11 node.now node.now.op (state_of self.now) }
    {
        match node.op {
            Op::Getarg(_) => {
                let index = slot(operand(node, 1));
                where_so(
                    self.argument(u64::from(index)).is_none(),
                    Reason::NoArgument(index),
                )
            }
            _ => None,
        }
    }

    // 12: a host function is called with arguments that it does not allow: the only reason of its call for which a step is undefined.
    fn row_12(&self, node: &Node, program: &Program) -> Option<Reason>
        requires known { AreKnown (length program.now.labels.addresses) node.now }
        requires undefined { node_step (text_of program.now) node.now node.now.op (state_of self.now) ≡ Undefined }
        ensures { result ≡ row_12 (text_of program.now) node.now node.now.op (state_of self.now) }
    {
        match self.called_from(node, program) {
            Some(called) => not_allowed(called),
            None => None,
        }
    }

    // 13: a `va_arg` wants an argument that was not pushed.
    fn row_13(&self, node: &Node, program: &Program) -> Option<Reason>
        requires known { AreKnown (length program.now.labels.addresses) node.now }
        ensures { result ≡ row_13 (text_of program.now) node.now node.now.op (state_of self.now) }
    {
        match node.op {
            Op::Plain(PlainOp::VaArg) => {
                let index = self.value(program.addresses(), operand(node, 1))?;
                where_so(self.argument(index).is_none(), Reason::NoVariable(index))
            }
            _ => None,
        }
    }

    // Why the step of a node is undefined, which it is: the first row that holds.
    pub(crate) fn why(&self, node: &Node, program: &Program) -> Option<Reason>
        requires known { AreKnown (length program.now.labels.addresses) node.now }
        requires undefined { node_step (text_of program.now) node.now node.now.op (state_of self.now) ≡ Undefined }
        ensures { result ≡ why_of (text_of program.now) node.now node.now.op (state_of self.now) }
    {
        first(&[
            self.row_1(node, program),
            self.row_2(node),
            self.row_4(node, program),
            self.row_6(node, program),
            self.row_7(node, program),
            self.row_8(node, program),
            self.row_9(node, program),
            self.row_10(node),
            self.row_11(node),
            self.row_12(node, program),
            self.row_13(node, program),
        ])
    }
}
