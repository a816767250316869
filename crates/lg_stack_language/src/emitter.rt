// What words make: nodes, by which values are taken from the stack and put onto it.

ghost use Rattle.std.specs.Prelude.{◌≡◌, ◌≤◌, ◌+◌, ◌*◌, ◌%◌, ◌^◌, length};
ghost use Rattle.lg_op.specs.Nodes.{InForm};
ghost use Rattle.lg_stack_language.specs.Units.{AreInside, node};

use crate::fault::CompileError;
use crate::writer::Writer;
use lg_base::HostName;
use lg_node::{
    Addressing, BinaryOp, Condition, ControlOp, Label, LastOperand, Locals, Node, NodeList, Op,
    Operand, Operands, PlainOp, Reg, StoreType, ValueType,
};
use std::alloc::Global;

// The most values that wait at once.
const MOST_VALUES: u32 = 32;

const FP: Operand = Operand::Reg(Reg::Fp);

const R0: Operand = Operand::Reg(Reg::R0);

const R1: Operand = Operand::Reg(Reg::R1);

/// The nodes so far. The values of a function wait in its first local, the lowest one first; they go through R0 and R1.
#[derive(Drop)]
pub(crate) struct Emitter {
    writer: Writer,
    // the label of the format by which values are printed, from the entry on
    format: Label,
    locals: Locals,
    // where the first value waits, by its offset from FP, and how many wait
    first: u64,
    values: u32,
    line: u32,
}

impl Emitter {
    /// No nodes.
    pub fn new(alloc: Global) -> Emitter {
        Emitter {
            writer: Writer::new(alloc),
            format: Label(0),
            locals: Locals::none(),
            first: 0,
            values: 0,
            line: 0,
        }
    }

    /// Returns the nodes.
    pub fn into_nodes(self) -> NodeList
        ensures { AreInside result }
    {
        let Emitter { writer, .. } = self;
        writer.into_nodes()
    }

    /// The nodes that come next are of the next line.
    pub fn next_line(&mut self) {
        self.line = self.line.saturating_add(1);
    }

    /// Returns the line of the nodes that come next.
    pub fn line(&self) -> u32 {
        self.line
    }

    /// Returns whether no value waits.
    pub fn is_empty(&self) -> bool {
        self.values == 0
    }

    /// A new label.
    pub fn fresh(&mut self) -> Result<Label, CompileError> {
        Ok(self.writer.fresh()?)
    }

    /// Binds a label here. False where it is bound already.
    pub fn bind(&mut self, label: Label) -> bool {
        self.writer.bind_here(label)
    }

    // Appends a node.
    fn put(&mut self, op: Op, operands: &[Operand]) -> Result<(), CompileError>
        requires few { length operands.now ≤ 4 }
        requires form { InForm (node op operands.now self.old.line) }
    {
        Ok(
            self.writer.put(Node {
                op,
                operands: Operands::of(operands),
                line: self.line,
            })?,
        )
    }

    // Where the value of a place waits.
    fn place(&self, place: u32) -> u64
        ensures { result ≡ (self.now.first + 8 * place) % 2 ^ 64 }
    {
        self.first.wrapping_add(8 * u64::from(place))
    }

    // R0 becomes the topmost value.
    fn put_value(&mut self) -> Result<(), CompileError> {
        if self.values >= MOST_VALUES {
            return Err(CompileError::TooManyValues);
        }
        let place = self.place(self.values);
        self.values += 1;
        self.store(place)
    }

    // Where the topmost value waits, which is taken.
    fn taken(&mut self) -> Result<u64, CompileError> {
        let values = self
            .values
            .checked_sub(1)
            .ok_or(CompileError::ValueMissing)?;
        self.values = values;
        Ok(self.place(values))
    }

    // The topmost value comes into R0.
    fn take_value(&mut self) -> Result<(), CompileError> {
        let place = self.taken()?;
        self.load(place)
    }

    // R0 becomes what is at an offset from FP.
    fn load(&mut self, offset: u64) -> Result<(), CompileError> {
        self.put(
            Op::Load(ValueType::Long, Addressing::RegisterImmediate),
            &[R0, FP, Operand::Number(offset)],
        )
    }

    // R0 goes to an offset from FP.
    fn store(&mut self, offset: u64) -> Result<(), CompileError> {
        self.put(
            Op::Store(StoreType::Long, Addressing::RegisterImmediate),
            &[Operand::Number(offset), FP, R0],
        )
    }

    /// A number.
    pub fn number(&mut self, number: u64) -> Result<(), CompileError> {
        self.put(Op::Plain(PlainOp::Movi), &[R0, Operand::Number(number)])?;
        self.put_value()
    }

    /// The value of a local.
    pub fn read(&mut self, offset: u64) -> Result<(), CompileError> {
        self.load(offset)?;
        self.put_value()
    }

    /// The topmost value goes into a local.
    pub fn set(&mut self, offset: u64) -> Result<(), CompileError> {
        self.take_value()?;
        self.store(offset)
    }

    /// What an operation makes of the two topmost values, the topmost one last.
    pub fn operation(&mut self, op: BinaryOp) -> Result<(), CompileError> {
        let last = self.taken()?;
        self.take_value()?;
        self.put(
            Op::Load(ValueType::Long, Addressing::RegisterImmediate),
            &[R1, FP, Operand::Number(last)],
        )?;
        self.put(Op::Binary(op, LastOperand::Register), &[R0, R0, R1])?;
        self.put_value()
    }

    /// Goes to a label where the topmost value is 0.
    pub fn branch(&mut self, label: Label) -> Result<(), CompileError> {
        self.take_value()?;
        self.put(
            Op::Branch(Condition::Eq, LastOperand::Immediate),
            &[Operand::Label(label), R0, Operand::Number(0)],
        )
    }

    /// Goes to a label.
    pub fn jump(&mut self, label: Label) -> Result<(), CompileError> {
        self.put(
            Op::Control(ControlOp::Jmp, LastOperand::Immediate),
            &[Operand::Label(label)],
        )
    }

    /// Returns the topmost value.
    pub fn give_back(&mut self) -> Result<(), CompileError> {
        self.take_value()?;
        self.put(Op::Control(ControlOp::Ret, LastOperand::Register), &[R0])
    }

    // R0 is the next argument of the call that is being prepared.
    fn push(&mut self) -> Result<(), CompileError> {
        self.put(
            Op::Control(ControlOp::Pusharg, LastOperand::Register),
            &[R0],
        )
    }

    // What the call gives back, which comes directly after it.
    fn result(&mut self) -> Result<(), CompileError> {
        self.put(Op::Retval(ValueType::Long), &[R0])?;
        self.put_value()
    }

    /// Calls a function with this many of the topmost values, in whose places its result comes.
    pub fn call(&mut self, label: Label, arguments: u32) -> Result<(), CompileError> {
        let least = self
            .values
            .checked_sub(arguments)
            .ok_or(CompileError::ValueMissing)?;
        self.put(Op::Plain(PlainOp::Prepare), &[])?;
        for place in least..self.values {
            let place = self.place(place);
            self.load(place)?;
            self.push()?;
        }
        self.values = least;
        self.put(
            Op::Control(ControlOp::Finish, LastOperand::Immediate),
            &[Operand::Label(label)],
        )?;
        self.result()
    }

    /// Prints the topmost value and a line feed.
    pub fn print(&mut self) -> Result<(), CompileError> {
        self.take_value()?;
        let format = Operand::Label(self.format);
        self.put(Op::Plain(PlainOp::Prepare), &[])?;
        self.put(
            Op::Control(ControlOp::Pusharg, LastOperand::Immediate),
            &[format],
        )?;
        self.put(Op::Plain(PlainOp::Ellipsis), &[])?;
        self.push()?;
        self.put(
            Op::Control(ControlOp::Finish, LastOperand::Immediate),
            &[Operand::Host(HostName::Printf)],
        )
    }

    /// The next local of the function: its offset from FP.
    pub fn local(&mut self, size: u32) -> Result<u64, CompileError> {
        match self.locals.next(size, self.line) {
            Some(local) => {
                self.writer.put(local.node)?;
                Ok(local.offset)
            }
            None => Err(CompileError::TooManyLocals),
        }
    }

    /// Begins a function: no value waits in it.
    pub fn begin(&mut self) -> Result<(), CompileError> {
        self.put(Op::Plain(PlainOp::Prolog), &[])?;
        self.locals = Locals::none();
        self.values = 0;
        self.first = self.local(8 * MOST_VALUES)?;
        Ok(())
    }

    /// The argument of a number becomes a local: its offset from FP.
    pub fn argument(&mut self, number: u32) -> Result<u64, CompileError> {
        let argument = Operand::Slot(number);
        self.put(Op::Plain(PlainOp::Arg), &[argument])?;
        self.put(Op::Getarg(ValueType::Long), &[R0, argument])?;
        let offset = self.local(8)?;
        self.store(offset)?;
        Ok(offset)
    }

    /// Ends a function: where no `return` comes before, it gives back 0.
    pub fn end(&mut self) -> Result<(), CompileError> {
        self.put(
            Op::Control(ControlOp::Ret, LastOperand::Immediate),
            &[Operand::Number(0)],
        )?;
        self.put(Op::Plain(PlainOp::Epilog), &[])
    }

    // The label of the format by which values are printed is at the first byte of the data part.
    fn bind_format(&mut self) -> Result<(), CompileError> {
        self.format = self.writer.fresh()?;
        let _ = self.writer.bind_format(self.format);
        Ok(())
    }

    // The number that the second word of the run says.
    fn number_of_run(&mut self) -> Result<(), CompileError> {
        let _ = self.argument(0)?;
        let words = self.argument(1)?;
        self.load(words)?;
        self.put(
            Op::Load(ValueType::Long, Addressing::RegisterImmediate),
            &[R0, R0, Operand::Number(8)],
        )?;
        self.put(Op::Plain(PlainOp::Prepare), &[])?;
        self.push()?;
        self.put(
            Op::Control(ControlOp::Finish, LastOperand::Immediate),
            &[Operand::Host(HostName::Atoi)],
        )?;
        self.result()
    }

    /// The first function, which a run enters: it calls another one with the number that the second word of the run says.
    pub fn entry(&mut self, main: Label) -> Result<(), CompileError> {
        self.bind_format()?;
        self.begin()?;
        self.number_of_run()?;
        self.call(main, 1)?;
        self.end()
    }
}
