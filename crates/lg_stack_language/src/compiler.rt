// Words become nodes.

ghost use Rattle.std.specs.Prelude.{◌≡◌, IfOk};
ghost use Rattle.lg_stack_language.specs.Units.{AreInside, format};

use crate::block::Block;
use crate::emitter::Emitter;
use crate::fault::{CompileError, Fault};
use lg_base::{DataImage, OutOfMemory};
use lg_node::{BinaryOp, Label, Unit};
use std::alloc::Global;
use std::str::SplitWhitespace;

// The size of a local.
const WORD: u32 = 8;

/// A function of a text: its name, the label that it is called by, and how many words it is called with.
#[derive(Clone, Copy)]
pub struct Function<'a> {
    pub name: &'a str,
    pub label: Label,
    pub arguments: u32,
}

/// What is made of a text: its unit, and its functions in the order in which the text names them, after `main`.
#[derive(Drop)]
pub struct Program<'a> {
    pub unit: Unit,
    pub functions: Vec<Function<'a>>,
}

// An argument or a local, by its offset from FP.
#[derive(Clone, Copy)]
struct Variable<'a> {
    name: &'a str,
    offset: u64,
}

// Returns the operation that a word denotes.
fn operation_of(word: &str) -> Option<BinaryOp> {
    match word {
        "+" => Some(BinaryOp::Add),
        "-" => Some(BinaryOp::Sub),
        "*" => Some(BinaryOp::Mul),
        "<" => Some(BinaryOp::Lt),
        "=" => Some(BinaryOp::Eq),
        _ => None,
    }
}

#[derive(Drop)]
struct Compiler<'a> {
    emitter: Emitter,
    functions: Vec<Function<'a>>,
    variables: Vec<Variable<'a>>,
    blocks: Vec<Block>,
    // whether a function is open
    is_open: bool,
}

impl<'a> Compiler<'a> {
    fn new(alloc: Global) -> Compiler<'a> {
        Compiler {
            emitter: Emitter::new(alloc),
            functions: Vec::new(alloc),
            variables: Vec::new(alloc),
            blocks: Vec::new(alloc),
            is_open: false,
        }
    }

    // Returns the function of a name.
    fn function(&self, name: &str) -> Option<Function<'a>> {
        for function in &self.functions {
            if function.name == name {
                return Some(*function);
            }
        }
        None
    }

    // Where the local of a name lies.
    fn variable(&self, name: &str) -> Option<u64> {
        for variable in &self.variables {
            if variable.name == name {
                return Some(variable.offset);
            }
        }
        None
    }

    // Makes a function known; one that is known already has this many arguments.
    fn declare(&mut self, function: Function<'a>) -> Result<(), CompileError> {
        match self.function(function.name) {
            None => Ok(self.functions.push(function)?),
            Some(known) if known.arguments == function.arguments => Ok(()),
            Some(_) => Err(CompileError::DefinedOtherwise),
        }
    }

    // Values may not wait where a block begins, turns or ends.
    fn expect_empty(&self) -> Result<(), CompileError> {
        if self.emitter.is_empty() {
            Ok(())
        } else {
            Err(CompileError::ValuesLeft)
        }
    }

    // Binds a label here.
    fn bind(&mut self, label: Label) -> Result<(), CompileError> {
        if self.emitter.bind(label) {
            Ok(())
        } else {
            Err(CompileError::DefinedOtherwise)
        }
    }

    fn open(&mut self, block: Block) -> Result<(), CompileError> {
        self.expect_empty()?;
        self.blocks.push(block)?;
        Ok(())
    }

    fn begin_if(&mut self) -> Result<(), CompileError> {
        let behind = self.emitter.fresh()?;
        self.emitter.branch(behind)?;
        self.open(Block::If { behind })
    }

    fn turn(&mut self) -> Result<(), CompileError> {
        self.expect_empty()?;
        let Some(Block::If { behind }) = self.blocks.pop() else {
            return Err(CompileError::OutOfPlace);
        };
        let end = self.emitter.fresh()?;
        self.emitter.jump(end)?;
        self.bind(behind)?;
        self.open(Block::Else { behind: end })
    }

    fn begin_while(&mut self) -> Result<(), CompileError> {
        let again = self.emitter.fresh()?;
        self.bind(again)?;
        self.open(Block::While { again })
    }

    fn repeat(&mut self) -> Result<(), CompileError> {
        let Some(Block::While { again }) = self.blocks.pop() else {
            return Err(CompileError::OutOfPlace);
        };
        let behind = self.emitter.fresh()?;
        self.emitter.branch(behind)?;
        self.open(Block::Do { again, behind })
    }

    fn end(&mut self) -> Result<(), CompileError> {
        self.expect_empty()?;
        match self.blocks.pop() {
            None => {
                self.is_open = false;
                self.emitter.end()
            }
            Some(Block::If { behind } | Block::Else { behind }) => self.bind(behind),
            Some(Block::Do { again, behind }) => {
                self.emitter.jump(again)?;
                self.bind(behind)
            }
            Some(Block::While { .. }) => Err(CompileError::OutOfPlace),
        }
    }

    // The topmost value goes into a local, which is made at its first mention.
    fn set(&mut self, name: &'a str) -> Result<(), CompileError> {
        if let Some(offset) = self.variable(name) {
            return self.emitter.set(offset);
        }
        let offset = self.emitter.local(WORD)?;
        self.variables.push(Variable { name, offset })?;
        self.emitter.set(offset)
    }

    // A local's value, a call, or a number.
    fn mention(&mut self, word: &str) -> Result<(), CompileError> {
        if let Some(offset) = self.variable(word) {
            return self.emitter.read(offset);
        }
        if let Some(function) = self.function(word) {
            return self.emitter.call(function.label, function.arguments);
        }
        match word.parse::<u64>() {
            Ok(number) => self.emitter.number(number),
            Err(_) => Err(CompileError::UnknownWord),
        }
    }

    fn word(&mut self, word: &'a str) -> Result<(), CompileError> {
        if !self.is_open {
            return Err(CompileError::OutOfPlace);
        }
        if let Some(op) = operation_of(word) {
            return self.emitter.operation(op);
        }
        match word {
            "print" => self.emitter.print(),
            "return" => self.emitter.give_back(),
            "if" => self.begin_if(),
            "else" => self.turn(),
            "while" => self.begin_while(),
            "do" => self.repeat(),
            "end" => self.end(),
            _ => match word.strip_prefix('>') {
                Some(name) => self.set(name),
                None => self.mention(word),
            },
        }
    }

    // The arguments of a function become locals: how many there are.
    fn arguments(&mut self, names: SplitWhitespace<'a>) -> Result<u32, CompileError> {
        let mut count = 0u32;
        for name in names {
            let offset = self.emitter.argument(count)?;
            self.variables.push(Variable { name, offset })?;
            count = count.saturating_add(1);
        }
        Ok(count)
    }

    // A function begins, by its name and those of its arguments.
    fn define(&mut self, header: &'a str) -> Result<(), CompileError> {
        if self.is_open {
            return Err(CompileError::OutOfPlace);
        }
        let mut words = header.split_whitespace();
        let name = words.next().ok_or(CompileError::UnknownWord)?;
        let label = match self.function(name) {
            Some(function) => function.label,
            None => self.emitter.fresh()?,
        };
        self.bind(label)?;
        self.emitter.begin()?;
        self.is_open = true;
        self.variables.clear();
        let arguments = self.arguments(words)?;
        self.declare(Function {
            name,
            label,
            arguments,
        })
    }

    fn line(&mut self, line: &'a str) -> Result<(), CompileError> {
        if let Some(header) = line.strip_prefix("def ") {
            return self.define(header);
        }
        for word in line.split_whitespace() {
            self.word(word)?;
        }
        Ok(())
    }

    // The entry calls `main`, which has one argument.
    fn enter(&mut self) -> Result<(), CompileError> {
        let label = self.emitter.fresh()?;
        self.declare(Function {
            name: "main",
            label,
            arguments: 1,
        })?;
        self.emitter.entry(label)
    }

    fn text(&mut self, text: &'a str) -> Result<(), CompileError> {
        self.enter()?;
        for line in text.lines() {
            self.emitter.next_line();
            self.line(line)?;
        }
        if self.is_open {
            return Err(CompileError::NotEnded);
        }
        Ok(())
    }
}

// Returns the unit of a text, where its nodes are made.
fn unit_of(alloc: Global, emitter: Emitter) -> Result<Unit, Fault>
    ensures inside { IfOk result (λ u. AreInside u.nodes) }
    ensures image { IfOk result (λ u. u.image ≡ format) }
{
    match DataImage::of(alloc, b"%ld\n\0") {
        Ok(image) => Ok(Unit {
            nodes: emitter.into_nodes(),
            image,
        }),
        Err(OutOfMemory) => Err(Fault {
            line: 0,
            error: CompileError::OutOfMemory,
        }),
    }
}

/// Makes the program of a text, or gives its first fault with the line. The entry calls the function `main` with the number that the second word of the run says.
/// A text without `main` is left to `check`, which finds the label of the entry's call missing.
pub fn compile<'a>(alloc: Global, text: &'a str) -> Result<Program<'a>, Fault>
    ensures inside { IfOk result (λ p. AreInside p.unit.nodes) }
    ensures image { IfOk result (λ p. p.unit.image ≡ format) }
{
    let mut compiler = Compiler::new(alloc);
    let result = compiler.text(text);
    let Compiler {
        emitter,
        functions,
        ..
    } = compiler;
    match result {
        Ok(()) => Ok(Program {
            unit: unit_of(alloc, emitter)?,
            functions,
        }),
        Err(error) => Err(Fault {
            line: emitter.line(),
            error,
        }),
    }
}
