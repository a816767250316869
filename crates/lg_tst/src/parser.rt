// What is read of a text, statement by statement.

ghost use Rattle.std.specs.Prelude.{◌≡◌, ◌≤◌, Ok, length, IfOk, IfSome};
ghost use Rattle.lg_tst.specs.Answers.{Gives, GivesWith, Reads, HasRoom, IsWhole};
ghost use Rattle.lg_base.specs.Refusals.{refuse};
ghost use Rattle.lg_tst.specs.Streams.{IsToken, next_of};
ghost use Rattle.lg_tst.specs.Units.{start, wanted, behind, at_line, statement_from, statements_of, unit_from};

mod data;
mod instructions;
mod labels;

use crate::data_part::DataPart;
use crate::names::Names;
use crate::source::Source;
use crate::statement::{Section, Statement, statement_of};
use crate::words::without_last;
use lg_base::{OutOfMemory, Refusal, RefusalKind, Stop};
use lg_lex::Token;
use lg_node::{NodeList, Unit};
use lg_op::Operand;
use std::alloc::Global;
use std::marker::Model;

/// What has been read of a text, and the tokens that are left.
#[derive(Drop)]
pub struct Parser<'a> {
    source: Source<'a>,
    section: Section,
    part: DataPart,
    nodes: NodeList,
    names: Names,
}

impl<'a> Model for Parser<'a> {
    ghost use Rattle.lg_tst.specs.Units.{State};
    ghost use Rattle.lg_tst.specs.Parsers.{view_of, IsParser};

    ghost Value = { State };

    ghost view = { view_of };

    ghost invariant = { IsParser };
}

// A refusal.
fn refuse<T>(kind: RefusalKind, line: u32) -> Result<T, Stop>
    ensures { Reads result (refuse kind line) }
{
    Err(Stop::Refused(Refusal { kind, line }))
}

// A refusal's line.
fn at_line(operand: Result<Operand, RefusalKind>, line: u32) -> Result<Operand, Stop>
    ensures { Reads result (at_line line operand) }
{
    match operand {
        Ok(operand) => Ok(operand),
        Err(kind) => refuse(kind, line),
    }
}

impl<'a> Parser<'a> {
    /// Nothing is read of a text of at most 16,777,216 bytes. Memory is taken for a node for each 12 bytes.
    pub fn new(alloc: Global, text: &'a [u8]) -> Result<Self, OutOfMemory>
        requires { length text.now ≤ 16777216 }
        ensures { IfOk result (λ parser. parser ≡ start text.now) }
    {
        let nodes = NodeList::with_room(alloc, (text.len() / 12) as u32)?;
        Ok(Parser {
            source: Source::new(text),
            section: Section::Code,
            part: DataPart::new(alloc),
            nodes,
            names: Names::new(alloc),
        })
    }

    // The next token, as an operand of the statement that begins in a line.
    #[inline(always)]
    fn wanted(&mut self, line: u32) -> Result<Token, Stop>
        ensures gives { GivesWith result self.new (wanted line self.old) (behind self.old) }
        ensures token { IfOk result (λ token. IsToken self.new.source.text token) }
        ensures room { IfOk result (λ _. HasRoom self.new) }
    {
        match self.source.next() {
            Ok(Some(token)) => Ok(token),
            Ok(None) => refuse(RefusalKind::BadOperand, line),
            Err(refusal) => Err(Stop::Refused(refusal)),
        }
    }

    // A statement, whose first token has been taken.
    fn statement(&mut self, token: Token) -> Result<(), Stop>
        requires token { IsToken self.old.source.text token }
        requires room { HasRoom self.old }
        ensures { Gives result self.new (statement_from self.old token) }
    {
        let text = self.source.text_of(token);
        let line = token.line;
        match statement_of(self.section, token.kind, text) {
            Ok(Statement::Data) => self.data_section(line),
            Ok(Statement::Code) => {
                self.section = Section::Code;
                Ok(())
            }
            Ok(Statement::Label) => self.label(without_last(text), line),
            Ok(Statement::Name) => self.name_word(line),
            Ok(Statement::Note) => {
                self.note();
                Ok(())
            }
            Ok(Statement::Values(size)) => self.values(size, line),
            Ok(Statement::Skip) => self.skip(line),
            Ok(Statement::AlignData) => self.align_data(line),
            Ok(Statement::Instruction(op)) => self.instruction(op, line),
            Err(kind) => refuse(kind, line),
        }
    }

    // The next token, as the first of a statement: None at the end of the text.
    #[inline(always)]
    fn next_token(&mut self) -> Result<Option<Token>, Stop>
        ensures value { Reads result (next_of self.old.source.left self.old.source.fault) }
        ensures behind { self.new ≡ behind self.old }
        ensures token { IfOk result (λ next. IfSome next (λ token. IsToken self.new.source.text token)) }
        ensures room { IfOk result (λ next. IfSome next (λ _. HasRoom self.new)) }
    {
        match self.source.next() {
            Ok(next) => Ok(next),
            Err(refusal) => Err(Stop::Refused(refusal)),
        }
    }

    /// Reads all statements that are left.
    pub fn statements(&mut self) -> Result<(), Stop>
        ensures { Gives result self.new (statements_of self.old) }
    {
        while let Some(token) = self.next_token()? {
            self.statement(token)?;
        }
        Ok(())
    }

    /// Returns the unit of what was read.
    pub fn into_unit(self) -> Result<Unit, Stop>
        ensures unit { Reads result (Ok (unit_from self.entry)) }
        ensures whole { IfOk result IsWhole }
    {
        let Parser {
            source: _,
            section: _,
            part,
            nodes,
            names: _,
        } = self;
        let image = part.into_image()?;
        Ok(Unit { nodes, image })
    }
}
