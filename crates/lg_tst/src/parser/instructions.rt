// Instructions and their operands.

ghost use Rattle.std.specs.Prelude.{◌≡◌, ◌<◌, [], Ok, true, length, IfOk};
ghost use Rattle.lg_op.specs.Forms.{admits};
ghost use Rattle.lg_op.specs.Nodes.{InForm};
ghost use Rattle.lg_lex.specs.declared.token.TokenKind.TheVariants as kind;
ghost use Rattle.lg_node.specs.Nodes.{is_word, with_node};
ghost use Rattle.lg_tst.specs.Answers.{Gives, GivesWith, HasRoom};
ghost use Rattle.lg_operand.specs.Operands.{stays_apart};
ghost use Rattle.lg_tst.specs.Operands.{name_operand, names_after, operand_at};
ghost use Rattle.lg_tst.specs.Streams.{IsToken};
ghost use Rattle.lg_tst.specs.Units.{at_line, token_text, noted_by, noted, operand_of, operands, written_forms, all_operands, instruction, most_nodes};

use super::{Parser, at_line, refuse};
use lg_base::{HostName, RefusalKind, Stop};
use lg_lex::{Token, TokenKind};
use lg_op::{Form, Node, Op, Operand, Operands, PlainOp};
use lg_operand::{
    admitted, after_mark, argument_named, host_operand, local_named, local_size, register_operand,
    stays_apart,
};

// The most nodes of a text.
const MOST_NODES: u32 = 1_048_576;

// Returns the forms of the operands that have tokens: `va_start` has one more.
fn written_forms(op: Op) -> &'static [Form]
    ensures { result.now ≡ written_forms op }
{
    match op {
        Op::Plain(PlainOp::VaStart) => &[Form::Write],
        _ => op.forms(),
    }
}

impl Parser<'_> {
    // The label of a word, as an operand.
    fn label_operand(&mut self, form: Form, word: &[u8], line: u32) -> Result<Operand, Stop>
        requires word { is_word word.now ≡ true }
        requires room { HasRoom self.old }
        ensures gives { GivesWith result self.new (at_line line (operand_at self.old.list.words self.old.names form kind.Word word.now 0))
            (noted_by kind.Word self.old form [] word.now) }
        ensures form { IfOk result (λ x. admits form x ≡ true) }
        ensures nodes { length self.new.list.nodes ≡ length self.old.list.nodes }
    {
        let label = self.nodes.label(word)?;
        at_line(admitted(form, Operand::Label(label)), line)
    }

    // A name that `arg` makes.
    fn new_argument(&mut self, word: &[u8], line: u32) -> Result<Operand, Stop>
        requires room { HasRoom self.old }
        ensures gives { GivesWith result self.new (at_line line (name_operand Form.NewArgument self.old.names word.now)) record self.old
            { names = names_after Form.NewArgument [] self.old.names word.now } }
        ensures form { IfOk result (λ x. admits Form.NewArgument x ≡ true) }
        ensures nodes { length self.new.list.nodes ≡ length self.old.list.nodes }
    {
        match self.names.add_argument(word)? {
            Some(number) => Ok(Operand::Slot(number)),
            None => refuse(RefusalKind::LabelTwice, line),
        }
    }

    // A name that `allocai` makes after its first operand.
    fn new_local(&mut self, done: &[Operand], word: &[u8], line: u32) -> Result<Operand, Stop>
        requires room { HasRoom self.old }
        ensures gives { GivesWith result self.new (at_line line (name_operand Form.NewLocal self.old.names word.now)) record self.old
            { names = names_after Form.NewLocal done.now self.old.names word.now } }
        ensures form { IfOk result (λ x. admits Form.NewLocal x ≡ true) }
        ensures nodes { length self.new.list.nodes ≡ length self.old.list.nodes }
    {
        match self.names.add_local(word, local_size(done))? {
            Some(number) => Ok(Operand::Slot(number)),
            None => refuse(RefusalKind::LabelTwice, line),
        }
    }

    // A name as an operand.
    fn name_operand(
        &mut self,
        form: Form,
        done: &[Operand],
        word: &[u8],
        line: u32,
    ) -> Result<Operand, Stop>
        requires room { HasRoom self.old }
        ensures gives { GivesWith result self.new (at_line line (name_operand form self.old.names word.now)) record self.old
            { names = names_after form done.now self.old.names word.now } }
        ensures form { IfOk result (λ x. admits form x ≡ true) }
        ensures nodes { length self.new.list.nodes ≡ length self.old.list.nodes }
    {
        match form {
            Form::NewArgument => self.new_argument(word, line),
            Form::NewLocal => self.new_local(done, word, line),
            Form::Argument => at_line(argument_named(self.names.meaning(word)), line),
            Form::Immediate => at_line(local_named(self.names.meaning(word)), line),
            Form::Write
            | Form::Update
            | Form::Read
            | Form::Target
            | Form::Callee
            | Form::Size
            | Form::Alignment
            | Form::ArgumentCount => { refuse(RefusalKind::BadOperand, line) }
        }
    }

    // The operand that a token is, where a register stands wherever the place takes one.
    fn operand_at(&mut self, form: Form, done: &[Operand], token: Token) -> Result<Operand, Stop>
        requires token { IsToken self.old.source.text token }
        requires room { HasRoom self.old }
        ensures gives { GivesWith result self.new (at_line token.line (operand_at self.old.list.words self.old.names form token.kind
            (token_text self.old token) token.value)) (noted self.old form done.now token) }
        ensures form { IfOk result (λ x. admits form x ≡ true) }
        ensures nodes { length self.new.list.nodes ≡ length self.old.list.nodes }
    {
        let text = self.source.text_of(token);
        match token.kind {
            TokenKind::Register => at_line(register_operand(form, text), token.line),
            TokenKind::Host => at_line(
                host_operand(form, HostName::by_name(after_mark(text))),
                token.line,
            ),
            TokenKind::Name => self.name_operand(form, done, after_mark(text), token.line),
            TokenKind::Word => self.label_operand(form, text, token.line),
            TokenKind::Number | TokenKind::Character | TokenKind::Expression => {
                at_line(admitted(form, Operand::Number(token.value)), token.line)
            }
            TokenKind::Directive | TokenKind::LabelMark | TokenKind::Str => {
                refuse(RefusalKind::BadOperand, token.line)
            }
        }
    }

    // The operand that a token is, after those before it.
    fn operand(
        &mut self,
        op: Op,
        form: Form,
        done: &[Operand],
        token: Token,
    ) -> Result<Operand, Stop>
        requires token { IsToken self.old.source.text token }
        requires room { HasRoom self.old }
        ensures gives { GivesWith result self.new (operand_of self.old op form done.now token) (noted self.old form done.now token) }
        ensures form { IfOk result (λ x. admits form x ≡ true) }
        ensures apart { IfOk result (λ x. stays_apart op done.now x ≡ true) }
        ensures nodes { length self.new.list.nodes ≡ length self.old.list.nodes }
    {
        let operand = self.operand_at(form, done, token)?;
        if !stays_apart(op, done, operand) {
            return refuse(RefusalKind::BadOperand, token.line);
        }
        Ok(operand)
    }

    // A node, whose operands have been read.
    #[inline(always)]
    fn push(&mut self, node: Node) -> Result<(), Stop>
        requires room { length self.old.list.nodes < most_nodes }
        requires form { InForm node }
        ensures { Gives result self.new (Ok record self.old { list = with_node self.old.list node }) }
    {
        self.nodes.push(node)?;
        Ok(())
    }

    // Appends the operand of an operation that has no token, after those that have one.
    fn complete(&self, op: Op, done: &mut Operands)
        requires { length done.old ≡ length (written_forms op) }
        ensures { done.new ≡ all_operands op done.old self.now.names }
    {
        if op == Op::Plain(PlainOp::VaStart) {
            done.push(Operand::Number(u64::from(self.names.arguments())));
        }
    }

    // The operands of an instruction, and then its node.
    fn operands(&mut self, op: Op, line: u32) -> Result<(), Stop>
        requires room { length self.old.list.nodes < most_nodes }
        ensures { Gives result self.new (operands op line (written_forms op) [] self.old) }
    {
        let forms = written_forms(op);
        let mut node = Node {
            op,
            line,
            operands: Operands::of(&[]),
        };
        for form in forms {
            let token = self.wanted(line)?;
            let operand = self.operand(op, *form, node.operands.as_slice(), token)?;
            node.operands.push(operand);
        }
        self.complete(op, &mut node.operands);
        self.push(node)
    }

    // An instruction, and `.align N` of code.
    pub(super) fn instruction(&mut self, op: Op, line: u32) -> Result<(), Stop>
        ensures { Gives result self.new (instruction op self.old line) }
    {
        if self.nodes.len() >= MOST_NODES {
            return refuse(RefusalKind::TooManyNodes, line);
        }
        if op == Op::Plain(PlainOp::Prolog) {
            self.names.clear();
        }
        self.operands(op, line)
    }
}
