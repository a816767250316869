// Labels, and the statements that mean nothing.

ghost use Rattle.std.specs.Prelude.{◌≡◌, ◌<◌, Some, true, length};
ghost use Rattle.lg_node.specs.Nodes.{is_word, IsWithin};
ghost use Rattle.lg_tst.specs.Answers.{Gives, HasRoom, LiesWithin};
ghost use Rattle.lg_tst.specs.Units.{place_in, bound_at, or_twice, label, name_word, skip_if, is_string, is_digits, note};

use super::{Parser, refuse};
use crate::statement::Section;
use lg_base::{RefusalKind, Stop};
use lg_lex::TokenKind;
use lg_node::Place;
use lg_op::Label;
use lg_operand::misfit;

impl Parser<'_> {
    // Where the next node or the next data byte stands.
    fn place(&self) -> Place
        ensures { result ≡ place_in self.now.section self.now }
    {
        match self.section {
            Section::Code => Place::Node(self.nodes.len()),
            Section::Data => Place::Image(self.part.len()),
        }
    }

    // Binds a label at a place, once.
    fn bind(&mut self, label: Label, place: Place, line: u32) -> Result<(), Stop>
        requires label { label.0 < length self.old.list.words }
        requires node { IsWithin (length self.old.list.nodes) place }
        requires byte { LiesWithin (length self.old.part.bytes) (Some place) }
        ensures { Gives result self.new (or_twice (bound_at self.old.list label.0 place) self.old line) }
    {
        if self.nodes.bind(label, place) {
            return Ok(());
        }
        refuse(RefusalKind::LabelTwice, line)
    }

    // A label.
    pub(super) fn label(&mut self, word: &[u8], line: u32) -> Result<(), Stop>
        requires word { is_word word.now ≡ true }
        requires room { HasRoom self.old }
        ensures { Gives result self.new (label self.old word.now line) }
    {
        let place = self.place();
        let label = self.nodes.label(word)?;
        self.bind(label, place, line)
    }

    // `name x`.
    pub(super) fn name_word(&mut self, line: u32) -> Result<(), Stop>
        ensures { Gives result self.new (name_word self.old line) }
    {
        let token = self.wanted(line)?;
        if token.kind != TokenKind::Word {
            return refuse(misfit(token.kind, self.source.text_of(token)), token.line);
        }
        Ok(())
    }

    // Moves past the next token where that is a string.
    fn skip_string(&mut self)
        ensures { self.new ≡ skip_if is_string self.old }
    {
        if let Some(token) = self.source.peek()
            && token.kind == TokenKind::Str
        {
            self.source.skip();
        }
    }

    // Moves past the next token where that is a number.
    fn skip_number(&mut self)
        ensures { self.new ≡ skip_if is_digits self.old }
    {
        if let Some(token) = self.source.peek()
            && token.kind == TokenKind::Number
        {
            self.source.skip();
        }
    }

    // `note`, and an optional string and then an optional number.
    pub(super) fn note(&mut self)
        ensures { self.new ≡ note self.old }
    {
        self.skip_string();
        self.skip_number();
    }
}
