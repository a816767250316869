// The data section: its part, its items and its skips.

ghost use Rattle.std.specs.Prelude.{◌≡◌, ◌<◌, [], ◌∷◌, ◌++◌, Ok, true, false, is_some, length, take, IfOk, IfSome, IfNone};
ghost use Rattle.byteorder.specs.Endian.{little_bytes};
ghost use Rattle.lg_lex.specs.Escapes.{string_left};
ghost use Rattle.lg_tst.specs.Answers.{Gives, GivesWith, HasRoom};
ghost use Rattle.lg_tst.specs.DataParts.{zeros};
ghost use Rattle.lg_tst.specs.Statements.{bytes_in};
ghost use Rattle.lg_tst.specs.Streams.{IsToken};
ghost use Rattle.lg_tst.specs.Units.{behind, number_wanted, opened, data_section, stored, skip, is_data_alignment, padding, aligned, align_data, item, first_value, more_values, value_and_more, values};

use super::{Parser, refuse};
use crate::data_part::MOST_DATA;
use crate::statement::{ItemSize, Section, is_number};
use byteorder::{ByteOrder, LittleEndian};
use lg_base::{RefusalKind, Stop};
use lg_lex::{Token, TokenKind, string_bytes};
use lg_operand::misfit;

// Returns whether a number is a power of two from 1 to 4,096.
fn is_data_alignment(number: u64) -> bool
    ensures value { result ≡ is_data_alignment number }
    ensures some { result ≡ true → 0 < number }
{
    matches!(
        number,
        1 | 2 | 4 | 8 | 16 | 32 | 64 | 128 | 256 | 512 | 1024 | 2048 | 4096
    )
}

// Returns how many bytes lie between a place and the next multiple.
fn padding(place: u64, multiple: u64) -> u64
    requires { 0 < multiple }
    ensures { result ≡ padding place multiple }
{
    (multiple - place % multiple) % multiple
}

impl Parser<'_> {
    // A number, a character or an expression, as an operand of the statement that begins in a line.
    fn number(&mut self, line: u32) -> Result<Token, Stop>
        ensures gives { GivesWith result self.new (number_wanted line self.old) (behind self.old) }
        ensures room { IfOk result (λ _. HasRoom self.new) }
    {
        let token = self.wanted(line)?;
        if !is_number(token.kind) {
            return refuse(misfit(token.kind, self.source.text_of(token)), token.line);
        }
        Ok(token)
    }

    // Begins the data section, whose part has this many bytes.
    fn open(&mut self, size: Token) -> Result<(), Stop>
        requires { is_some self.old.part.size ≡ false }
        ensures { Gives result self.new (opened self.old size) }
    {
        if size.value > MOST_DATA {
            return refuse(RefusalKind::BadOperand, size.line);
        }
        self.part.open(size.value as u32)?;
        self.section = Section::Data;
        Ok(())
    }

    // `.data N`, once.
    pub(super) fn data_section(&mut self, line: u32) -> Result<(), Stop>
        ensures { Gives result self.new (data_section self.old line) }
    {
        if self.part.has_size() {
            return refuse(RefusalKind::UnknownName, line);
        }
        let size = self.number(line)?;
        self.open(size)
    }

    // Bytes of the data part.
    fn store(&mut self, bytes: &[u8], line: u32) -> Result<(), Stop>
        ensures gives { Gives result self.new (stored line (length bytes.now) bytes.now self.old) }
        ensures source { self.new.source ≡ self.old.source }
    {
        if self.part.append(bytes)? {
            Ok(())
        } else {
            refuse(RefusalKind::DataFull, line)
        }
    }

    // This many zeros of the data part.
    fn store_zeros(&mut self, count: u64, line: u32) -> Result<(), Stop>
        ensures { Gives result self.new (stored line count (zeros count) self.old) }
    {
        if self.part.skip(count)? {
            Ok(())
        } else {
            refuse(RefusalKind::DataFull, line)
        }
    }

    // `.size N`.
    pub(super) fn skip(&mut self, line: u32) -> Result<(), Stop>
        ensures { Gives result self.new (skip self.old line) }
    {
        let count = self.number(line)?;
        self.store_zeros(count.value, count.line)
    }

    // The skip to a multiple.
    fn align_to(&mut self, multiple: Token) -> Result<(), Stop>
        ensures { Gives result self.new (aligned self.old multiple) }
    {
        if !is_data_alignment(multiple.value) {
            return refuse(RefusalKind::BadOperand, multiple.line);
        }
        let count = padding(u64::from(self.part.len()), multiple.value);
        self.store_zeros(count, multiple.line)
    }

    // `.align N` of data.
    pub(super) fn align_data(&mut self, line: u32) -> Result<(), Stop>
        ensures { Gives result self.new (align_data self.old line) }
    {
        let multiple = self.number(line)?;
        self.align_to(multiple)
    }

    // The bytes of a string, and a zero.
    fn string(&mut self, text: &[u8], line: u32) -> Result<(), Stop>
        ensures gives { Gives result self.new (stored line (length (string_left text.now 0 ++ 0 ∷ [])) (string_left text.now 0 ++ 0 ∷ []) self.old) }
        ensures source { self.new.source ≡ self.old.source }
    {
        let mut at = 0;
        while let Some(byte) = string_bytes(text, &mut at) {
            self.store(&[byte], line)?;
        }
        self.store(&[0], line)
    }

    // The low bytes of a number.
    fn low_bytes(&mut self, size: ItemSize, value: u64, line: u32) -> Result<(), Stop>
        ensures gives { Gives result self.new (stored line (length (take (bytes_in size) (little_bytes 8 value)))
            (take (bytes_in size) (little_bytes 8 value)) self.old) }
        ensures source { self.new.source ≡ self.old.source }
    {
        let mut bytes = [0; 8];
        LittleEndian::write_u64(&mut bytes, value);
        self.store(&bytes[..size.bytes()], line)
    }

    // A value of a data item.
    fn item(&mut self, size: ItemSize, token: Token) -> Result<(), Stop>
        requires { IsToken self.old.source.text token }
        ensures gives { Gives result self.new (item size token self.old) }
        ensures source { self.new.source ≡ self.old.source }
    {
        let text = self.source.text_of(token);
        match token.kind {
            TokenKind::Str => self.string(text, token.line),
            _ => self.low_bytes(size, token.value, token.line),
        }
    }

    // The first value of a data item.
    fn first_value(&mut self, size: ItemSize, token: Token) -> Result<(), Stop>
        requires { IsToken self.old.source.text token }
        ensures { Gives result self.new (first_value size self.old token) }
    {
        if !size.takes(token.kind) {
            return refuse(misfit(token.kind, self.source.text_of(token)), token.line);
        }
        self.item(size, token)
    }

    // The next value of a data item, where the next token is one.
    fn next_value(&mut self, size: ItemSize) -> Option<Token>
        ensures none { IfNone result (more_values size self.old.source.left self.old ≡ Ok self.new) }
        ensures some { IfSome result (λ token. more_values size self.old.source.left self.old ≡ value_and_more size token self.new) }
        ensures token { IfSome result (λ token. IsToken self.new.source.text token) }
        ensures less { IfSome result (λ _. length self.new.source.left < length self.old.source.left) }
    {
        match self.source.peek() {
            Some(token) if size.takes(token.kind) => {
                self.source.skip();
                Some(token)
            }
            _ => None,
        }
    }

    // The values that follow the first of a data item.
    fn more_values(&mut self, size: ItemSize) -> Result<(), Stop>
        ensures { Gives result self.new (more_values size self.old.source.left self.old) }
    {
        while let Some(token) = self.next_value(size) {
            self.item(size, token)?;
        }
        Ok(())
    }

    // A data item.
    pub(super) fn values(&mut self, size: ItemSize, line: u32) -> Result<(), Stop>
        ensures { Gives result self.new (values size self.old line) }
    {
        let token = self.wanted(line)?;
        self.first_value(size, token)?;
        self.more_values(size)
    }
}
