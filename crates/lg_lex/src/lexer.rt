// The tokens of a text, one after the other.

ghost use Rattle.std.specs.Prelude.{◌≡◌, ◌≤◌, length};
ghost use Rattle.lg_lex.specs.Tokens.{Tokens, tokens_of, tokens_at, AreInOrder, IsPlace, Gives};
ghost use Rattle.lg_lex.specs.ExpressionTokens.{ReadsExpressions};

use crate::bytes::{ahead, behind, byte_at, from_place, is_space};
use crate::fronts::{Front, front_of, plain_front};
use crate::place::{Place, first_place, pass_byte, pass_solid, pass_token, passed};
use crate::token::Token;
use lg_base::Refusal;
use std::marker::Model;

/// The tokens of a text, read one after the other. It takes no memory.
///
/// In a contract a `Lexer` is what is left of the text: its tokens in order, and after them the first fault, if there is one.
#[derive(Drop)]
pub struct Lexer<'a> {
    text: &'a [u8],
    place: Place,
}

impl<'a> Model for Lexer<'a> {
    ghost Value = { Tokens };

    ghost view = { λ l. tokens_at l.text.now l.place.offset };

    ghost invariant = { λ l. IsPlace l.text.now l.place.offset l.place.line l.place.fresh };
}

// Moves past white space.
#[inline(always)]
fn pass_spaces(place: &mut Place, text: &[u8])
    requires { IsPlace text.now place.old.offset place.old.line place.old.fresh }
    ensures place { IsPlace text.now place.new.offset place.new.line place.new.fresh }
    ensures tokens { tokens_at text.now place.new.offset ≡ tokens_at text.now place.old.offset }
{
    'spaces: loop {
        let b = byte_at(text, place.offset);
        if b == b' ' {
            pass_byte(place, b);
            continue 'spaces;
        }
        if !is_space(b) {
            return;
        }
        pass_byte(place, b);
    }
}

impl<'a> Lexer<'a> {
    /// Returns a reader of the tokens of a text of at most 16,777,216 bytes.
    pub fn new(text: &'a [u8]) -> Self
        requires { length text.now ≤ 16777216 }
        ensures tokens { result ≡ tokens_of text.now }
        ensures order { AreInOrder text.now 0 (tokens_of text.now).0 }
        ensures few { length (tokens_of text.now).0 ≤ length text.now }
        ensures expressions { ReadsExpressions text.now (tokens_of text.now) }
    {
        Lexer {
            text,
            place: first_place(),
        }
    }

    /// The next token, None exactly at the end of the text, or the first fault of the text, of the kind `BadToken` or
    /// `BadExpr`, with its line. After a fault each further call answers the same fault.
    #[inline(always)]
    pub fn next(&mut self) -> Result<Option<Token>, Refusal>
        ensures { Gives self.old result self.new }
    {
        pass_spaces(&mut self.place, self.text);
        let bytes = from_place(self.text, self.place.offset);
        match plain_front(bytes) {
            Some(Front::Finds(kind, n, value)) => {
                let Place {
                    offset,
                    line,
                    fresh: _,
                } = self.place;
                pass_solid(&mut self.place, n);
                Ok(Some(Token {
                    kind,
                    line,
                    start: offset as u32,
                    end: self.place.offset as u32,
                    value,
                }))
            }
            _ => {
                // The result is not returned as it is: then the compiler keeps that of the other arm in registers.
                let next = self.any_token()?;
                Ok(next)
            }
        }
    }

    // The next token, whatever it is. Not inlined: few tokens are found here.
    #[inline(never)]
    fn any_token(&mut self) -> Result<Option<Token>, Refusal>
        ensures { Gives self.old result self.new }
    {
        'pieces: loop {
            let b = byte_at(self.text, self.place.offset);
            if is_space(b) {
                pass_byte(&mut self.place, b);
                continue 'pieces;
            }
            let bytes = behind(self.text, self.place.offset);
            match front_of(bytes, self.place.fresh) {
                Front::Nothing => return Ok(None),
                Front::Skips(n) => self.place = passed(self.place, ahead(bytes, n)),
                Front::Finds(kind, n, value) => {
                    let Place {
                        offset,
                        line,
                        fresh: _,
                    } = self.place;
                    pass_token(&mut self.place, kind, ahead(bytes, n));
                    return Ok(Some(Token {
                        kind,
                        line,
                        start: offset as u32,
                        end: self.place.offset as u32,
                        value,
                    }));
                }
                Front::Fails(kind) => {
                    return Err(Refusal {
                        kind,
                        line: self.place.line,
                    });
                }
            }
        }
    }
}
