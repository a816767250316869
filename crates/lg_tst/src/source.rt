// The tokens of a text, with a look at the next one.

ghost use Rattle.std.specs.Prelude.{◌≡◌, ◌≤◌, ◌<◌, length, IfSome, IfOk};
ghost use Rattle.lg_lex.specs.Tokens.{tokens_of};
ghost use Rattle.lg_tst.specs.Streams.{Stream, IsToken, head_of, next_of, passed, text_of};

use lg_base::Refusal;
use lg_lex::{Lexer, Token};
use std::marker::Model;

/// The tokens of a text that are left.
#[derive(Drop)]
pub struct Source<'a> {
    text: &'a [u8],
    lexer: Lexer<'a>,
    ahead: Option<Token>,
}

impl<'a> Model for Source<'a> {
    ghost use Rattle.lg_tst.specs.Streams.{Stream};
    ghost use Rattle.lg_tst.specs.Sources.{view_of, IsSource};

    ghost Value = { Stream };

    ghost view = { view_of };

    ghost invariant = { IsSource };
}

impl<'a> Source<'a> {
    /// All tokens of a text of at most 16,777,216 bytes.
    pub fn new(text: &'a [u8]) -> Self
        requires { length text.now ≤ 16777216 }
        ensures tokens { result ≡ record { text = text.now; left = (tokens_of text.now).0; fault = (tokens_of text.now).1 } }
        ensures few { length result.left ≤ 16777216 }
    {
        Source {
            text,
            lexer: Lexer::new(text),
            ahead: None,
        }
    }

    /// Takes the next token, None exactly at the end of the text, or returns the text's fault.
    #[inline(always)]
    pub fn next(&mut self) -> Result<Option<Token>, Refusal>
        ensures value { result ≡ next_of self.old.left self.old.fault }
        ensures rest { self.new ≡ passed self.old }
        ensures token { IfOk result (λ next. IfSome next (λ token. IsToken self.old.text token)) }
    {
        match self.ahead {
            Some(token) => {
                self.ahead = None;
                Ok(Some(token))
            }
            None => self.lexer.next(),
        }
    }

    /// The next token, which stays where it is. None at the end of the text and at a fault, which stays too.
    pub fn peek(&mut self) -> Option<Token>
        ensures value { result ≡ head_of self.old.left }
        ensures same { self.new ≡ self.old }
        ensures token { IfSome result (λ token. IsToken self.old.text token) }
    {
        if self.ahead.is_none()
            && let Ok(next) = self.lexer.next()
        {
            self.ahead = next;
        }
        self.ahead
    }

    /// Takes the next token, where there is one.
    pub fn skip(&mut self)
        ensures { self.new ≡ passed self.old }
    {
        let _ = self.next();
    }

    /// Returns the bytes of a token.
    pub fn text_of(&self, token: Token) -> &'a [u8]
        requires { IsToken self.now.text token }
        ensures { result.now ≡ text_of self.now.text token }
    {
        &self.text[token.start as usize..token.end as usize]
    }
}
