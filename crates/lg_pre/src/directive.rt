// The names of directives.

ghost use Rattle.std.specs.Prelude.{◌≡◌};
ghost use Rattle.lg_pre.specs.Directive.{by_name, directive_of};

use lg_macro::{PieceKind, Pieces};

/// The directives, by their names.
#[derive(Clone, Copy)]
pub enum Directive {
    /// `#` alone.
    Nothing,
    /// `#define`.
    Define,
    /// `#undef`.
    Undefine,
    /// `#ifdef`, and with false `#ifndef`.
    IfDefined(bool),
    /// `#if`.
    If,
    /// `#else`.
    Else,
    /// `#endif`.
    EndIf,
    /// Another name, or none.
    Unknown,
}

// Returns the directive of a name.
fn by_name(name: &[u8]) -> Directive
    ensures { result ≡ by_name name.now }
{
    if name == b"define".as_slice() {
        Directive::Define
    } else if name == b"undef".as_slice() {
        Directive::Undefine
    } else if name == b"ifdef".as_slice() {
        Directive::IfDefined(true)
    } else if name == b"ifndef".as_slice() {
        Directive::IfDefined(false)
    } else if name == b"if".as_slice() {
        Directive::If
    } else if name == b"else".as_slice() {
        Directive::Else
    } else if name == b"endif".as_slice() {
        Directive::EndIf
    } else {
        Directive::Unknown
    }
}

/// Returns the directive of the pieces after a `#`.
pub(crate) fn directive_of(body: &Pieces) -> Directive
    ensures { result ≡ directive_of body.now }
{
    if body.len() == 0 {
        return Directive::Nothing;
    }
    match body.kind(0) {
        PieceKind::Word => by_name(body.text(0)),
        _ => Directive::Unknown,
    }
}
