// Tokens, values and refusals of texts that were computed by hand from the grammar.

use crate::rows::{Kind, Made, Piece, Table, are_digits, is_refusal};
use lg_base::{Refusal, RefusalKind};
use lg_lex::*;

// What is no token.
const MALFORMED: &str = "BadToken 1\x1f$ (1)\x1e\
        BadToken 1\x1f$ x\x1e\
        BadToken 1\x1f% r0\x1e\
        BadToken 1\x1f%\x1e\
        BadToken 1\x1f. code\x1e\
        BadToken 1\x1f@ puts\x1e\
        BadToken 1\x1f- 1\x1e\
        BadToken 1\x1f-x\x1e\
        BadToken 1\x1f+\x1e\
        BadToken 1\x1f,\x1e\
        BadToken 1\x1f:\x1e\
        BadToken 1\x1fname x :\x1e\
        BadToken 1\x1fx::\x1e\
        BadToken 1\x1f.c 1 + 2\x1e\
        BadToken 1\x1f\0\x1e\
        BadToken 1\x1f#\t1\x1e\
        BadToken 1\x1fa # 1\x1e\
        BadToken 1\x1fa #\x1e\
        BadToken 1\x1f\r# 1\x1e\
        BadToken 1\x1f\x0b# 1\x1e\
        BadToken 1\x1f/**/# 1\x1e\
        BadToken 1\x1f08\x1e\
        BadToken 1\x1f09\x1e\
        BadToken 1\x1f-08\x1e\
        BadToken 1\x1f0X1f\x1e\
        BadToken 1\x1f0X1\x1e\
        BadToken 1\x1f0x\x1e\
        BadToken 1\x1f18446744073709551616\x1e\
        BadToken 1\x1f-9223372036854775809\x1e\
        BadToken 1\x1f1ulll\x1e\
        BadToken 1\x1f1a\x1e\
        BadToken 1\x1f1e5\x1e\
        BadToken 1\x1f1.5\x1e\
        BadToken 1\x1f\"\\400\"\x1e\
        BadToken 1\x1f\"\\x\"\x1e\
        BadToken 1\x1f\"\\q\"\x1e\
        BadToken 1\x1f''\x1e\
        BadToken 1\x1f'''\x1e\
        BadToken 1\x1f'ab'\x1e\
        BadToken 1\x1f'\n'\x1e\
        BadToken 1\x1f/*/\x1e\
        BadToken 1\x1f\"a\nb\"\x1e\
        BadToken 1\x1f$(1))\x1e\
        BadToken 2\x1f/* # 1\n*/ # 1\x1e\
        BadToken 3\x1fa\n\nb /* \n\n\x1e\
        BadToken 2\x1f// a\n'\x1e\
        BadToken 2\x1f\n\"abc";

// White space, comments and line markers.
const NOTHING: &str = "nothing\x1f\x1e\
        nothing\x1f \t\r\n\x0b\x0c\x1e\
        nothing\x1f// a\x1e\
        nothing\x1f/* a\n*/\x1e\
        nothing\x1f/***/\x1e\
        nothing\x1f \t# 7 \"x\" /* \"\x1e\
        nothing\x1f#7\x1e\
        nothing\x1f# 7\n\t #   1 '\x1e\
        nothing\x1f//\n# 0\x1e\
        nothing\x1f/* // */\x1e\
        nothing\x1f// /*\n";

// Numbers and characters.
const NUMBERS: &str = "0\x1f0\x1e\
        0\x1f00\x1e\
        7\x1f007\x1e\
        8\x1f010\x1e\
        12\x1f+12\x1e\
        -1\x1f-1\x1e\
        -8\x1f-010\x1e\
        31\x1f0x1fUl\x1e\
        188900977659375\x1f0xABCDEFabcdef\x1e\
        1\x1f1uuu\x1e\
        0\x1f0u\x1e\
        -1\x1f18446744073709551615\x1e\
        -1\x1f01777777777777777777777\x1e\
        -9223372036854775808\x1f-9223372036854775808\x1e\
        -9223372036854775808\x1f-0x8000000000000000\x1e\
        97\x1f'a'\x1e\
        34\x1f'\"'\x1e\
        39\x1f'\\''\x1e\
        92\x1f'\\\\'\x1e\
        255\x1f'\\xff'\x1e\
        0\x1f'\0'\x1e\
        255\x1f'\\377'\x1e\
        7\x1f'\\7'\x1e\
        11\x1f'\\v'\x1e\
        32\x1f' '";

// Constant expressions with their values.
const EXPRESSIONS: &str = "19\x1f$(1 << 4 | 3)\x1e\
        -3\x1f$(-7 / 2)\x1e\
        -1\x1f$(-7 % 2)\x1e\
        -1\x1f$(0xffffffffffffffff)\x1e\
        2\x1f$(1--1)\x1e\
        6\x1f$(6//2\n)\x1e\
        6\x1f$(/* a */ 6 /* b\n */ // c\n )\x1e\
        -9223372036854775808\x1f$(-9223372036854775808)\x1e\
        -9223372036854775808\x1f$(-9223372036854775808 / -1)\x1e\
        0\x1f$(-9223372036854775808 % -1)\x1e\
        3\x1f$(2 ? 3 : 4 ? 5 : 6)\x1e\
        6\x1f$(0 ? 3 : 0 ? 5 : 6)\x1e\
        -1\x1f$(-1 >> 1)\x1e\
        -4\x1f$(-8 >> 1)\x1e\
        -9223372036854775808\x1f$(1 << 63)\x1e\
        -9223372036854775808\x1f$(9223372036854775807 + 1)\x1e\
        -9223372036709301616\x1f$(3037000500 * 3037000500)\x1e\
        14\x1f$(2 + 3 * 4)\x1e\
        20\x1f$((2 + 3) * 4)\x1e\
        5\x1f$(10 - 3 - 2)\x1e\
        2\x1f$(100 / 10 / 5)\x1e\
        24\x1f$(1 + 2 << 3)\x1e\
        1\x1f$(1 << 2 < 5)\x1e\
        1\x1f$(3 < 2 == 0)\x1e\
        0\x1f$(6 & 3 == 3)\x1e\
        4\x1f$(5 ^ 1 & 3)\x1e\
        6\x1f$(4 | 1 ^ 3)\x1e\
        1\x1f$(1 || 0 && 0)\x1e\
        1\x1f$(2 && 4)\x1e\
        1\x1f$(0 || 7)\x1e\
        0\x1f$(1 ? 0 : 1 || 1)\x1e\
        0\x1f$(!5)\x1e\
        1\x1f$(!0)\x1e\
        -1\x1f$(~0)\x1e\
        5\x1f$(- - 5)\x1e\
        5\x1f$(+5)\x1e\
        2\x1f$(-~!0)\x1e\
        98\x1f$('a' + '\\x01')\x1e\
        1\x1f$(1 <= 1)\x1e\
        0\x1f$(2 >= 3)\x1e\
        1\x1f$(2 > 1)\x1e\
        0\x1f$(2 != 2)\x1e\
        24\x1f$(010ul + 0x10)";

// What is no constant expression.
const NO_EXPRESSIONS: &str = "BadExpr 1\x1f$()\x1e\
        BadExpr 1\x1f$(x)\x1e\
        BadExpr 1\x1f$(08)\x1e\
        BadExpr 1\x1f$(\"a\")\x1e\
        BadExpr 1\x1f$('\x1e\
        BadExpr 1\x1f$(\x1e\
        BadExpr 1\x1f$(0 && 1/0)\x1e\
        BadExpr 1\x1f$(1 ? 2 : 1 % 0)\x1e\
        BadExpr 1\x1f$(1 << 64)\x1e\
        BadExpr 1\x1f$(1 >> -1)\x1e\
        BadExpr 1\x1f$(1 / 0)\x1e\
        BadExpr 1\x1f$(1 % 0)\x1e\
        BadExpr 1\x1f$(1&&&1)\x1e\
        BadExpr 1\x1f$(1 /* )\x1e\
        BadExpr 1\x1f$(1 // )\x1e\
        BadExpr 1\x1f$(1\n# 1\n)\x1e\
        BadExpr 1\x1f$(1\x1e\
        BadExpr 1\x1f$((1)\x1e\
        BadExpr 1\x1f$(1 2)\x1e\
        BadExpr 1\x1f$(1 +)\x1e\
        BadExpr 1\x1f$(* 1)\x1e\
        BadExpr 1\x1f$(1 ? 2)\x1e\
        BadExpr 1\x1f$(1 : 2)\x1e\
        BadExpr 1\x1f$(1 ? : 2)\x1e\
        BadExpr 1\x1f$(1 = 1)\x1e\
        BadExpr 1\x1f$(1 === 1)\x1e\
        BadExpr 1\x1f$(1 << < 1)\x1e\
        BadExpr 1\x1f$(1 ! 1)\x1e\
        BadExpr 1\x1f$(18446744073709551616)\x1e\
        BadExpr 1\x1f$('ab')\x1e\
        BadExpr 1\x1f$(0x)\x1e\
        BadExpr 1\x1f$(1u1)\x1e\
        BadExpr 1\x1f$(1 ? 1 : )\x1e\
        BadExpr 1\x1f$(-)\x1e\
        BadExpr 1\x1f$(#)\x1e\
        BadExpr 2\x1f\na $(1\n+\n";

const TABLES: &[Table] = &[
    (Kind::Tokens, &[], MALFORMED),
    (Kind::Tokens, &[], NOTHING),
    (Kind::Tokens, &[], NUMBERS),
    (Kind::Tokens, &[], EXPRESSIONS),
    (Kind::Tokens, &[], NO_EXPRESSIONS),
];

// Texts with bytes from 0x80 on; the most times that a piece may be in itself, and once more; and long expressions.
const MADE: &[Made] = &[
    (Kind::Tokens, &[Piece::Of(b"\x80")], (b"BadToken 1", &[])),
    (
        Kind::Tokens,
        &[Piece::Of(b"a\xc3\xa4")],
        (b"BadToken 1", &[]),
    ),
    (
        Kind::Tokens,
        &[Piece::Of(b"\n# 1 \xff\n")],
        (b"nothing", &[]),
    ),
    (Kind::Tokens, &[Piece::Of(b"'\xff'")], (b"255", &[])),
    (Kind::Tokens, &[Piece::Of(b"$('\xff')")], (b"255", &[])),
    (
        Kind::Tokens,
        &[
            Piece::Of(b"$("),
            Piece::Times(b"(", 64),
            Piece::Of(b"1"),
            Piece::Times(b")", 64),
            Piece::Of(b")"),
        ],
        (b"1", &[]),
    ),
    (
        Kind::Tokens,
        &[
            Piece::Of(b"$("),
            Piece::Times(b"(", 65),
            Piece::Of(b"1"),
            Piece::Times(b")", 65),
            Piece::Of(b")"),
        ],
        (b"BadExpr 1", &[]),
    ),
    (
        Kind::Tokens,
        &[Piece::Of(b"$("), Piece::Times(b"-", 64), Piece::Of(b"1)")],
        (b"1", &[]),
    ),
    (
        Kind::Tokens,
        &[Piece::Of(b"$("), Piece::Times(b"-", 65), Piece::Of(b"1)")],
        (b"BadExpr 1", &[]),
    ),
    (
        Kind::Tokens,
        &[
            Piece::Of(b"$("),
            Piece::Times(b"~(", 32),
            Piece::Of(b"1"),
            Piece::Times(b")", 32),
            Piece::Of(b")"),
        ],
        (b"1", &[]),
    ),
    (
        Kind::Tokens,
        &[
            Piece::Of(b"$("),
            Piece::Times(b"~(", 33),
            Piece::Of(b"1"),
            Piece::Times(b")", 33),
            Piece::Of(b")"),
        ],
        (b"BadExpr 1", &[]),
    ),
    (
        Kind::Tokens,
        &[
            Piece::Of(b"$("),
            Piece::Times(b"1?1:", 64),
            Piece::Of(b"1)"),
        ],
        (b"1", &[]),
    ),
    (
        Kind::Tokens,
        &[
            Piece::Of(b"$("),
            Piece::Times(b"1?1:", 65),
            Piece::Of(b"1)"),
        ],
        (b"BadExpr 1", &[]),
    ),
    (
        Kind::Tokens,
        &[
            Piece::Of(b"$("),
            Piece::Times(b"1+", 100_000),
            Piece::Of(b"1)"),
        ],
        (b"100001", &[]),
    ),
    (
        Kind::Tokens,
        &[
            Piece::Of(b"$("),
            Piece::Times(b"1?1:", 100_000),
            Piece::Of(b"1)"),
        ],
        (b"BadExpr 1", &[]),
    ),
    (
        Kind::Tokens,
        &[
            Piece::Of(b"$("),
            Piece::Times(b" /**/", 1_000_000),
            Piece::Of(b"1)"),
        ],
        (b"1", &[]),
    ),
    // as many parentheses as a text has room for
    (
        Kind::Tokens,
        &[Piece::Of(b"$"), Piece::Times(b"(", 16_777_215)],
        (b"BadExpr 1", &[]),
    ),
];

// A lexer, where the text is not too long. What it is promised to give is for proofs, and of no use here.
fn lexer_of(text: &[u8]) -> Option<Lexer<'_>> {
    if text.len() > 16_777_216 {
        None
    } else {
        Some(Lexer::new(text))
    }
}

// What comes next in a text.
type Next = Result<Option<Token>, Refusal>;

fn next(lexer: &mut Lexer<'_>) -> Next {
    lexer.next()
}

// Returns whether bytes are the digits of a signed word.
fn is_number(word: u64, wanted: &[u8]) -> bool {
    match wanted {
        [b'-', digits @ ..] => { word.cast_signed() < 0 && are_digits(digits, word.wrapping_neg()) }
        _ => word.cast_signed() >= 0 && are_digits(wanted, word),
    }
}

// Returns whether this should come of this many tokens, the last of which has a value.
fn is_outcome(tokens: u32, value: u64, wanted: &[u8]) -> bool {
    match tokens {
        0 => wanted == b"nothing".as_slice(),
        1 => is_number(value, wanted),
        _ => false,
    }
}

/// Returns whether this is the value of a text's one token, or `nothing` where it has none, or the kind and the line of its first fault.
pub(crate) fn gives(text: &[u8], wanted: &[u8]) -> bool {
    let Some(mut lexer) = lexer_of(text) else {
        return false;
    };
    let mut value = 0;
    for tokens in 0..100u32 {
        match next(&mut lexer) {
            Ok(Some(token)) => value = token.value,
            Ok(None) => return is_outcome(tokens, value, wanted),
            Err(refusal) => return is_refusal(refusal, wanted),
        }
    }
    false
}

// Returns whether a lexer answers this again and again.
fn stays(lexer: &mut Lexer<'_>, end: Next) -> bool {
    for _ in 0..3 {
        if next(lexer) != end {
            return false;
        }
    }
    true
}

// A token: its kind, line, places and value.
type Row = (TokenKind, u32, u32, u32, u64);

fn token(row: &Row) -> Token {
    let (kind, line, start, end, value) = *row;
    Token {
        kind,
        line,
        start,
        end,
        value,
    }
}

// Returns whether a text has these tokens, and after them again and again this end.
fn has_tokens(text: &[u8], rows: &[Row], end: Next) -> bool {
    let Some(mut lexer) = lexer_of(text) else {
        return false;
    };
    for row in rows {
        if next(&mut lexer) != Ok(Some(token(row))) {
            return false;
        }
    }
    stays(&mut lexer, end)
}

// A text in which most tokens stand with nothing between, and its tokens.
const GLUED: &[u8] = b"%r0%r1 1-2 ret.code\"a\"\"b\"$x$y@puts\n x:'a'$(1)1_a";

const TOKENS: &[Row] = &[
    (TokenKind::Register, 1, 0, 3, 0),
    (TokenKind::Register, 1, 3, 6, 0),
    (TokenKind::Number, 1, 7, 8, 1),
    (TokenKind::Number, 1, 8, 10, 18_446_744_073_709_551_614),
    (TokenKind::Word, 1, 11, 14, 0),
    (TokenKind::Directive, 1, 14, 19, 0),
    (TokenKind::Str, 1, 19, 22, 0),
    (TokenKind::Str, 1, 22, 25, 0),
    (TokenKind::Name, 1, 25, 27, 0),
    (TokenKind::Name, 1, 27, 29, 0),
    (TokenKind::Host, 1, 29, 34, 0),
    (TokenKind::LabelMark, 2, 36, 38, 0),
    (TokenKind::Character, 2, 38, 41, 97),
    (TokenKind::Expression, 2, 41, 45, 1),
    (TokenKind::Number, 2, 45, 46, 1),
    (TokenKind::Word, 2, 46, 48, 0),
];

// The fault in the second line of a text, after a word.
const FAULT: Refusal = Refusal {
    kind: RefusalKind::BadExpr,
    line: 2,
};

// Returns whether texts have their tokens, one of which has a fault.
fn are_tokens_read() -> bool {
    let word = [(TokenKind::Word, 1, 0, 1, 0)];
    has_tokens(GLUED, TOKENS, Ok(None)) && has_tokens(b"a\n $(1 / 0) b", &word, Err(FAULT))
}

// Returns whether a text of one byte is read as a token of this kind and value.
fn is_token(byte: u8, kind: TokenKind, value: u64) -> bool {
    has_tokens(&[byte], &[(kind, 1, 0, 1, value)], Ok(None))
}

// Returns whether a text of one byte is no token, and results in this.
fn is_no_token(byte: u8, end: Next) -> bool {
    has_tokens(&[byte], &[], end)
}

// What is wrong with a byte alone that is no token.
const BAD: Refusal = Refusal {
    kind: RefusalKind::BadToken,
    line: 1,
};

fn is_byte_read(byte: u8) -> bool {
    match byte {
        b' ' | 0x09..=0x0d => is_no_token(byte, Ok(None)),
        b'A'..=b'Z' | b'a'..=b'z' | b'_' => is_token(byte, TokenKind::Word, 0),
        b'0'..=b'9' => is_token(byte, TokenKind::Number, u64::from(byte - b'0')),
        _ => is_no_token(byte, Err(BAD)),
    }
}

fn are_bytes_read() -> bool {
    for byte in 0..=255u8 {
        if !is_byte_read(byte) {
            return false;
        }
    }
    true
}

// Strings with their bytes.
const STRINGS: &[(&[u8], &[u8])] = &[
    (b"\"\"", b""),
    (b"\"%ld\\n\"", b"%ld\n"),
    (b"\"\\x123\\0011\"", b"\x123\x011"),
    (
        b"\"\\t\\r\\a\\b\\f\\v\\\\\\'\\\"'\"",
        b"\t\r\x07\x08\x0c\x0b\\'\"'",
    ),
    (b"\"/* \\1\\12\\1234 \0\"", b"/* \x01\n\x534 \0"),
    (b"\"\xff\\xff\"", b"\xff\xff"),
    (b"\"/* \\1\\12\\1234 \xff\0\"", b"/* \x01\n\x534 \xff\0"),
];

// Returns whether a string token has these bytes, and none after the last, however often it is asked.
fn has_bytes(token: &[u8], wanted: &[u8]) -> bool {
    let mut place = 0;
    for byte in wanted {
        if string_bytes(token, &mut place) != Some(*byte) {
            return false;
        }
    }
    string_bytes(token, &mut place) == None && string_bytes(token, &mut place) == None
}

// Returns whether each string is a token alone, and has its bytes.
fn are_strings_read() -> bool {
    for (token, bytes) in STRINGS {
        if !gives(token, b"0") || !has_bytes(token, bytes) {
            return false;
        }
    }
    true
}

#[test]
fn reads_tokens(rt: HostRuntime) {
    assert!(rt; are_tokens_read() && are_bytes_read() && are_strings_read());
}

/// What comes of texts.
pub(crate) fn tables() -> &'static [Table] {
    TABLES
}

/// What comes of texts of pieces.
pub(crate) fn pieces() -> &'static [Made] {
    MADE
}
