// Conditions and their expressions, computed by hand from the rules of the preprocessor.

use crate::rows::{Kind, Made, Piece, Table};

// Groups that are chosen, and groups that are skipped.
const GROUPS: &str = "\na\n\x1f#if 1\na\n#endif\x1e\
        \n\n\x1f#if 0\na\n#endif\x1e\
        \na\n\n\n\nc\x1f#if 1\na\n#else\nb\n#endif\nc\x1e\
        \n\n\nb\n\nc\x1f#if 0\na\n#else\nb\n#endif\nc\x1e\
        \n\na\n\n\n\n\x1f#if 1\n#if 1\na\n#else\nb\n#endif\n#endif\x1e\
        \n\n\n\n\n\n\nc\n\x1f#if 0\n#if 1\na\n#else\nb\n#endif\n#else\nc\n#endif\x1e\
        \n\na\n\x1f#define A\n#ifdef A\na\n#endif\x1e\
        \n\n\n\x1f#define A\n#ifndef A\na\n#endif\x1e\
        \n\n\x1f#ifdef A\na\n#endif\x1e\
        \na\n\x1f#ifndef A\na\n#endif\x1e\
        \na\n\x1f#ifdef __WORDSIZE // c\na\n#endif /* c */\x1e\
        \n\n\nA\x1f#if 0\n#define A 1\n#endif\nA\x1e\
        \n\n\n\n1\x1f#define A 1\n#if 0\n#undef A\n#endif\nA\x1e\
        \n\n\n\nx\x1f#if 0\n'/*\n#endif\n\nx\x1e\
        \n\n\n\n\nx\x1f#if 0\n/*\n#endif\n*/ x\n#endif\nx\x1e\
        \n\n\n\n\n\n\nz\x1f#if 0\n#elif 1\n#include\n#if junk (\n#else x\n#endif y\n#endif\nz\x1e\
        \n\n\n\n\n\nz\x1f#if 0\n#ifdef\n#ifndef 1 2\n#endif\n#endif z\n#endif\nz";

// Expressions.
const EXPRESSIONS: &str = "\n1\n\x1f#if __WORDSIZE == 64\n1\n#endif\x1e\
        \n1\n\x1f#if defined X || defined(__WORDSIZE) && Y == 0\n1\n#endif\x1e\
        \n1\n\x1f#if defined ( __WORDSIZE ) && !defined/**/(X)\n1\n#endif\x1e\
        \n\n\x1f#if defined\n1\n#endif\x1e\
        \n\n\n\n2\n\x1f#define X\n#if defined X - 1\n1\n#else\n2\n#endif\x1e\
        \n\n\n\n\n2\n\x1f#define X\n#define D defined X\n#if D\n1\n#else\n2\n#endif\x1e\
        \n\n1\n\x1f#define F(a, b) a + b\n#if F(1, 2) == 3\n1\n#endif\x1e\
        \n\n1\n\x1f#define F(a) a\n#if F == 0\n1\n#endif\x1e\
        \n\n1\n\x1f#define CAT(a, b) a##b\n#if CAT(1, 2) == 12\n1\n#endif\x1e\
        \n1\n\x1f#if nothing == 0 && 'a' == 97\n1\n#endif\x1e\
        \n\n\n1\n\x1f#if 1 /*\n*/ + \\\n 0\n1\n#endif\x1e\
        \n1\n\x1f#if 0x10 == 16 && 010 == 8 && 1u == 1 // c\n1\n#endif\x1e\
        \n1\n\x1f#if -1 < 0 ? 2 : 0\n1\n#endif\x1e\
        \n1\n\x1f#if(1)\n1\n#endif";

// What has no open condition, is not closed, or is not of its form.
const REFUSED: &str = "BadDirective 1\x1f#endif\x1e\
        BadDirective 1\x1f#else\x1e\
        BadDirective 3\x1f#if 1\n#endif\n#endif\x1e\
        BadDirective 3\x1f#if 1\n#else\n#else\n#endif\x1e\
        BadDirective 4\x1f#if 0\n#if 1\n#else\n#else\n#endif\n#endif\x1e\
        BadDirective 2\x1f#if 0\n#else x\n#endif\x1e\
        BadDirective 2\x1f#if 1\n#else x\n#endif\x1e\
        BadDirective 2\x1f#if 1\n#endif x\x1e\
        BadDirective 2\x1f#if 0\n#endif x\x1e\
        BadDirective 1\x1f#ifdef A B\n#endif\x1e\
        BadDirective 1\x1f#ifndef A B\n#endif\x1e\
        BadDirective 1\x1f#ifdef\n#endif\x1e\
        BadDirective 1\x1f#ifndef 1\n#endif\x1e\
        BadDirective 1\x1f#if 1\x1e\
        BadDirective 2\x1f#if 1\n#if 0\n\x1e\
        BadDirective 1\x1f#if 1\n#if 0\n#endif\n\x1e\
        BadMacro 3\x1f#define F(a) a\n#if 1\nF(\n\x1e\
        BadDirective 3\x1f#if 1\n#if 1\n#foo\n\x1e\
        BadDirective 1\x1f#if\n#endif\x1e\
        BadDirective 1\x1f#if /* c */\n#endif\x1e\
        BadDirective 1\x1f#if 1/0\n#endif\x1e\
        BadDirective 1\x1f#if 1 2\n#endif\x1e\
        BadDirective 1\x1f#if (1\n#endif\x1e\
        BadDirective 1\x1f#if 1)\n#endif\x1e\
        BadDirective 1\x1f#if \"a\"\n#endif\x1e\
        BadDirective 1\x1f#if 08\n#endif\x1e\
        BadDirective 1\x1f#if defined(X\n#endif\x1e\
        BadDirective 3\x1f#define X 1\n#define D defined X\n#if D\n#endif\x1e\
        BadMacro 2\x1f#define F(a) a\n#if F(1\n)\n#endif\x1e\
        BadMacro 2\x1f#define F(a) a\n#if F(1, 2)\n#endif";

const TABLES: &[Table] = &[
    (Kind::Lines, &[], GROUPS),
    (Kind::Lines, &[], EXPRESSIONS),
    (Kind::Expansion, &[], REFUSED),
];

// 64 conditions may be open, in skipped groups too, and all have to be closed. Of each condition are here 64, one more, and one end less.
const MADE: &[Made] = &[
    (
        Kind::Expansion,
        &[
            Piece::Times(b"#if 1\n", 64),
            Piece::Of(b"x"),
            Piece::Times(b"\n#endif", 64),
        ],
        (
            b"",
            &[
                Piece::Times(b"\n", 64),
                Piece::Of(b"x"),
                Piece::Times(b"\n", 64),
            ],
        ),
    ),
    (
        Kind::Expansion,
        &[
            Piece::Times(b"#if 1\n", 65),
            Piece::Of(b"x"),
            Piece::Times(b"\n#endif", 65),
        ],
        (b"BadDirective 65", &[]),
    ),
    (
        Kind::Expansion,
        &[
            Piece::Times(b"#if 1\n", 64),
            Piece::Of(b"x"),
            Piece::Times(b"\n#endif", 63),
        ],
        (b"BadDirective 1", &[]),
    ),
    (
        Kind::Expansion,
        &[
            Piece::Times(b"#if 0\n", 64),
            Piece::Of(b"x"),
            Piece::Times(b"\n#endif", 64),
        ],
        (b"", &[Piece::Times(b"\n", 64), Piece::Times(b"\n", 64)]),
    ),
    (
        Kind::Expansion,
        &[
            Piece::Times(b"#if 0\n", 65),
            Piece::Of(b"x"),
            Piece::Times(b"\n#endif", 65),
        ],
        (b"BadDirective 65", &[]),
    ),
    (
        Kind::Expansion,
        &[
            Piece::Times(b"#if 0\n", 64),
            Piece::Of(b"x"),
            Piece::Times(b"\n#endif", 63),
        ],
        (b"BadDirective 1", &[]),
    ),
    (
        Kind::Expansion,
        &[
            Piece::Times(b"#ifdef A\n", 64),
            Piece::Of(b"x"),
            Piece::Times(b"\n#endif", 64),
        ],
        (b"", &[Piece::Times(b"\n", 64), Piece::Times(b"\n", 64)]),
    ),
    (
        Kind::Expansion,
        &[
            Piece::Times(b"#ifdef A\n", 65),
            Piece::Of(b"x"),
            Piece::Times(b"\n#endif", 65),
        ],
        (b"BadDirective 65", &[]),
    ),
    (
        Kind::Expansion,
        &[
            Piece::Times(b"#ifdef A\n", 64),
            Piece::Of(b"x"),
            Piece::Times(b"\n#endif", 63),
        ],
        (b"BadDirective 1", &[]),
    ),
    (
        Kind::Expansion,
        &[
            Piece::Times(b"#ifndef A\n", 64),
            Piece::Of(b"x"),
            Piece::Times(b"\n#endif", 64),
        ],
        (
            b"",
            &[
                Piece::Times(b"\n", 64),
                Piece::Of(b"x"),
                Piece::Times(b"\n", 64),
            ],
        ),
    ),
    (
        Kind::Expansion,
        &[
            Piece::Times(b"#ifndef A\n", 65),
            Piece::Of(b"x"),
            Piece::Times(b"\n#endif", 65),
        ],
        (b"BadDirective 65", &[]),
    ),
    (
        Kind::Expansion,
        &[
            Piece::Times(b"#ifndef A\n", 64),
            Piece::Of(b"x"),
            Piece::Times(b"\n#endif", 63),
        ],
        (b"BadDirective 1", &[]),
    ),
    // one that is closed is open no more
    (
        Kind::Expansion,
        &[
            Piece::Times(b"#if 1\n", 64),
            Piece::Of(b"x\n#endif\n#if 1\nx"),
            Piece::Times(b"\n#endif", 64),
        ],
        (
            b"",
            &[
                Piece::Times(b"\n", 64),
                Piece::Of(b"x\n\n\nx"),
                Piece::Times(b"\n", 64),
            ],
        ),
    ),
];

/// What comes of texts.
pub(crate) fn tables() -> &'static [Table] {
    TABLES
}

/// What comes of texts of pieces.
pub(crate) fn pieces() -> &'static [Made] {
    MADE
}
