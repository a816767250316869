// The limits of an expansion, each within and one beyond.

use crate::rows::{Kind, Made, Piece, Table};

// This many calls of F, one in the other.
const CALLS_200: &[Piece] = &[
    Piece::Of(b"#define F(x) x\n"),
    Piece::Times(b"F(", 200),
    Piece::Of(b"1"),
    Piece::Times(b")", 200),
];

const CALLS_201: &[Piece] = &[
    Piece::Of(b"#define F(x) x\n"),
    Piece::Times(b"F(", 201),
    Piece::Of(b"1"),
    Piece::Times(b")", 201),
];

// The definitions of D, of E, and of A, where D has 1, each A 8,388,607, and each E 1.
const SUM: &[Piece] = &[
    Piece::Of(b"#define D(x)\n#define E\n#define A "),
    Piece::Times(b"x", 8_388_606),
    Piece::Of(b"\n"),
];

// The sum of 1 and the bytes of the body over all replacements is at most 16,777,216: nothing is left of what D takes.
const SUMS: &str = "\n\n\n\x1fD(A A E)\x1e\
        ExpandTooMuch 4\x1fD(A A E E)\x1e\
        ExpandTooMuch 4\x1fD(A A\nE\nE)\x1e\
        ExpandTooMuch 5\x1fD(A A E)\nE\x1e\
        \n\n\n\n\n\x1f#if A\n#endif\nD(A E)\x1e\
        ExpandTooMuch 6\x1f#if A\n#endif\nD(A E E)\x1e\
        ExpandTooMuch 6\x1fD(A A E)\n\n#if E\n#endif\x1e\
        BadMacro 4\x1fD(A A D(1,2) E)\x1e\
        BadMacro 4\x1fD(A A E) D(1,2)\x1e\
        BadMacro 4\x1fD(A A E) D(1\x1e\
        ExpandTooMuch 4\x1fD(A A E) D(D(1,2))";

// Definitions of D and of A, which with two A has 16,776,003, and of B, whose share is 1,213 or one more.
const SPACED: &[Piece] = &[
    Piece::Of(b"#define D(x)\n#define A "),
    Piece::Times(b"x", 8_388_000),
    Piece::Of(b"\n#define B "),
    Piece::Times(b"y ", 604),
];

const PASTED: &[Piece] = &[
    Piece::Of(b"#define D(x)\n#define A "),
    Piece::Times(b"x", 8_388_000),
    Piece::Of(b"\n#define B "),
    Piece::Times(b"y##", 403),
];

// A body counts as it is kept: a `##` as two bytes, and white space inside it.
const BEHIND_SPACED: &str = "\n\n\n\x1fzzzz\nD(A A B)\x1e\
        ExpandTooMuch 4\x1fzzzzz\nD(A A B)";

const BEHIND_PASTED: &str = "\n\n\n\x1fzzz\nD(A A B)\x1e\
        ExpandTooMuch 4\x1fzzzz\nD(A A B)";

// A text whose expansion has 16,777,216 bytes, and the expansion.
const FULL: &[Piece] = &[
    Piece::Of(b"#define F(a) a\n#define A "),
    Piece::Times(b"x", 8_000_000),
    Piece::Of(b"\nA\nA;"),
    Piece::Times(b"x", 777_211),
    Piece::Of(b";"),
];

const FULL_EXPANSION: &[Piece] = &[
    Piece::Of(b"\n\n"),
    Piece::Times(b"x", 8_000_000),
    Piece::Of(b"\n"),
    Piece::Times(b"x", 8_000_000),
    Piece::Of(b";"),
    Piece::Times(b"x", 777_211),
    Piece::Of(b";"),
];

// What passes after that text, in its line 4. An expansion has at most 16,777,216 bytes: the piece that passes is found by its line.
const BEHIND_THE_LAST_BYTE: &str = "ExpandTooMuch 4\x1f\n\x1e\
        ExpandTooMuch 4\x1f;\x1e\
        ExpandTooMuch 4\x1f; F(1\x1e\
        ExpandTooMuch 4\x1f F(1,2)\x1e\
        BadMacro 4\x1fF(1,2)\x1e\
        ExpandTooMuch 4\x1f\n#endif";

// Definitions of F, of B with 300 bytes, and of A, and a comment, after which 1,210 bytes have room.
const LONG_COMMENT: &[Piece] = &[
    Piece::Of(b"#define F(a) a\n#define B "),
    Piece::Times(b"x", 300),
    Piece::Of(b"\n#define A B B B B B F(1,2)\n/*"),
    Piece::Times(b"x", 16_776_000),
    Piece::Of(b"*/"),
];

// A fault inside the result of a name comes before the length of that, and what one name gives before the next name.
const FIRST: &str = "ExpandTooMuch 4\x1fB B B B B\nF(1\x1e\
        ExpandTooMuch 4\x1fB B B B B F(1\x1e\
        ExpandTooMuch 5\x1fB B B\nB B F(1\x1e\
        BadMacro 4\x1fF(1,2) B B B B B\x1e\
        BadMacro 5\x1f\nA";

// Lists in between would have 2^40 pieces, though little is replaced and nothing is left: memory runs out immediately.
const DOUBLED_40: &[Piece] = &[
    Piece::Of(b"#define F(x) x x\n#define D(x)\nD("),
    Piece::Times(b"F(", 40),
    Piece::Of(b"1"),
    Piece::Times(b")", 40),
];

const DOUBLED_10: &[Piece] = &[
    Piece::Of(b"#define F(x) x x\n#define D(x)\nD("),
    Piece::Times(b"F(", 10),
    Piece::Of(b"1"),
    Piece::Times(b")", 10),
];

// Lists that a call holds at once have 64 MiB together: a call that has two arguments, each a word of 4,096 bytes doubled so often.
const LISTS_12: &[Piece] = &[
    Piece::Of(b"#define F(x) x x\n#define D(x,y)\nD("),
    Piece::Times(b"F(", 12),
    Piece::Times(b"x", 4_096),
    Piece::Times(b")", 12),
    Piece::Of(b","),
    Piece::Times(b"F(", 12),
    Piece::Times(b"x", 4_096),
    Piece::Times(b")", 12),
];

const LISTS_13: &[Piece] = &[
    Piece::Of(b"#define F(x) x x\n#define D(x,y)\nD("),
    Piece::Times(b"F(", 13),
    Piece::Times(b"x", 4_096),
    Piece::Times(b")", 13),
    Piece::Of(b","),
    Piece::Times(b"F(", 13),
    Piece::Times(b"x", 4_096),
    Piece::Times(b")", 13),
];

// A text of 16 MiB that names no macro is its own expansion.
const WHOLE: &[Piece] = &[Piece::Times(b"x", 16_777_215), Piece::Of(b"\n")];

const TABLES: &[Table] = &[
    (Kind::Expansion, CALLS_200, "\n1 2\x1f 2"),
    (Kind::Expansion, CALLS_201, "ExpandTooMuch 2\x1f 2"),
    (Kind::Expansion, SUM, SUMS),
    (Kind::Expansion, SPACED, BEHIND_SPACED),
    (Kind::Expansion, PASTED, BEHIND_PASTED),
    (Kind::Expansion, FULL, BEHIND_THE_LAST_BYTE),
    (Kind::Expansion, LONG_COMMENT, FIRST),
    (Kind::Expansion, DOUBLED_40, "out of memory\x1f)"),
    (Kind::Expansion, DOUBLED_10, "\n\n\x1f)"),
    (Kind::Expansion, LISTS_12, "\n\n\x1f)"),
    (Kind::Expansion, LISTS_13, "out of memory\x1f)"),
];

// What comes of texts of pieces. 200 expansions may be one in the other: of arguments, of bodies, and in expressions.
const MADE: &[Made] = &[
    (
        Kind::Expansion,
        &[Piece::Names(200), Piece::Of(b"a200 2")],
        (b"", &[Piece::Times(b"\n", 200), Piece::Of(b"1 2")]),
    ),
    (
        Kind::Expansion,
        &[Piece::Names(201), Piece::Of(b"a201 2")],
        (b"ExpandTooMuch 202", &[]),
    ),
    (
        Kind::Expansion,
        &[
            Piece::Names(200),
            Piece::Of(b"#if a200 + 1 == 2\nx\n#endif"),
        ],
        (b"", &[Piece::Times(b"\n", 201), Piece::Of(b"x\n")]),
    ),
    (
        Kind::Expansion,
        &[
            Piece::Names(201),
            Piece::Of(b"#if a201 + 1 == 2\nx\n#endif"),
        ],
        (b"ExpandTooMuch 202", &[]),
    ),
    (Kind::Size, FULL_EXPANSION, (b"16777216", &[])),
    (Kind::Expansion, FULL, (b"", FULL_EXPANSION)),
    (Kind::Expansion, WHOLE, (b"", WHOLE)),
];

/// What comes of texts.
pub(crate) fn tables() -> &'static [Table] {
    TABLES
}

/// What comes of texts of pieces.
pub(crate) fn pieces() -> &'static [Made] {
    MADE
}
