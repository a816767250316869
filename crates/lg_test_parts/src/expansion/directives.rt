// Directives and macros' bodies, computed by hand from the rules of the preprocessor.

use crate::rows::{Kind, Table};

// What is a directive, and what is none.
const MARKS: &str = "\x1f\x1e\
        x\x1fx\x1e\
        \n1\x1f#define A 1\nA\x1e\
        \n1\x1f \t# \tdefine A 1\nA\x1e\
        \n1\x1f/* */ #define A 1\nA\x1e\
        \n\n1\x1f/*\n*/#define A 1\nA\x1e\
        x #define A 1\nA\x1fx #define A 1\nA\x1e\
        \"#define A 1\nA\x1f\"#define A 1\nA\x1e\
        /* x\n#define A 1\n*/ A\x1f/* x\n#define A 1\n*/ A\x1e\
        // x\\\n\nA\x1f// x\\\n#define B 1\nA\x1e\
        \n\n\nx\x1f#\n# /* c */\n # // c\nx\x1e\
        # 1 \"f\"\n2\x1f# 1 \"f\"\n2\x1e\
        \n# 1 2\x1f#define A 2\n# 1 A\x1e\
        \n[# 1 2]\n\n\nx\x1f#define F(a) [a]\nF(\n# 1 2\n)\nx\x1e\
        \n #  7 \"x\" /* \"\nA\x1f#define A 5\n #  7 \"x\" /* \"\nA\x1e\
        # 1 \"a\" /* x\n#define A 1\nA */ A\n\x1f# 1 \"a\" /* x\n#define A 1\nA */ A\n\x1e\
        $(1\n# 1\n+2)\x1f$(1\n# 1\n+2)";

// Where a directive goes on, and what is white space in it.
const SPLICES: &str = "\n\n\n1   2   3;1   2   3\n\x1f#define A  1 /*x\n*/ 2 \\\n 3  \nA;A\n\x1e\
        \n\n1   + 2\n\x1f#define A 1 // x \\\n+ 2\nA\n\x1e\
        \n1 \\\n\x1f#define A 1 \\\r\nA\n\x1e\
        \n\n1\x1f# \\\ndefine A 1\nA\x1e\
        \n\n\"x \\ +\x1f#define A \"x \\\n+\nA\x1e\
        \n\"x \\ +\x1f#define A \"x \\ +\nA\x1e\
        \n\n<1  2>\x1f#define A 1 \\\n2\n<A>\x1e\
        \n\n<1\\ 2>\x1f#define A 1\\\\\n2\n<A>\x1e\
        \n1\t\t2\x1f#define A 1\t\t2\nA\x1e\
        \nx\x1f#undef /* c */ A // c\nx\x1e\
        \n\nx\x1f#undef \\\n A\nx";

// Definitions.
const DEFINITIONS: &str = "\n\"x\"\x1f#define A\"x\"\nA\x1e\
        \n-1\x1f#define A-1\nA\x1e\
        \n(x) 1\x1f#define A (x) 1\nA\x1e\
        \n(x) 1\x1f#define A/**/(x) 1\nA\x1e\
        \n\n2\x1f#define A 1\n#define A 2\nA\x1e\
        \n1\n\nA\x1f#define A 1\nA\n#undef A\nA\x1e\
        \n\nA(1)\x1f#define A(x) x\n#undef A\nA(1)\x1e\
        \n\n3 3(1)\x1f#define A(x) x\n#define A 3\nA A(1)\x1e\
        64\x1f__WORDSIZE\x1e\
        \n__WORDSIZE\x1f#undef __WORDSIZE\n__WORDSIZE\x1e\
        \n32\x1f#define __WORDSIZE 32\n__WORDSIZE\x1e\
        \n<>\x1f#define A\n<A>\x1e\
        \n<>\x1f#define A /* c */ // d\n<A>\x1e\
        \n<><>\x1f#define F() \n<F()><F( )>\x1e\
        \n1 2\x1f#define F( a , b ) a b\nF(1,2)\x1e\
        \n1 2\x1f#define F(/* c */a/**/,b) a b\nF(1,2)\x1e\
        \n\n1\x1f#define F(a,\\\nb) a\nF(1,2)\x1e\
        \n\n1\n\n3\x1f#define A B\n#define B 1\nA\n#define B 3\nA\x1e\
        \n7\x1f#define defined 7\ndefined\x1e\
        \nx_1 5 x_ _x 0x x1\x1f#define x 5\nx_1 x x_ _x 0x x1\x1e\
        \n\x1f#define A /* x\nA\x1e\
        \x1f#define A 1";

// What is no directive of the list, or not of its form.
const REFUSED: &str = "BadDirective 1\x1f#define\x1e\
        BadDirective 1\x1f#define 1\x1e\
        BadDirective 1\x1f#define F(a\x1e\
        BadDirective 1\x1f#define F(a,)\x1e\
        BadDirective 1\x1f#define F(,a)\x1e\
        BadDirective 1\x1f#define F(a b)\x1e\
        BadDirective 1\x1f#define F(1)\x1e\
        BadDirective 1\x1f#define F(a,a)\x1e\
        BadDirective 1\x1f#define F((a)) x\x1e\
        BadDirective 1\x1f#define F(...) x\x1e\
        BadDirective 1\x1f#define F(a,...) x\x1e\
        BadDirective 1\x1f#define \"A\" x\x1e\
        BadDirective 1\x1f#define A ##\x1e\
        BadDirective 1\x1f#define A ## x\x1e\
        BadDirective 1\x1f#define A x ##\x1e\
        BadDirective 1\x1f#define A a###b\x1e\
        BadDirective 1\x1f#define A x#y\x1e\
        BadDirective 1\x1f#define A # #\x1e\
        BadDirective 1\x1f#define A x # # y\x1e\
        BadDirective 1\x1f#define F(a) #a\x1e\
        BadDirective 2\x1f\n#undef\x1e\
        BadDirective 2\x1f\n#undef 1\x1e\
        BadDirective 2\x1f\n#undef A B\x1e\
        BadDirective 1\x1f#include <x>\x1e\
        BadDirective 1\x1f#error\x1e\
        BadDirective 1\x1f#line 4\x1e\
        BadDirective 1\x1f#pragma\x1e\
        BadDirective 1\x1f#elif 1\x1e\
        BadDirective 1\x1f#Define A 1\x1e\
        BadDirective 1\x1f#defineA 1\x1e\
        BadDirective 1\x1f#def\\\nine A 1\x1e\
        BadDirective 1\x1f# \"x\"\x1e\
        BadDirective 1\x1f##\x1e\
        BadDirective 1\x1f#\t1\x1e\
        BadDirective 1\x1f/**/ # 1\x1e\
        BadDirective 2\x1f/*\n*/ #foo\x1e\
        BadDirective 2\x1f\n#\\\n\\\nfoo\x1e\
        BadDirective 3\x1f#define A 1 \\\n 2\n#foo";

const TABLES: &[Table] = &[
    (Kind::Lines, &[], MARKS),
    (Kind::Lines, &[], SPLICES),
    (Kind::Lines, &[], DEFINITIONS),
    (Kind::Expansion, &[], REFUSED),
];

/// What comes of texts.
pub(crate) fn tables() -> &'static [Table] {
    TABLES
}
