// The replacement of names and of calls, computed by hand from the rules of the preprocessor.

use crate::rows::{Kind, Table};

// Words that are replaced, hidden or frozen.
const WORDS: &str = "\nA b\x1f#define A A b\nA\x1e\
        \nA b A b\x1f#define A A b\nA A\x1e\
        \n\nA B\x1f#define A B\n#define B A\nA B\x1e\
        \n\n\nA\x1f#define A B\n#define B C\n#define C A\nA\x1e\
        \n\nA b\x1f#define A A b\n#define I(x) x\nI(A)\x1e\
        \n\nA b\x1f#define A A b\n#define I(x) x\nI(I(A))\x1e\
        \n2 F(1) F(1)\x1f#define F(x) x F(1)\nF(F(2))\x1e\
        \n\n1 F(2)\x1f#define F(x) x\n#define G F(1) F\nG(2)\x1e\
        \n\nF (1)\x1f#define A F\n#define F(x) x\nA (1)\x1e\
        \n\n2*g(9)\x1f#define f(a) a*g\n#define g(a) f(a)\nf(2)(9)\x1e\
        \n\n\nF 1 F\x1f#define F(x) x\n#define N F\n#define I(x) N x N\nI(1)\x1e\
        \n\n1 + A\x1f#define A 1 + B\n#define B A\nA\x1e\
        \n\nF(F)(1)\x1f#define F(x) F(x)\n#define G(x) F(F)(x)\nG(1)\x1e\
        \n\n1 2\x1f#define B 2\n#define A 1 B\nA\x1e\
        \n\"A\" 'A' A1 1A /* A */ // A\x1f#define A 5\n\"A\" 'A' A1 1A /* A */ // A\x1e\
        \n5 ' A\n5\x1f#define A 5\nA ' A\nA\x1e\
        \n5 \" A\n5\x1f#define A 5\nA \" A\nA\x1e\
        \n'\\'' 5 \"\\\" A\" 5\x1f#define A 5\n'\\'' A \"\\\" A\" A\x1e\
        \n-1 %1 $1 .1 @1 1: 1.1\x1f#define A 1\n-A %A $A .A @A A: A.A\x1e\
        \n/* A\nA\x1f#define A 5\n/* A\nA";

// What ## puts together.
const PASTES: &str =
    "\n<xy> <y> <x> <> <a bc d>\x1f#define C(a,b) <a##b>\nC(x,y) C(,y) C(x,) C(,) C(a b,c d)\x1e\
        \nxy\x1f#define C(a,b) a ## ## b\nC(x,y)\x1e\
        \nxy\x1f#define C(a,b) a####b\nC(x,y)\x1e\
        \nab\x1f#define C a ## b\nC\x1e\
        \nxyz\x1f#define C(a,b,c) a##b##c\nC(x,y,z)\x1e\
        \nxz\x1f#define C(a,b,c) a##b##c\nC(x,,z)\x1e\
        \n[x]\x1f#define C(a,b) [a##b]\nC(,x)\x1e\
        \n[]\x1f#define C(a) [a##a]\nC()\x1e\
        \n\n5 A_ 5\x1f#define B 5\n#define C(a) a##_ B\nB C(A)\x1e\
        \n\nA_ 5\x1f#define A 5\n#define C(a) a##_ a\nC(A)\x1e\
        \n\n_A 5\x1f#define A 5\n#define C(a) _##a a\nC(A)\x1e\
        \n\nx5 5x\x1f#define A 5\n#define C(a) x##a a##x\nC(5)\x1e\
        \n\n7\x1f#define AB 7\n#define C(a,b) a##b\nC(A,B)\x1e\
        \n\n\n7\x1f#define A 1\n#define AB 7\n#define C(a,b) a##b\nC(A,B)\x1e\
        \n\n12\x1f#define A 1\n#define C(a) a##2\nC(1)\x1e\
        \n// x\x1f#define C(a,b) a##b\nC(/,/) x\x1e\
        \n/* x\x1f#define C(a,b) a##b\nC(/,*) x\x1e\
        \n\n1A 5\x1f#define A 5\n#define C(a) 1##a A\nC(A)";

// Calls.
const CALLS: &str = "\n[(1,2)|\"x,)\"]\n z\x1f#define F(a,b) [a|b]\nF( (1,2) ,\n \"x,)\" ) z\x1e\
        \n1F 1\n\x1f#define F() 1\nF( )F F(\n)\x1e\
        \n1 2\n\n x\x1f#define F(a,b) a b\nF(1,\n2\n) x\x1e\
        \n1\n\n\n x\x1f#define F(a) a\nF /* \n */ // c\n(\n1) x\x1e\
        \nF x\x1f#define F(a) a\nF x\x1e\
        \nF\n\nx\x1f#define F(a) a\nF\n\nx\x1e\
        \nF\x1f#define F(a) a\nF\x1e\
        \nF /* c */\n;\x1f#define F(a) a\nF /* c */\n;\x1e\
        \n<>\x1f#define F(a) <a>\nF()\x1e\
        \n<|>\x1f#define F(a,b) <a|b>\nF(,)\x1e\
        \n<a b>\x1f#define F(a) <a>\nF( a b )\x1e\
        \n<a   b>\n\x1f#define F(a) <a>\nF(a \n b)\x1e\
        \n<a b>\x1f#define F(a) <a>\nF(a/* c */b)\x1e\
        \n<a\tb>\x1f#define F(a) <a>\nF(a\tb)\x1e\
        \n<(',', \"(\")>\x1f#define F(a) <a>\nF((',', \"(\"))\x1e\
        \n((1))\x1f#define F(a) a\nF(((1)))\x1e\
        \n1 (2)\x1f#define F(a) a\nF(1) (2)\x1e\
        \n1 2 1\x1f#define F(a,b) a b a\nF(1,2)\x1e\
        \n\n1 2\x1f#define F(a,b) a b\n#define G(a) F(a,2)\nG(1)\x1e\
        \n\n1, 2\x1f#define A 1, 2\n#define I(a) a\nI(A)\x1e\
        \n2 2\n3 3\n\x1f#define F(a) a a\nF(2)\nF(3)\n";

// Calls whose arguments are not closed, or are not as many as the parameters.
const REFUSED: &str = "BadMacro 2\x1f#define F(a) a\nF(1\n#define X\n)\x1e\
        BadMacro 2\x1f#define F(a,b) a\nF(1)\x1e\
        BadMacro 3\x1f#define F(a,b) a\n\nF()\x1e\
        BadMacro 2\x1f#define F(a) a\nF(1,2)\x1e\
        BadMacro 2\x1f#define F() 1\nF(1)\x1e\
        BadMacro 2\x1f#define F() 1\nF(,)\x1e\
        BadMacro 2\x1f#define F(a) a\nF((1)\x1e\
        BadMacro 2\x1f#define F(a) a\nF\n(\x1e\
        BadMacro 3\x1f#define F(a) a\n#define A F(\nA 1)\x1e\
        BadMacro 3\x1f#define F(a) a\n#define I(a) a\nI(F(1,\n2))\x1e\
        BadMacro 3\x1f#define F(a) a\n#define D(a)\nD(F(1,2))\x1e\
        BadMacro 3\x1f#define F(a) a\n#define C(a) x##a\nC(\nF(1,2))\x1e\
        BadMacro 4\x1f#define F(a) a\n#define A F(1,2)\n\nA\nF(";

const TABLES: &[Table] = &[
    (Kind::Lines, &[], WORDS),
    (Kind::Lines, &[], PASTES),
    (Kind::Lines, &[], CALLS),
    (Kind::Expansion, &[], REFUSED),
];

/// What comes of texts.
pub(crate) fn tables() -> &'static [Table] {
    TABLES
}
