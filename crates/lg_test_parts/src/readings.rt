// Texts that are read, and texts that are refused with a kind and a line, computed by hand from the rules of statements.

use crate::rows::{Kind, Table};

// In the tables a row is `accepted`, or the kind and the line of its text's refusal, then 1F and the text; between rows stands 1E.

// What is read.
const READ: &str = "accepted\x1f\x1e\
        accepted\x1fprolog movi %r0 ret epilog\x1e\
        accepted\x1fprolog movi %r0 ret ret: ret epilog\x1e\
        accepted\x1floop_f: prolog movi %r0 x_f x_f: ret epilog name a_d\x1e\
        accepted\x1fnote -1 note \"a\" 5 note note 7\x1e\
        accepted\x1fname ret name x_f\x1e\
        accepted\x1f.code .code .data 0 .code\x1e\
        accepted\x1fprolog movi %r0 e epilog e:\x1e\
        accepted\x1farg $x prolog arg $x\x1e\
        accepted\x1f.data 16777216 .align 4096 .size 16777216\x1e\
        accepted\x1f.align 64 .align 1\x1e\
        accepted\x1fprolog allocai 65536 $x movi %r0 $x\x1e\
        accepted\x1fjmpi prolog prolog: prolog jmpi a\x1e\
        accepted\x1f.data 3 .c \"ab\"\x1e\
        accepted\x1f.data 8 x: .code addi %r0 %r1 x movi %r0 @puts calli @puts finishi f\x1e\
        accepted\x1fsti 7 %r0 ldi %r0 'a' stxi $(1+1) %r0 %r1 ldr_l %r0 %fp\x1e\
        accepted\x1farg $a arg $b arg $c arg $d arg $e arg $f arg $g arg $h arg $i arg $j arg $k arg $l arg $m arg $n arg $o arg $p arg $q\x1e\
        accepted\x1fva_arg %r0 %v0 va_end %fp\x1e\
        accepted\x1fqmulr %r0 %r1 %r0 %r0 qdivi %r0 %v0 %fp 1";

// What is no statement.
const NO_STATEMENTS: &str = "UnknownName 1\x1fnop\x1e\
        UnknownName 1\x1fmovr_l %r0 %r1\x1e\
        FloatRefused 2\x1f\nfoo_f\x1e\
        FloatRefused 1\x1fx_d_y\x1e\
        FloatRefused 1\x1f_f\x1e\
        FloatRefused 1\x1f.data 4 x_f\x1e\
        FloatRefused 1\x1f.f\x1e\
        FloatRefused 1\x1f.d\x1e\
        FloatRefused 1\x1f.data 4 .c 1 .f\x1e\
        UnknownName 1\x1f.x_f\x1e\
        FloatRefused 1\x1fva_arg_d %r0 %r1\x1e\
        UnknownName 1\x1fva_push %r0\x1e\
        UnknownName 2\x1fva_start %r0\n1\x1e\
        FloatRefused 1\x1f%f0\x1e\
        UnknownName 1\x1f%f\x1e\
        UnknownName 1\x1f%f1x\x1e\
        UnknownName 1\x1f%r0\x1e\
        UnknownName 1\x1f@foo\x1e\
        UnknownName 1\x1f@puts\x1e\
        UnknownName 1\x1fnote 'a'\x1e\
        UnknownName 2\x1fnote 5\n\"x\"\x1e\
        UnknownName 1\x1f1.5\x1e\
        BadToken 1\x1fnote 1.5\x1e\
        UnknownName 1\x1f.c 1\x1e\
        UnknownName 1\x1f.size 1\x1e\
        UnknownName 2\x1f.data 4\nname x\x1e\
        UnknownName 2\x1f.data 4\nret\x1e\
        UnknownName 2\x1f.data 4\n.data 4\x1e\
        UnknownName 2\x1f.data 4 .code\n.data %r0\x1e\
        BadExpr 1\x1f$(1/0)";

// Operands.
const OPERANDS: &str = "BadOperand 3\x1fprolog\nmovr %r0\nepilog\x1e\
        BadOperand 2\x1fprolog\nmovr %r0\n\n\x1e\
        BadOperand 4\x1fprolog\nqmulr\n%r0\n%r0\x1e\
        BadOperand 1\x1fqdivi %r0 %r0 @foo\x1e\
        BadOperand 2\x1fva_arg %r0\n%r0\x1e\
        BadOperand 1\x1fva_arg %r0 %fp\x1e\
        BadOperand 1\x1fva_arg %fp %r0\x1e\
        BadOperand 1\x1fva_start %fp\x1e\
        BadOperand 1\x1fva_end 1\x1e\
        BadExpr 1\x1fmovr %r0 $(1/0)\x1e\
        BadOperand 1\x1fmovr %fp %r0\x1e\
        BadOperand 1\x1fboaddr x %fp %r0\x1e\
        BadOperand 1\x1fmovr %r0 %f\x1e\
        BadOperand 1\x1fmovr %r0 %fpp\x1e\
        BadOperand 1\x1fmovr %r0 1\x1e\
        BadOperand 1\x1fmovi %r0 %r1\x1e\
        BadOperand 1\x1fmovi %r0 \"a\"\x1e\
        BadOperand 1\x1fmovi %r0 x:\x1e\
        FloatRefused 2\x1fjmpi\n%f0\x1e\
        BadOperand 1\x1fjmpi @puts\x1e\
        BadOperand 1\x1fjmpi 1\x1e\
        BadOperand 1\x1fcalli 1\x1e\
        FloatRefused 1\x1fname %f0\x1e\
        BadOperand 1\x1fname x:\x1e\
        BadOperand 1\x1fname\x1e\
        UnknownHost 1\x1fname @foo\x1e\
        UnknownHost 1\x1fmovr %r0 @foo\x1e\
        UnknownHost 1\x1fjmpi @foo\x1e\
        BadOperand 1\x1f.align 3\x1e\
        BadOperand 1\x1f.align 128\x1e\
        BadOperand 1\x1f.align 0\x1e\
        BadOperand 1\x1fallocai 0 $x\x1e\
        BadOperand 1\x1fallocai 65537 $x\x1e\
        BadOperand 1\x1fallocai -1 $x";

// Names that `arg` and `allocai` make, and labels.
const NAMES: &str = "BadOperand 1\x1fmovr %r0 $x\x1e\
        BadOperand 1\x1fjmpi $x\x1e\
        BadOperand 1\x1fallocai $x $y\x1e\
        BadOperand 1\x1farg x\x1e\
        NoSuchArg 1\x1fmovi %r0 $x\x1e\
        NoSuchArg 1\x1fgetarg %r0 $x\x1e\
        NoSuchArg 2\x1fallocai 8 $l\ngetarg %r0 $l\x1e\
        NoSuchArg 1\x1farg $a movi %r0 $a\x1e\
        NoSuchArg 1\x1farg $a prolog getarg %r0 $a\x1e\
        NoSuchArg 2\x1farg $a prolog\ngetarg_c %r0 $a\x1e\
        LabelTwice 2\x1fprolog arg $a\nallocai 8 $a\x1e\
        LabelTwice 2\x1fprolog arg $x epilog\narg $x\x1e\
        LabelTwice 2\x1fx:\nx:\x1e\
        LabelTwice 2\x1f.data 8 x: .code\nx:";

// The data part.
const DATA: &str = "DataFull 6\x1f.data 4\n.c 1\n2\n3\n4\n5\x1e\
        DataFull 1\x1f.data 2 .c \"ab\"\x1e\
        DataFull 1\x1f.data 1 .s 1\x1e\
        DataFull 1\x1f.data 4 .size -1\x1e\
        DataFull 3\x1f.data 4\n.size\n5\x1e\
        DataFull 1\x1f.data 7 .c 1 .align 8\x1e\
        BadOperand 1\x1f.data\x1e\
        BadOperand 1\x1f.data -1\x1e\
        BadOperand 1\x1f.data 16777217\x1e\
        BadOperand 1\x1f.data x";

// What is no data.
const NO_DATA: &str = "BadOperand 1\x1f.data 4 .align 3\x1e\
        BadOperand 1\x1f.data 4 .align 8192\x1e\
        BadOperand 1\x1f.data 4 .c %r0\x1e\
        BadOperand 1\x1f.data 4 .c .f\x1e\
        BadOperand 1\x1f.data 4 .s \"a\"\x1e\
        BadOperand 1\x1f.data 4 .c $x\x1e\
        BadOperand 1\x1f.data 4 .c @puts\x1e\
        UnknownHost 1\x1f.data 4 .c @foo\x1e\
        FloatRefused 1\x1f.data 4 .c %f0\x1e\
        UnknownName 1\x1f.data 4 .c 1 %r0\x1e\
        UnknownName 1\x1f.data 4 .c 1 $x\x1e\
        UnknownName 1\x1f.data 4 .c 1 @foo\x1e\
        UnknownName 1\x1f.data 4 .s 1 \"a\"";

const TABLES: &[Table] = &[
    (Kind::Read, &[], READ),
    (Kind::Read, &[], NO_STATEMENTS),
    (Kind::Read, &[], OPERANDS),
    (Kind::Read, &[], NAMES),
    (Kind::Read, &[], DATA),
    (Kind::Read, &[], NO_DATA),
];

/// What comes of texts.
pub(crate) fn tables() -> &'static [Table] {
    TABLES
}
