// Texts that are accepted once they are read, and texts that the checks refuse with a kind and a line, computed by hand from the rules of functions, labels
// and calls.

use crate::rows::{Kind, Table};

// In the tables a row is `accepted`, or the kind and the line of its text's refusal, then 1F and the text; between rows stands 1E.

// What the checks accept.
const ACCEPTED: &str = "accepted\x1f.code prolog ret epilog\x1e\
        accepted\x1fprolog calli f ret epilog .align 16 f: prolog ret epilog\x1e\
        accepted\x1fprolog prepare arg $a addi %r0 %r0 1 retval %r0 .align 4 finishi @puts epilog\x1e\
        accepted\x1fprolog x: prepare finishi @puts epilog\x1e\
        accepted\x1fjmpi x x: prolog ret epilog\x1e\
        accepted\x1fprolog movi %r0 ret ret: ret epilog\x1e\
        accepted\x1f.data 8 d: .code prolog addi %r0 %r0 d epilog\x1e\
        accepted\x1fx: prolog calli x epilog\x1e\
        accepted\x1fprolog movi %r0 x x: epilog\x1e\
        accepted\x1fprolog prepare pushargi f finishi @free epilog f: prolog epilog\x1e\
        accepted\x1fprolog reti x x: epilog\x1e\
        accepted\x1fprolog movi %r0 e epilog e:\x1e\
        accepted\x1fprolog epilog .align 8\x1e\
        accepted\x1fprolog allocai 65536 $x epilog\x1e\
        accepted\x1fprolog allocai 32768 $a allocai 32768 $b epilog\x1e\
        accepted\x1fprolog allocai 65529 $a epilog\x1e\
        accepted\x1fprolog arg $a arg $b arg $c arg $d arg $e arg $f arg $g arg $h arg $i arg $j arg $k arg $l arg $m arg $n arg $o arg $p epilog\x1e\
        accepted\x1fprolog arg $a arg $b arg $c arg $d arg $e arg $f arg $g arg $h arg $i arg $j arg $k arg $l arg $m arg $n arg $o arg $p epilog prolog arg $q epilog\x1e\
        accepted\x1fprolog ellipsis epilog\x1e\
        accepted\x1fprolog ellipsis epilog prolog arg $x ellipsis epilog\x1e\
        accepted\x1fprolog ellipsis prepare ellipsis va_start %r0 finishi @puts epilog\x1e\
        accepted\x1fprolog ellipsis va_start %r0 va_arg %r1 %r0 va_end %r0 epilog\x1e\
        accepted\x1fprolog va_end %r0 va_arg %r1 %r0 epilog\x1e\
        accepted\x1fprolog prepare pushargi 1 pushargi 2 pushargi 3 pushargi 4 pushargi 5 pushargi 6 pushargi 7 pushargi 8 pushargi 9 pushargi 10 pushargi 11 pushargi 12 pushargi 13 pushargi 14 pushargi 15 pushargr %v0 finishi @puts epilog";

// Targets and labels.
const TARGETS: &str = "LabelMissing 2\x1f.code\nprolog jmpi x\nret\nepilog\x1e\
        TargetOutside 1\x1fprolog jmpi x\nret x:\x1e\
        TargetOutside 1\x1fprolog calli f ret epilog f: .align 16 prolog ret epilog\x1e\
        TargetOutside 3\x1fx: prolog\nprepare\njmpi x\nfinishi @puts epilog\x1e\
        LabelMissing 1\x1fjmpi x\x1e\
        TargetOutside 1\x1fjmpi x prolog x: ret epilog\x1e\
        LabelMissing 1\x1fprolog movi %r0 ret epilog\x1e\
        TargetOutside 1\x1f.data 8 d: .code prolog jmpi d epilog\x1e\
        TargetOutside 1\x1f.data 8 d: .code prolog calli d epilog\x1e\
        TargetOutside 1\x1f.data 8 d: .code prolog blti d %r0 1 epilog\x1e\
        TargetOutside 1\x1fx: prolog jmpi x epilog\x1e\
        TargetOutside 1\x1fx: prolog blti x %r0 1 epilog\x1e\
        TargetOutside 1\x1fprolog addi %r0 %r0 x x: epilog\x1e\
        TargetOutside 1\x1fprolog ldi %r0 x x: epilog\x1e\
        TargetOutside 1\x1fprolog sti x %r0 x: epilog\x1e\
        TargetOutside 1\x1fprolog stxi x %r0 %r0 x: epilog\x1e\
        TargetOutside 1\x1fprolog blti x %r0 x x: epilog\x1e\
        TargetOutside 2\x1fprolog\njmpi x ret epilog prolog x: ret epilog\x1e\
        TargetOutside 2\x1fprolog\nbeqi x %r0 0 epilog prolog x: epilog\x1e\
        TargetOutside 1\x1fprolog calli x epilog prolog x: epilog\x1e\
        TargetOutside 1\x1fprolog jmpi e epilog e:\x1e\
        TargetOutside 1\x1fjmpi x x:";

// The preparing of calls.
const CALLS: &str = "BadCall 2\x1f.code prolog prepare\nret epilog\x1e\
        BadCall 1\x1fprolog prepare x: finishi @puts epilog\x1e\
        BadCall 2\x1fprolog prepare\nprepare finishi @puts epilog\x1e\
        BadCall 2\x1fprolog prepare\nepilog\x1e\
        BadCall 2\x1fprolog prepare ellipsis\nellipsis finishi @puts epilog\x1e\
        BadCall 2\x1fprolog ellipsis\nellipsis epilog\x1e\
        BadCall 2\x1fprolog prepare ellipsis finishi @puts ellipsis\nellipsis epilog\x1e\
        BadCall 2\x1fprolog ellipsis\narg $x epilog\x1e\
        BadCall 2\x1fprolog arg $a arg $b arg $c arg $d arg $e arg $f arg $g arg $h arg $i arg $j arg $k arg $l arg $m arg $n arg $o arg $p ellipsis\narg $q epilog\x1e\
        BadCall 2\x1fprolog\nva_start %r0 ellipsis epilog\x1e\
        BadCall 2\x1fprolog prepare ellipsis\nva_start %r0 finishi @puts epilog\x1e\
        BadCall 2\x1fprolog ellipsis epilog prolog\nva_start %r0 epilog\x1e\
        BadCall 2\x1fprolog\npushargi 1 epilog\x1e\
        BadCall 2\x1fprolog\npushargr %r0 epilog\x1e\
        BadCall 2\x1fprolog\nfinishi @puts epilog\x1e\
        BadCall 2\x1fprolog movi %r0 0\nfinishr %r0 epilog\x1e\
        BadCall 2\x1fprolog prepare\ncalli @puts finishi @puts epilog\x1e\
        BadCall 2\x1fprolog prepare\ncallr %r0 finishi @puts epilog\x1e\
        BadCall 2\x1fprolog prepare\njmpr %r0 finishi @puts epilog\x1e\
        BadCall 2\x1fprolog x: movi %r0 0 prepare\nblti x %r0 1 finishi @puts epilog\x1e\
        BadCall 2\x1fprolog x: movi %r0 0 prepare\nboaddi x %r0 1 finishi @puts epilog\x1e\
        BadCall 2\x1fprolog prepare\nretr %r0 finishi @puts epilog\x1e\
        BadCall 2\x1fprolog prepare\nreti 1 finishi @puts epilog\x1e\
        BadCall 2\x1fprolog prepare finishi @puts\nfinishi @puts epilog";

// Functions and their limits.
const FUNCTIONS: &str = "NoCode 1\x1f\x1e\
        FunctionOpen 2\x1f.code\nprolog\x1e\
        FrameTooBig 1\x1f.code prolog allocai 65536 $a allocai 1 $b ret epilog\x1e\
        FunctionOpen 2\x1fprolog jmpi x\nprolog x: ret epilog\x1e\
        FunctionOpen 2\x1f\nprolog jmpi x x: ret\x1e\
        FunctionOpen 3\x1fprolog\nprepare\nprolog\nfinishi @puts epilog\x1e\
        NotInFunction 1\x1fret\x1e\
        NotInFunction 2\x1fprolog ret epilog\njmpi x x: prolog ret epilog\x1e\
        NotInFunction 2\x1fprolog epilog\narg $a prolog epilog\x1e\
        NoCode 1\x1f.align 8\x1e\
        NoCode 1\x1f\n\n.data 8\x1e\
        FrameTooBig 2\x1fprolog allocai 32768 $a allocai 32768 $b\nallocai 1 $c epilog\x1e\
        FrameTooBig 2\x1fprolog allocai 65529 $a\nallocai 1 $b epilog\x1e\
        TooManyArgs 2\x1fprolog arg $a arg $b arg $c arg $d arg $e arg $f arg $g arg $h arg $i arg $j arg $k arg $l arg $m arg $n arg $o arg $p\narg $q epilog\x1e\
        TooManyArgs 2\x1fprolog prepare pushargi 1 pushargi 2 pushargi 3 pushargi 4 pushargi 5 pushargi 6 pushargi 7 pushargi 8 pushargi 9 pushargi 10 pushargi 11 pushargi 12 pushargi 13 pushargi 14 pushargi 15 pushargi 16\npushargi 17 finishi @puts epilog";

// A text whose unit is that of the function of nodes.rt without its label.
const UNBOUND: &str = "LabelMissing 3\x1fprolog\nallocai 12 $l\nmovi %r0 there\nepilog";

const TABLES: &[Table] = &[
    (Kind::Checked, &[], ACCEPTED),
    (Kind::Checked, &[], TARGETS),
    (Kind::Checked, &[], CALLS),
    (Kind::Checked, &[], FUNCTIONS),
    (Kind::Checked, &[], UNBOUND),
];

/// What comes of texts.
pub(crate) fn tables() -> &'static [Table] {
    TABLES
}
