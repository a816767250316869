// What is done, by its word.

use crate::texts::{Lines, Parts};

/// What is made of a text.
pub enum Pass {
    /// It is read, checked and assembled.
    Code,
    /// It is read once, and its nodes are checked and assembled.
    Nodes,
    /// The live registers of its nodes are found.
    Live,
    /// Its nodes go through all four rewrites, one after the other.
    All,
    /// Numbers that are known are folded.
    Fold,
    /// Definitions that nothing needs are dropped.
    Dead,
}

/// What is done.
pub enum Work {
    /// A pass is made over a text of some lines.
    Text(Parts, Pass),
    /// Pieces of some bytes are emitted into a buffer of 64 MiB.
    Emit,
    /// A function of code is called from outside.
    Calls,
}

// In front of lines of V0 and V1, and after them.
const FRONT: &str = "prolog movi %v0 0 movi %v1 0 l0: sti 0 %v0\n";

const BEHIND: &str = "retr %v0 epilog\n";

// One function of additions.
const ADDITIONS: Parts = (
    "prolog movi %r0 0 more:\n",
    Lines::InTurn("addi %r0 %r0 1\n", "addi %r0 %r0 1\n"),
    "retr %r0 epilog\n",
);

const STRAIGHT: Parts = (
    FRONT,
    Lines::InTurn("addi %v0 %v0 1\n", "addi %v0 %v0 1\n"),
    BEHIND,
);

// Each is a branch to the one before it: a sweep from the last to the first would come on by one node.
const BRANCHES: Parts = (
    FRONT,
    Lines::Numbered("l", ": bnei l", " %v0 1\n", 0),
    BEHIND,
);

// Each jumps to its label in a register.
const JUMPS: Parts = (
    FRONT,
    Lines::Numbered("l", ": movi %v1 l", " jmpr %v1\n", 1),
    BEHIND,
);

// Each moves one register into another, which nothing reads.
const MOVES: Parts = (
    FRONT,
    Lines::InTurn("movr %v1 %v0\n", "movr %v1 %v0\n"),
    BEHIND,
);

// Each is a jump to the one before it: all of them lead to the start.
const CHAIN: Parts = (FRONT, Lines::Numbered("l", ": jmpi l", "\n", 0), BEHIND);

// Every second one moves a number into a register, and the others add that register to another.
const KNOWN: Parts = (
    FRONT,
    Lines::InTurn("movi %v1 1\n", "addr %v0 %v0 %v1\n"),
    BEHIND,
);

// Each computes a word that nothing reads.
const DEAD: Parts = (
    FRONT,
    Lines::InTurn("addi %v1 %v0 1\n", "addi %v1 %v0 1\n"),
    BEHIND,
);

/// Each work by its word, and how much is a little of it.
pub const WORKS: &[(&str, u32, Work)] = &[
    ("code", 64, Work::Text(ADDITIONS, Pass::Code)),
    ("assemble", 64, Work::Text(ADDITIONS, Pass::Nodes)),
    ("straight", 64, Work::Text(STRAIGHT, Pass::Live)),
    ("branches", 64, Work::Text(BRANCHES, Pass::Live)),
    ("jumps", 64, Work::Text(JUMPS, Pass::Live)),
    ("moves", 65_000, Work::Text(MOVES, Pass::All)),
    ("chain", 65_000, Work::Text(CHAIN, Pass::All)),
    ("known", 64, Work::Text(KNOWN, Pass::Fold)),
    ("dead", 64, Work::Text(DEAD, Pass::Dead)),
    ("emit", 65_536, Work::Emit),
    ("calls", 64, Work::Calls),
];
