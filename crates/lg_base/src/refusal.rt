// Why a text is refused, and that memory ran out.

ghost use Rattle.std.specs.Prelude.{◌≡◌};
ghost use Rattle.lg_base.specs.Refusals.{number_of_kind, name_of_kind, sentence_of_kind};

use std::alloc::{AllocError, AllocFailed};
use thiserror::Error;

/// Memory was asked for and could not be had.
#[derive(Clone, Copy, Debug, PartialEq, Eq, Error)]
#[error("out of memory")]
pub struct OutOfMemory;

impl From<AllocError> for OutOfMemory {
    fn from(_error: AllocError) -> OutOfMemory {
        OutOfMemory
    }
}

impl<T: Drop> From<AllocFailed<T>> for OutOfMemory {
    fn from(_error: AllocFailed<T>) -> OutOfMemory {
        OutOfMemory
    }
}

/// The kinds of refusal. The program prints a kind by its number and its name.
#[derive(Clone, Copy, Debug, PartialEq, Eq)]
pub enum RefusalKind {
    /// 1: a token is malformed.
    BadToken,
    /// 2: a token is at a statement's place and is no statement of its section.
    UnknownName,
    /// 3: a floating-point instruction, directive or register.
    FloatRefused,
    /// 4: an operand is missing, or of another form or range than its place asks.
    BadOperand,
    /// 5: a constant expression is malformed, or has no value.
    BadExpr,
    /// 6: a label or a name of a function is made a second time.
    LabelTwice,
    /// 7: a node names a label that nothing binds.
    LabelMissing,
    /// 8: a node is outside every function.
    NotInFunction,
    /// 9: a `prolog` stands inside a function, or the text ends inside one.
    FunctionOpen,
    /// 10: a jump, branch or call goes where it may not, or a code label is as an immediate where it may not.
    TargetOutside,
    /// 11: a node is out of place in the preparing of a call.
    BadCall,
    /// 12: the 17th argument of a function or of a call.
    TooManyArgs,
    /// 13: a name of a function is not made before its use.
    NoSuchArg,
    /// 14: an `@` name is no host function.
    UnknownHost,
    /// 15: a data item passes the end of the data part.
    DataFull,
    /// 16: the text has more than 16,777,216 bytes.
    TextTooLong,
    /// 17: the text has more nodes than are allowed.
    TooManyNodes,
    /// 18: the code has no room in its size.
    CodeFull,
    /// 19: the locals of a function pass 65,536 bytes.
    FrameTooBig,
    /// 20: no `prolog` is in the text.
    NoCode,
    /// 21: the argument part would pass 1,048,576 bytes.
    ArgsTooLong,
    /// 22: a directive of the preprocessor is none of the list, or not of its form.
    BadDirective,
    /// 23: the arguments of a macro are not closed, or their number is not that of its parameters.
    BadMacro,
    /// 24: the expansion of macros, or what they replace, is too long or nested too deeply.
    ExpandTooMuch,
    /// 25: what is read back is no listing.
    BadListing,
}

/// A refused text: what is wrong, and in which line. Lines count from 1; 0 says that no line is to blame.
#[derive(Clone, Copy, Debug, PartialEq, Eq)]
pub struct Refusal {
    /// What is wrong.
    pub kind: RefusalKind,
    /// The line to blame, or 0.
    pub line: u32,
}

/// Why a call that may refuse or want memory did not succeed.
#[derive(Clone, Copy, Debug, PartialEq, Eq, Error)]
pub enum Stop {
    /// The text is refused.
    #[error("refused: {0:?}")]
    Refused(Refusal),
    /// Memory could not be had.
    #[error("out of memory")]
    OutOfMemory,
}

impl From<OutOfMemory> for Stop {
    ghost use Rattle.std.specs.Prelude.{◌≡◌};
    ghost use Rattle.lg_base.specs.declared.refusal.Stop.TheVariants.{OutOfMemory};

    ghost from_gives = { λ _ stop. stop ≡ OutOfMemory };

    fn from(_error: OutOfMemory) -> Stop {
        Stop::OutOfMemory
    }
}

impl RefusalKind {
    /// Returns the number of the kind, 1 to 25.
    pub fn number(self) -> u32
        ensures { result ≡ number_of_kind self }
    {
        match self {
            RefusalKind::BadToken => 1,
            RefusalKind::UnknownName => 2,
            RefusalKind::FloatRefused => 3,
            RefusalKind::BadOperand => 4,
            RefusalKind::BadExpr => 5,
            RefusalKind::LabelTwice => 6,
            RefusalKind::LabelMissing => 7,
            RefusalKind::NotInFunction => 8,
            RefusalKind::FunctionOpen => 9,
            RefusalKind::TargetOutside => 10,
            RefusalKind::BadCall => 11,
            RefusalKind::TooManyArgs => 12,
            RefusalKind::NoSuchArg => 13,
            RefusalKind::UnknownHost => 14,
            RefusalKind::DataFull => 15,
            RefusalKind::TextTooLong => 16,
            RefusalKind::TooManyNodes => 17,
            RefusalKind::CodeFull => 18,
            RefusalKind::FrameTooBig => 19,
            RefusalKind::NoCode => 20,
            RefusalKind::ArgsTooLong => 21,
            RefusalKind::BadDirective => 22,
            RefusalKind::BadMacro => 23,
            RefusalKind::ExpandTooMuch => 24,
            RefusalKind::BadListing => 25,
        }
    }

    /// Returns the name of the kind, as the program prints it.
    pub fn name(self) -> &'static str
        ensures { result.now ≡ name_of_kind self }
    {
        match self {
            RefusalKind::BadToken => "BadToken",
            RefusalKind::UnknownName => "UnknownName",
            RefusalKind::FloatRefused => "FloatRefused",
            RefusalKind::BadOperand => "BadOperand",
            RefusalKind::BadExpr => "BadExpr",
            RefusalKind::LabelTwice => "LabelTwice",
            RefusalKind::LabelMissing => "LabelMissing",
            RefusalKind::NotInFunction => "NotInFunction",
            RefusalKind::FunctionOpen => "FunctionOpen",
            RefusalKind::TargetOutside => "TargetOutside",
            RefusalKind::BadCall => "BadCall",
            RefusalKind::TooManyArgs => "TooManyArgs",
            RefusalKind::NoSuchArg => "NoSuchArg",
            RefusalKind::UnknownHost => "UnknownHost",
            RefusalKind::DataFull => "DataFull",
            RefusalKind::TextTooLong => "TextTooLong",
            RefusalKind::TooManyNodes => "TooManyNodes",
            RefusalKind::CodeFull => "CodeFull",
            RefusalKind::FrameTooBig => "FrameTooBig",
            RefusalKind::NoCode => "NoCode",
            RefusalKind::ArgsTooLong => "ArgsTooLong",
            RefusalKind::BadDirective => "BadDirective",
            RefusalKind::BadMacro => "BadMacro",
            RefusalKind::ExpandTooMuch => "ExpandTooMuch",
            RefusalKind::BadListing => "BadListing",
        }
    }

    /// Returns the sentence that explains the kind: what the line is refused for, and what is often meant.
    pub fn sentence(self) -> &'static str
        ensures { result.now ≡ sentence_of_kind self }
    {
        match self {
            RefusalKind::BadToken => {
                "no token begins here; operands have no commas, comments are // and /* */"
            }
            RefusalKind::UnknownName => {
                "a word is no statement here: it is misspelt, a label without its colon, or a macro that is not defined, or it is in the wrong part"
            }
            RefusalKind::FloatRefused => {
                "there is no floating point; a name with a part f or d after a _ is taken for it"
            }
            RefusalKind::BadOperand => {
                "an operand is missing, or is none that its place takes; registers are %r0 %r1 %r2 %v0 %v1 %v2 %fp, and %fp is never written"
            }
            RefusalKind::BadExpr => {
                "an expression has no value; words have none there, and each of its operands is computed"
            }
            RefusalKind::LabelTwice => "a label, or a name of the function, is made a second time",
            RefusalKind::LabelMissing => "a label is named that is bound nowhere",
            RefusalKind::NotInFunction => {
                "an instruction is outside of every function, which go from a prolog to an epilog"
            }
            RefusalKind::FunctionOpen => {
                "a function has no epilog before the next prolog or the end of the text"
            }
            RefusalKind::TargetOutside => {
                "a jump leaves its function, a call goes to no prolog, or a code label is used as a number where movi, pushargi and reti alone take one"
            }
            RefusalKind::BadCall => {
                "pushes and a finish come after a prepare, with no branch, jump, other call, return or label between; one ellipsis, and the args before it"
            }
            RefusalKind::TooManyArgs => "a function or a call has more than 16 arguments",
            RefusalKind::NoSuchArg => {
                "no arg and no allocai of the function makes this name before"
            }
            RefusalKind::UnknownHost => "there is no such host function",
            RefusalKind::DataFull => {
                "the data are more than .data says; a string has a zero byte too"
            }
            RefusalKind::TextTooLong => "the text has more than 16777216 bytes",
            RefusalKind::TooManyNodes => "the text has more than 1048576 instructions",
            RefusalKind::CodeFull => "the code has no room in the size that --code gives",
            RefusalKind::FrameTooBig => "the locals of a function are more than 65536 bytes",
            RefusalKind::NoCode => "the text has no prolog, so no function",
            RefusalKind::ArgsTooLong => "the words of the command are more than 1048576 bytes",
            RefusalKind::BadDirective => {
                "a directive is none of define, undef, ifdef, ifndef, if, else and endif, or not of its form, or a condition is not ended"
            }
            RefusalKind::BadMacro => {
                "a call of a macro is not closed, or has more or fewer arguments than the macro has parameters"
            }
            RefusalKind::ExpandTooMuch => {
                "macros give more than 16777216 bytes, or call one another more than 200 levels deep"
            }
            RefusalKind::BadListing => "a line is not as a listing has it",
        }
    }
}
