// What each mode is made of.

ghost use Rattle.std.specs.Prelude.{◌≡◌};
ghost use Rattle.lg_command.specs.Plans.{plan_of, planned};

use crate::command::Mode;

/// Where a text comes from.
#[derive(Clone, Copy)]
pub enum Source {
    /// From a file, whose macros are expanded.
    File,
    /// From the generator.
    Generator,
    /// From a file, which is read as a listing.
    Listing,
}

/// What is done.
#[derive(Clone, Copy)]
pub enum Action {
    /// The code of the text runs.
    Run,
    /// The listing of the code is written.
    List,
    /// The portable meaning of the text runs, over the addresses of the code's labels.
    Mean,
    /// The bytes that a listing is of are written.
    ReadBack,
}

/// What is reported besides the answer.
#[derive(Clone, Copy)]
pub enum Report {
    /// Nothing.
    Nothing,
    /// The steps of the code and of the meaning, line by line.
    Profile,
    /// Why the text is refused, or a step is undefined.
    Explanation,
}

/// What a mode is made of.
#[derive(Clone, Copy)]
pub struct Plan {
    /// Where the text comes from.
    pub source: Source,
    /// What is done.
    pub action: Action,
    /// What is reported besides the answer.
    pub report: Report,
}

fn planned(source: Source, action: Action, report: Report) -> Plan
    ensures { result ≡ planned source action report }
{
    Plan {
        source,
        action,
        report,
    }
}

impl Mode {
    /// Returns what the mode is made of.
    pub fn plan(self) -> Plan
        ensures { result ≡ plan_of self }
    {
        match self {
            Mode::Run => planned(Source::File, Action::Run, Report::Nothing),
            Mode::List => planned(Source::File, Action::List, Report::Nothing),
            Mode::Mean => planned(Source::File, Action::Mean, Report::Nothing),
            Mode::Gen => planned(Source::Generator, Action::Run, Report::Nothing),
            Mode::Back => planned(Source::Listing, Action::ReadBack, Report::Nothing),
            Mode::Profile => planned(Source::File, Action::Run, Report::Profile),
            Mode::Explain => planned(Source::File, Action::Mean, Report::Explanation),
        }
    }
}
