// The outcomes of calls of the program, by the files of `data`: `cases` has texts with what they write and how they end, or whose code is to do what they
// mean; `properties` asks of some of them, on each target of `targets.txt`, that their profile adds up, that their listing is read back, and that their code
// runs on a stack that is disturbed between any two instructions; `called` calls code by the targets' calling conventions; `entered` calls functions from
// outside, one after the other, and `random_functions` random ones, whose meaning is called too; `any_text` takes any bytes for a
// text, and `changed_listings` any for a listing; `edges` has what is in no table. Prints what each part found. The status is 0 exactly where all calls of
// the cases are right.
#![tactic(auto)]

ghost use Rattle.std.specs.Prelude.{◌≡◌};
ghost use Rattle.std.specs.Process.{exit_status};
ghost use Rattle.lg_test_calls.specs.Ends.{status_of};

mod any_text;
mod call;
mod called;
mod cases;
mod changed_listings;
mod disturbed;
mod edges;
mod entered;
mod form;
mod held;
mod listings;
mod outcome;
mod profiles;
mod properties;
mod random_functions;
mod tally;
mod texts;

use any_text::change_texts;
use called::call_texts;
use cases::make_cases;
use changed_listings::change_listings;
use edges::{try_beginnings, try_edges};
use entered::enter_texts;
use form::try_forms;
use listings::list_labels;
use properties::try_texts;
use random_functions::call_random_functions;
use std::process::ExitCode;
use std::{fs, io};

// Returns the status that the program ends with.
fn exit_code(all: bool) -> ExitCode
    ensures { exit_status result ≡ status_of all }
{
    ExitCode::from(if all { 0 } else { 1 })
}

// Tries what is in no table of cases, on these targets.
fn try_others(rt: &HostRuntime, targets: &str) -> io::Result<()> {
    try_texts(rt, targets)?;
    call_texts(rt, targets)?;
    enter_texts(rt, targets)?;
    call_random_functions(rt, targets)?;
    try_edges(rt)?;
    try_beginnings(rt)?;
    list_labels(rt, targets)?;
    try_forms(rt)?;
    change_texts(rt)?;
    change_listings(rt, targets)
}

fn main(rt: HostRuntime) -> io::Result<ExitCode> {
    let targets = fs::read_to_string(&rt, "targets.txt")?;
    let all = make_cases(&rt)?;
    try_others(&rt, targets.as_str())?;
    Ok(exit_code(all))
}
