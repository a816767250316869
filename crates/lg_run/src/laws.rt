//! Laws that hold of the definitions and of every call.

ghost use Rattle.lg_run.specs.Complete.{Completeness, SureCompleteness};
ghost use Rattle.lg_run.specs.Profiles.{ProfilesAddUp};
ghost use Rattle.lg_run.specs.Refused.{ListingsAreRefusedOnce, TextsAreRefusedOnce};

use lg_prof::laws::{counts_add_up, spent_steps_add_up};

/// Where clap takes the words, no count of faults rose and memory was had, the answer says where the run of the code that is there, or
/// its meaning, is after the most steps: it is the meaning's end where that comes in time, and no fault where the meaning is never undefined. Where the texts
/// are shown, there is code of every text that is accepted and has room, and a refusal is the answer where
/// there is a cause of one.
pub fn completeness()
    ensures { Completeness }
{}

/// The same over a source that is sure and holds the file that the words ask for, whatever the counts are: no fault of it is brought about by the call.
pub fn completeness_over_sure_sources()
    ensures { SureCompleteness }
{}

/// No text is refused for two reasons, and none is refused whose unit is accepted and whose code has room.
pub fn texts_are_refused_once()
    ensures { TextsAreRefusedOnce }
{}

/// No text is refused as a listing for two reasons, and none is refused that is one.
pub fn listings_are_refused_once()
    ensures { ListingsAreRefusedOnce }
{}

/// The numbers of a profile add up: those of the meaning to its steps that went or ended, of the first `--steps`, and those of the code to the steps of
/// the run.
pub fn profiles_add_up()
    ensures { ProfilesAddUp }
{
    counts_add_up();
    spent_steps_add_up();
}
