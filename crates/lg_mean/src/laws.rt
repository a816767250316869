// What holds of the portable machine, for the crates that run it. The functions do nothing: their contracts are the laws.

ghost use Rattle.lg_mean.specs.Follows.{StepsFollow};
ghost use Rattle.lg_mean.specs.Results.{WordsLeftAreOfRuns};

use lg_meaning::laws::steps_are_those_of_the_meaning;

/// Where a machine is as the portable meaning does after k steps and has written what that has written, it does so after its next
/// step after k + 1 steps, unless a write fails.
pub fn steps_follow_the_meaning()
    ensures { StepsFollow }
{
    steps_are_those_of_the_meaning();
}

/// Where the portable meaning goes on after k steps at a state, the word that `Portable::result` gives of that state is the one with which the meaning has ended
/// after k + 1 steps: that of its return, and none where it has not ended so.
pub fn results_are_of_runs()
    ensures { WordsLeftAreOfRuns }
{
    steps_are_those_of_the_meaning();
}
