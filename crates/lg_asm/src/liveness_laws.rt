// Laws of liveness and carrying. The functions do nothing: their contracts are the laws.

ghost use Rattle.lg_asm.specs.CarriedLiveness.{LiveSetsAreLiveness, AllIsLiveness};

use lg_meaning::laws::steps_reach_successors;

/// The registers that are live before and after the nodes of an accepted text are those that carrying asks for.
pub fn live_sets_are_liveness()
    ensures { LiveSetsAreLiveness }
{
    steps_reach_successors();
}

/// Where every register is taken to be live everywhere, that too is what carrying asks for.
pub fn all_is_liveness()
    ensures { AllIsLiveness }
{}
