// What holds of states that differ in registers that are not needed. The function does nothing: its contract is the law.

ghost use Rattle.lg_dead.specs.Needs.{NearStepsMeet};

/// The step of a node that stays does the same from states that differ in registers that are not needed, and leads to such states.
pub fn near_steps_meet()
    ensures { NearStepsMeet }
{}
