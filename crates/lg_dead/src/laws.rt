// What is known, in the words of a straight run. The function does nothing: its contract is the law.

ghost use Rattle.lg_dead.specs.Known.{KnownIsMovedLast};

/// A number is known of a register exactly where the last node of the straight run that writes the register moves the number into it.
pub fn known_is_moved_last()
    ensures { KnownIsMovedLast }
{}
