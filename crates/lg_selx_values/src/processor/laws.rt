// What holds of the instructions of x86-64, for the code of nodes. The functions do nothing: their contracts are the laws.

ghost use Rattle.lg_selx_values.specs.Processor.Destinations.{InstructionsStay};
ghost use Rattle.lg_selx_values.specs.Processor.Numbers.{NumbersAreLoaded};
ghost use Rattle.lg_selx_values.specs.Processor.Touches.{StepsLeave, StepsOverlook, StepsAreAlike, StatesArePatched};
ghost use Rattle.lg_selx_values.specs.Processor.X86Computers.{InstructionsAreIsa, InstructionsCompute};
ghost use Rattle.lg_selx_values.specs.Processor.X86Rows.{InstructionsAreRows, InstructionsAreSpills};

/// The instruction whose spelling is at the program counter is executed, and the next one follows.
pub fn instructions_are_rows()
    ensures { InstructionsAreRows }
{}

/// A store of 64 bits saves a register in a spill slot, and a load restores it.
pub fn instructions_are_spills()
    ensures { InstructionsAreSpills }
{}

/// One that writes no register outside of the conventions changes none.
pub fn instructions_stay()
    ensures { InstructionsStay }
{}

/// They are those of a target: each register that is tried can be saved.
pub fn instructions_are_isa()
    ensures { InstructionsAreIsa }
{}

/// Those that only compute and never fault make registers and flags of registers and flags, and the next one follows.
pub fn instructions_compute()
    ensures { InstructionsCompute }
{}

/// One instruction loads any number into a register, and changes no other and no flag.
pub fn numbers_are_loaded()
    ensures { NumbersAreLoaded }
{}

/// A step that is no host function's goes in one way whatever is where it touches nothing, and leaves that as it was.
pub fn steps_leave()
    ensures { StepsLeave }
{}

/// So one that touches nothing below the stack pointer overlooks what is there.
pub fn steps_overlook()
    ensures { StepsOverlook }
{}

/// A step leads from what looks the same to what looks the same, a host function's too.
pub fn steps_are_alike()
    ensures { StepsAreAlike }
{}

/// There is a state with any other bytes.
pub fn states_are_patched()
    ensures { StatesArePatched }
{}
