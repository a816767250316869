// What holds of every step, for the crates above. The functions do nothing: their contracts are the laws.

ghost use Rattle.lg_cpu.specs.Laws.{StepsAreThose, StartsAreRuns, StepsFollowRuns, RvExecutesWhatStands, A64ExecutesWhatStands, X86ExecutesWhatStands};
ghost use Rattle.lg_cpu.specs.Laws.{RvExecutesNothingElse, A64ExecutesNothingElse, X86ExecutesNothingElse};
ghost use Rattle.lg_cpu.specs.Laws.{FaultsChangeNothing, StaysSound, RunsAreMachines};

/// A call of `step` makes the step of the definition, unless a write fails.
pub fn steps_are_those_of_the_definition()
    ensures { StepsAreThose }
{}

/// A processor that was just made is the run of its code before the first step.
pub fn starts_are_those_of_the_run()
    ensures { StartsAreRuns }
{}

/// A processor that is the run of its code after as many steps as it has made is so after its next step, unless a write fails: after n steps that went or
/// ended it is the run after n steps.
pub fn steps_follow_the_run()
    ensures { StepsFollowRuns }
{}

/// Where the program counter is the address of an instruction's spelling in the code, the step is the instruction's: on RV64IM.
pub fn what_stands_is_executed_on_riscv64()
    ensures { RvExecutesWhatStands }
{}

/// And on AArch64.
pub fn what_stands_is_executed_on_aarch64()
    ensures { A64ExecutesWhatStands }
{}

/// And on x86-64, where the address need not be a multiple of 4.
pub fn what_stands_is_executed_on_x86_64()
    ensures { X86ExecutesWhatStands }
{}

/// Where the program counter is an address of the code at which no instruction's spelling begins, the step is a Decode fault: on RV64IM.
pub fn nothing_else_is_executed_on_riscv64()
    ensures { RvExecutesNothingElse }
{}

/// And on AArch64.
pub fn nothing_else_is_executed_on_aarch64()
    ensures { A64ExecutesNothingElse }
{}

/// And on x86-64, where the address need not be a multiple of 4.
pub fn nothing_else_is_executed_on_x86_64()
    ensures { X86ExecutesNothingElse }
{}

/// A step that faults leaves registers, flags and memory as they were, and writes nothing.
pub fn faults_change_nothing()
    ensures { FaultsChangeNothing }
{}

/// Registers that hold words hold words after a step, memory that holds bytes holds bytes, and the heap mark stays in the
/// heap.
pub fn words_stay_words()
    ensures { StaysSound }
{}

/// Runs are those of a machine: one that is over stays, and what is written stays written.
pub fn runs_are_machines()
    ensures { RunsAreMachines }
{}
