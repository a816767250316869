//! What holds of the numbers of lines. The functions do nothing: their contracts are the laws.

ghost use Rattle.lg_prof.specs.Laws.{CountsAddUp, SpentAddsUp, TablesHaveLines};

/// The steps of the meaning at each line add up to the steps of the meaning that went or ended.
pub fn counts_add_up()
    ensures { CountsAddUp }
{}

/// The steps of the processor that count for each line add up to the steps that went or ended.
pub fn spent_steps_add_up()
    ensures { SpentAddsUp }
{}

/// A table of the lines of code gives the line of each program counter.
pub fn tables_have_the_lines()
    ensures { TablesHaveLines }
{}
