// What holds of the words of every command. The function does nothing: its contract is the laws.

ghost use Rattle.lg_command.specs.Laws.{CommandsAreOne, NoCommandIsNone};

/// Words ask for one command at most, and words that ask for none for no command.
pub fn words_ask_for_one()
    ensures one { CommandsAreOne }
    ensures none { NoCommandIsNone }
{}
