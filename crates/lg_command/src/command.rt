// What words ask for.

use lg_base::Target;

/// What is done with a text.
#[derive(Clone, Copy, Debug, PartialEq, Eq)]
pub enum Mode {
    /// Its code runs.
    Run,
    /// The listing of its code is written.
    List,
    /// Its portable meaning runs, over the addresses of the code's labels.
    Mean,
    /// The code of the generator's text runs.
    Gen,
    /// It is read as a listing, and the bytes that it is of are written.
    Back,
    /// Its code runs, and then its portable meaning, and the steps of both are reported line by line.
    Profile,
    /// Its portable meaning runs as with `Mean`, and where the text is refused or a step is undefined more is reported.
    Explain,
}

/// What the words of the command ask for.
#[derive(Drop)]
pub struct Command<'a> {
    /// What is done.
    pub mode: Mode,
    /// The processor that code is made for.
    pub target: Target,
    /// The most steps of the run.
    pub steps: u64,
    /// The most bytes of the code.
    pub size: u32,
    /// The number from which the generator begins.
    pub seed: u64,
    /// Whether a line reports the code's size and the run's steps.
    pub stats: bool,
    /// The name of the text.
    pub file: &'a str,
    /// The words of the arguments: the name of the text, and what follows it.
    pub arguments: Vec<String>,
}

/// Why the words give no command.
#[derive(Clone, Copy, Debug, PartialEq, Eq)]
pub enum WordsStop {
    /// The words are not of the command's form.
    Usage,
    /// Memory could not be had.
    OutOfMemory,
}
