// What a step answers.

/// What a step of the portable machine answers.
#[derive(Clone, Copy, Debug)]
pub enum MeanStep {
    /// The step went, and the run goes on.
    Went,
    /// The run has ended with this status.
    Ended(u8),
    /// The step is undefined.
    Undefined {
        /// The line of the node.
        line: u32,
    },
    /// A write to the sink failed. The state is as before the step.
    WriteFault,
}
