// A call that is being prepared.

/// What is known of a call between its `prepare` and its `finishr` or `finishi`.
#[derive(Clone, Copy)]
pub struct Preparation {
    /// How many arguments were pushed.
    pub pushed: u32,
    /// Whether `ellipsis` came.
    pub variadic: bool,
}
