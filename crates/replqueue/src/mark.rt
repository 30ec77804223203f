//! What a job is found by.

/// The number of a job on a line, which stands for what the job is found by. Marks are in the order
/// of their lines, and then of their numbers.
#[derive(Clone, Copy, Debug, PartialEq, Eq, PartialOrd, Ord)]
pub struct Mark {
    /// The line.
    pub line: u64,
    /// The number of the job.
    pub number: u64,
}
