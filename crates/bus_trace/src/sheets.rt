//! A trace that is being written.

/// The text of a trace so far, and how many lines it has behind its header.
#[derive(Drop)]
pub struct Sheet {
    pub text: String,
    pub lines: u64,
}
