//! What a script is answered with.

/// How a script ended.
#[derive(Clone, Copy, Debug, PartialEq, Eq)]
pub enum Outcome {
    /// It was played, and the answer says what came of it.
    Done,
    /// It was refused, and the answer says where and why.
    Refused,
}

/// What is written for a script.
#[derive(Debug, Drop)]
pub struct Answer {
    pub outcome: Outcome,
    pub text: String,
}
