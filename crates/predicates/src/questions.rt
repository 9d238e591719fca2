//! What is asked, and what is answered.

/// The answer of `ever` and of `always`.
#[derive(Clone, Copy, Debug, PartialEq, Eq)]
pub enum Tri {
    Yes,
    No,
    /// Period and moving point share no instant with a value.
    None,
}

/// Which of the two is asked.
#[derive(Clone, Copy)]
pub enum Question {
    Ever,
    Always,
}
