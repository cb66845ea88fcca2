/// What a command answers.
#[derive(Debug, Drop)]
pub struct Answer {
    /// What goes to the standard output; after a status of 3 to the standard error.
    pub text: Vec<u8>,
    /// The exit status: 0 good or yes, 1 no, 2 undecided, 3 data that are refused.
    pub status: u8,
}

/// What a command answers, of whose text only as much is kept as there is room for.
#[derive(Debug, Drop)]
pub struct CutAnswer {
    /// The answer, with the front of its text.
    pub answer: Answer,
    /// The length of the whole text.
    pub length: usize,
}
