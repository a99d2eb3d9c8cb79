// What a run answers.

#[derive(Clone, Copy, Debug, PartialEq, Eq)]
pub enum Ending {
    // no place is left
    Done,
    // the steps allowed are made
    Limit,
    // the next step's words do not fit
    Full,
    // the rounds allowed are made
    Rounds,
}

#[derive(Clone, Copy, Debug, PartialEq, Eq)]
pub struct Report {
    pub steps: u64,
    pub ending: Ending,
}
