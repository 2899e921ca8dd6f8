// What a call answers.
use reconciliation::Reconciliation;
use tagged::file::Refusal;

// The joiner's entry number, and the contribution G that was collected.
#[derive(Clone, Copy)]
pub struct Collected {
    pub entry: u32,
    pub contribution: u32,
}

// What became of the joining that a request asked for.
#[derive(Clone, Copy)]
pub enum JoiningAnswer {
    NotAsked,
    Ended,
    Small,
    Joined(Collected),
}

// "Plain" is neither joined nor opened where no joining was asked for.
#[derive(Clone, Copy)]
pub struct Acceptance {
    pub reconciliation: Reconciliation,
    pub joining: JoiningAnswer,
    pub opening: Option<u16>,
}

pub type AcceptAnswer = Result<Acceptance, Refusal>;

pub type Answer = Result<(), Refusal>;
