// What becomes of a priced request that is accepted: a joining, and then an opening.
use tagged::file::Refusal;

// G, the scheme's fee, and K: the capacity of all its parties before the joiner.
#[derive(Clone, Copy)]
pub struct Contribution {
    pub collected: u32,
    pub fee: u32,
    pub capacity: u64,
}

// Beside JoiningAnswer, not one enum over what it holds: a course says what will be paid, an answer what was, and the definitions name the two apart.
#[derive(Clone, Copy)]
pub enum Joining {
    NotAsked,
    Ended,
    Small,
    Pays(Contribution),
}

#[derive(Clone, Copy)]
pub struct Course {
    pub joining: Joining,
    pub opens: bool,
}

// The course of a request that is accepted, or the refusal; its file and place are 0.
pub type Verdict = Result<Course, Refusal>;
