// The units, and the words of those values that are one of a few.
ghost use Rattle.std.specs.Prelude.{◌≡◌, length, get_or, []};
ghost use Rattle.unit_text.specs.Measure.{words_of, spellings};

/// The words that a value is one of, numbered from 0.
#[derive(Clone, Copy)]
pub enum Words {
    Forms,
    YesNo,
    Classes,
    Modes,
    Marks,
}

/// What a value is counted in.
#[derive(Clone, Copy)]
pub enum Measure {
    Number,
    Dollars,
    DollarsPerKva,
    ThousandDollars,
    Kva,
    Percent,
    Factor,
    /// year × 12 + (month − 1)
    Month,
    Choice(Words),
}

impl Words {
    /// How many there are.
    pub fn count(self) -> usize
        ensures { result ≡ length (words_of self) }
    {
        match self {
            Words::Forms | Words::YesNo => 2,
            Words::Classes | Words::Modes | Words::Marks => 3,
        }
    }

    /// The word of a number; no bytes where there is none.
    pub fn word(self, number: usize) -> &'static [u8]
        ensures { result.now ≡ get_or (words_of self) number [] }
    {
        match (self, number) {
            (Words::Forms, 0) => b"1",
            (Words::Forms, 1) => b"2",
            (Words::YesNo, 0) => b"no",
            (Words::YesNo, 1) => b"yes",
            (Words::Classes, 0) => b"residential",
            (Words::Classes, 1) => b"non-residential",
            (Words::Classes, 2) => b"special pricing",
            (Words::Modes, 0) => b"posted",
            (Words::Modes, 1) => b"extension-like",
            (Words::Modes, 2) => b"bespoke",
            (Words::Marks, 0) => b"none",
            (Words::Marks, 1) => b"opted out in writing",
            (Words::Marks, 2) => b"real estate",
            _ => b"",
        }
    }

    /// How many words are read.
    #[tactic(auto, unfolding(crate::specs::Measure::spellings))]
    pub fn spelling_count(self) -> usize
        ensures { result ≡ length (spellings self) }
    {
        match self {
            Words::Forms => 2,
            Words::YesNo => 4,
            Words::Classes | Words::Modes | Words::Marks => 3,
        }
    }

    /// A word that is read: those of the numbers, and what a spreadsheet makes of no and yes.
    #[tactic(auto, unfolding(crate::specs::Measure::spellings))]
    pub fn spelling(self, place: usize) -> &'static [u8]
        ensures { result.now ≡ get_or (spellings self) place [] }
    {
        match (self, place) {
            (Words::YesNo, 2) => b"false",
            (Words::YesNo, 3) => b"true",
            _ => self.word(place),
        }
    }
}
