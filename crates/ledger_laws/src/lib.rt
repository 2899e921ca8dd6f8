// What holds of the ledger's rules: soundness, numbers and places, what a joiner pays and how it is shared out, and every call's
// refusals. Each function is there for its contract alone, a law on the definitions of the crates below.
#![tactic(auto)]

ghost use Rattle.ledger_laws.specs.Laws.{ContributionHigh, ContributionLow, EntryPlaced, MeansSound, PlacedEntry, PlacedScheme, RefusalNumbers, RefusedChangesNothing, SchemePlaced, ShareHigh, ShareLow, SharedWhole, SoundMeans};

/// A sound ledger has every condition of its definition by name, and one that has them is sound.
#[tactic(auto, using(ledger::proofs::Theorems::Sound::sound_means, ledger::proofs::Theorems::Sound::means_sound))]
pub fn sound_ledger()
    ensures means { SoundMeans }
    ensures is { MeansSound }
{}

/// A number's place is that of a scheme or an entry that has it; where numbers rise, each is found at its own.
pub fn numbers_placed()
    ensures schemes { SchemePlaced }
    ensures every_scheme { PlacedScheme }
    ensures entries { EntryPlaced }
    ensures every_entry { PlacedEntry }
{}

/// G is rounded down; each share of G - fee is within a cent of its part, and all of it is shared out.
#[tactic(auto, using(calls::proofs::Theorems::Rules::contribution_low, calls::proofs::Theorems::Rules::contribution_high, calls::proofs::Theorems::Rules::share_low, calls::proofs::Theorems::Rules::share_high, calls::proofs::Theorems::Rules::shared_whole))]
pub fn contribution_shared()
    ensures low { ContributionLow }
    ensures high { ContributionHigh }
    ensures share_low { ShareLow }
    ensures share_high { ShareHigh }
    ensures whole { SharedWhole }
{}

/// A refused call has one of its numbers and changes no ledger and no record.
#[tactic(auto, using(calls::proofs::Theorems::Calls::refusal_numbers, calls::proofs::Theorems::Calls::refused_changes_nothing))]
pub fn calls_refused()
    ensures numbers { RefusalNumbers }
    ensures nothing { RefusedChangesNothing }
{}
