// Theorems over the results of the static library's calls. Each function is there for its contract alone, a law on those definitions.

ghost use Rattle.std.specs.Prelude.{cond, length, true, ◌<◌, ◌≤◌};
ghost use Rattle.quoting_unit.specs.Interface.{answer_places, answer_short, figure_places, figures_short};
ghost use Rattle.quoting_unit.specs.Laws.{AnswerPlacesTold, CallPlaceTold, CallRefusalTold, EveryPlaceTold, EveryRefusalTold, LongIsMade, NoRefusalIsDone, RefusedChangesNoBuffer, ShortIs14, UnitResults};

/// No refusal numbered 1 to 31 reads as done.
#[tactic(auto, using(crate::proofs::Theorems::ResultParts::no_refusal_is_done))]
pub fn no_refusal_is_done()
    ensures { NoRefusalIsDone }
{}

/// A result gives the number, the file and whether the stored ledger is refused, for every refusal numbered up to 31 and for every call.
#[tactic(auto, using(crate::proofs::Theorems::ResultParts::every_refusal_told, crate::proofs::Theorems::UnitPlaces::refusal_told))]
pub fn refusal_told()
    ensures all { EveryRefusalTold }
    ensures calls { CallRefusalTold }
{}

/// A result gives the place below 2^56, of every refusal and for every call.
#[tactic(auto, using(crate::proofs::Theorems::ResultParts::every_place_told, crate::proofs::Theorems::UnitPlaces::place_told))]
pub fn place_told()
    ensures all { EveryPlaceTold }
    ensures calls { CallPlaceTold }
{}

/// The answer's places before the last are the values with which accept ends.
#[tactic(auto, using(crate::proofs::Theorems::AnswerPlaces::places_are_values))]
pub fn answer_places_told()
    ensures { AnswerPlacesTold }
{}

/// A call's result is 0 exactly where the call is done, otherwise it has the number of a refusal that the call can come to.
#[tactic(auto, using(crate::proofs::Theorems::UnitResults::unit_results))]
pub fn unit_results()
    ensures { UnitResults }
{}

/// A refused call leaves every lent buffer as it was.
#[tactic(auto, using(crate::proofs::Theorems::UnitRefusals::refused_changes_no_buffer))]
pub fn refused_changes_no_buffer()
    ensures { RefusedChangesNoBuffer }
{}

/// Too few places for the answer or the figures are 14 before anything else. Price is lent figures, accept both, each other call an answer.
#[tactic(auto, using(crate::proofs::Theorems::UnitBuffers::figures_short_lem, crate::proofs::Theorems::UnitBuffers::figures_long, crate::proofs::Theorems::UnitBuffers::answer_short_lem, crate::proofs::Theorems::UnitBuffers::answer_long, crate::proofs::Theorems::UnitBuffers::first_short, crate::proofs::Theorems::UnitBuffers::second_short, crate::proofs::Theorems::UnitBuffers::both_long))]
pub fn short_buffers()
    ensures figures_short { ShortIs14 figures_short (λ lent. length lent.figures < figure_places) }
    ensures figures_long { LongIsMade figures_short (λ lent. figure_places ≤ length lent.figures) }
    ensures answer_short { ShortIs14 answer_short (λ lent. length lent.answer < answer_places) }
    ensures answer_long { LongIsMade answer_short (λ lent. answer_places ≤ length lent.answer) }
    ensures first_short { ShortIs14 (λ lent. cond (answer_short lent) true (figures_short lent)) (λ lent. length lent.answer < answer_places) }
    ensures second_short { ShortIs14 (λ lent. cond (answer_short lent) true (figures_short lent)) (λ lent. length lent.figures < figure_places) }
    ensures both_long { LongIsMade (λ lent. cond (answer_short lent) true (figures_short lent)) (λ lent. (answer_places ≤ length lent.answer) × (figure_places ≤ length lent.figures)) }
{}
