// What accept answers, and when: theorems over the call's definition, with its rows and the marked
// figures. Each function is there for its contract alone, a law on those definitions.
#![tactic(auto)]

ghost use Rattle.accept_rules.specs.Cases.Accept.{AcceptCasesHold};
ghost use Rattle.accept_rules.specs.Cases.BuildingOn.{ShortTableCasesHold};
ghost use Rattle.accept_rules.specs.Cases.Clearing.{ClearingCasesHold};
ghost use Rattle.accept_rules.specs.Cases.MarkedFigures.{MarkedFigures};
ghost use Rattle.accept_rules.specs.Laws.{AcceptAnswers, AlteredBookNotAccepted, AlteredRequestNotAccepted, AnsweredByPricing, AnswersOnly, LeavesByPricing, RefusalNumbers, RefusedChangesNothing};

/// Exactly when accept answers and leaves what, and with which numbers it refuses.
pub fn accept_answers()
    ensures answers { AcceptAnswers }
    ensures nothing_else { AnswersOnly }
    ensures refused { RefusedChangesNothing }
    ensures numbers { RefusalNumbers }
{}

/// With one byte of the book or the request altered, what was priced is refused, and ledger and table are left.
pub fn altered_files_refused()
    ensures book { AlteredBookNotAccepted }
    ensures request { AlteredRequestNotAccepted }
{}

/// M1 to M9, as one result.
pub fn marked_figures()
    ensures { MarkedFigures }
{}

/// The whole call on small tables, with literal figures.
pub fn accept_cases_hold()
    ensures each { AcceptCasesHold }
    ensures short_tables { ShortTableCasesHold }
    ensures clearing { ClearingCasesHold }
{}

/// Accept reads its files through pricing alone.
pub fn by_pricing()
    ensures answers { AnsweredByPricing }
    ensures leaves { LeavesByPricing }
{}
