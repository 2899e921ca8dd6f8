// Who signed first doesn't matter by more than cents: the same parties in two orders (document 02, E14). Each function is there for
// its contract alone, a law on the definitions of specs/.
#![tactic(auto)]

ghost use Rattle.order_of_joiners.specs.Cases.OrdersDiffer.{OrdersDiffer};
ghost use Rattle.order_of_joiners.specs.Laws.{FairTwice, OrderWithinCents, TwoOrdersWithin};

/// Two figures within the same bounds, by fee 0, differ by at most 3 cents for each joining.
#[tactic(auto, using(crate::proofs::Theorems::FairTwice::fair_twice))]
pub fn fair_twice()
    ensures { FairTwice }
{}

/// Two schemes of the same X by fee 0, of any two lists of calls, whose parties have the same kVA in any order.
pub fn order_within_cents()
    ensures { OrderWithinCents }
{}

/// The same joiners in two orders, from the calls: each joiner's figure and the first party's.
pub fn two_orders()
    ensures { TwoOrdersWithin }
{}

/// Computed lists, all figures literal: such orders there are, and neither 1 cent nor 2 cents for each joining are enough.
pub fn orders_do_differ()
    ensures { OrdersDiffer }
{}
