// Holds the figures that document 000 (docs/WORKED_EXAMPLES.md) prints for its worked examples against the pricing call.
//
// A line for each figure: example, figure, printed, computed and tolerance in cents (percentages
// whole), and whether the computed figure lies within the tolerance of the printed one. "half":
// within half the printed unit alone. "no evidence for CC": the credit share was fitted to the
// printed charge. An example with a star is recast: what document 000 recovers by yearly charges
// stands as capacity that isn't charged.
#![tactic(auto)]

mod held;

use arrayvec::ArrayVec;
use files::refused::Refused;
use held::Held;
use printed_figures::printed::{PrintedPricing, pricings};
use printed_figures::tolerance::file_bounds;
use std::fmt;
use std::rt::Files;

// How many bytes are read of a file.
const READ_SIZE: usize = 4_096;

// How many figures were held, and how many of them lie near enough.
#[derive(Clone, Copy, Default)]
struct Tally {
    figures: u64,
    within: u64,
    half: u64,
}

impl Tally {
    fn count(&mut self, held: &Held) {
        self.figures = self.figures.saturating_add(1);
        if held.is_within() {
            self.within = self.within.saturating_add(1);
        }
        if held.is_within_half() {
            self.half = self.half.saturating_add(1);
        }
    }

    // A refused example counts as one figure that isn't within.
    fn count_refused(&mut self) {
        self.figures = self.figures.saturating_add(1);
    }
}

impl fmt::Display for Tally {
    fn fmt<W: fmt::Write>(&self, f: &mut fmt::Formatter<W>) -> fmt::Result {
        let Tally {
            figures,
            within,
            half,
        } = *self;
        write!(
            f,
            "{figures} figures, {within} within their tolerance, {half} within half the printed unit alone"
        )
    }
}

// Holds a pricing's figures, with a line for each. The share was fitted to the charge where its unit
// isn't 0. What standard output doesn't take of a line is lost, and the run goes on with the next one.
fn hold(rt: &(impl Files + Print), pricing: &PrintedPricing, tally: &mut Tally) {
    let book: ArrayVec<u8, READ_SIZE> = files::read_start(rt, pricing.book);
    let request: ArrayVec<u8, READ_SIZE> = files::read_start(rt, pricing.request);
    let example = pricing.example;
    match charge::price(book.as_slice(), request.as_slice()) {
        Err(refusal) => {
            tally.count_refused();
            let _ = println!(rt; "{example} {}", Refused(refusal));
        }
        Ok(bill) => {
            let r = bill.reconciliation;
            let bounds = file_bounds(book.as_slice(), request.as_slice(), pricing.units);
            let fitted = pricing.units.share != 0;
            for (figure, printed) in pricing.figures {
                let held = Held::new(*figure, *printed, &r, &bounds, fitted);
                tally.count(&held);
                let _ = println!(rt; "{example} {held}");
            }
        }
    }
}

fn run(rt: &(impl Files + Print)) {
    let _ = println!(rt; "example figure printed computed tolerance within");
    let mut tally = Tally::default();
    for pricing in pricings() {
        hold(rt, pricing, &mut tally);
    }
    let _ = println!(rt; "{tally}");
}

fn main(rt: HostRuntime) {
    run(&rt);
}
