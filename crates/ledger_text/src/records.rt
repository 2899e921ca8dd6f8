// The lines of what ledger and table hold.
use ledger::records::{Ledger, Party, Scheme};
use std::fmt;

// The ledger's own figures.
#[derive(Clone, Copy)]
pub struct Figures<'a>(pub &'a Ledger);

impl<'a> fmt::Display for Figures<'a> {
    fn fmt<W: fmt::Write>(&self, f: &mut fmt::Formatter<W>) -> fmt::Result {
        let ledger = self.0;
        write!(
            f,
            "  month {} connections {} charged {} borne {} schemes {} entries {}",
            ledger.month,
            ledger.connections,
            ledger.charged,
            ledger.borne,
            ledger.count,
            ledger.entries
        )?;
        write!(
            f,
            " next {} {} cleared {} {} {}",
            ledger.next_scheme,
            ledger.next_entry,
            ledger.cleared_collected,
            ledger.cleared_paid_out,
            ledger.cleared_fees
        )
    }
}

// A scheme or an entry.
#[derive(Clone, Copy)]
pub struct Shown<T>(pub T);

impl<'a> fmt::Display for Shown<&'a Scheme> {
    fn fmt<W: fmt::Write>(&self, f: &mut fmt::Formatter<W>) -> fmt::Result {
        let Scheme {
            number,
            cost,
            fee,
            minimum,
            opening,
            term,
            fees,
        } = *self.0;
        write!(
            f,
            "  scheme {number}: cost {cost} fee {fee} minimum {minimum} opening {opening} term {term} fees {fees}"
        )
    }
}

impl<'a> fmt::Display for Shown<&'a Party> {
    fn fmt<W: fmt::Write>(&self, f: &mut fmt::Formatter<W>) -> fmt::Result {
        let Party {
            number,
            scheme,
            person,
            capacity,
            put_in,
            credited,
            paid_out,
        } = *self.0;
        write!(
            f,
            "  entry {number}: scheme {scheme} person {person} capacity {capacity} put-in {put_in} credited {credited} paid-out {paid_out}"
        )
    }
}

// A ledger's figures, its schemes and its entries, a line for each.
#[derive(Clone, Copy)]
pub struct LedgerLines<'a> {
    pub ledger: &'a Ledger,
    pub table: &'a [Party],
}

impl LedgerLines<'_> {
    // Each line by itself: one that standard output doesn't take is lost, and the next is written all the same.
    pub fn print(&self, rt: &impl Print) {
        let ledger = self.ledger;
        let _ = println!(rt; "{}", Figures(ledger));
        // Two loops of three lines: one function over either record would ask for `Shown<&R>: Display` and be no shorter.
        let schemes = ledger.schemes.iter().take(ledger.count as usize);
        for scheme in schemes {
            let _ = println!(rt; "{}", Shown(scheme));
        }
        let entries = self.table.iter().take(ledger.entries as usize);
        for entry in entries {
            let _ = println!(rt; "{}", Shown(entry));
        }
    }
}
