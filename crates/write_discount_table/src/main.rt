// Writes the source text of the table of discount factors, crates/discount_table/src/table.rt, year
// by year from the factor of the year before.
#![tactic(auto)]

use discount::LAST_YEAR;

// 3.00% to 6.00% in steps of 0.25%.
const LOWEST_RATE: u16 = 300;

const HIGHEST_RATE: u16 = 600;

const RATE_STEP: usize = 25;

const HEAD: &str = "\
// Written by the program write_discount_table, over the recurrence alone. A row for each rate of the
// table; in it the discount factors of the years 0 to 30.
use crate::TABLE_RATES;
use discount::DiscountFactors;

pub const FACTORS: [DiscountFactors; TABLE_RATES] = [";

// What standard output doesn't take of a line is lost, and the table goes on with the next one.
fn write_table(rt: &impl Print) {
    for line in HEAD.lines() {
        let _ = println!(rt; "{line}");
    }
    for rate in (LOWEST_RATE..=HIGHEST_RATE).step_by(RATE_STEP) {
        let _ = println!(rt; "    // Rate {rate}");
        let _ = println!(rt; "    [");
        for factor in discount::factors_until(rate, LAST_YEAR) {
            let _ = println!(rt; "        {factor},");
        }
        let _ = println!(rt; "    ],");
    }
    let _ = println!(rt; "];");
}

fn main(rt: HostRuntime) {
    write_table(&rt);
}

#[cfg(test)]
mod tests {
    use super::*;
    use std::cell::Cell;
    use std::fmt::Display;
    use std::io;

    // A standard output that takes nothing, and how many lines it was to take.
    #[derive(Drop)]
    struct Full {
        lines: Cell<usize>,
    }

    impl Print for Full {
        fn print<D: Display + Drop>(&self, _value: D) -> io::Result<()> {
            Err(io::Error::other("full"))
        }

        fn println<D: Display + Drop>(&self, _value: D) -> io::Result<()> {
            self.lines.set(self.lines.get().wrapping_add(1));
            Err(io::Error::other("full"))
        }

        fn write_all(&self, _bytes: &[u8]) -> io::Result<()> {
            Err(io::Error::other("full"))
        }
    }

    #[test]
    fn every_line_is_written(rt: HostRuntime) {
        let full = Full {
            lines: Cell::new(0),
        };
        write_table(&full);
        assert_eq!(rt; full.lines.get(), 449);
    }
}
