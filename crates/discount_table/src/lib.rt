// Discount factors of every rate: those of the rates that planning staff compare are read off a
// constant table, all others come year by year.
#![tactic(auto)]

mod table;

ghost use Rattle.std.specs.Prelude.{◌≡◌, true, ◌≤◌, length};
ghost use Rattle.discount.specs.DiscountLimits.{FactorsUntil};
ghost use Rattle.discount.specs.DiscountYears.{last_year};
ghost use Rattle.discount_table.specs.DiscountTable.{lowest_table_rate, table_follows};

use discount::DiscountFactors;
use table::FACTORS;

// The rates 300 to 600 in steps of 25.
const TABLE_RATES: usize = 13;

const LOWEST_TABLE_RATE: u16 = 300;

const TABLE_RATE_STEP: u16 = 25;

// The table, tested as a whole. A reference: by value each pricing would copy the table to the stack.
fn factor_table() -> &'static [DiscountFactors; TABLE_RATES]
    ensures follows { table_follows lowest_table_rate result.now ≡ true }
    ensures rows { length result.now ≡ 13 }
{
    &FACTORS
}

// The discount factors of the years 0 to life: the row of a rate of the table, or computed.
#[tactic(auto, using(crate::proofs::Theorems::DiscountTable::factors_of_row))]
pub fn factors_of(b: u16, life: usize) -> DiscountFactors
    requires { life ≤ last_year }
    ensures { FactorsUntil b life result }
{
    if b >= LOWEST_TABLE_RATE && (b - LOWEST_TABLE_RATE) % TABLE_RATE_STEP == 0 {
        let row = usize::from((b - LOWEST_TABLE_RATE) / TABLE_RATE_STEP);
        if row < TABLE_RATES {
            return factor_table()[row];
        }
    }
    discount::factors_until(b, life)
}
