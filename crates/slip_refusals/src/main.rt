// Prints the slips of pairs of files that are refused, of pairs whose percentages are none, negative or
// rounded up, and of special pricing by a book with opex.
#![tactic(auto)]

use print_slip::print_slip;
use refused_pairs::{REFUSED, UNREADABLE};

const SLIPS: [(&str, &str); 11] = [
    ("rates.bin", "job_of_nothing.bin"),
    ("rates_not_charged.bin", "job_no_revenue.bin"),
    ("rates_share_0.bin", "job_of_101_percent.bin"),
    ("rates_of_a_cent.bin", "job_at_minus_half.bin"),
    ("rates_of_a_cent.bin", "job_past_minus_half.bin"),
    ("rates_of_a_cent.bin", "job_at_minus_one_and_half.bin"),
    ("rates_not_charged.bin", "job_of_demands_alone.bin"),
    ("rates_not_charged.bin", "job_with_revenue_1.bin"),
    ("rates_highest.bin", "job_of_lowest_ratio.bin"),
    ("rates_highest.bin", "job_of_low_ratio.bin"),
    ("rates_with_opex.bin", "job_special_pricing.bin"),
];

// One loop, as in page_refusals but for the printer and the last pairs: each text is a program of its own.
fn main(rt: HostRuntime) {
    for (book, request) in UNREADABLE.iter().chain(&REFUSED).chain(&SLIPS) {
        print_slip(&rt, *book, *request);
    }
}
