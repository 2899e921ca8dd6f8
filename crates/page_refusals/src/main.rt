// Prints what becomes of the pages of pairs of files that are refused, the pages of two whose
// amounts are 0 or negative, and that of special pricing by a book with opex.
#![tactic(auto)]

use print_page::print_page;
use refused_pairs::{REFUSED, UNREADABLE};

const PAGES: [(&str, &str); 3] = [
    ("rates.bin", "job_of_nothing.bin"),
    ("rates_not_charged.bin", "job_no_revenue.bin"),
    ("rates_with_opex.bin", "job_special_pricing.bin"),
];

// One loop, as in slip_refusals but for the printer and the last pairs: each text is a program of its own.
fn main(rt: HostRuntime) {
    for (book, request) in UNREADABLE.iter().chain(&REFUSED).chain(&PAGES) {
        print_page(&rt, *book, *request);
    }
}
