// Pairs of files that are refused, by the names of the rate book and the request, for the programs that
// print what becomes of each.
#![tactic(auto)]

// Missing, or longer than what counts of a file.
pub const UNREADABLE: [(&str, &str); 4] = [
    ("missing.bin", "job.bin"),
    ("rates.bin", "missing.bin"),
    ("long_rates.bin", "job.bin"),
    ("rates.bin", "long_job.bin"),
];

pub const REFUSED: [(&str, &str); 9] = [
    ("altered_rates.bin", "job.bin"),
    ("rates.bin", "altered_job.bin"),
    ("rates.bin", "rates.bin"),
    ("rates_term_83.bin", "job.bin"),
    ("rates.bin", "job_class_3.bin"),
    ("rates.bin", "job_loading_in_class_1.bin"),
    ("rates.bin", "job_capacity_0.bin"),
    ("rates.bin", "job_zone_2.bin"),
    ("rates.bin", "job_at_150_percent.bin"),
];
