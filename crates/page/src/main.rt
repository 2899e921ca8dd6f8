// Prints the page of the request in job.bin by the rate book in rates.bin, both in the current
// folder, or the line of the refusal.
#![tactic(auto)]

// One call, as in slip but for the printer: each text is a program of its own.
fn main(rt: HostRuntime) {
    print_page::print_page(&rt, "rates.bin", "job.bin");
}
