// Prints the slip of the request in job.bin by the rate book in rates.bin, both in the current
// folder.
#![tactic(auto)]

// One call, as in page but for the printer: each text is a program of its own.
fn main(rt: HostRuntime) {
    print_slip::print_slip(&rt, "rates.bin", "job.bin");
}
