// The static library, libfikrem.a: what firmware, and programs in C and Rust, call, on numbers and lent buffers of numbers alone. include/fikrem.h
// declares each function. Each result is 0 where the call is done, otherwise the refusal in one number; a refusal changes no lent buffer.
// No crate can depend on a static library: `quoting_unit` has what the functions share.
#![tactic(auto)]

ghost use Rattle.std.specs.Prelude.{◌≡◌};
ghost use Rattle.fikrem_c.specs.Version.{version};

mod band;
mod files;
mod laws;
mod pricing;
mod stored_ledger;

// The version of the interface, FIKREM_VERSION in the header.
const VERSION: u32 = 5;

/// The version of the interface: a caller compares it with its header's.
#[unsafe(no_mangle)]
pub extern "C" fn fikrem_version() -> u32
    ensures { result ≡ version }
{
    VERSION
}
