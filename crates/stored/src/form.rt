// The stored forms: document 01's, and document 02's after it.

/// A form in which a ledger is stored.
#[derive(Clone, Copy, Debug, PartialEq, Eq)]
pub enum Form {
    /// document 01's: its schemes and entries have no numbers but their places
    Pion,
    /// document 02's, which reading and writing take: each scheme and entry begins with its number
    Pio2,
}
