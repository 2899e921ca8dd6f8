// Tagged fields: how every file of the product is read and written, below what its values mean.
//
// Document 01, 'Tagged fields' and 'How calls end'. A kind of file (rate book, request, stored
// ledger) hands its rows to the one walker; nothing here knows which kinds there are.
#![tactic(auto)]

pub mod file;
pub mod find;
pub mod refusals;
