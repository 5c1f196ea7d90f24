// Both frame constructors (carries construct_stub_frame and construct_full_frame of scopeck.rs).
// The same code measures, lent an empty buffer, and writes.
#![tactic(auto)]

use paper::StatementRow;

pub mod assert;
pub mod front;
pub mod full;
pub mod scan;
pub mod stub;

/// The frame of the assertion in a row, under `es` active `$e` and `ds` active `$d`: its first `size` variables are written,
/// of which the first `mandatory` are mandatory.
#[derive(Clone, Copy)]
pub struct Frame {
    pub row: StatementRow,
    pub es: usize,
    pub ds: usize,
    pub size: usize,
    pub mandatory: usize,
}
