// The layout of frame records to their last byte, and the converter of kind 1 records into kind 4.
// `cut` has a function for each part, `whole` one for each record, `convert` the converter.
#![tactic(auto)]

pub mod convert;
pub mod cut;
pub mod whole;
