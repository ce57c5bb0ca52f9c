// Plans, answers, runners, benches and slots as numbers, for the cases and the exported calls. C lends arrays of these lengths, and a
// part is read by the index that docs/CASES.md gives it: with slices that are cut on from part to part no number of that page would be
// found here.
#![tactic(auto)]

pub mod answers;
pub mod bench;
pub mod board;
pub mod fields;
pub mod manual;
pub mod plan;
pub mod plan_row;
pub mod read;
pub mod sleep_call;
pub mod slots;
