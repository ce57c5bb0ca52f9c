// A line of words for each setting of a plan.

pub mod clocks;
pub mod names;
pub mod sources;
