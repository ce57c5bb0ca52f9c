// Texts for people: the meaning of a refusal, the kind and fields of a step, and the settings in which two plans differ.

mod compared;
mod form;
mod refused;
mod rows;
mod same;
mod steps;

pub use compared::{differences, has_bit, write_differences, write_part_name};
pub use form::write_form;
pub use refused::write_refusal;
pub use steps::write_step;
