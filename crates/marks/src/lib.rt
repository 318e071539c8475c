// Due marks: a word for each line of a canvas, with a mark for each byte that is still to be sent.
//
// specs/Blocks.antt says what is sent for due bytes, specs/Landing.antt what that does to a controller.
#![tactic(auto)]

mod laws;
mod run;
#[cfg(test)]
mod tests;
mod words;

pub use laws::{runs_by_starts, settings_land, traffic_lands};
pub use run::Run;
pub use words::{cleared, due_bytes, first_run};
