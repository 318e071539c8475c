// What a caller is told when a call is refused.
//
// The list is closed. Each case has a number of its own (docs/REFUSALS.md), and the number is
// defined once, in specs/Numbers.antt. A refusal leaves everything as it was.
#![tactic(auto)]

mod bad_listing;
mod refusals;
mod told;

pub use bad_listing::BadListing;
pub use refusals::{HandedBack, Refusal};
