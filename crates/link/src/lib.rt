// Links: one interface to a controller, with the bench panel and the listing link behind it.
//
// docs/LINKS.md says what a link is, and how to write one of your own.
#![tactic(auto)]

mod laws;
mod links;
mod panel;
mod recorder;
#[cfg(test)]
mod tests;

pub use laws::{same_calls_give_the_same_controller, what_is_listed_was_sent};
pub use links::Link;
pub use panel::Panel;
pub use recorder::ListingLink;
