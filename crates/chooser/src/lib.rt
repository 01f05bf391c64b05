// The cheapest sheet under a slot limit, its plan, and the next limit that pays.
#![tactic(auto)]

mod call;
mod choice;
mod next;
mod recodable;
mod sizes;

pub use call::{cheapest, cheapest_plan, sheet_of};
pub use choice::{Candidate, Cost};
pub use next::{Pays, next_limit};
