// The pass over a sheet: questions 5 to 10, and what its steps come to.
#![tactic(auto)]

mod fault;
mod header;
mod limbs;
mod machine;
mod phase;
mod questions;
mod scan;
mod state;
mod steps;
mod table;
mod totals;

pub use fault::{Fault, Question};
pub use limbs::empty;
pub use machine::Surveyor;
pub use questions::{Sums, surveyed};
