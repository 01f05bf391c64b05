// Sheets of a named plan.
#![tactic(auto)]

mod answer;
mod figures;
mod header;
mod plans;
mod put;
mod rows;
mod sheets;
mod steps;
mod tables;
mod write;

pub use answer::Sheet;
pub use header::letter_of;
pub use sheets::WriteSheet;
