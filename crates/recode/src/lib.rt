// Rows of signed digits and the joint sparse form of two scalars.
#![tactic(auto)]

mod answer;
mod bits;
mod buffer;
mod columns;
mod digit;
mod low;
mod machine;
mod rows;
mod sign;

pub use answer::Written;
pub use machine::Recode;
