// Rows of signed digits from the top bit down.
#![tactic(auto)]

mod bits;
mod rows;
mod window;

pub use rows::row_down;
