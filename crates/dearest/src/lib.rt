// The dearest scalar of a size: the smallest one whose row with window 1 has the most digits that are not 0.
#![tactic(auto)]

mod call;
mod fill;

pub use call::dearest;
