// The order program's work: an order's line in, the cheapest sheet or a refusal out.
#![tactic(auto)]

mod call;
mod line;
mod scalar;

pub use call::order;
