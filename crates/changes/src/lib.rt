// The list of the orders whose plan changed when doublings came before slots.
#![tactic(auto)]

mod call;
mod line;
mod old;

pub use call::changed_orders;
