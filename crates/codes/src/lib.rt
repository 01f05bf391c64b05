// The rule behind every digit: the joint sparse form of two scalars, with a code for each digit.
#![tactic(auto)]

mod call;
mod row;

pub use call::joint_codes;
