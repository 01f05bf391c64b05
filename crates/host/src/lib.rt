// The calls for host programs in C, at any machine. The crate host_c exports them, at the card and at the gateway.
#![tactic(auto)]

mod calls;
mod machine;
mod told;

pub use calls::{
    cheapest, dearest, joint, joint_codes, next_limit, pack, plan_i, plan_i_down, plan_j, read,
    row, row_down, unpack,
};
pub use machine::Tells;
