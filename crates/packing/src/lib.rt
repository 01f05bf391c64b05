// One byte for a joint column: the columns of two rows packed into a buffer, and unpacked into two rows.
#![tactic(auto)]

mod call;
mod column;
mod columns;
mod stored;

pub use call::{pack, unpack};
