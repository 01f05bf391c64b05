// Digits and scalars: the byte of a digit, a cleared buffer, the machines and their limits, a scalar with its sign and bit length, windows, and the
// questions that a call may miss.
#![tactic(auto)]

mod buffer;
mod byte;
mod length;
mod limits;
mod machine;
mod missed;
mod room;
mod scalar;
mod window;

pub use buffer::clear;
pub use byte::byte_of;
pub use length::{BitLength, bit_length};
pub use limits::Limits;
pub use machine::{Card, Gateway, Machine};
pub use missed::Missed;
pub use room::{check_room, places_for};
pub use scalar::{Scalar, check_scalars};
pub use window::{Window, are_windows, is_window};
