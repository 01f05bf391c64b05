// The lines of a sheet: its header, what each other line is, and where the next one begins.
#![tactic(auto)]

mod header;
mod line;
mod point;
mod short;

pub use header::{Header, Kind, Opening, head_field, opening_of};
pub use line::{LINE_FEED, Line, Taken, line_at};
pub use point::{Point, Signed};
