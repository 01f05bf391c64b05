// The reader: judges any sequence of bytes as a sheet.
#![tactic(auto)]

mod answer;
mod compare;
mod judge;
mod text;

pub use answer::verdict;
pub use judge::read;
pub use text::Text;
