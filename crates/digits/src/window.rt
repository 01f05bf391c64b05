ghost use Rattle.std.specs.Prelude.{◌≡◌, ◌&&◌, ◌%◌, ◌≤◌};
ghost use Rattle.digits.specs.Asked.{AsksWindow};
ghost use Rattle.digits.specs.Row.{is_window, widest};

use crate::missed::Missed;
use std::marker::Model;

// The widest window.
const WIDEST: u32 = 31;

// A window: an odd number from 1 to 31. Clauses see the number.
#[derive(Clone, Copy)]
pub struct Window {
    m: u32,
}

impl Model for Window {
    ghost use Rattle.std.specs.Prelude.{◌≡◌, ℕ, true};
    ghost use Rattle.digits.specs.Row.{is_window};

    ghost Value = { ℕ };

    ghost view = { λ w. w.m };

    ghost invariant = { λ w. is_window w.m ≡ true };

    ghost inverse = { λ m. record { m = m } };
}

// Question 2.
impl TryFrom<u32> for Window {
    type Error = Missed;

    ghost try_from_gives = { AsksWindow };

    fn try_from(m: u32) -> Result<Self, Missed> {
        if is_window(m) {
            return Ok(Window { m });
        }
        Err(Missed::BadWindow)
    }
}

impl Window {
    // The number.
    pub fn get(self) -> u32
        ensures number { result ≡ self }
        ensures odd { self % 2 ≡ 1 }
        ensures most { self ≤ widest }
    {
        self.m
    }
}

// Question 2: whether a number is a window.
pub fn is_window(m: u32) -> bool
    ensures { result ≡ is_window m }
{
    m % 2 == 1 && m <= WIDEST
}

// Question 2 of both windows.
pub fn are_windows(m1: u32, m2: u32) -> bool
    ensures { result ≡ (is_window m1 && is_window m2) }
{
    is_window(m1) && is_window(m2)
}
