ghost use Rattle.std.specs.Prelude.{◌≡◌, true, ◌+◌, ◌≤◌, min, length};
ghost use Rattle.sheet.specs.Numeral.{worth};
ghost use Rattle.lines.specs.Short.{DigitAt, Begins, Fitting};

use crate::line::LINE_FEED;
use crate::point::{Point, Signed};
use sheet::fields::COMMA;

// The most bytes of a line with two digits, its line feed among them.
pub const MOST_BYTES: usize = 10;

// A digit and the place behind it, if it fits. A flag, not an Option: that would be a branch for each digit of each line.
#[derive(Clone, Copy)]
pub struct Spelled {
    pub fits: bool,
    pub digit: Signed,
    pub end: usize,
}

// The letter and the point of a line and the place behind it, if it fits. A flag, not an Option, with which reading a sheet took 5 % longer.
#[derive(Clone, Copy)]
pub struct Short {
    pub fits: bool,
    pub letter: u8,
    pub point: Point,
    pub end: usize,
}

// The decimal figure of a byte; 10, a figure of no decimal, where there is none. One range, and so no branch.
fn figure_of(byte: u8) -> u32
    ensures { result ≡ min (worth byte) 10 }
{
    match byte {
        b'0'..=b'9' => byte as u32 - b'0' as u32,
        _ => 10,
    }
}

// The digit at a place. A 0 stands alone: no minus before it, no figure behind it.
fn digit_at(s: &[u8], at: usize) -> Spelled
    requires { at + 3 ≤ length s.now }
    ensures { DigitAt s.now at result }
{
    let negative = s[at] == b'-';
    let from = if negative { at + 1 } else { at };
    let next = from + 1;
    let first = figure_of(s[from]);
    let second = figure_of(s[next]);
    let two = second < 10;
    let size = if two { 10 * first + second } else { first };
    let end = if two { next + 1 } else { next };
    Spelled {
        fits: (first < 10) & ((first != 0) | !(negative | two)),
        digit: Signed { negative, size },
        end,
    }
}

// The T, L or A line that comes first, if it does, with no branch on its bytes.
pub fn short_line(s: &[u8]) -> Short
    requires { 10 ≤ length s.now }
    ensures begins { result.fits ≡ true → Begins s.now result.letter result.point result.end }
    ensures takes { Fitting s.now → result.fits ≡ true }
{
    let letter = s[0];
    // The tests are joined by `&`, not `&&`, which would be a branch for each.
    let known = (letter == b'T') | (letter == b'L') | (letter == b'A');
    let p = digit_at(s, 2);
    let middle = p.end;
    let q = digit_at(s, middle + 1);
    let last = q.end;
    let parted = (s[1] == COMMA) & (s[middle] == COMMA);
    let ended = s[last] == LINE_FEED;
    Short {
        fits: known & parted & ended & p.fits & q.fits,
        letter,
        point: Point {
            p: p.digit,
            q: q.digit,
        },
        end: last + 1,
    }
}
