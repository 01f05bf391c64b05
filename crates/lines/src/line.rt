ghost use Rattle.std.specs.Prelude.{◌≡◌, true, ◌<◌, ◌≤◌, length};
ghost use Rattle.std.proofs.Math.Option.{some};
ghost use Rattle.digits.specs.declared.limits.Limits.{Limits};
ghost use Rattle.sheet.specs.Plan as meant;
ghost use Rattle.sheet.specs.Spelling.{comma, cut, read_line};
ghost use Rattle.lines.specs.Coded.{coded_point, coded, pointed, stepped, Doubles, Took, Past};

use crate::point::Point;
use crate::short::MOST_BYTES;
use sheet::fields::COMMA;

// The byte that ends a line.
pub const LINE_FEED: u8 = b'\n';

// A line of the sheet; the last case is a header line or one that is misspelled: a case like the rest, which a question answers, and no Option.
#[derive(Clone, Copy, PartialEq, Eq)]
pub enum Line {
    Table(Point),
    Load(Point),
    Double,
    Add(Point),
    End,
    Other,
}

// A line, and where the next one begins: both always stand, also past the end, so no Option.
#[derive(Clone, Copy)]
pub struct Taken {
    pub line: Line,
    pub next: usize,
}

// The line of its bytes, without the line feed.
pub fn line_of(s: &[u8]) -> Line
    ensures { (limits : Limits) → result ≡ coded (read_line limits s.now) }
{
    let end = sheet::fields::find(s, COMMA);
    let Some(letter) = sheet::fields::letter_of(&s[..end]) else {
        return Line::Other;
    };
    if end < s.len() {
        return step_line(&s[end + 1..], letter);
    }
    match letter {
        b'D' => Line::Double,
        b'E' => Line::End,
        _ => Line::Other,
    }
}

// The line of a letter and the fields behind it, which are to be two.
fn step_line(s: &[u8], letter: u8) -> Line
    ensures { result ≡ coded (stepped letter (cut comma s.now)) }
{
    let end = sheet::fields::find(s, COMMA);
    if end < s.len() {
        let last = &s[end + 1..];
        if sheet::fields::find(last, COMMA) < last.len() {
            return Line::Other;
        }
        return match crate::point::point_of(&s[..end], last) {
            Some(point) => point_line(point, letter),
            None => Line::Other,
        };
    }
    Line::Other
}

// The line of a letter and a point.
fn point_line(point: Point, letter: u8) -> Line
    ensures { (t : meant.Point) → point ≡ coded_point t → result ≡ coded (pointed letter (some t)) }
{
    match letter {
        b'T' => Line::Table(point),
        b'L' => Line::Load(point),
        b'A' => Line::Add(point),
        _ => Line::Other,
    }
}

// Whether a D line comes first.
fn is_double(s: &[u8]) -> bool
    ensures { result ≡ true → Doubles s.now }
{
    2 <= s.len() && s[0] == b'D' && s[1] == LINE_FEED
}

// The line that begins at a place of the sheet; past the end, no line that can stand there.
pub fn line_at(sheet: &[u8], at: usize) -> Taken
    ensures { (at < length sheet.now → (limits : Limits) → 1 ≤ limits.figures → Took limits sheet.now at result.line result.next) × (length sheet.now ≤ at → Past sheet.now result.line result.next) }
{
    if sheet.len() <= at {
        return Taken {
            line: Line::Other,
            next: sheet.len(),
        };
    }
    let rest = &sheet[at..];
    if is_double(rest) {
        return Taken {
            line: Line::Double,
            next: at + 2,
        };
    }
    if MOST_BYTES <= rest.len() {
        let short = crate::short::short_line(rest);
        if short.fits {
            return Taken {
                line: point_line(short.point, short.letter),
                next: at + short.end,
            };
        }
    }
    let end = sheet::fields::find(rest, LINE_FEED);
    if end < rest.len() {
        return Taken {
            line: line_of(&rest[..end]),
            next: at + end + 1,
        };
    }
    Taken {
        line: Line::Other,
        next: sheet.len(),
    }
}
