ghost use Rattle.std.specs.Prelude.{◌≡◌, [], get_or};
ghost use Rattle.sheet.specs.Spelling.{comma, cut, read_kind, read_header, read_line};
ghost use Rattle.lines.specs.Coded.{coded_kind, coded_heading, heading_of, head_field, Opens};

use crate::line::LINE_FEED;
use digits::Limits;

// The kind that a header names.
#[derive(Clone, Copy, PartialEq, Eq)]
pub enum Kind {
    Joint,
    Interleaved,
}

// S,kind,m1,m2,slots,additions,doublings,k,l without k and l, which stay on the sheet.
#[derive(Clone, Copy)]
pub struct Header {
    pub kind: Kind,
    pub m1: u32,
    pub m2: u32,
    pub slots: u32,
    pub additions: u32,
    pub doublings: u32,
}

// The header that a sheet begins with, and where the line behind it begins.
#[derive(Clone, Copy)]
pub struct Opening {
    pub header: Header,
    pub next: usize,
}

// The kind of the field at k.
fn kind_at(s: &[u8], k: usize) -> Option<Kind>
    ensures { result ≡ coded_kind (read_kind (get_or (cut comma s.now) k [])) }
{
    match sheet::fields::letter_of(sheet::fields::field(s, k)) {
        Some(b'J') => Some(Kind::Joint),
        Some(b'I') => Some(Kind::Interleaved),
        _ => None,
    }
}

// The header of the fields behind its letter.
fn header_of(limits: Limits, s: &[u8]) -> Option<Header>
    ensures { result ≡ coded_heading (read_header limits (cut comma s.now)) }
{
    let header = Header {
        kind: kind_at(s, 1)?,
        m1: sheet::fields::decimal_at(s, 2)?,
        m2: sheet::fields::decimal_at(s, 3)?,
        slots: sheet::fields::decimal_at(s, 4)?,
        additions: sheet::fields::decimal_at(s, 5)?,
        doublings: sheet::fields::decimal_at(s, 6)?,
    };
    if sheet::fields::is_scalar_at(limits, s, 7) && sheet::fields::is_scalar_at(limits, s, 8) {
        Some(header)
    } else {
        None
    }
}

// The header that a line spells, without its line feed.
fn heading_in(limits: Limits, line: &[u8]) -> Option<Header>
    ensures { result ≡ coded_heading (heading_of (read_line limits line.now)) }
{
    let letter = sheet::fields::letter_of(sheet::fields::field(line, 0));
    if letter == Some(b'S') && sheet::fields::count(line) == 9 {
        header_of(limits, line)
    } else {
        None
    }
}

// The header that a sheet begins with, by the limits.
pub fn opening_of(limits: Limits, sheet: &[u8]) -> Option<Opening>
    ensures { Opens limits sheet.now result }
{
    let end = sheet::fields::find(sheet, LINE_FEED);
    if end < sheet.len() {
        let header = heading_in(limits, &sheet[..end])?;
        return Some(Opening {
            header,
            next: end + 1,
        });
    }
    None
}

// A field of the first line.
pub fn head_field(sheet: &[u8], k: usize) -> &[u8]
    ensures { result.now ≡ head_field sheet.now k }
{
    let end = sheet::fields::find(sheet, LINE_FEED);
    sheet::fields::field(&sheet[..end], k)
}
