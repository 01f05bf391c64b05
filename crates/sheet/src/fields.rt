ghost use Rattle.std.specs.Prelude.{◌≡◌, not, ◌&&◌, [], ◌≤◌, ◌<◌, eqb, length, get_or, SomeIff};
ghost use Rattle.sheet.specs.Spelling.{comma, cut, letter, read_decimal};
ghost use Rattle.sheet.specs.Spelling.Field.{First, Behind, sign_of, unsigned, is_whole, decimal_of};

use digits::Limits;

// The byte between two fields.
pub const COMMA: u8 = b',';

const MINUS: u8 = b'-';

// The figures of a decimal.
const DECIMAL_FIGURES: usize = 4;

// The index of the first b in s, or the length where there is none.
pub fn find(s: &[u8], b: u8) -> usize
    ensures { First b s.now result }
{
    s.iter().position(|byte| *byte == b).unwrap_or(s.len())
}

// Where the next field begins behind the one at `at`; the end where there is none.
fn behind(s: &[u8], at: usize) -> usize
    requires { at ≤ length s.now }
    ensures { Behind comma s.now at result }
{
    let rest = &s[at..];
    let n = find(rest, COMMA);
    if n < rest.len() { at + n + 1 } else { s.len() }
}

// The field at k, counted from 0; empty past the last.
pub fn field(s: &[u8], k: usize) -> &[u8]
    ensures { result.now ≡ get_or (cut comma s.now) k [] }
{
    let mut at = 0;
    for _ in 0..k {
        at = behind(s, at);
    }
    let n = find(&s[at..], COMMA);
    &s[at..at + n]
}

// How many fields there are.
pub fn count(s: &[u8]) -> usize
    ensures { result ≡ length (cut comma s.now) }
{
    let mut commas = 0;
    for byte in s {
        // Each byte is added, so without a branch on it.
        commas += (*byte == COMMA) as usize;
    }
    commas + 1
}

// The byte of a field of one byte; none for any other.
pub fn letter_of(field: &[u8]) -> Option<u8>
    ensures { SomeIff result (length field.now ≡ 1) (letter field.now) }
{
    if field.len() == 1 {
        Some(field[0])
    } else {
        None
    }
}

// The decimal of the field at k.
pub fn decimal_at(s: &[u8], k: usize) -> Option<u32>
    ensures { result ≡ decimal_of (read_decimal (get_or (cut comma s.now) k [])) }
{
    crate::figures::decimal_of(field(s, k), DECIMAL_FIGURES)
}

// The sign of a field: 1 where a minus stands first, else 0. A number, as the sign of a scalar is in the C calls.
pub fn sign_of(field: &[u8]) -> u32
    ensures { result ≡ sign_of field.now }
{
    (1 <= field.len() && field[0] == MINUS) as u32
}

// A field without its minus.
pub fn unsigned(field: &[u8]) -> &[u8]
    ensures { result.now ≡ unsigned field.now }
{
    let sign = sign_of(field) as usize;
    &field[sign..]
}

// Whether figures that are a numeral may stand behind a sign: a minus is not put before 0.
fn is_signed(sign: u32, figures: &[u8]) -> bool
    requires { 1 ≤ length figures.now }
    ensures { result ≡ not (eqb sign 1 && eqb (get_or figures.now 0 0) 48) }
{
    sign != 1 || figures[0] != b'0'
}

// Whether a field is a scalar, with a minus if negative, of no more figures than the limits allow.
fn is_scalar(limits: Limits, field: &[u8]) -> bool
    ensures { result ≡ is_whole 16 limits.figures field.now }
{
    let figures = unsigned(field);
    crate::figures::is_numeral(figures, 16, limits.figures) && is_signed(sign_of(field), figures)
}

// Whether the field at k is a scalar.
pub fn is_scalar_at(limits: Limits, s: &[u8], k: usize) -> bool
    ensures { result ≡ is_whole 16 limits.figures (get_or (cut comma s.now) k []) }
{
    is_scalar(limits, field(s, k))
}
