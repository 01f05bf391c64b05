ghost use Rattle.std.specs.Prelude.{◌≡◌, true, ◌%◌, ◌≤◌, ◌<◌, min, length};
ghost use Rattle.sheet.specs.Numeral.{figure, worth, padded, figures, followed, number};
ghost use Rattle.sheet.specs.Spelling.Field.{is_numeral, decimal_of};

// The figure of a byte: 0 to 9, then a to f. 16, a figure of no base, stands for none: so one comparison with the base refuses both.
pub fn worth_of(byte: u8) -> u32
    ensures { result ≡ worth byte }
{
    // One range each, so that the compiler chooses without a branch: which of the two a scalar's figure lies in can't be foreseen.
    let decimal = match byte {
        b'0'..=b'9' => byte as u32 - b'0' as u32,
        _ => 16,
    };
    match byte {
        b'a'..=b'f' => byte as u32 - b'a' as u32 + 10,
        _ => decimal,
    }
}

// The byte of the last hexadecimal figure of a number.
pub fn figure_of(n: u32) -> u8
    ensures { result ≡ figure (n % 16) }
{
    let low = (n % 16) as u8;
    if low < 10 {
        b'0' + low
    } else {
        b'a' - 10 + low
    }
}

// Whether every byte is a figure of the base.
fn are_figures(field: &[u8], base: u32) -> bool
    ensures { result ≡ figures base field.now }
{
    field.iter().all(|byte| worth_of(*byte) < base)
}

// Whether a zero stands before other figures.
fn is_padded(field: &[u8]) -> bool
    ensures { result ≡ padded field.now }
{
    2 <= field.len() && field[0] == b'0'
}

// Whether the field has 1 to `most` figures of the base, with no leading zero.
pub fn is_numeral(field: &[u8], base: u32, most: usize) -> bool
    ensures { result ≡ is_numeral base most field.now }
{
    1 <= field.len() && field.len() <= most && !is_padded(field) && are_figures(field, base)
}

// The number of at most four decimal figures.
fn value_of(field: &[u8]) -> u32
    requires { (length field.now ≤ 4) × (figures 10 field.now ≡ true) }
    ensures { result ≡ followed 10 0 field.now }
{
    let mut value = 0;
    for byte in field {
        value = value * 10 + worth_of(*byte);
    }
    value
}

// The decimal of at most `most` figures, and never more than four, that the field spells.
pub fn decimal_of(field: &[u8], most: usize) -> Option<u32>
    ensures { result ≡ decimal_of (number 10 (min most 4) field.now) }
{
    if is_numeral(field, 10, most.min(4)) {
        Some(value_of(field))
    } else {
        None
    }
}
