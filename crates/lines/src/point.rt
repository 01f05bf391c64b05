ghost use Rattle.std.specs.Prelude.{◌≡◌, [], ◌∷◌};
ghost use Rattle.sheet.specs.Spelling.{read_digit, read_point};
ghost use Rattle.lines.specs.Coded.{coded_digit, coded_pair};

// The figures of a digit.
const DIGIT_FIGURES: usize = 2;

// A whole number: its sign and its size, as they stand on a line, where a step asks for the size alone.
#[derive(Clone, Copy, PartialEq, Eq)]
pub struct Signed {
    pub negative: bool,
    pub size: u32,
}

// The point aP + bQ.
#[derive(Clone, Copy, PartialEq, Eq)]
pub struct Point {
    pub p: Signed,
    pub q: Signed,
}

// A decimal of one or two figures, with a minus if negative, but not before 0.
fn digit_of(field: &[u8]) -> Option<Signed>
    ensures { result ≡ coded_digit (read_digit field.now) }
{
    let size = sheet::figures::decimal_of(sheet::fields::unsigned(field), DIGIT_FIGURES)?;
    let negative = sheet::fields::sign_of(field) == 1;
    if negative && size == 0 {
        return None;
    }
    Some(Signed { negative, size })
}

// The point of two fields. Of a sheet at most the last T, L or A line comes here with a point: short lines are taken before.
pub fn point_of(p: &[u8], q: &[u8]) -> Option<Point>
    ensures { result ≡ coded_pair (read_point ([] ∷ p.now ∷ q.now ∷ [])) }
{
    Some(Point {
        p: digit_of(p)?,
        q: digit_of(q)?,
    })
}
