ghost use Rattle.std.specs.Prelude.{◌≡◌, true, ◌+◌, ◌*◌, ◌≤◌, eqb, ℤ, pos, length};
ghost use Rattle.sheet.specs.Numeral.{followed};
ghost use Rattle.sheet.specs.Spelling.Field.{is_whole, whole_of};
ghost use Rattle.sheet.specs.Questions.{same_number};
ghost use Rattle.survey.specs.Sum.{limb, limbs_of, most, value, Near, Roomy, Holds};
ghost use Rattle.survey.specs.Survey.{Held};
ghost use Rattle.reader.specs.Scalar.{Figured, Below};

use digits::Limits;

// One more than the largest limb of a scalar.
const LIMB: u64 = 65536;

// The low figures of a scalar, and where they begin.
#[derive(Clone, Copy)]
pub struct Figures {
    pub value: u64,
    pub start: usize,
}

// The figure before a place; 0 where there is none. That all bytes are figures is passed on by the two functions below: a type for it would
// serve these three alone.
fn figure_before(figures: &[u8], end: usize) -> Figures
    requires { (end ≤ length figures.now) × Figured figures.now }
    ensures { Below 16 1 figures.now end result }
{
    if end == 0 {
        return Figures { value: 0, start: 0 };
    }
    let start = end - 1;
    Figures {
        value: sheet::figures::worth_of(figures[start]) as u64,
        start,
    }
}

// The four figures before a place. Four calls and no loop: the wrong version three_figures changes the weight of one of them.
fn limb_before(figures: &[u8], end: usize) -> Figures
    requires { (end ≤ length figures.now) × Figured figures.now }
    ensures { Below limb 4 figures.now end result }
{
    let a = figure_before(figures, end);
    let b = figure_before(figures, a.start);
    let c = figure_before(figures, b.start);
    let d = figure_before(figures, c.start);
    Figures {
        value: a.value + 16 * b.value + 256 * c.value + 4096 * d.value,
        start: d.start,
    }
}

// Whether the sum `from` and the number of the figures come to the sum `to`, which has as many limbs.
fn reaches(from: &[u64], to: &[u64], figures: &[u8]) -> bool
    requires roomy { Roomy from.now × (Roomy to.now × (length from.now ≡ length to.now)) }
    requires figured { Figured figures.now × (length figures.now ≤ 4 * length from.now) }
    ensures { result ≡ eqb (followed 16 0 figures.now + value from.now) (value to.now) }
{
    let mut end = figures.len();
    let mut left = 0;
    let mut right = 0;
    for (x, y) in from.iter().zip(to) {
        let low = limb_before(figures, end);
        let a = low.value + *x + left;
        let b = *y + right;
        if a % LIMB != b % LIMB {
            return false;
        }
        end = low.start;
        left = a / LIMB;
        right = b / LIMB;
    }
    left == right
}

// Whether the sum is the scalar of a field: a minus exchanges the sum and the empty one.
pub fn is_scalar_of(limits: Limits, limbs: &[u64], empty: &[u64], field: &[u8]) -> bool
    requires held { Held limits × (Near (limbs_of limits) most limbs.now × Holds (limbs_of limits) 0 empty.now (pos 0)) }
    requires whole { is_whole 16 limits.figures field.now ≡ true }
    ensures { (z : ℤ) → Holds (limbs_of limits) most limbs.now z → result ≡ same_number z (whole_of 16 field.now) }
{
    let figures = sheet::fields::unsigned(field);
    if sheet::fields::sign_of(field) == 0 {
        reaches(empty, limbs, figures)
    } else {
        reaches(limbs, empty, figures)
    }
}
