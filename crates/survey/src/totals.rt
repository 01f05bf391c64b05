ghost use Rattle.std.specs.Prelude.{◌≡◌, ◌*◌, ◌<◌, length};
ghost use Rattle.digits.specs.Two.{P, Q};
ghost use Rattle.sheet.specs.Line as meant;
ghost use Rattle.lines.specs.Coded.{whole, coded};
ghost use Rattle.survey.specs.Sum.{Roomy, Added};
ghost use Rattle.survey.specs.Survey.Total.{Adds};

use lines::{Line, Point};

// A point, added at its place to the two sums.
fn add_point(p: &mut [u64], q: &mut [u64], places: usize, t: Point)
    requires { (Roomy p.old × Roomy q.old) × ((places < 16 * length p.old) × (places < 16 * length q.old)) }
    ensures first { Added places (whole t.p) p.old p.new }
    ensures second { Added places (whole t.q) q.old q.new }
{
    crate::limbs::add(p, places, t.p);
    crate::limbs::add(q, places, t.q);
}

// The step of a line, added at its place; other lines add nothing.
pub fn add_line(p: &mut [u64], q: &mut [u64], places: usize, line: Line)
    requires { (Roomy p.old × Roomy q.old) × ((places < 16 * length p.old) × (places < 16 * length q.old)) }
    ensures first { (x : meant.Line) → line ≡ coded x → Adds P places x p.old p.new }
    ensures second { (x : meant.Line) → line ≡ coded x → Adds Q places x q.old q.new }
{
    match line {
        // An arm for each: with one for both the compiler jumps by a table twice for a step, and reading takes a sixth longer or more.
        Line::Load(t) => add_point(p, q, places, t),
        Line::Add(t) => add_point(p, q, places, t),
        Line::Table(_) | Line::Double | Line::End | Line::Other => {}
    }
}
