ghost use Rattle.std.specs.Prelude.{◌≡◌, not, ◌∷◌, [], ◌++◌, ℕ, suc, ◌≤◌, T, pos, length};
ghost use Rattle.digits.specs.Two;
ghost use Rattle.sheet.specs.Plan.{point};
ghost use Rattle.sheet.specs.Sound.{move_lines, step_lines};
ghost use Rattle.sheet.specs.Spelling.{line_feed, spell};
ghost use Rattle.written.specs.Written.{unless_zero, place_steps, moves_of, steps_down};
ghost use Rattle.digits.specs.Byte.{signed};
ghost use Rattle.writer.specs.Body.Parts.{Put, Room, steps_bytes, column_at, columns_down};

use sheet::Plan;

// Whether both digits are 0.
fn blank(p: u8, q: u8) -> bool
    ensures { result ≡ Two.blank (point (signed p) (signed q)) }
{
    p == 0 && q == 0
}

// The step of a column, or nothing where both digits are 0.
fn put_step(out: &mut [u8], at: usize, letter: u8, p: u8, q: u8) -> usize
    requires { Room out.old at (steps_bytes letter (unless_zero (point (signed p) (signed q)))) }
    ensures { Put out.old out.new at result (steps_bytes letter (unless_zero (point (signed p) (signed q)))) }
{
    if blank(p, q) {
        return at;
    }
    crate::put::put_point(out, at, letter, p, q)
}

// The steps of a place in plan I: one for P, then one for Q, which is an addition where it is the second.
fn put_rows(out: &mut [u8], at: usize, letter: u8, p: u8, q: u8) -> usize
    requires { Room out.old at (steps_bytes letter (unless_zero (point (signed p) (pos 0)) ++ unless_zero (point (pos 0) (signed q)))) }
    ensures { Put out.old out.new at result (steps_bytes letter (unless_zero (point (signed p) (pos 0)) ++ unless_zero (point (pos 0) (signed q)))) }
{
    if p == 0 {
        return put_step(out, at, letter, 0, q);
    }
    let next = crate::put::put_point(out, at, letter, p, 0);
    put_step(out, next, b'A', 0, q)
}

// The steps of a place: the first one with the letter, a further one as an addition.
fn put_steps(out: &mut [u8], at: usize, plan: Plan, letter: u8, p: u8, q: u8) -> usize
    requires { Room out.old at (steps_bytes letter (place_steps plan (point (signed p) (signed q)))) }
    ensures { Put out.old out.new at result (steps_bytes letter (place_steps plan (point (signed p) (signed q)))) }
{
    match plan {
        Plan::J => put_step(out, at, letter, p, q),
        Plan::I(_, _) => put_rows(out, at, letter, p, q),
    }
}

// A line of a letter alone.
pub fn put_letter(out: &mut [u8], at: usize, letter: u8) -> usize
    requires { Room out.old at (letter ∷ line_feed ∷ []) }
    ensures { Put out.old out.new at result (letter ∷ line_feed ∷ []) }
{
    let next = crate::put::put_byte(out, at, letter);
    crate::put::put_byte(out, next, b'\n')
}

// The places below the top, from the highest down: a D line, and the place's steps.
fn put_moves(out: &mut [u8], at: usize, plan: Plan, p: &[u8], q: &[u8], top: usize) -> usize
    requires { ((top ≤ length p.now) × (top ≤ length q.now)) × Room out.old at (spell (move_lines (moves_of plan (columns_down p.now q.now top)))) }
    ensures { Put out.old out.new at result (spell (move_lines (moves_of plan (columns_down p.now q.now top)))) }
{
    let mut next = at;
    // By an index, the place: a zip of both rows, each cut at the top and turned, says no more.
    for i in (0..top).rev() {
        let begun = put_letter(out, next, b'D');
        next = put_steps(out, begun, plan, b'A', p[i], q[i]);
    }
    next
}

// All steps, of which the first one is the load; nothing where there is no place.
pub fn put_places(out: &mut [u8], at: usize, plan: Plan, p: &[u8], q: &[u8], places: usize) -> usize
    requires places { ((places ≤ length p.now) × (places ≤ length q.now)) × ((top : ℕ) → places ≡ suc top → T (not (Two.blank (column_at p.now q.now top)))) }
    requires room { Room out.old at (spell (step_lines (steps_down plan (columns_down p.now q.now places)))) }
    ensures { Put out.old out.new at result (spell (step_lines (steps_down plan (columns_down p.now q.now places)))) }
{
    if places == 0 {
        return at;
    }
    let top = places - 1;
    let next = put_steps(out, at, plan, b'L', p[top], q[top]);
    put_moves(out, next, plan, p, q, top)
}
