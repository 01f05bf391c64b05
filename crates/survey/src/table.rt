ghost use Rattle.std.specs.Prelude.{◌≡◌, ◌+◌, ◌<◌, ◌≤◌, ℤ, pos, negsuc, length, drop};
ghost use Rattle.sheet.specs.Plan as plans;
ghost use Rattle.sheet.specs.Plan.{stored, multiples, tables};
ghost use Rattle.sheet.specs.Questions.{same_number, same_point, is_double};
ghost use Rattle.lines.specs.Coded.{signed, coded_point};
ghost use Rattle.survey.specs.Survey.State.{is_next, multiple_at, TableCounts, TableTaken, TablesClosed};

use crate::fault::fault_or;
use lines::{Point, Signed};
use sheet::Plan;

// The T lines so far, and the first that is not the plan's.
#[derive(Clone, Copy)]
pub struct Tables {
    pub count: usize,
    pub fault: Option<u32>,
}

// The additions and doublings that a T line counts for.
#[derive(Clone, Copy)]
pub struct Counts {
    pub additions: usize,
    pub doublings: usize,
}

// The additions of a T line that does not double.
const TABLE_ADDITIONS: usize = 1;

// Whether a number is n.
fn is_plain(number: Signed, n: u32) -> bool
    ensures { (z : ℤ) → number ≡ signed z → result ≡ same_number z (pos n) }
{
    !number.negative && number.size == n
}

// Whether a number is -1.
fn is_minus_one(number: Signed) -> bool
    ensures { (z : ℤ) → number ≡ signed z → result ≡ same_number z (negsuc 0) }
{
    number.negative && number.size == 1
}

// Whether a point is aP + bQ, for a and b that are not negative.
fn is_point(t: Point, a: u32, b: u32) -> bool
    ensures { (x : plans.Point) → t ≡ coded_point x → result ≡ same_point x (plans.point (pos a) (pos b)) }
{
    is_plain(t.p, a) && is_plain(t.q, b)
}

// Whether a T line doubles: T,2,0 or T,0,2.
fn is_double(t: Point) -> bool
    ensures { (x : plans.Point) → t ≡ coded_point x → result ≡ is_double x }
{
    is_point(t, 2, 0) || is_point(t, 0, 2)
}

// What a T line counts for.
pub fn counts_of(t: Point) -> Counts
    ensures { (result.additions + result.doublings ≤ 1) × ((x : plans.Point) → t ≡ coded_point x → TableCounts x result) }
{
    if is_double(t) {
        Counts {
            additions: 0,
            doublings: 1,
        }
    } else {
        Counts {
            additions: TABLE_ADDITIONS,
            doublings: 0,
        }
    }
}

// How many T lines a window has.
fn multiples_of(m: u32) -> usize
    ensures { (result ≡ length (multiples (stored m))) × (result ≤ 4294967296) }
{
    if m < 3 { 0 } else { (m - 1) as usize / 2 + 1 }
}

// The multiple on the T line of a window with n before it: 2, then 3, 5 and so on. The bound on n, a count of lines, holds by the
// loop's bound on the lines.
fn multiple(n: usize) -> u32
    requires { n < 2147483647 }
    ensures { result ≡ multiple_at n }
{
    if n == 0 { 2 } else { (2 * n + 1) as u32 }
}

// Whether t is the T line of plan J with n before it.
fn is_joint_table(n: usize, t: Point) -> bool
    ensures { (x : plans.Point) → t ≡ coded_point x → result ≡ is_next (drop n (tables Plan.J)) x }
{
    match n {
        0 => is_point(t, 1, 1),
        1 => is_plain(t.p, 1) && is_minus_one(t.q),
        _ => false,
    }
}

// Whether t is the T line of plan I with n before it.
fn is_window_table(m1: u32, m2: u32, n: usize, t: Point) -> bool
    requires { n < 2147483647 }
    ensures { (x : plans.Point) → t ≡ coded_point x → result ≡ is_next (drop n (tables (Plan.I m1 m2))) x }
{
    let first = multiples_of(m1);
    if n < first {
        return is_point(t, multiple(n), 0);
    }
    let left = n - first;
    left < multiples_of(m2) && is_point(t, 0, multiple(left))
}

// Whether t is the plan's T line with n before it.
fn is_table(plan: Plan, n: usize, t: Point) -> bool
    requires { n < 2147483647 }
    ensures { (x : plans.Point) → t ≡ coded_point x → result ≡ is_next (drop n (tables plan)) x }
{
    match plan {
        Plan::J => is_joint_table(n, t),
        Plan::I(m1, m2) => is_window_table(m1, m2, n, t),
    }
}

// How many T lines the plan has.
fn table_lines(plan: Plan) -> usize
    ensures { result ≡ length (tables plan) }
{
    match plan {
        Plan::J => 2,
        Plan::I(m1, m2) => multiples_of(m1) + multiples_of(m2),
    }
}

impl Tables {
    // One T line more.
    pub fn taken(self, plan: Plan, t: Point, line: u32) -> Tables
        requires { self.count < 2147483647 }
        ensures { TableTaken plan self t line result }
    {
        let met = is_table(plan, self.count, t);
        Tables {
            count: self.count + 1,
            fault: fault_or(self.fault, met, line),
        }
    }

    // No more T lines: the line is the one after them.
    pub fn closed(self, plan: Plan, line: u32) -> Tables
        ensures { TablesClosed plan self line result }
    {
        let met = table_lines(plan) <= self.count;
        Tables {
            fault: fault_or(self.fault, met, line),
            ..self
        }
    }
}
