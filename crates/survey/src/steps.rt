ghost use Rattle.std.specs.Prelude.{◌≡◌, ltb};
ghost use Rattle.sheet.specs.Plan as plans;
ghost use Rattle.sheet.specs.Questions.{turn};
ghost use Rattle.lines.specs.Coded.{coded_point};
ghost use Rattle.survey.specs.Survey.State.{rank, is_odd, joint_turn, window_turn, StepTaken, DoubleTaken};

use crate::fault::fault_or;
use lines::Point;
use sheet::Plan;

// The turn of a step in its place: P comes first, Q or a joint step last; none for what is no step of the plan.
#[derive(Clone, Copy, PartialEq, Eq, PartialOrd, Ord)]
pub enum Turn {
    None,
    First,
    Last,
}

// The turn of the last step in its place, and the first step that is not allowed.
#[derive(Clone, Copy)]
pub struct Steps {
    pub turn: Turn,
    pub fault: Option<u32>,
}

// The D lines that are left, and the first beyond them.
#[derive(Clone, Copy)]
pub struct Doubles {
    pub left: usize,
    pub fault: Option<u32>,
}

// Whether a digit of this size is odd and within the window m.
fn is_digit(m: u32, size: u32) -> bool
    ensures { result ≡ is_odd m size }
{
    size % 2 == 1 && size <= m
}

// The turn of a step of plan J.
fn joint_turn(p: u32, q: u32) -> Turn
    ensures { rank result ≡ joint_turn p q }
{
    if p <= 1 && q <= 1 && !(p == 0 && q == 0) {
        Turn::Last
    } else {
        Turn::None
    }
}

// The turn of a step of plan I.
fn window_turn(m1: u32, m2: u32, p: u32, q: u32) -> Turn
    ensures { rank result ≡ window_turn m1 m2 p q }
{
    if is_digit(m1, p) && q == 0 {
        Turn::First
    } else if p == 0 && is_digit(m2, q) {
        Turn::Last
    } else {
        Turn::None
    }
}

// The turn of a step in its place.
fn turn_of(plan: Plan, t: Point) -> Turn
    ensures { (x : plans.Point) → t ≡ coded_point x → rank result ≡ turn plan x }
{
    match plan {
        Plan::J => joint_turn(t.p.size, t.q.size),
        Plan::I(m1, m2) => window_turn(m1, m2, t.p.size, t.q.size),
    }
}

// Whether a turn comes before another.
fn is_before(first: Turn, second: Turn) -> bool
    ensures { result ≡ ltb (rank first) (rank second) }
{
    first < second
}

impl Steps {
    // One step more in its place.
    pub fn taken(self, plan: Plan, t: Point, line: u32) -> Steps
        ensures { StepTaken plan self t line result }
    {
        let turn = turn_of(plan, t);
        Steps {
            turn,
            fault: fault_or(self.fault, is_before(self.turn, turn), line),
        }
    }

    // The next lower place begins, with no step in it.
    pub fn lowered(self) -> Steps
        ensures { (rank result.turn ≡ 0) × (result.fault ≡ self.fault) }
    {
        Steps {
            turn: Turn::None,
            ..self
        }
    }
}

impl Doubles {
    // One D line more.
    pub fn taken(self, line: u32) -> Doubles
        ensures { DoubleTaken self line result }
    {
        // Two cases and no `saturating_sub`: the fault of one more test costs 3 instructions for each D line.
        if self.left == 0 {
            Doubles {
                fault: fault_or(self.fault, false, line),
                ..self
            }
        } else {
            Doubles {
                left: self.left - 1,
                ..self
            }
        }
    }
}
