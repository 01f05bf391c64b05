ghost use Rattle.std.specs.Prelude.{◌≡◌, true, ◌≢◌};
ghost use Rattle.sheet.specs.declared.Plan.{Plan};
ghost use Rattle.sheet.specs.Line as meant;
ghost use Rattle.sheet.specs.Plan as plans;
ghost use Rattle.lines.specs.Coded.{coded_point, coded};
ghost use Rattle.survey.specs.Survey.State.{is_placed, TablesClosed, Counted, Begins, Follows};

use crate::fault::fault_or;
use crate::phase::Phase;
use crate::steps::{Doubles, Steps, Turn};
use crate::table::Tables;
use digits::Limits;
use lines::{Header, Line, Point};
use sheet::Plan;

// What the lines so far say to each question, and how many D lines are to come by the header.
#[derive(Clone, Copy)]
pub struct State {
    pub line: u32,
    pub phase: Phase,
    pub tables: Tables,
    pub steps: Steps,
    pub doubles: Doubles,
    pub additions: usize,
    pub doublings: usize,
    pub places: usize,
}

// The T lines at E: where there was no step, it is the line after them.
fn tables_at_end(phase: Phase, tables: Tables, plan: Plan, line: u32) -> Tables
    ensures { (phase ≡ Phase.Tables → TablesClosed plan tables line result) × (phase ≡ Phase.Steps → result ≡ tables) }
{
    match phase {
        Phase::Tables => tables.closed(plan, line),
        Phase::Steps | Phase::Ended => tables,
    }
}

// By value, and handed back by each method, as was asked for (docs/PROOFS.md). That the counts are few stands in the methods' clauses and
// not in the type: how many lines there can be the loop alone knows.
// A method that keeps the phase still names it: the compiler then knows it in the loop, and a line takes fewer steps.
impl State {
    // Behind the header.
    pub fn new(limits: Limits, header: Header) -> State
        ensures { Begins limits header result }
    {
        let met = crate::header::is_on_plan(header);
        State {
            line: 2,
            phase: Phase::Tables,
            tables: Tables {
                count: 0,
                fault: fault_or(None, met, 1),
            },
            steps: Steps {
                turn: Turn::None,
                fault: None,
            },
            doubles: Doubles {
                left: limits.doublings,
                fault: None,
            },
            additions: 0,
            doublings: 0,
            places: crate::header::claimed(limits, header),
        }
    }

    // T: the table is filled with a point.
    fn tabled(self, plan: Plan, t: Point) -> State
        requires { Counted self × (self.phase ≡ Phase.Tables) }
        ensures { (x : plans.Point) → t ≡ coded_point x → Follows plan self (meant.table x) result }
    {
        let counts = crate::table::counts_of(t);
        State {
            line: self.line + 1,
            phase: Phase::Tables,
            tables: self.tables.taken(plan, t, self.line),
            additions: self.additions + counts.additions,
            doublings: self.doublings + counts.doublings,
            ..self
        }
    }

    // L: the accumulator is loaded, at the top place.
    fn loaded(self, plan: Plan, t: Point) -> State
        requires { Counted self × (self.phase ≡ Phase.Tables) }
        ensures { (x : plans.Point) → t ≡ coded_point x → Follows plan self (meant.load x) result }
    {
        State {
            line: self.line + 1,
            phase: Phase::Steps,
            tables: self.tables.closed(plan, self.line),
            steps: self.steps.taken(plan, t, self.line),
            ..self
        }
    }

    // D: the accumulator doubles and the next lower place begins.
    fn doubled(self) -> State
        requires { Counted self × (self.phase ≡ Phase.Steps) }
        ensures { (plan : Plan) → Follows plan self meant.double result }
    {
        State {
            line: self.line + 1,
            phase: Phase::Steps,
            steps: self.steps.lowered(),
            doubles: self.doubles.taken(self.line),
            doublings: self.doublings + 1,
            places: self.places.saturating_sub(1),
            ..self
        }
    }

    // A: a point is added.
    fn added(self, plan: Plan, t: Point) -> State
        requires { Counted self × (self.phase ≡ Phase.Steps) }
        ensures { (x : plans.Point) → t ≡ coded_point x → Follows plan self (meant.add x) result }
    {
        State {
            line: self.line + 1,
            phase: Phase::Steps,
            steps: self.steps.taken(plan, t, self.line),
            additions: self.additions + 1,
            ..self
        }
    }

    // E, behind the T lines or behind the steps.
    fn ended(self, plan: Plan) -> State
        requires { Counted self × (self.phase ≢ Phase.Ended) }
        ensures { Follows plan self meant.end result }
    {
        State {
            line: self.line + 1,
            phase: Phase::Ended,
            tables: tables_at_end(self.phase, self.tables, plan, self.line),
            ..self
        }
    }

    // The state after a line in its place.
    pub fn after(self, plan: Plan, line: Line) -> State
        requires { Counted self × (is_placed self.phase line ≡ true) }
        ensures { (x : meant.Line) → line ≡ coded x → Follows plan self x result }
    {
        match line {
            Line::Table(t) => self.tabled(plan, t),
            Line::Load(t) => self.loaded(plan, t),
            Line::Double => self.doubled(),
            Line::Add(t) => self.added(plan, t),
            Line::End => self.ended(plan),
            Line::Other => self,
        }
    }
}
