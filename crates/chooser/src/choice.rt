ghost use Rattle.std.specs.Prelude.{◌≡◌, ◌<◌, pos, get_or};
ghost use Rattle.digits.specs.Scalar.{scalar};
ghost use Rattle.sheet.specs.declared.Plan.{Plan};
ghost use Rattle.written.specs.Written.{first};
ghost use Rattle.chooser.specs.Cheapest.{cheapest_plan, plans, rank, within};
ghost use Rattle.chooser.specs.Body.Choice.{cost_key, Enough};
ghost use Rattle.chooser.specs.Candidate.{cost_with, either, either_within};
ghost use Rattle.chooser.specs.Candidate.Turns.{Stands};
ghost use Rattle.chooser.specs.Lexicographic.{least};

use crate::recodable::Recodable;
use crate::sizes::Sizes;
use sheet::Plan;

// How many plans there are: J, and I with each of 16 windows for P and for Q.
pub const PLANS: u32 = 257;

// What decides between plans, in order. It has no second window, and so no whole plan: `key_with` ends with the first one.
#[derive(Clone, Copy, PartialEq, Eq, PartialOrd, Ord)]
pub struct Cost {
    pub additions: u64,
    pub doublings: u64,
    pub slots: u32,
    // Two numbers and no Option of the first window: a caller may put any here, and each is compared.
    pub rank: u32,
    pub first: u32,
}

// A plan with its cost.
#[derive(Clone, Copy)]
pub struct Candidate {
    pub plan: Plan,
    pub cost: Cost,
}

impl Cost {
    // The cost of a plan with so many additions and doublings.
    pub fn of(plan: Plan, additions: u64, doublings: u64) -> Cost
        ensures { result ≡ cost_with additions doublings plan }
    {
        Cost {
            additions,
            doublings,
            slots: plan.slots(),
            rank: rank_of(plan),
            first: first_of(plan),
        }
    }
}

impl Candidate {
    // The cheaper of this candidate and the other, and this one where they cost the same.
    pub fn or(self, other: Candidate) -> Candidate
        ensures { result ≡ either self other }
    {
        if other.cost < self.cost { other } else { self }
    }

    // The cheaper of the two, if the other needs no more slots than the limit; else this one.
    pub fn or_within(self, other: Candidate, limit: u32) -> Candidate
        ensures { result ≡ either_within limit self other }
    {
        if other.plan.is_within(limit) {
            self.or(other)
        } else {
            self
        }
    }
}

// J before I.
fn rank_of(plan: Plan) -> u32
    ensures { result ≡ rank plan }
{
    match plan {
        Plan::J => 0,
        Plan::I(_, _) => 1,
    }
}

// The first window; J goes by 1.
fn first_of(plan: Plan) -> u32
    ensures { result ≡ first plan }
{
    match plan {
        Plan::J => 1,
        Plan::I(m1, _) => m1,
    }
}

// A plan with its cost, from the sizes of the scalars' rows.
fn candidate_of(plan: Plan, sizes: &Sizes) -> Candidate
    ensures plan { result.plan ≡ plan }
    ensures stands { Stands (cost_key sizes.now) result }
{
    let cost = Cost::of(plan, sizes.additions(plan), sizes.doublings(plan));
    Candidate { plan, cost }
}

// The n-th plan: J, and then the plans I by m1 and by m2. By number, since `least_plan` tries the first so many in one loop.
pub fn plan_at(n: u32) -> Plan
    requires { n < 257 }
    ensures { result ≡ get_or plans n Plan.J }
{
    if n == 0 {
        return Plan::J;
    }
    let at = n - 1;
    Plan::I(2 * (at / 16) + 1, 2 * (at % 16) + 1)
}

// How many plans, from the first on, are enough to try: one within the limit has no window above 2 limit − 1, and below two slots
// none but 1.
fn plans_to_try(limit: u32) -> u32
    ensures { Enough limit result }
{
    16 * limit.clamp(1, 16) + 1
}

// The first of the least plans within the limit, by the sizes of the scalars' rows.
fn least_plan(sizes: &Sizes, limit: u32) -> Plan
    ensures { result ≡ least (cost_key sizes.now) (Plan.I 1 1) (within limit plans) }
{
    let mut best = candidate_of(Plan::I(1, 1), sizes);
    for n in 0..plans_to_try(limit) {
        let plan = plan_at(n);
        // Asked before the cost is worked out: at a low limit most plans need more slots.
        if plan.is_within(limit) {
            best = best.or(candidate_of(plan, sizes));
        }
    }
    best.plan
}

// The first plan within the limit for two scalars.
pub fn first_plan(k: Recodable<'_>, l: Recodable<'_>, limit: u32) -> Plan
    ensures { result ≡ cheapest_plan (pos (scalar k.entry.scalar.bytes.now)) (pos (scalar l.entry.scalar.bytes.now)) limit }
{
    least_plan(&Sizes::within(k, l, limit), limit)
}
