ghost use Rattle.std.specs.Prelude.{◌≡◌, ◌≤◌, pos};
ghost use Rattle.digits.specs.Limits.{card};
ghost use Rattle.digits.specs.Scalar.{scalar, signed_scalar};
ghost use Rattle.sheet.specs.Plan.{most_slots};
ghost use Rattle.chooser.specs.Call.{choice_question};
ghost use Rattle.chooser.specs.Next.{Next, next_limit, next_number, next_answer, NextPromised};
ghost use Rattle.chooser.specs.Body.BySlots.{by_slots, lowest};
ghost use Rattle.chooser.specs.Body.Choice.{plan_additions};

use crate::choice::PLANS;
use crate::recodable::Recodable;
use crate::sizes::Sizes;
use digits::{Card, Machine, Missed, Scalar};
use sheet::Plan;

// How many numbers of slots there are, from 0 to the highest limit.
const SLOTS: usize = Plan::MOST_SLOTS as usize + 1;

// The smallest larger limit at which the cheapest sheet has fewer additions, and how many it has there.
#[derive(Clone, Copy, PartialEq, Eq)]
pub struct Pays {
    pub limit: u32,
    pub additions: u64,
}

// For each number of slots, from 0 to 31, the fewest additions of a plan that needs so many, or those of the windows 1, 1, which need none.
fn fewest_by_slots(sizes: &Sizes) -> [u64; SLOTS]
    ensures { result ≡ by_slots (plan_additions sizes.now) }
{
    let mut fewest = [sizes.additions(Plan::I(1, 1)); SLOTS];
    for n in 0..PLANS {
        let plan = crate::choice::plan_at(n);
        let slots = plan.slots() as usize;
        fewest[slots] = fewest[slots].min(sizes.additions(plan));
    }
    fewest
}

// The first limit above one at which the lowest number up to it is less, and that number.
fn first_lower(numbers: &[u64; SLOTS], limit: u32) -> Option<Pays>
    ensures { Next (lowest numbers.now) limit result }
{
    let mut least = numbers[0];
    for (n, &number) in numbers.iter().enumerate() {
        if number < least && limit < n as u32 {
            return Some(Pays {
                limit: n as u32,
                additions: number,
            });
        }
        least = least.min(number);
    }
    None
}

// The first larger limit that pays for two scalars, each of which is recoded once for each window.
fn next_of(k: Recodable<'_>, l: Recodable<'_>, limit: u32) -> Option<Pays>
    requires { limit ≤ most_slots }
    ensures { result ≡ next_limit (pos (scalar k.entry.scalar.bytes.now)) (pos (scalar l.entry.scalar.bytes.now)) limit }
{
    let sizes = Sizes::within(k, l, Plan::MOST_SLOTS);
    first_lower(&fewest_by_slots(&sizes), limit)
}

// The smallest larger limit, up to 31, at which the cheapest sheet for k and l has fewer additions, and how many; none where no larger limit
// lowers them. The signs change neither. Questions 1 and 4 are asked.
pub fn next_limit(k: Scalar<'_>, l: Scalar<'_>, limit: u32) -> Result<Option<Pays>, Missed>
    ensures answer { result ≡ next_answer card k.entry.bytes.now k.entry.sign l.entry.bytes.now l.entry.sign limit }
    ensures promised { NextPromised card result (signed_scalar k.entry.bytes.now k.entry.sign) (signed_scalar l.entry.bytes.now l.entry.sign) limit }
    ensures question { next_number result ≡ choice_question card k.entry.bytes.now l.entry.bytes.now limit }
{
    digits::check_scalars(k, l, Card::LIMITS)?;
    crate::call::check_limit(limit)?;
    let k = Recodable { scalar: k };
    let l = Recodable { scalar: l };
    Ok(next_of(k, l, limit))
}
