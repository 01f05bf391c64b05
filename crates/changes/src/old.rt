ghost use Rattle.std.specs.Prelude.{◌≡◌, true, ◌&&◌, ◌≤◌};
ghost use Rattle.digits.specs.Limits.{card};
ghost use Rattle.digits.specs.Scalar.{signed_scalar, sized};
ghost use Rattle.written.specs.Valid.{Valid};
ghost use Rattle.written.specs.Written.{written_additions};
ghost use Rattle.changes.specs.Changed.{old_plan};
ghost use Rattle.changes.specs.Body.{old_candidate};

use chooser::{Candidate, Cost};
use digits::{Card, Scalar};
use sheet::Plan;

// The most bytes of a card's sheet.
pub const ROOM: usize = 16384;

// The plans that three slots let in.
const FEW: [Plan; 7] = [
    Plan::J,
    Plan::I(1, 1),
    Plan::I(1, 3),
    Plan::I(1, 5),
    Plan::I(3, 1),
    Plan::I(3, 3),
    Plan::I(5, 1),
];

// The additions of a plan's sheet, which is written into the buffer lent. The plans are the seven above, and the scalars of one byte. One
// buffer serves all plans and orders: zeros for each of them took as long as half of the rest.
fn additions_of(plan: Plan, k: Scalar<'_>, l: Scalar<'_>, buffer: &mut [u8; ROOM]) -> u32
    requires { Valid plan × (sized card k.bytes.now && sized card l.bytes.now ≡ true) }
    ensures { result ≡ written_additions plan (signed_scalar k.entry.bytes.now k.entry.sign) (signed_scalar l.entry.bytes.now l.entry.sign) }
{
    // By a match: behind `map_or` the proof doesn't see what the closure answers.
    match chooser::sheet_of::<Card>(plan, k, l, buffer) {
        Ok(sheet) => sheet.additions,
        // Each scalar is sized, each window is one, and the buffer has room.
        Err(_) => 0,
    }
}

// A plan with its cost by the old order, where doublings do not count.
fn old_candidate(plan: Plan, k: Scalar<'_>, l: Scalar<'_>, buffer: &mut [u8; ROOM]) -> Candidate
    requires { Valid plan × (sized card k.bytes.now && sized card l.bytes.now ≡ true) }
    ensures { result ≡ old_candidate (signed_scalar k.entry.bytes.now k.entry.sign) (signed_scalar l.entry.bytes.now l.entry.sign) plan }
{
    let cost = Cost::of(plan, additions_of(plan, k, l, buffer) as u64, 0);
    Candidate { plan, cost }
}

// The cheapest plan by the old order, for a limit of at most 3.
pub fn old_plan(k: Scalar<'_>, l: Scalar<'_>, limit: u32, buffer: &mut [u8; ROOM]) -> Plan
    requires { (sized card k.bytes.now && sized card l.bytes.now ≡ true) × (limit ≤ 3) }
    ensures { result ≡ old_plan (signed_scalar k.entry.bytes.now k.entry.sign) (signed_scalar l.entry.bytes.now l.entry.sign) limit }
{
    let mut best = old_candidate(Plan::I(1, 1), k, l, buffer);
    for plan in FEW {
        if plan.is_within(limit) {
            best = best.or(old_candidate(plan, k, l, buffer));
        }
    }
    best.plan
}
