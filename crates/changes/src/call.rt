ghost use Rattle.std.specs.Prelude.{◌≡◌, true, ◌&&◌, ◌+◌, ◌≤◌, ◌<◌, pos, length};
ghost use Rattle.std.proofs.Math.Seq.{paste};
ghost use Rattle.digits.specs.Limits.{card};
ghost use Rattle.digits.specs.Scalar.{scalar, sized};
ghost use Rattle.sheet.specs.Plan.{is_limit};
ghost use Rattle.chooser.specs.Cheapest.{cheapest_plan};
ghost use Rattle.changes.specs.Changed.{changes_length, changes_buffer};
ghost use Rattle.changes.specs.Body.{order_at, line_if};

use digits::{Card, Scalar};
use sheet::Plan;

// How many orders there are, and room for a line of each.
const ORDERS: u32 = 1024;

const ROOM: usize = 18432;

// The plan of today.
fn new_plan(k: Scalar<'_>, l: Scalar<'_>, limit: u32) -> Plan
    requires { (sized card k.bytes.now && sized card l.bytes.now ≡ true) × (is_limit limit ≡ true) }
    ensures { result ≡ cheapest_plan (pos (scalar k.entry.bytes.now)) (pos (scalar l.entry.bytes.now)) limit }
{
    // Each scalar is sized, and the limit is one, so no question is missed.
    chooser::cheapest_plan::<Card>(k, l, limit).unwrap_or(Plan::J)
}

// Puts the line of the n-th order at a place if its plan changed, and returns the place behind it. By number: three fields in one loop.
fn put_order(out: &mut [u8], at: usize, n: u32, buffer: &mut [u8; crate::old::ROOM]) -> usize
    requires { (n < 1024) × (at + 18 ≤ length out.old) }
    ensures answer { result ≡ at + length (line_if (order_at n)) }
    ensures line_fits { result ≤ at + 18 }
    ensures buffer { out.new ≡ paste out.old at (line_if (order_at n)) (length (line_if (order_at n))) }
{
    let k = n / 64;
    let l = n / 4 % 16;
    let limit = n % 4;
    let k_bytes = [k as u8];
    let l_bytes = [l as u8];
    let first = Scalar {
        bytes: &k_bytes,
        sign: 0,
    };
    let second = Scalar {
        bytes: &l_bytes,
        sign: 0,
    };
    let old = crate::old::old_plan(first, second, limit, buffer);
    let new = new_plan(first, second, limit);
    if old == new {
        return at;
    }
    crate::line::put_line(out, at, crate::line::line_of(k, l, limit, old, new));
    at + 18
}

// Writes a line for each order with scalars from 0 to 15 and a limit of at most 3 whose plan changed, and returns the length of them all.
pub fn changed_orders(out: &mut [u8]) -> usize
    ensures answer { result ≡ changes_length (length out.old) }
    ensures buffer { out.new ≡ changes_buffer out.old }
{
    if out.len() < ROOM {
        return 0;
    }
    let mut buffer = [0u8; crate::old::ROOM];
    let mut at = 0;
    for n in 0..ORDERS {
        at = put_order(out, at, n, &mut buffer);
    }
    at
}
