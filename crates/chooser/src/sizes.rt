ghost use Rattle.std.specs.Prelude.{◌≡◌, ◌+◌, ◌-◌, ◌*◌, ◌/◌, ◌%◌, ◌<◌, ◌≤◌, pos, length, get_or};
ghost use Rattle.digits.specs.Scalar.{scalar};
ghost use Rattle.forms.specs.Joint.{joint};
ghost use Rattle.forms.specs.Row.{row};
ghost use Rattle.chooser.specs.Body.Choice.{plan_weight, plan_places, plan_additions, plan_doublings};
ghost use Rattle.chooser.specs.Body.Sizes.{Fit, size_told, row_of, columns_of, row_size, row_sizes, joint_size, size_at, sizes};

use crate::recodable::Recodable;
use digits::{Gateway, Missed};
use recode::{Recode, Written};
use sheet::Plan;

// How many windows there are: 1, 3, .. 31.
const WINDOWS: usize = 16;

// The most places of a row's digits: one more than the bits of the widest scalar.
const PLACES: usize = 1025;

// How many places a row or a joint form has, and how many of them are not zero; the scalars' signs change neither.
#[derive(Clone, Copy, Default)]
pub struct Size {
    pub places: u32,
    pub weight: u32,
}

// The sizes of two scalars' rows, for the windows 1, 3, .. 31, and of their joint form.
#[derive(Clone, Copy)]
pub struct Sizes {
    pub k: [Size; WINDOWS],
    pub l: [Size; WINDOWS],
    pub joint: Size,
}

impl Sizes {
    // The sizes that plans within the limit need; none in place of others.
    pub fn within(k: Recodable<'_>, l: Recodable<'_>, limit: u32) -> Sizes
        ensures { result ≡ sizes limit (scalar k.entry.scalar.bytes.now) (scalar l.entry.scalar.bytes.now) }
    {
        Sizes {
            k: row_sizes(k, limit),
            l: row_sizes(l, limit),
            joint: joint_size_within(k, l, limit),
        }
    }

    // What a plan counts: joint columns, or the digits of both rows.
    fn weight(&self, plan: Plan) -> u64
        ensures weight { result ≡ plan_weight self.now plan }
        ensures bound { result < 8589934592 }
    {
        match plan {
            Plan::J => self.joint.weight as u64,
            Plan::I(m1, m2) => {
                size_at(&self.k, m1).weight as u64 + size_at(&self.l, m2).weight as u64
            }
        }
    }

    // The places of its digits: those of the joint columns, or of the longer row.
    fn places(&self, plan: Plan) -> u32
        ensures { result ≡ plan_places self.now plan }
    {
        match plan {
            Plan::J => self.joint.places,
            Plan::I(m1, m2) => size_at(&self.k, m1).places.max(size_at(&self.l, m2).places),
        }
    }

    // Its additions: those of its table, and one for each digit that is not zero but the first.
    pub fn additions(&self, plan: Plan) -> u64
        ensures { result ≡ plan_additions self.now plan }
    {
        plan.table_additions() as u64 + self.weight(plan).saturating_sub(1)
    }

    // Its doublings: those of its table, and one for each place but the first.
    pub fn doublings(&self, plan: Plan) -> u64
        ensures { result ≡ plan_doublings self.now plan }
    {
        plan.table_doublings() as u64 + self.places(plan).saturating_sub(1) as u64
    }
}

// The size for the window m; none past the last.
fn size_at(sizes: &[Size], m: u32) -> Size
    ensures { result ≡ size_at sizes.now m }
{
    sizes
        .get((m.saturating_sub(1) / 2) as usize)
        .copied()
        .unwrap_or_default()
}

// The size that an answer tells; none where a question was missed.
fn size_told(answer: Result<Written, Missed>) -> Size
    requires { Fit answer }
    ensures { result ≡ size_told answer }
{
    answer.map_or(
        Size::default(),
        |written| Size {
            places: written.length as u32,
            weight: written.weight as u32,
        },
    )
}

// The size of the scalar's row for the window m, which is written into the places lent.
fn row_size(k: Recodable<'_>, m: u32, digits: &mut [u8]) -> Size
    requires window { (m % 2 ≡ 1) × (m ≤ 31) }
    requires room { 8 * length k.scalar.bytes.now + 1 ≤ length digits.old }
    ensures { result ≡ row_of (row m (pos (scalar k.entry.scalar.bytes.now))) }
{
    size_told(Gateway::row(k.unsigned(), m, digits))
}

// The size of the scalar's row for the window m where a plan within the limit may have it, and none where none may.
fn row_size_within(k: Recodable<'_>, m: u32, limit: u32, digits: &mut [u8]) -> Size
    requires window { (m % 2 ≡ 1) × (m ≤ 31) }
    requires room { 8 * length k.scalar.bytes.now + 1 ≤ length digits.old }
    ensures { result ≡ row_size limit (scalar k.entry.scalar.bytes.now) m }
{
    if Plan::I(m, 1).is_within(limit) {
        return row_size(k, m, digits);
    }
    Size::default()
}

// The sizes of the scalar's rows, for the windows 1, 3, .. 31, as far as the limit lets a plan have them.
fn row_sizes(k: Recodable<'_>, limit: u32) -> [Size; WINDOWS]
    ensures { result ≡ row_sizes limit (scalar k.entry.scalar.bytes.now) }
{
    let mut sizes = [Size::default(); WINDOWS];
    let mut digits = [0u8; PLACES];
    let places = 8 * k.scalar.bytes.len() + 1;
    for (i, size) in sizes.iter_mut().enumerate() {
        *size = row_size_within(k, 2 * (i as u32) + 1, limit, &mut digits[..places]);
    }
    sizes
}

// The size of the joint form.
fn joint_size(k: Recodable<'_>, l: Recodable<'_>) -> Size
    ensures { result ≡ columns_of (joint (pos (scalar k.entry.scalar.bytes.now)) (pos (scalar l.entry.scalar.bytes.now))) }
{
    let mut k_digits = [0u8; PLACES];
    let mut l_digits = [0u8; PLACES];
    let k = k.unsigned();
    let l = l.unsigned();
    size_told(Gateway::joint(k, l, &mut k_digits, &mut l_digits))
}

// The size of the joint form where plan J is within the limit, and none where it is not.
fn joint_size_within(k: Recodable<'_>, l: Recodable<'_>, limit: u32) -> Size
    ensures { result ≡ joint_size limit (scalar k.entry.scalar.bytes.now) (scalar l.entry.scalar.bytes.now) }
{
    if Plan::J.is_within(limit) {
        return joint_size(k, l);
    }
    Size::default()
}
