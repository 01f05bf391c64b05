ghost use Rattle.std.specs.Prelude.{◌≡◌, ◌∷◌, []};
ghost use Rattle.digits.specs.Scalar.{signed_scalar};
ghost use Rattle.sheet.specs.Spelling;
ghost use Rattle.written.specs.Written.{kind_of, heading};
ghost use Rattle.writer.specs.Body.Parts.{Put, Room, field, letters_of, decimals_of, scalars_of, header_bytes};

use digits::Scalar;
use sheet::{Largest, Plan};

// The letter of a plan.
pub fn letter_of(plan: Plan) -> u8
    ensures { result ∷ [] ≡ Spelling.kind (kind_of plan) }
{
    match plan {
        Plan::J => b'J',
        Plan::I(_, _) => b'I',
    }
}

// `S` and a kind, with a comma behind each.
#[tactic(auto, unfolding(crate::specs::Body::Parts::letters_of))]
fn put_letters(out: &mut [u8], at: usize, kind: u8) -> usize
    requires { Room out.old at (letters_of (kind ∷ [])) }
    ensures { Put out.old out.new at result (letters_of (kind ∷ [])) }
{
    let a = crate::put::put_byte(out, at, b'S');
    let b = crate::put::put_byte(out, a, b',');
    let c = crate::put::put_byte(out, b, kind);
    crate::put::put_byte(out, c, b',')
}

// A decimal, with a comma behind it.
fn put_field(out: &mut [u8], at: usize, n: u32) -> usize
    requires { Room out.old at (field n) }
    ensures { Put out.old out.new at result (field n) }
{
    let next = crate::put::put_numeral(out, at, 10, n);
    crate::put::put_byte(out, next, b',')
}

// The decimals of a header: the windows, the slots, and the counts.
fn put_decimals(
    out: &mut [u8],
    at: usize,
    windows: Largest,
    slots: u32,
    additions: u32,
    doublings: u32,
) -> usize
    requires { Room out.old at (decimals_of windows.p windows.q slots additions doublings) }
    ensures { Put out.old out.new at result (decimals_of windows.p windows.q slots additions doublings) }
{
    let a = put_field(out, at, windows.p);
    let b = put_field(out, a, windows.q);
    let c = put_field(out, b, slots);
    let d = put_field(out, c, additions);
    put_field(out, d, doublings)
}

// The two scalars of a header, and the end of its line.
fn put_scalars(out: &mut [u8], at: usize, k: Scalar<'_>, l: Scalar<'_>) -> usize
    requires { Room out.old at (scalars_of (signed_scalar k.bytes.now k.sign) (signed_scalar l.bytes.now l.sign)) }
    ensures { Put out.old out.new at result (scalars_of (signed_scalar k.entry.bytes.now k.entry.sign) (signed_scalar l.entry.bytes.now l.entry.sign)) }
{
    let a = crate::figures::put_signed(out, at, k);
    let b = crate::put::put_byte(out, a, b',');
    let c = crate::figures::put_signed(out, b, l);
    crate::put::put_byte(out, c, b'\n')
}

// The header of a sheet.
pub fn put_header(
    out: &mut [u8],
    at: usize,
    plan: Plan,
    additions: u32,
    doublings: u32,
    k: Scalar<'_>,
    l: Scalar<'_>,
) -> usize
    requires { Room out.old at (header_bytes (heading plan additions doublings (signed_scalar k.bytes.now k.sign) (signed_scalar l.bytes.now l.sign))) }
    ensures { Put out.old out.new at result (header_bytes (heading plan additions doublings (signed_scalar k.entry.bytes.now k.entry.sign) (signed_scalar l.entry.bytes.now l.entry.sign))) }
{
    let a = put_letters(out, at, letter_of(plan));
    let b = put_decimals(out, a, plan.limits(), plan.slots(), additions, doublings);
    put_scalars(out, b, k, l)
}
