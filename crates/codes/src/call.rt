ghost use Rattle.std.specs.Prelude.{◌≡◌, ℕ, ◌+◌, ◌*◌, ◌≤◌, max, length};
ghost use Rattle.digits.specs.Limits.{gateway};
ghost use Rattle.digits.specs.Scalar.{signed_scalar};
ghost use Rattle.digits.specs.Two.{P, Q};
ghost use Rattle.forms.specs.Joint.{joint};
ghost use Rattle.recode.specs.Call.{number};
ghost use Rattle.codes.specs.Call.{codes_question, codes_answer, codes_digits, codes_buffer, CodesPromised};

use crate::row::write_codes;
use digits::{Missed, Scalar};
use recode::{Recode, Written};

// The places that a buffer must have for a row of two scalars' joint form, and for its codes: no such row is longer. A function of its own,
// since the bytes of a slice have a known range here and not in the call.
fn places_for(k: &[u8], l: &[u8]) -> usize
    requires { (length k.now ≤ gateway.bytes) × (length l.now ≤ gateway.bytes) }
    ensures room { result ≡ 8 * max (length k.now) (length l.now) + 1 }
    ensures enough { (k_sign l_sign : ℕ) → length (joint (signed_scalar k.now k_sign) (signed_scalar l.now l_sign)) ≤ result }
{
    digits::places_for(k.len().max(l.len()))
}

// The joint sparse form of two scalars with signs, and beside each row the codes of its digits: 0 for an even remainder, 1 for the
// residue by four, 2 for its sign turned.
#[tactic(auto, unfolding(crate::specs::Call::codes_answer, crate::specs::Call::codes_digits, crate::specs::Call::codes_buffer, recode::specs::Call::joint_answer, recode::specs::Call::joint_buffer))]
pub fn joint_codes<M: Recode>(
    k: Scalar<'_>,
    l: Scalar<'_>,
    k_digits: &mut [u8],
    l_digits: &mut [u8],
    k_codes: &mut [u8],
    l_codes: &mut [u8],
) -> Result<Written, Missed>
    ensures answer { result ≡ codes_answer M.LIMITS k.entry.bytes.now k.entry.sign l.entry.bytes.now l.entry.sign (length k_digits.old) (length l_digits.old) (length k_codes.old) (length l_codes.old) }
    ensures first { k_digits.new ≡ codes_digits M.LIMITS P k.entry.bytes.now k.entry.sign l.entry.bytes.now l.entry.sign k_digits.old l_digits.old k_codes.old l_codes.old }
    ensures second { l_digits.new ≡ codes_digits M.LIMITS Q k.entry.bytes.now k.entry.sign l.entry.bytes.now l.entry.sign k_digits.old l_digits.old k_codes.old l_codes.old }
    ensures first_codes { k_codes.new ≡ codes_buffer M.LIMITS P k.entry.bytes.now k.entry.sign l.entry.bytes.now l.entry.sign k_digits.old l_digits.old k_codes.old l_codes.old }
    ensures second_codes { l_codes.new ≡ codes_buffer M.LIMITS Q k.entry.bytes.now k.entry.sign l.entry.bytes.now l.entry.sign k_digits.old l_digits.old k_codes.old l_codes.old }
    ensures promised { CodesPromised (signed_scalar k.entry.bytes.now k.entry.sign) (signed_scalar l.entry.bytes.now l.entry.sign) result k_digits.new l_digits.new k_codes.new l_codes.new }
    ensures question { number result ≡ codes_question M.LIMITS k.entry.bytes.now l.entry.bytes.now (length k_digits.old) (length l_digits.old) (length k_codes.old) (length l_codes.old) }
{
    digits::check_scalars(k, l, M::LIMITS)?;
    let places = places_for(k.bytes, l.bytes);
    digits::check_room(places, k_codes.len())?;
    digits::check_room(places, l_codes.len())?;
    let written = M::joint(k, l, k_digits, l_digits)?;
    write_codes(k_digits, places, k_codes);
    write_codes(l_digits, places, l_codes);
    Ok(written)
}
