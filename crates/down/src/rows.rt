ghost use Rattle.std.specs.Prelude.{◌≡◌, map, ◌+◌, ◌*◌, ◌≤◌, length, set, replicate};
ghost use Rattle.digits.specs.Integer.{signed_by};
ghost use Rattle.digits.specs.Limits.{gateway};
ghost use Rattle.digits.specs.Row as Rows;
ghost use Rattle.digits.specs.Row.{widest};
ghost use Rattle.digits.specs.Scalar.{scalar, signed_scalar};
ghost use Rattle.forms.specs.Residue;
ghost use Rattle.recode.specs.Call.{number, row_size, filled, row_question};
ghost use Rattle.down.specs.Body.Length.{UpTo};
ghost use Rattle.down.specs.Body.Window.{place_of, byte_for, Placed};
ghost use Rattle.down.specs.Call.{down_answer, down_buffer, DownPromised};
ghost use Rattle.down.specs.Down.{natural, down};

use crate::bits::Bits;
use crate::window::WindowDigit;
use digits::{Machine, Missed, Scalar, Window};
use recode::Written;

// Stores the digit of a window with the equal bits above it, whose highest place is `place`.
fn store(out: &mut [u8], place: usize, window: WindowDigit, sign: u32)
    requires { Placed place window (length out.old) }
    ensures { out.new ≡ set out.old (place_of place window) (byte_for window sign) }
{
    let here = place + 1 + window.zeros as usize - window.taken as usize;
    out[here] = crate::window::byte_of(window.odd, sign);
}

// Writes the scalar's row from the top down for the window m of `below` + 1 places, with a sign, into places that hold 0: eight for each
// byte, and one more. Returns its weight. The bits equal to the highest one left are skipped, 51 at a turn where no window is in sight.
// A `loop`, since no iterator knows how many places a turn takes. It takes m and the width, and not recode's rule, whose half it has no use for.
fn write_digits(bytes: &[u8], sign: u32, m: u32, below: u32, out: &mut [u8]) -> usize
    requires recodable { (length bytes.now ≤ gateway.bytes) × ((1 ≤ m) × ((m ≤ widest) × (below + 1 ≡ Residue.width m))) }
    requires cleared { (out.old ≡ replicate (length out.old) 0) × (length out.old ≡ 8 * length bytes.now + 1) }
    ensures weight { result ≡ Rows.weight (map (signed_by sign) (natural m (scalar bytes.now))) }
    ensures buffer { out.new ≡ filled (map (signed_by sign) (natural m (scalar bytes.now))) out.old }
{
    let mut place = 8 * bytes.len();
    let mut bits = Bits::new(sign);
    let mut weight = 0;
    loop {
        let x = bits.folded();
        let most = crate::bits::zeros_above(x) + below;
        if bits.held <= most {
            if bits.held <= 56 {
                bits = bits.filled(bytes, sign);
                continue;
            }
            if place < 51 {
                return weight;
            }
            place -= 51;
            bits = bits.less(51);
            continue;
        }
        let window = crate::window::window_of(x, most, m);
        store(out, place, window, bits.highest());
        weight += 1;
        let taken = window.taken as usize;
        if place < taken {
            return weight;
        }
        place -= taken;
        bits = bits.less(window.taken);
    }
}

// How many places there are up to the highest one that is not 0.
fn length_of(row: &[u8]) -> usize
    ensures { UpTo row.now result }
{
    match row.iter().rposition(|&byte| byte != 0) {
        Some(place) => place + 1,
        None => 0,
    }
}

// Writes the row of a scalar with a sign from the top down for a window, and zeros above it. Of the buffer only eight places for each
// byte from the first one that is not 0, and one more, are lent to the digits.
fn write_row(bytes: &[u8], sign: u32, window: Window, out: &mut [u8]) -> Written
    requires { (1 ≤ length bytes.now) × ((length bytes.now ≤ gateway.bytes) × (8 * length bytes.now + 1 ≤ length out.old)) }
    ensures answer { result ≡ row_size (down window (signed_scalar bytes.now sign)) }
    ensures buffer { out.new ≡ filled (down window (signed_scalar bytes.now sign)) out.old }
{
    let m = window.get();
    let used = digits::bit_length(bytes).below + 1;
    let first = bytes.len() - used;
    let places = digits::places_for(used);
    digits::clear(out);
    let below = crate::bits::bits_of(m);
    let weight = write_digits(&bytes[first..], sign, m, below, &mut out[..places]);
    Written {
        length: length_of(&out[..places]),
        weight,
    }
}

// The row of a scalar with a sign from the top down for the window m: its digits, from place 0 on, in bytes of two's complement.
#[tactic(auto, unfolding(recode::specs::Call::answer_with, recode::specs::Call::buffer_with))]
pub fn row_down<M: Machine>(
    scalar: Scalar<'_>,
    m: u32,
    digits: &mut [u8],
) -> Result<Written, Missed>
    ensures answer { result ≡ down_answer M.LIMITS scalar.entry.bytes.now scalar.entry.sign m (length digits.old) }
    ensures buffer { digits.new ≡ down_buffer M.LIMITS scalar.entry.bytes.now scalar.entry.sign m digits.old }
    ensures promised { DownPromised m (signed_scalar scalar.entry.bytes.now scalar.entry.sign) result digits.new }
    ensures question { number result ≡ row_question M.LIMITS scalar.entry.bytes.now m (length digits.old) }
{
    scalar.check(M::LIMITS)?;
    let window = Window::try_from(m)?;
    let places = digits::places_for(scalar.bytes.len());
    digits::check_room(places, digits.len())?;
    Ok(write_row(scalar.bytes, scalar.sign, window, digits))
}
