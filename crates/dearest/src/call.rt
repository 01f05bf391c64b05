ghost use Rattle.std.specs.Prelude.{◌≡◌, ◌+◌, ◌/◌, length};
ghost use Rattle.digits.specs.Asked.{Asked};
ghost use Rattle.digits.specs.declared.missed.Missed.TheVariants.{NoRoom, BadSize};
ghost use Rattle.dearest.specs.Call.{number, is_size, is_room, dearest_answer, dearest_buffer, dearest_question, Promised};

use digits::Missed;

// The bits of a card's scalar.
const BITS: u32 = 528;

// Its bytes.
const BYTES: usize = 66;

// Question 15: whether a size is 1 to 528 bits.
fn check_size(bits: u32) -> Result<(), Missed>
    ensures { Asked (is_size bits) BadSize result }
{
    if 0 < bits && bits <= BITS {
        return Ok(());
    }
    Err(Missed::BadSize)
}

// Question 3: whether a buffer has 66 bytes.
fn check_room(room: usize) -> Result<(), Missed>
    ensures { Asked (is_room room) NoRoom result }
{
    if room == BYTES {
        return Ok(());
    }
    Err(Missed::NoRoom)
}

// The most digits that are not 0.
fn most_of(bits: u32) -> u32
    ensures { result ≡ bits / 2 + 1 }
{
    bits / 2 + 1
}

// Finds the smallest scalar of so many bits, 1 to 528, whose row with window 1 has the most digits that are not 0. Writes it into a buffer of
// 66 bytes, and returns how many these digits are. Questions 15 and 3 are asked.
#[tactic(auto, unfolding(crate::specs::Call::dearest_answer, crate::specs::Call::dearest_buffer))]
pub fn dearest(bits: u32, scalar: &mut [u8]) -> Result<u32, Missed>
    ensures answer { result ≡ dearest_answer bits (length scalar.old) }
    ensures buffer { scalar.new ≡ dearest_buffer bits scalar.old }
    ensures promised { Promised bits result scalar.new }
    ensures question { number result ≡ dearest_question bits (length scalar.old) }
{
    check_size(bits)?;
    check_room(scalar.len())?;
    crate::fill::fill(bits / 2, scalar);
    Ok(most_of(bits))
}
