ghost use Rattle.std.specs.Prelude.{◌≡◌, ◌+◌, ◌*◌, ◌≤◌, leb};
ghost use Rattle.digits.specs.Asked.{Asked};
ghost use Rattle.digits.specs.Limits.{gateway};
ghost use Rattle.digits.specs.declared.missed.Missed.TheVariants.{NoRoom};

use crate::missed::Missed;

// Question 3: whether a buffer has so many places.
pub fn check_room(places: usize, room: usize) -> Result<(), Missed>
    ensures { Asked (leb places room) NoRoom result }
{
    if places <= room {
        return Ok(());
    }
    Err(Missed::NoRoom)
}

// The places of a digit buffer for scalars of at most so many bytes: eight for each, and one more.
pub fn places_for(bytes: usize) -> usize
    requires { bytes ≤ gateway.bytes }
    ensures { result ≡ 8 * bytes + 1 }
{
    8 * bytes + 1
}
