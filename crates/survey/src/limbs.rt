ghost use Rattle.std.specs.Prelude.{◌*◌, ◌<◌, pos, length};
ghost use Rattle.lines.specs.Coded.{whole};
ghost use Rattle.survey.specs.Sum.{Roomy, Holds, Added};

use lines::Signed;

// What each limb begins with, so that a digit can be taken off it.
const START: u64 = 9223372036854775808;

// The places of a limb.
const PLACES: usize = 16;

// The limbs of 0.
pub fn empty<const LIMBS: usize>() -> [u64; LIMBS]
    ensures { Holds LIMBS 0 result (pos 0) }
{
    [START; LIMBS]
}

// Adds a digit at a place. Over a slice: P's limbs and Q's go through it, and one array's length in the contract is no plainer.
pub fn add(limbs: &mut [u64], place: usize, digit: Signed)
    requires { Roomy limbs.old × (place < 16 * length limbs.old) }
    ensures { Added place (whole digit) limbs.old limbs.new }
{
    let i = place / PLACES;
    let units = (digit.size as u64) << (place % PLACES);
    let limb = limbs[i];
    limbs[i] = if digit.negative {
        limb - units
    } else {
        limb + units
    };
}
