ghost use Rattle.std.specs.Prelude.{◌≡◌, refl};
ghost use Rattle.std.proofs.Common.{arith};
ghost use Rattle.survey.specs.Sum.{limbs_of};
ghost use Rattle.survey.specs.Survey.{Held};

use digits::{Card, Gateway, Machine};

// A machine that reads sheets: its sums have a limb for 16 doublings, and one more. LIMBS is a parameter, since no constant of a trait may be the
// length of an array.
pub trait Surveyor<const LIMBS: usize>: Machine {
    // The numbers of the survey have room for the machine's limits.
    ghost held: { Held Self.LIMITS };

    ghost limbs: { LIMBS ≡ limbs_of Self.LIMITS };
}

impl Surveyor<34> for Card {
    ghost held = { record { figures = Prim.omega arith; scalars = Prim.omega arith; doublings = Prim.omega arith; sheet = Prim.omega arith } };

    ghost limbs = { refl };
}

impl Surveyor<65> for Gateway {
    ghost held = { record { figures = Prim.omega arith; scalars = Prim.omega arith; doublings = Prim.omega arith; sheet = Prim.omega arith } };

    ghost limbs = { refl };
}
