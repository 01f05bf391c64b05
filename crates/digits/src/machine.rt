ghost use Rattle.std.specs.Prelude.{◌≤◌};
ghost use Rattle.digits.specs.Limits.{card, gateway};
ghost use Rattle.digits.specs.declared.limits.Limits.{Limits};
ghost use Rattle.std.proofs.Common.{arith};

use crate::limits::Limits;

// A machine that calls are made for, by its limits.
pub trait Machine {
    ghost LIMITS: { Limits };
    // No machine takes longer scalars than the gateway.
    ghost small: { LIMITS.bytes ≤ gateway.bytes };

    const LIMITS: Limits;
}

// The card that verifies signatures.
pub struct Card;

// The gateway.
pub struct Gateway;

impl Machine for Card {
    ghost LIMITS = { card };

    ghost small = { Prim.omega arith };

    const LIMITS: Limits = Limits {
        bytes: 66,
        figures: 132,
        doublings: 528,
        sheet: 16384,
    };
}

impl Machine for Gateway {
    ghost LIMITS = { gateway };

    ghost small = { Prim.omega arith };

    const LIMITS: Limits = Limits {
        bytes: 128,
        figures: 256,
        doublings: 1024,
        sheet: 32768,
    };
}
