ghost use Rattle.host.specs.Told.Parts.{Tellable, card_tellable, gateway_tellable};

use digits::{Card, Gateway, Machine};

// A machine whose calls' answers fit the bits in which C is told them.
pub trait Tells: Machine {
    ghost tellable: { Tellable Self.LIMITS };
}

impl Tells for Card {
    ghost tellable = { card_tellable };
}

impl Tells for Gateway {
    ghost tellable = { gateway_tellable };
}
