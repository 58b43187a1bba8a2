// Wirings with the own channels of their nodes.
ghost use Rattle.std.specs.Prelude.{◌≡◌, ℕ};
ghost use Rattle.wiring.specs.Spans.{owned};
ghost use Rattle.wiring.specs.Owned.{own};
ghost use Rattle.wiring.specs.Wirings.{topology};

use crate::own::Ports;
use crate::wirings::Wiring;

/// A wiring, and the own channels of its nodes, found once.
#[derive(Debug, Drop)]
pub struct Network<'a> {
    pub(crate) wiring: &'a Wiring,
    pub(crate) ports: Ports,
    ghost laid: { (n : ℕ) → owned ports n ≡ own (topology wiring.now) n },
}
