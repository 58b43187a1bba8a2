// Ports: a card's own channels, counted upward from 1.
ghost use Rattle.std.specs.Prelude.{◌≡◌, ◌==◌, ◌≤◌, length, is_some, position};
ghost use Rattle.cards.specs.Decks.{Holds};
ghost use Rattle.cards.specs.Porting.{port_of, meant_by};

use wiring::Cell;

/// What a filled cell holds, by the card's ports.
#[derive(Clone, Copy, PartialEq, Eq, Debug)]
pub struct PortCell {
    pub port: u8,
    pub layer: u8,
}

/// The place of a channel among the own channels.
fn find_place(own: &[u8], channel: u8) -> Option<usize>
    ensures { result ≡ position (λ c. c == channel) own.now }
{
    own.iter().position(|&c| c == channel)
}

/// The port of a channel: its place among the own channels, counted from 1.
pub(crate) fn find_port(own: &[u8], channel: u8) -> Option<u8>
    requires { length own.now ≤ 240 }
    ensures { result ≡ port_of own.now channel }
{
    let place = find_place(own, channel)?;
    Some(place as u8 + 1)
}

/// What a port cell stands for, by the own channels.
pub(crate) fn read_port(own: &[u8], cell: Option<PortCell>) -> Cell
    ensures { result ≡ meant_by own.now cell }
{
    let Some(kept) = cell else {
        return Cell::Empty;
    };
    let place = (kept.port as usize).saturating_sub(1);
    let channel = own.get(place).copied().unwrap_or(0);
    let layer = kept.layer;
    Cell::Hop { channel, layer }
}

/// The port cell for a cell whose channel is one of the own channels.
pub(crate) fn to_port(own: &[u8], cell: Cell) -> Option<PortCell>
    requires { length own.now ≤ 240 }
    ensures { Holds (λ c. is_some (port_of own.now c)) cell → meant_by own.now result ≡ cell }
{
    let Cell::Hop { channel, layer } = cell else {
        return None;
    };
    let port = find_port(own, channel)?;
    Some(PortCell { port, layer })
}
