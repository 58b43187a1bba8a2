// A bank behind a slot map.
ghost use Rattle.piles.specs.Slots.{Small, Apart};

/// Node n stands at slot `map[n]` of the bank below; the map is a permutation of 0 to 63.
#[derive(Drop)]
pub struct SlotMap<B> {
    pub(crate) map: [u8; 64],
    pub(crate) below: B,
    ghost small: { Small map },
    ghost apart: { Apart map },
}
