// What a search has come to.
ghost use Rattle.std.specs.Prelude.{◌≡◌, ◌+◌, ◌≤◌, not, length, count_by};

/// The channels that a search has seen, and a stack of those that it has still to look at.
// Memory is fixed: std has no stack in an array, no other library stands under the controller, and a type for this one stack would be no plainer.
#[derive(Drop)]
pub(crate) struct Visits {
    pub(crate) seen: [bool; 240],
    pub(crate) stack: [u8; 240],
    pub(crate) count: usize,
    ghost sizes: { (length seen ≡ 240) × (length stack ≡ 240) },
    ghost room: { count + count_by not seen ≤ 240 },
}
