// Each node's own channels, so that nobody has to look through all channels.
ghost use Rattle.std.specs.Prelude.{◌≡◌, ℕ, ◌+◌, ◌<◌, ◌≤◌, length, slice_index};

/// The own channels of every node, upward. Memory is fixed, so they lie in one array, node behind node, and not in a `Vec` for each.
#[derive(Debug, Drop)]
pub struct Ports {
    pub(crate) channels: [u8; 240],
    /// Where each node's channels begin, and behind the last node where they end.
    pub(crate) begins: [u8; 65],
    ghost room: { length channels ≡ 240 },
    ghost nodes: { length begins ≡ 65 },
    ghost rises: { (n : ℕ) → n < 64 → slice_index begins n ≤ slice_index begins (n + 1) },
    ghost within: { (n : ℕ) → n < 65 → slice_index begins n ≤ 240 },
}
