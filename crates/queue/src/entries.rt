// What waits in a queue.

/// A key and the cost that it waits at. The lesser comes sooner: by cost, and among equal costs the lower key.
#[derive(Clone, Copy, PartialEq, Eq, PartialOrd, Ord)]
pub struct Entry<K> {
    pub cost: K,
    pub key: u8,
}
