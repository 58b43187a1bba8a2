// The queue, in memory lent to it.
ghost use Rattle.std.specs.Prelude.{◌≡◌, ◌↔◌, ◌<◌, length, IsOk, IsTrue, Some, codes};
ghost use Rattle.queue.specs.Order.{Ordered, Ordered-prop};

use crate::entries::Entry;
use crate::sifting::{sift_down, sift_up};
use cost::Cost;
use std::error::Error;
use std::fmt;

/// A binary heap in lent memory: its contents are the first `len` entries, and no child comes sooner than its parent.
#[derive(Drop)]
pub struct Heap<'a, K: Cost> {
    entries: &'a mut [Entry<K>],
    // Beside the slice, since the queue takes no memory of its own.
    len: usize,
    ghost ordered: { Ordered K.cmp entries.now len } by { Ordered-prop K.cmp entries.now len },
}

/// The lent memory holds as many entries as it can.
#[derive(Clone, Copy, Debug, PartialEq, Eq)]
pub struct NoRoom;

impl fmt::Display for NoRoom {
    ghost output = { λ _. Some (codes "no room for one more entry") };

    fn fmt<W: fmt::Write>(&self, f: &mut fmt::Formatter<W>) -> fmt::Result {
        write!(f, "no room for one more entry")
    }
}

impl Error for NoRoom {}

impl<'a, K: Cost> Heap<'a, K> {
    ghost use Rattle.queue.specs.Heaps.{capacity, Pushed, Popped};

    /// An empty queue in this memory.
    #[tactic(auto, using(crate::proofs::HeapLaws::none_ordered))]
    pub fn new(entries: &'a mut [Entry<K>]) -> Heap<'a, K>
        ensures len { result.len ≡ 0 }
        ensures memory { result.entries.now ≡ entries.old }
        ensures size { capacity result ≡ length entries.old }
        ensures lent { result.entries.ghost_name ≡ entries.entry.ghost_name }
    {
        Heap { entries, len: 0 }
    }

    /// How many entries wait.
    pub fn len(&self) -> usize
        ensures { result ≡ self.now.len }
    {
        self.len
    }

    /// Whether none waits.
    pub fn is_empty(&self) -> bool
        ensures { IsTrue result ↔ (self.now.len ≡ 0) }
    {
        self.len == 0
    }

    /// Takes `new` in, exactly where there is room; else nothing changes.
    #[tactic(auto, using(crate::proofs::HeapLaws::push_ordered))]
    pub fn push(&mut self, new: Entry<K>) -> Result<(), NoRoom>
        ensures room { IsOk result ↔ (self.old.len < capacity self.old) }
        ensures pushed { Pushed result new self.old self.new }
        ensures size { capacity self.new ≡ capacity self.old }
        ensures lent { self.new.entries.ghost_name ≡ self.old.entries.ghost_name }
    {
        let len = self.len;
        if len >= self.entries.len() {
            return Err(NoRoom);
        }
        self.entries[len] = new;
        sift_up(&mut self.entries[0..len + 1]);
        self.len = len + 1;
        Ok(())
    }

    /// Hands out the entry that comes first, by cost and then by key; `None` where none waits, and then nothing changed.
    pub fn pop(&mut self) -> Option<Entry<K>>
        ensures popped { Popped K.cmp result self.old self.new }
        ensures size { capacity self.new ≡ capacity self.old }
        ensures lent { self.new.entries.ghost_name ≡ self.old.entries.ghost_name }
    {
        if self.len == 0 {
            return None;
        }
        let len = self.len - 1;
        let run = &mut self.entries[0..self.len];
        let first = run[0];
        let last = run[len];
        run[0] = last;
        sift_down(&mut run[0..len]);
        self.len = len;
        Some(first)
    }
}
