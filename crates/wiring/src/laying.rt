// The table of own channels, from a wiring.
ghost use Rattle.std.specs.Prelude.{◌≡◌, ℕ, ◌+◌, ◌<◌, ◌≤◌, ◌++◌, length, take, slice_index};
ghost use Rattle.wiring.specs.Owned.{own, laid, Owns};
ghost use Rattle.wiring.specs.Spans.{owned};
ghost use Rattle.wiring.specs.Wirings.{topology};

use crate::own::Ports;
use crate::wirings::Wiring;

/// Adds the own channels of a node behind the first ones, and answers where they end.
fn list_own(wiring: &Wiring, held: &mut [u8; 240], node: u8, begin: u8) -> u8
    requires { begin + length (own (topology wiring.now) node) ≤ 240 }
    ensures end { result ≡ begin + length (own (topology wiring.now) node) }
    ensures after { take result held.new ≡ take begin held.old ++ own (topology wiring.now) node }
{
    let count = wiring.channels();
    // No `Vec` to push to: memory is fixed.
    let mut top = begin;
    for channel in 0..count {
        if wiring.from(channel) != node {
            continue;
        }
        held[top as usize] = channel;
        top += 1;
    }
    top
}

/// Lists the own channels of every node, one node behind the other.
fn list_all(wiring: &Wiring, held: &mut [u8; 240], begins: &mut [u8; 65])
    requires { slice_index begins.old 0 ≡ 0 }
    ensures begun { (i : ℕ) → i < 65 → slice_index begins.new i ≡ length (laid (topology wiring.now) i) }
    ensures after { take (length (laid (topology wiring.now) 64)) held.new ≡ laid (topology wiring.now) 64 }
{
    // Not over `begins` itself: each turn reads one entry and writes the next.
    for node in 0..64u8 {
        let begin = begins[node as usize];
        begins[node as usize + 1] = list_own(wiring, held, node, begin);
    }
}

impl Ports {
    /// The own channels of the nodes of a wiring.
    pub fn new(wiring: &Wiring) -> Ports
        ensures answer { (n : ℕ) → owned result n ≡ own (topology wiring.now) n }
        ensures exact { (n : ℕ) → Owns (topology wiring.now) n (owned result n) }
    {
        let mut channels = [0u8; 240];
        let mut begins = [0u8; 65];
        list_all(wiring, &mut channels, &mut begins);
        Ports { channels, begins }
    }

    /// A node's own channels, upward; none where there is no such node.
    pub fn own(&self, node: u8) -> &[u8]
        ensures { result.now ≡ owned self.now node }
    {
        if node >= 64 {
            return &[];
        }
        // By index: a pattern on the two entries is no plainer.
        let begin = self.begins[node as usize];
        let end = self.begins[node as usize + 1];
        &self.channels[begin as usize..end as usize]
    }
}
