// Which nodes are joined to node 0.
ghost use Rattle.std.specs.Prelude.{◌≡◌, ℕ, ◌<◌, ◌≤◌, length, replicate, Some, None, slice_set, is_some, not, position};
ghost use Rattle.wiring.specs.Links.{drawn, EndsWithin};
ghost use Rattle.wiring.specs.Levels.{spread, level_round, levels};
ghost use Rattle.wiring.specs.Soundness.{unjoined};

use crate::links::Link;

/// In a round, a channel into a node of the round's level gives its start the next level, unless it has one.
fn offer(ranks: &mut [Option<u8>], round: u8, start: u8, end: u8)
    requires within { (start < length ranks.old) × (end < length ranks.old) × (round < 64) }
    ensures after { ranks.new ≡ spread round ranks.old start end }
{
    let Some(level) = ranks[end as usize] else {
        return;
    };
    if level == round && ranks[start as usize].is_none() {
        ranks[start as usize] = Some(round + 1);
    }
}

/// The root is at level 0, if there is such a node.
fn begin(ranks: &mut [Option<u8>], root: u8)
    ensures { ranks.new ≡ slice_set ranks.old root (Some 0) }
{
    // By index: after a `get_mut` no element is known.
    if (root as usize) < ranks.len() {
        ranks[root as usize] = Some(0);
    }
}

/// The place of the first node with no level.
fn first_gap(ranks: &[Option<u8>]) -> Option<usize>
    ensures { result ≡ position (λ rank. not (is_some rank)) ranks.now }
{
    ranks.iter().position(Option::is_none)
}

/// Nodes, and links between them.
#[derive(Clone, Copy)]
pub(crate) struct Graph<'a> {
    pub(crate) nodes: u8,
    pub(crate) links: &'a [Link],
    ghost few: { nodes ≤ 64 },
    ghost within: { EndsWithin nodes links.now },
}

impl Graph<'_> {
    /// One round, over both channels of every link.
    fn run_round(&self, ranks: &mut [Option<u8>], round: u8)
        requires { (length ranks.old ≡ self.now.nodes) × (round < 64) }
        ensures { ranks.new ≡ level_round (drawn 0 0 self.now.links.now) ranks.old round }
    {
        for link in self.links {
            offer(ranks, round, link.first, link.second);
            offer(ranks, round, link.second, link.first);
        }
    }

    /// Every node's level below the root, where there was none.
    pub(crate) fn find_levels(&self, ranks: &mut [Option<u8>], root: u8)
        requires { ranks.old ≡ replicate self.now.nodes None }
        ensures { ranks.new ≡ levels (drawn self.now.nodes 0 self.now.links.now) root }
    {
        begin(ranks, root);
        for round in 0..self.nodes {
            self.run_round(ranks, round);
        }
    }

    /// The lowest node that no walk joins to node 0.
    pub(crate) fn first_unjoined(&self) -> Option<u8>
        ensures { result ≡ unjoined (drawn self.now.nodes 0 self.now.links.now) }
    {
        let mut room = [None; 64];
        let ranks = &mut room[..self.nodes as usize];
        self.find_levels(ranks, 0);
        first_gap(ranks).map(|node| node as u8)
    }
}
