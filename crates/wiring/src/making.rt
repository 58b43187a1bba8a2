// Wirings from numbers and links.
ghost use Rattle.std.specs.Prelude.{◌≡◌, ℕ, ◌<◌, ◌≤◌, map, length, take, MatchResult};
ghost use Rattle.fault.specs.Faults.{judged};
ghost use Rattle.wiring.specs.Links.{ends_of, fresh, drawn};
ghost use Rattle.wiring.specs.Soundness.{fine_link, bad_link, topology_fault, sound_answer, LowestTold};
ghost use Rattle.wiring.specs.Topologies.{Valid};
ghost use Rattle.wiring.specs.Wirings.{topology, seen};

use crate::joining::Graph;
use crate::links::Link;
use crate::wirings::Wiring;
use fault::Fault;

/// Whether a link joins two different nodes.
fn is_fine(nodes: u8, link: Link) -> bool
    ensures { result ≡ fine_link nodes (ends_of link) }
{
    link.first < nodes && link.second < nodes && link.first != link.second
}

/// The first link that does not.
fn first_bad(nodes: u8, links: &[Link]) -> Option<u8>
    requires { length links.now ≤ 120 }
    ensures { result ≡ bad_link nodes 0 (map ends_of links.now) }
{
    links
        .iter()
        .position(|link| !is_fine(nodes, *link))
        .map(|place| place as u8)
}

/// The links with their loads at 1, in room for 120.
fn renewed(links: &[Link]) -> [Link; 120]
    requires { length links.now ≤ 120 }
    ensures front { take (length links.now) result ≡ map fresh (map ends_of links.now) }
    ensures len { length result ≡ 120 }
{
    let mut held = [Link::new(0, 0); 120];
    // Not `array::from_fn`: it would ask at each of 120 places whether there is a link.
    for (place, link) in links.iter().enumerate() {
        held[place] = Link::new(link.first, link.second);
    }
    held
}

/// Refuses what is wrong with a wiring of these links, the lowest number first.
fn check(nodes: u8, layers: u8, links: &[Link]) -> Result<(), Fault>
    ensures { result ≡ judged (topology_fault (drawn nodes layers links.now)) }
{
    if links.len() > 120 {
        return Err(Fault::BodySize { line: 0 });
    }
    if !(1..=64).contains(&nodes) {
        return Err(Fault::NodeCount);
    }
    if !(1..=8).contains(&layers) {
        return Err(Fault::LayerCount);
    }
    if let Some(link) = first_bad(nodes, links) {
        return Err(Fault::LinkEnds { link });
    }
    match (Graph { nodes, links }).first_unjoined() {
        Some(node) => Err(Fault::Unjoined { node }),
        None => Ok(()),
    }
}

impl Wiring {
    /// The wiring of these links, with their loads at 1, or what is wrong with it.
    pub fn new(nodes: u8, layers: u8, links: &[Link]) -> Result<Wiring, Fault>
        ensures answer { seen result ≡ sound_answer (drawn nodes layers links.now) }
        ensures valid { MatchResult result (λ w. Valid (topology w)) (λ f. LowestTold (drawn nodes layers links.now) f) }
    {
        check(nodes, layers, links)?;
        let count = links.len() as u8;
        let links = renewed(links);
        Ok(Wiring {
            nodes,
            layers,
            count,
            links,
        })
    }
}
