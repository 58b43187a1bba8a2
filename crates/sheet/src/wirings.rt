// Wiring sheets as they are read.
ghost use Rattle.std.specs.Prelude.{◌≡◌, ◌/◌, ◌≤◌, map, length, take, MatchResult};
ghost use Rattle.wiring.specs.Links.{ends_of};
ghost use Rattle.wiring.specs.Soundness.{sound_answer, LowestTold};
ghost use Rattle.wiring.specs.Topologies.{Valid};
ghost use Rattle.wiring.specs.Wirings.{topology, seen};
ghost use Rattle.sheet.specs.Wirings.{links_in, wired, wiring_in, read_wiring};

use crate::reading::byte_at;
use crate::{Letter, Reader, check_contents};
use fault::Fault;
use wiring::{Link, Wiring};

/// The links of a body, two bytes a link, in room for 120.
fn read_links(body: &[u8]) -> [Link; 120]
    requires { length body.now ≤ 240 }
    ensures front { map ends_of (take (length body.now / 2) result) ≡ links_in body.now }
    ensures len { length result ≡ 120 }
{
    let mut links = [Link::new(0, 0); 120];
    let (pairs, _) = body.as_chunks::<2>();
    // Not `array::from_fn`: it would ask at each of 120 places whether there is a pair.
    for (place, [first, second]) in pairs.iter().enumerate() {
        links[place] = Link::new(*first, *second);
    }
    links
}

/// The wiring of these numbers and links, or what is wrong with it.
fn whole_wiring(nodes: u8, layers: u8, body: &[u8]) -> Result<Wiring, Fault>
    requires { length body.now ≤ 240 }
    ensures answer { seen result ≡ sound_answer (wired nodes layers body.now) }
    ensures valid { MatchResult result (λ w. Valid (topology w)) (λ f. LowestTold (wired nodes layers body.now) f) }
{
    let links = read_links(body);
    Wiring::new(nodes, layers, &links[..body.len() / 2])
}

/// The wiring in a sheet, or the first fault of it.
pub fn read_wiring(bytes: &[u8]) -> Result<Wiring, Fault>
    ensures answer { seen result ≡ read_wiring bytes.now }
    ensures valid { MatchResult result (λ w. Valid (topology w)) (λ f. LowestTold (wiring_in bytes.now) f) }
{
    check_contents(bytes, &[Letter::L, Letter::N, Letter::V])?;
    let mut reader = Reader::new(bytes);
    let links = reader.body();
    let nodes = byte_at(reader.body(), 0);
    let layers = byte_at(reader.body(), 0);
    whole_wiring(nodes, layers, links)
}
