// Escape routes: up along the tree, and back down along the partners of up channels.
ghost use Rattle.std.specs.Prelude.{◌≡◌};
ghost use Rattle.wiring.specs.Levels.{padded};
ghost use Rattle.tree.specs.Escapes.{escape_routes, AllEscape};
ghost use Rattle.tree.specs.Trees.{net_of, ups_of};

use crate::tables::set_node;
use crate::trees::EscapeTree;
use wiring::partner_of;

impl<'a> EscapeTree<'a> {
    /// The channel that each node takes to a destination: down where the destination lies below it, else up.
    pub fn routes_to(&self, destination: u8) -> [Option<u8>; 64]
        ensures answer { result ≡ padded (escape_routes (net_of self.now) (ups_of self.now) destination) }
        ensures arrive { AllEscape (net_of self.now) self.now.root (ups_of self.now) destination result }
    {
        let mut routes = self.ups;
        set_node(&mut routes, destination, None);
        let mut node = destination;
        while let Some(channel) = self.up(node) {
            node = self.wiring.into(channel);
            set_node(&mut routes, node, partner_of(channel));
        }
        routes
    }
}
