// The dependencies of escape routes, marked used.
ghost use Rattle.std.specs.Prelude.{◌≡◌};
ghost use Rattle.marks.specs.Marked.{marked, with_all};
ghost use Rattle.tree.specs.Dependencies.{dep_of, dependency_at, deps_to, escape_deps};
ghost use Rattle.tree.specs.Escapes.{Known};
ghost use Rattle.tree.specs.Marking.{Adds, MarkedExactly, MarkedFree};
ghost use Rattle.tree.specs.Trees.{net_of, ups_of};

use crate::tables::at_node;
use crate::trees::EscapeTree;
use marks::Marks;
use wiring::Dependency;

impl<'a> EscapeTree<'a> {
    /// The dependency of a node's channel on that of the node where it ends; none where either has no channel.
    fn dependency_at(&self, routes: &[Option<u8>; 64], node: u8) -> Option<Dependency>
        ensures { result ≡ dependency_at (net_of self.now) routes.now node }
    {
        let channel = at_node(routes, node)?;
        let on = at_node(routes, self.wiring.into(channel))?;
        Some(Dependency { channel, on })
    }

    /// Marks the dependency of a node's channel on that of the node where it ends.
    fn mark_node(&self, routes: &[Option<u8>; 64], node: u8, marks: &mut Marks)
        requires { Known (net_of self.now) routes.now }
        ensures { Adds (dep_of (net_of self.now) routes.now) node (marked marks.old) (marked marks.new) }
    {
        if let Some(dependency) = self.dependency_at(routes, node) {
            marks.set_used(dependency);
        }
    }

    /// Marks the dependencies of the routes to a destination.
    fn mark_destination(&self, destination: u8, marks: &mut Marks)
        ensures { Adds (deps_to (net_of self.now) (ups_of self.now)) destination (marked marks.old) (marked marks.new) }
    {
        let routes = self.routes_to(destination);
        for node in 0..self.wiring.nodes() {
            self.mark_node(&routes, node, marks);
        }
    }

    /// Marks the dependencies of the routes to these destinations as used, and changes no other mark.
    pub fn mark_routes(&self, destinations: &[u8], marks: &mut Marks)
        ensures answer { marked marks.new ≡ with_all (marked marks.old) (escape_deps (net_of self.now) (ups_of self.now) destinations.now) }
        ensures exact { MarkedExactly (net_of self.now) (ups_of self.now) destinations.now (marked marks.old) (marked marks.new) }
        ensures free { MarkedFree (net_of self.now) self.now.root destinations.now (marked marks.old) (marked marks.new) }
    {
        for &destination in destinations {
            self.mark_destination(destination, marks);
        }
    }
}
