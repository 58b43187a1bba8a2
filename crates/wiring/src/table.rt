// Forwarding cells, wherever they are held.
ghost use Rattle.std.specs.Prelude.{◌≡◌};
ghost use Rattle.wiring.specs.Tables.{Table};

/// A forwarding cell: empty, or the channel to take and its layer.
// No `Option<Hop>`: a bank's `Ok(None)`, a reader's `None` and an empty cell would read alike.
#[derive(Clone, Copy, PartialEq, Eq, Debug)]
pub enum Cell {
    Empty,
    Hop { channel: u8, layer: u8 },
}

/// What holds a cell for every destination and node.
pub trait Cells {
    /// The cell of node n for destination d, as `meant x d n`.
    ghost meant: { Self → Table };

    /// The cell of a node for a destination.
    fn cell(&self, destination: u8, node: u8) -> Cell
        ensures { result ≡ meant self.now destination node };
}
