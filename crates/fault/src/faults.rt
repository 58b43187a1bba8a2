// Why a call is refused.
ghost use Rattle.std.specs.Prelude.{◌≡◌, Some};
ghost use Rattle.fault.specs.Faults.{entry, shown_fault, shown_place};

use std::error::Error;
use std::fmt;

/// The part of the product that a fault belongs to.
#[derive(Clone, Copy, PartialEq, Eq, Debug)]
pub enum Part {
    Sheet,
    Rack,
    Check,
    Card,
}

/// Where a fault lies: one value, or two.
#[derive(Clone, Copy, PartialEq, Eq, Debug)]
pub enum Place {
    One(u16),
    Two(u8, u8),
}

/// What is wrong, with the values that say where. `specs/Faults.antt` gives each case its number, place and part.
#[derive(Clone, Copy, PartialEq, Eq)]
pub enum Fault {
    /// The count of contents lines is missing or wrong, or the contents are cut short.
    Contents,
    /// A contents line has another letter than the one due.
    Letter { line: u8 },
    /// A body does not start where the last one ended, or the last does not end the sheet.
    BodyPlace { line: u8 },
    /// A body has a length that its letter does not allow.
    BodySize { line: u8 },
    /// The number of nodes is not 1 to 64.
    NodeCount,
    /// The number of layers is not 1 to 8.
    LayerCount,
    /// A link has an end that is no node, or joins a node to itself.
    LinkEnds { link: u8 },
    /// No walk joins the node to node 0.
    Unjoined { node: u8 },
    /// The cells of a plan sheet are not two bytes for each destination and node.
    PlanSize,
    /// The plan is for another number of nodes than the wiring's.
    NodeCountDiffers,
    /// Lent memory is too short.
    ShortMemory { need: u16 },
    /// There is no such node.
    NoSuchNode { node: u8 },
    /// A node of the wiring has no card.
    CardMissing { node: u8 },
    /// The channel is the card's own where it does not start at the node, or the other way round.
    OwnDiffers { node: u8, channel: u8 },
    /// The call does not fit the rack's phase.
    WrongPhase,
    /// The cell of a destination for itself is filled.
    OwnCellFilled { destination: u8, node: u8 },
    /// The cell of another node is empty.
    CellEmpty { destination: u8, node: u8 },
    /// The channel in a cell does not start at the cell's node.
    StartsElsewhere { destination: u8, node: u8 },
    /// The layer in a cell is not one of the wiring's.
    LayerTooHigh { destination: u8, node: u8 },
    /// The layer in a cell is not the destination's.
    LayerDiffers { destination: u8, node: u8 },
    /// The channel dependencies of a layer have a cycle.
    Cycle { layer: u8 },
    /// A trace has taken as many channels as a route can have and is not at its destination.
    NotArrived { destination: u8 },
    /// No card is seated at the number.
    NotSeated { node: u8 },
    /// A card has no cell for the destination.
    NoSuchDestination { destination: u8 },
    /// The gate is open, so the cells stand.
    GateOpen { node: u8 },
    /// The channel is not the card's own.
    NotOwn { node: u8 },
    /// No wiring has the layer.
    NoSuchLayer { layer: u8 },
    /// A slot map is no permutation, or a split lies past the last node number.
    BadMap,
}

impl Fault {
    /// The number on the display.
    pub fn number(&self) -> u8
        ensures { result ≡ (entry self.now).number }
    {
        match *self {
            Fault::Contents => 1,
            Fault::Letter { .. } => 2,
            Fault::BodyPlace { .. } => 3,
            Fault::BodySize { .. } => 4,
            Fault::NodeCount => 5,
            Fault::LayerCount => 6,
            Fault::LinkEnds { .. } => 7,
            Fault::Unjoined { .. } => 8,
            Fault::PlanSize => 9,
            Fault::NodeCountDiffers => 10,
            Fault::ShortMemory { .. } => 11,
            Fault::NoSuchNode { .. } => 12,
            Fault::CardMissing { .. } => 13,
            Fault::OwnDiffers { .. } => 14,
            Fault::WrongPhase => 15,
            Fault::OwnCellFilled { .. } => 16,
            Fault::CellEmpty { .. } => 17,
            Fault::StartsElsewhere { .. } => 18,
            Fault::LayerTooHigh { .. } => 19,
            Fault::LayerDiffers { .. } => 20,
            Fault::Cycle { .. } => 21,
            Fault::NotArrived { .. } => 22,
            Fault::NotSeated { .. } => 23,
            Fault::NoSuchDestination { .. } => 24,
            Fault::GateOpen { .. } => 25,
            Fault::NotOwn { .. } => 26,
            Fault::NoSuchLayer { .. } => 27,
            Fault::BadMap => 28,
        }
    }

    /// The place on the display.
    pub fn place(&self) -> Place
        ensures { result ≡ (entry self.now).place }
    {
        match *self {
            Fault::Contents | Fault::NodeCount | Fault::LayerCount | Fault::PlanSize => Place::One(
                0,
            ),
            Fault::NodeCountDiffers | Fault::WrongPhase | Fault::BadMap => Place::One(0),
            Fault::Letter { line } | Fault::BodyPlace { line } | Fault::BodySize { line } =>
                Place::One(u16::from(line)),
            Fault::LinkEnds { link } => Place::One(u16::from(link)),
            Fault::ShortMemory { need } => Place::One(need),
            Fault::Unjoined { node } | Fault::NoSuchNode { node } | Fault::CardMissing { node } =>
                Place::One(u16::from(node)),
            Fault::NotSeated { node } | Fault::GateOpen { node } | Fault::NotOwn { node } =>
                Place::One(u16::from(node)),
            Fault::NotArrived { destination } | Fault::NoSuchDestination { destination } =>
                Place::One(u16::from(destination)),
            Fault::Cycle { layer } | Fault::NoSuchLayer { layer } => Place::One(u16::from(layer)),
            Fault::OwnDiffers { node, channel } => Place::Two(node, channel),
            Fault::OwnCellFilled { destination, node }
            | Fault::CellEmpty { destination, node }
            | Fault::StartsElsewhere { destination, node }
            | Fault::LayerTooHigh { destination, node }
            | Fault::LayerDiffers { destination, node } => Place::Two(destination, node),
        }
    }

    /// The part that the fault belongs to.
    pub fn part(&self) -> Part
        ensures { result ≡ (entry self.now).part }
    {
        match *self {
            Fault::Contents
            | Fault::Letter { .. }
            | Fault::BodyPlace { .. }
            | Fault::BodySize { .. }
            | Fault::NodeCount
            | Fault::LayerCount
            | Fault::LinkEnds { .. }
            | Fault::Unjoined { .. }
            | Fault::PlanSize => Part::Sheet,
            Fault::NodeCountDiffers
            | Fault::ShortMemory { .. }
            | Fault::NoSuchNode { .. }
            | Fault::CardMissing { .. }
            | Fault::OwnDiffers { .. }
            | Fault::WrongPhase
            | Fault::NotArrived { .. } => Part::Rack,
            Fault::OwnCellFilled { .. }
            | Fault::CellEmpty { .. }
            | Fault::StartsElsewhere { .. }
            | Fault::LayerTooHigh { .. }
            | Fault::LayerDiffers { .. }
            | Fault::Cycle { .. } => Part::Check,
            Fault::NotSeated { .. }
            | Fault::NoSuchDestination { .. }
            | Fault::GateOpen { .. }
            | Fault::NotOwn { .. }
            | Fault::NoSuchLayer { .. }
            | Fault::BadMap => Part::Card,
        }
    }
}

impl fmt::Display for Place {
    ghost output = { λ p. Some (shown_place p) };

    fn fmt<W: fmt::Write>(&self, f: &mut fmt::Formatter<W>) -> fmt::Result {
        match *self {
            Place::One(a) => write!(f, "{a}"),
            Place::Two(a, b) => write!(f, "{a} {b}"),
        }
    }
}

/// What the display shows: the number, and the values of the place.
impl fmt::Display for Fault {
    ghost output = { λ x. Some (shown_fault x) };

    fn fmt<W: fmt::Write>(&self, f: &mut fmt::Formatter<W>) -> fmt::Result {
        let number = self.number();
        let place = self.place();
        write!(f, "{number} {place}")
    }
}

/// As on the display, so that a failed test shows the number and the place that the documents use.
impl fmt::Debug for Fault {
    ghost debug_output = { λ x. Some (shown_fault x) };

    fn fmt<W: fmt::Write>(&self, f: &mut fmt::Formatter<W>) -> fmt::Result {
        write!(f, "{self}")
    }
}

impl Error for Fault {}
