ghost use Rattle.std.specs.Prelude.{◌≡◌};
ghost use Rattle.svgtree.specs.Memory.{fresh, value_changed};

use crate::limits::Level;
use element::{Attribute, Element, Kind, Value};

/// The type of a node's number; the root's is 0.
pub type NodeId = u32;

/// A node: its element, its parent and its level, and links to its first and last child and its next sibling.
/// A link leads to a number above the node's own. The root's parent is 0 and means nothing.
#[derive(Clone, Copy)]
pub struct Node {
    pub element: Element,
    pub parent: NodeId,
    pub level: Level,
    pub first_child: Option<NodeId>,
    pub last_child: Option<NodeId>,
    pub next_sibling: Option<NodeId>,
}

impl Node {
    /// A node without attributes, children or a next sibling.
    pub fn new(kind: Kind, parent: NodeId, level: Level) -> Node
        ensures { result ≡ fresh kind parent level }
    {
        Node {
            element: Element::new(kind),
            parent,
            level,
            first_child: None,
            last_child: None,
            next_sibling: None,
        }
    }

    /// The node with this value of the attribute, or without one.
    pub(crate) fn with(mut self, attribute: Attribute, value: Option<Value>) -> Node
        ensures { result ≡ value_changed self attribute value }
    {
        // In place: by `Element::with` each edit of a document would copy the element twice more.
        self.element.attributes[attribute.place()] = value;
        self
    }
}
