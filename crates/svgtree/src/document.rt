ghost use Rattle.std.specs.Prelude.{◌≡◌, ◌<◌, length, Some, None};
ghost use Rattle.std.specs.List.{slice_get};
ghost use Rattle.std.specs.Option.{ForSome};
ghost use Rattle.svgtree.specs.Steps.{good_options, set_step, unset_step};
ghost use Rattle.svgtree.specs.Model.{children, later_siblings};
ghost use Rattle.svgtree.specs.Memory.{nodes_of, model_of, node_at, link_within, tied};
ghost use Rattle.svgtree.specs.Links.{Linked, onward, head};
ghost use Rattle.svgtree.specs.Edits.{Begun, Added, Edited};

use crate::allowed::{has_form, in_range, takes, takes_child};
use crate::limits::{MAX_DPI, MAX_FONT_SIZE, MAX_LEVELS, MAX_NODES, MIN_DPI};
use crate::node::{Node, NodeId};
use element::{Attribute, Kind, Value};
use geom::Options;
use refusal::{Refusal, first};

/// A document: how many nodes it has, and its options. It is lent its nodes at each call, and its count is read as at
/// most the number lent.
#[derive(Clone, Copy, PartialEq, Debug)]
pub struct Document {
    pub count: usize,
    pub options: Options,
}

impl Document {
    /// A document of one node, the root: an svg without attributes.
    pub fn new(nodes: &mut [Node], options: Options) -> Result<Document, Refusal>
        ensures { Begun options nodes.old result nodes.new }
    {
        first(&[
            (nodes.is_empty(), Refusal::DocumentFull),
            (!are_good(options), Refusal::BadValue),
        ])?;
        let count = list::add(nodes, 0, Node::new(Kind::Svg, 0, 1)).map_err(
            |_| Refusal::DocumentFull,
        )?;
        Ok(Document { count, options })
    }

    /// How many nodes are in use.
    pub fn used(&self, nodes: &[Node]) -> usize
        ensures { result ≡ length (nodes_of self.now nodes.now) }
    {
        list::count(nodes, self.count)
    }

    /// The node of this number, if it was added.
    pub fn node(&self, nodes: &[Node], node: NodeId) -> Option<Node>
        ensures { result ≡ slice_get (nodes_of self.now nodes.now) node }
    {
        list::read(nodes, self.count, node as usize)
    }

    /// The first child of a node, if it has one. Only a link to a later node in use is followed.
    pub fn first_child(&self, nodes: &[Node], node: NodeId) -> Option<NodeId>
        ensures link { result ≡ onward (length (nodes_of self.now nodes.now)) node (node_at (nodes_of self.now nodes.now) node).first_child }
        ensures child { Linked (nodes_of self.now nodes.now) → result ≡ head (children (model_of self.now nodes.now) node) }
    {
        let found = self.node(nodes, node)?;
        followed(node, found.first_child, self.used(nodes))
    }

    /// The next child of the node's parent, if there is one. Only a link to a later node in use is followed.
    pub fn next_sibling(&self, nodes: &[Node], node: NodeId) -> Option<NodeId>
        ensures link { result ≡ onward (length (nodes_of self.now nodes.now)) node (node_at (nodes_of self.now nodes.now) node).next_sibling }
        ensures sibling { Linked (nodes_of self.now nodes.now) → 0 < node → result ≡ head (later_siblings (model_of self.now nodes.now) node) }
    {
        let found = self.node(nodes, node)?;
        followed(node, found.next_sibling, self.used(nodes))
    }

    /// Adds a node without attributes as the last child of its parent, and answers its number.
    pub fn add(&mut self, nodes: &mut [Node], parent: NodeId, kind: Kind) -> Result<NodeId, Refusal>
        ensures { Added self.old nodes.old parent kind result self.new nodes.new }
    {
        let count = self.used(nodes);
        let above = self.node(nodes, parent).ok_or(Refusal::UnknownNode)?;
        let last = link_within(above.last_child, count);
        first(&[
            (
                !takes_child(above.element.kind, last.is_some()),
                Refusal::ChildNotAllowed,
            ),
            (count >= nodes.len().min(MAX_NODES), Refusal::DocumentFull),
            (above.level >= MAX_LEVELS, Refusal::TooDeep),
        ])?;
        let more = list::add(nodes, count, Node::new(kind, parent, above.level + 1)).map_err(
            |_| Refusal::DocumentFull,
        )?;
        tie(nodes, parent, last, count as NodeId);
        self.count = more;
        Ok(count as NodeId)
    }

    /// Gives a node a value of an attribute, for any earlier one.
    pub fn set(
        &self,
        nodes: &mut [Node],
        node: NodeId,
        attribute: Attribute,
        value: Value,
    ) -> Result<(), Refusal>
        ensures { Edited self.now nodes.old node attribute (Some value) (set_step (model_of self.now nodes.old) node attribute value) result nodes.new }
    {
        let found = self.node(nodes, node).ok_or(Refusal::UnknownNode)?;
        let taken = takes(node == 0, found.element.kind, attribute);
        first(&[
            (!taken, Refusal::AttributeNotAllowed),
            (!has_form(attribute, value), Refusal::AttributeNotAllowed),
            (!in_range(attribute, value), Refusal::BadValue),
        ])?;
        let changed = found.with(attribute, Some(value));
        list::replace(nodes, self.count, node as usize, changed);
        Ok(())
    }

    /// Leaves a node without a value of an attribute.
    pub fn unset(
        &self,
        nodes: &mut [Node],
        node: NodeId,
        attribute: Attribute,
    ) -> Result<(), Refusal>
        ensures { Edited self.now nodes.old node attribute None (unset_step (model_of self.now nodes.old) node attribute) result nodes.new }
    {
        let found = self.node(nodes, node).ok_or(Refusal::UnknownNode)?;
        if !takes(node == 0, found.element.kind, attribute) {
            return Err(Refusal::AttributeNotAllowed);
        }
        let changed = found.with(attribute, None);
        list::replace(nodes, self.count, node as usize, changed);
        Ok(())
    }
}

// A dpi from the least to the greatest, and a font size above 0 and up to the greatest.
fn are_good(options: Options) -> bool
    ensures { result ≡ good_options options }
{
    MIN_DPI <= options.dpi
        && options.dpi <= MAX_DPI
        && 0.0 < options.font_size
        && options.font_size <= MAX_FONT_SIZE
}

// The node that a link leads to, if that is a later one in use.
fn followed(from: NodeId, link: Option<NodeId>, count: usize) -> Option<NodeId>
    ensures { result ≡ onward count from link }
{
    link.filter(|k| from < *k && (*k as usize) < count)
}

// A link, or none where it leads out of the nodes in use.
fn link_within(link: Option<NodeId>, count: usize) -> Option<NodeId>
    ensures { result ≡ link_within count link }
{
    link.filter(|k| (*k as usize) < count)
}

// Ties a new node to its parent, behind its last child if it has one.
fn tie(nodes: &mut [Node], parent: NodeId, last: Option<NodeId>, new: NodeId)
    requires parent { parent < length nodes.old }
    requires last { ForSome last (λ k. k < length nodes.old) }
    ensures { nodes.new ≡ tied nodes.old parent last new }
{
    match last {
        Some(k) => nodes[k as usize].next_sibling = Some(new),
        None => nodes[parent as usize].first_child = Some(new),
    }
    nodes[parent as usize].last_child = Some(new);
}
