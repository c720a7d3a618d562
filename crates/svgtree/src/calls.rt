//! Calls as values, and the run of a list of calls.

ghost use Rattle.svgtree.specs.Memory.{nodes_of};
ghost use Rattle.svgtree.specs.Links.{Linked};
ghost use Rattle.svgtree.specs.Runs.{Called, AllCalled, Ran};

use crate::document::Document;
use crate::node::{Node, NodeId};
use element::{Attribute, Kind, Value};
use geom::Options;
use refusal::Refusal;

/// A call that edits a document.
#[derive(Clone, Copy, PartialEq, Debug)]
pub enum Call {
    Add {
        parent: NodeId,
        kind: Kind,
    },
    Set {
        node: NodeId,
        attribute: Attribute,
        value: Value,
    },
    Unset {
        node: NodeId,
        attribute: Attribute,
    },
}

/// What a call did: it added a node, of this number, or edited one.
#[derive(Clone, Copy, PartialEq, Eq, Debug)]
pub enum Done {
    Added(NodeId),
    Edited,
}

/// What a call answers: what it did, or why it was refused.
pub type Answer = Result<Done, Refusal>;

impl Document {
    /// Does one call.
    pub fn call(&mut self, nodes: &mut [Node], call: Call) -> Answer
        ensures { Called self.old nodes.old call result self.new nodes.new }
    {
        match call {
            Call::Add { parent, kind } => self.add(nodes, parent, kind).map(Done::Added),
            Call::Set {
                node,
                attribute,
                value,
            } => self
                .set(nodes, node, attribute, value)
                .map(|()| Done::Edited),
            Call::Unset { node, attribute } => {
                self.unset(nodes, node, attribute).map(|()| Done::Edited)
            }
        }
    }
}

// Does all the calls on a document whose memory is linked.
fn edit(document: &mut Document, nodes: &mut [Node], calls: &[Call], answers: &mut [Answer])
    requires { Linked (nodes_of document.old nodes.old) }
    ensures { AllCalled document.old nodes.old calls.now answers.old document.new nodes.new answers.new }
{
    let mut left = calls.iter();
    for place in answers.iter_mut() {
        let Some(call) = left.next() else { return };
        *place = document.call(nodes, *call);
    }
    // No place is left for these answers.
    for call in left {
        let _ = document.call(nodes, *call);
    }
}

/// Makes a document and does all the calls on it, one after the other, whatever each answers. The answers are written
/// in their order, as many as there is room for: a caller who wants the document alone lends no room.
pub fn run(
    nodes: &mut [Node],
    options: Options,
    calls: &[Call],
    answers: &mut [Answer],
) -> Result<Document, Refusal>
    ensures { Ran options nodes.old calls.now answers.old result nodes.new answers.new }
{
    let mut document = Document::new(nodes, options)?;
    edit(&mut document, nodes, calls, answers);
    Ok(document)
}
