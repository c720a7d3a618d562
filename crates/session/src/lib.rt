//! Doing commands on a document.

#![tactic(auto)]

mod error;

ghost use Rattle.std.specs.Prelude.{◌≡◌, None, IfSome, vec_items};
ghost use Rattle.svgtree.specs.Links.{Linked};
ghost use Rattle.svgtree.specs.Memory.{nodes_of};
ghost use Rattle.svgtree.specs.Steps.{new_step};
ghost use Rattle.std.proofs.Props.{props};
ghost use Rattle.session.specs.Agreement.{linked_prop};
ghost use Rattle.session.specs.Room.{room_for};
ghost use Rattle.session.specs.Size.{size_of};

use drawing::Command;
use element::{Attribute, Element, Kind};
pub use error::CommandError;
use geom::{Options, RootAttributes, RootSize, convert_length, resolve_svg_size};
use refusal::Refusal;
use reply::Answer;
use std::alloc::Global;
use svgtree::{Call, Document, MAX_NODES, Node};

/// A document, if there is one, and the memory of its nodes, whose links agree with the document.
#[derive(Drop)]
pub struct Session {
    document: Option<Document>,
    nodes: Vec<Node>,
    ghost linked: { IfSome document (λ d. Linked (nodes_of d (vec_items nodes))) } by { Prim.hlevel (props, linked_prop) },
}

// Memory for as many nodes as are asked for, but at most for as many as a document has.
fn room_for(nodes: Option<u32>) -> usize
    ensures { result ≡ room_for nodes }
{
    nodes.map_or(MAX_NODES, |count| (count as usize).min(MAX_NODES))
}

// The size of a document whose root is this element.
fn size_of(root: &Element, options: Options) -> Result<RootSize, Refusal>
    ensures { result ≡ size_of root.now options }
{
    let attributes = RootAttributes {
        width: root.attribute(Attribute::Width),
        height: root.attribute(Attribute::Height),
        view_box: root.view_box(),
    };
    resolve_svg_size(attributes, options)
}

impl Session {
    ghost use Rattle.session.specs.State.{state_of};
    ghost use Rattle.session.specs.Steps.{begun, edited, size_answer, step};
    ghost use Rattle.session.specs.Runs.{Stepped, Ran};

    /// A session without a document.
    pub fn new(heap: Global) -> Session
        ensures { state_of result ≡ record { document = None; room = 0 } }
    {
        Session {
            document: None,
            nodes: Vec::new(heap),
        }
    }

    // Makes a new document in memory of its own; where that is refused, any earlier one stays.
    fn begin(
        &mut self,
        heap: Global,
        options: Options,
        nodes: Option<u32>,
    ) -> Result<Answer, CommandError>
        ensures { Ran self.old (λ s. begun s (room_for nodes) (new_step (room_for nodes) options)) result self.new }
    {
        let mut memory = vec![in heap; Node::new(Kind::Svg, 0, 0); room_for(nodes)]?;
        let document = Document::new(memory.as_mut_slice(), options)?;
        self.document = Some(document);
        self.nodes = memory;
        Ok(Answer::Node(0))
    }

    fn edit(&mut self, call: Call) -> Result<Answer, Refusal>
        ensures { Stepped self.old (λ s. edited s s.document call) result self.new }
    {
        let mut document = self.document.ok_or(Refusal::UnknownNode)?;
        let told = document.call(self.nodes.as_mut_slice(), call);
        self.document = Some(document);
        Ok(told?.into())
    }

    fn size(&self) -> Result<Answer, Refusal>
        ensures { result ≡ size_answer (state_of self.now).document }
    {
        let document = self.document.ok_or(Refusal::UnknownNode)?;
        let root = document
            .node(self.nodes.as_slice(), 0)
            .ok_or(Refusal::UnknownNode)?;
        size_of(&root.element, document.options).map(Answer::Size)
    }

    /// Does a command and answers it, or says why it is refused. Where there is no memory for a new document, nothing is
    /// changed.
    pub fn run(&mut self, heap: Global, command: Command) -> Result<Answer, CommandError>
        ensures { Ran self.old (λ s. step s command) result self.new }
    {
        match command {
            Command::Measure {
                length,
                direction,
                ruler,
                dpi,
            } => Ok(Answer::Number(convert_length(length, direction, dpi, ruler))),
            Command::Fit { view_box, size } => Ok(Answer::Matrix(view_box.to_transform(size))),
            Command::New { options, nodes } => self.begin(heap, options, nodes),
            Command::Edit(call) => Ok(self.edit(call)?),
            Command::Size => Ok(self.size()?),
        }
    }
}
