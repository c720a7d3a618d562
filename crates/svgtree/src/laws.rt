//! Laws of a document in memory, each the contract of a function that does nothing.

ghost use Rattle.svgtree.specs.Links.{LinksGiveChildren, LevelsAreDepths};
ghost use Rattle.svgtree.specs.Sound.{CallsLeaveSound};

/// Where memory is linked, following the links from a node gives its children in the document, in order.
#[tactic(auto, using(crate::proofs::Following::children_there))]
pub fn links_give_children()
    ensures { LinksGiveChildren }
{}

/// Where memory is linked, the level that it has for a node is the node's level in the document.
#[tactic(auto, using(crate::proofs::Following::level_there))]
pub fn levels_are_depths()
    ensures { LevelsAreDepths }
{}

/// The document after any list of calls is sound.
pub fn calls_leave_sound()
    ensures { CallsLeaveSound }
{}
