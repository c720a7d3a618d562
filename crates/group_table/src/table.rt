ghost use Rattle.std.specs.Prelude.{◌≤◌, min, length};
ghost use Rattle.std.specs.Option.{ForSome, ForNone};
ghost use Rattle.sink.specs.Meaning.{most_places};
ghost use Rattle.group_table.specs.Invariant.{GoesOn, AllClosed, Linked};

use crate::entries::Entries;
use crate::entry::Place;
use sink::Room;

mod calls;
mod questions;

/// A turn, as it stands.
#[derive(Clone, Copy)]
pub struct Turn {
    pub(crate) room: Room,
    /// The open of the innermost open group.
    pub(crate) inside: Option<Place>,
    /// The last child so far of that group, or of none.
    pub(crate) last: Option<Place>,
}

/// A sink that keeps its records as entries linked by parent, child and sibling, in memory of its own.
/// Entry n is record n of the script.
#[derive(Drop)]
pub struct GroupTable {
    entries: Entries,
    /// None out of turn.
    turn: Option<Turn>,
    ghost within: { entries.count ≤ min (length entries.memory.items) most_places },
    ghost going: { ForSome turn (λ t. GoesOn entries.memory.items entries.count t.room t.inside t.last) },
    ghost ended: { ForNone turn (AllClosed entries.memory.items entries.count) },
    ghost linked: { Linked entries.memory.items entries.count },
}
