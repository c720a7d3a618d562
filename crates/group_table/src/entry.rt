ghost use Rattle.std.specs.Prelude.{◌≡◌};
ghost use Rattle.group_table.specs.Entries.{record_of, id_of, blank};

use crate::packed::{GroupBits, MarkBits};
use list::{Number, Numbered};
use record::{Event, Record};

/// The type of an entry's place in the table.
pub type Place = u16;

/// What an entry says, without its links.
pub type Item = Event<GroupBits, MarkBits>;

/// One record of the table, and its links to other entries.
#[derive(Clone, Copy)]
pub struct Entry {
    pub(crate) item: Item,
    pub(crate) parent: Option<Place>,
    pub(crate) first_child: Option<Place>,
    pub(crate) next_sibling: Option<Place>,
}

impl Entry {
    /// The record that the entry stands for.
    pub(crate) fn record(self) -> Record
        ensures { result ≡ record_of self.item }
    {
        match self.item {
            Item::Open(group) => Record::Open(group.into()),
            Item::Mark(mark) => Record::Mark(mark.into()),
            Item::Close => Record::Close,
        }
    }
}

/// An entry to fill memory with.
impl Default for Entry {
    ghost is_default = { λ e. e ≡ blank };

    fn default() -> Entry {
        Entry {
            item: Item::Close,
            parent: None,
            first_child: None,
            next_sibling: None,
        }
    }
}

/// An entry's number is the id of the group that it opens: 0, which is no id, for a mark or a close.
impl Numbered for Entry {
    ghost number = { λ e. id_of e.item };

    fn id(&self) -> Number {
        match self.item {
            Item::Open(group) => group.id,
            Item::Mark(_) | Item::Close => 0,
        }
    }
}
