ghost use Rattle.std.specs.Prelude.{◌≡◌, ◌+◌, ◌<◌, min, length, slice_set};
ghost use Rattle.std.specs.List.{slice_get};
ghost use Rattle.list.specs.Bounded.{used};
ghost use Rattle.list.specs.Places.{place_of};
ghost use Rattle.sink.specs.Meaning.{most_places};
ghost use Rattle.group_table.specs.Entries.{at, id_of, Within, new_entry, tied};

use crate::entry::{Entry, Item, Place};
use record::Id;

/// Memory for entries, and how many of them are in use.
#[derive(Drop)]
pub struct Entries {
    pub memory: Vec<Entry>,
    pub count: usize,
}

impl Entries {
    /// Adds an entry that no other refers to yet, and answers its place.
    pub(crate) fn add(&mut self, item: Item, parent: Option<Place>) -> Place
        requires { self.old.count < min (length self.old.memory.items) most_places }
        ensures place { result ≡ self.old.count }
        ensures count { self.new.count ≡ self.old.count + 1 }
        ensures memory { self.new.memory.items ≡ slice_set self.old.memory.items self.old.count (new_entry item parent) }
    {
        let count = self.count;
        let entry = Entry {
            item,
            parent,
            first_child: None,
            next_sibling: None,
        };
        self.count = list::add(&mut self.memory, count, entry).unwrap();
        count as Place
    }

    /// Adds a child of the group `parent`, or of none, whose last child so far is `last`, and answers its place.
    pub(crate) fn add_child(
        &mut self,
        item: Item,
        parent: Option<Place>,
        last: Option<Place>,
    ) -> Place
        requires room { self.old.count < min (length self.old.memory.items) most_places }
        requires parent { Within parent (length self.old.memory.items) }
        requires last { Within last (length self.old.memory.items) }
        ensures place { result ≡ self.old.count }
        ensures count { self.new.count ≡ self.old.count + 1 }
        ensures memory { self.new.memory.items ≡ tied (slice_set self.old.memory.items self.old.count (new_entry item parent)) parent last self.old.count }
    {
        let place = self.add(item, parent);
        match (last, parent) {
            (Some(sibling), _) => self.memory[usize::from(sibling)].next_sibling = Some(place),
            (None, Some(group)) => self.memory[usize::from(group)].first_child = Some(place),
            (None, None) => {}
        }
        place
    }

    /// The entry at place n; none past those in use.
    pub fn read(&self, n: usize) -> Option<Entry>
        ensures { result ≡ slice_get (used self.now.memory.items self.now.count) n }
    {
        list::read(&self.memory, self.count, n)
    }

    /// The parent of the entry at the place.
    pub(crate) fn parent_at(&self, place: Place) -> Option<Place>
        requires { place < length self.now.memory.items }
        ensures { result ≡ (at self.now.memory.items place).parent }
    {
        self.memory[usize::from(place)].parent
    }

    /// The place of the first entry that opens a group with the id.
    pub fn find(&self, id: Id) -> Option<usize>
        ensures { result ≡ place_of (λ e. id_of e.item) id (used self.now.memory.items self.now.count) }
    {
        list::find(&self.memory, self.count, id)
    }
}
