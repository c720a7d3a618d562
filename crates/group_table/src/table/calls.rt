ghost use Rattle.std.specs.Prelude.{◌≡◌, false, [], length};
ghost use Rattle.sink.specs.Meaning.{unlayered, limit_of};
ghost use Rattle.group_table.specs.Table.{meaning_of};

use super::{GroupTable, Turn};
use crate::entries::Entries;
use crate::entry::{Entry, Item};
use crate::packed::{GroupBits, MarkBits};
use record::{Group, Mark, Record};
use sink::{Room, Sink, SinkFault};

impl GroupTable {
    /// An empty table, whatever its memory held. It has as many places as entries, up to 65,535.
    pub fn new(memory: Vec<Entry>) -> GroupTable
        ensures meaning { meaning_of result ≡ unlayered [] false (limit_of (length memory.items)) }
        ensures memory { result.entries.memory ≡ memory }
    {
        GroupTable {
            entries: Entries { memory, count: 0 },
            turn: None,
        }
    }

    /// The table's memory, as it is.
    pub fn into_memory(self) -> Vec<Entry>
        ensures { result ≡ self.entries.memory }
    {
        let Entries { memory, count: _ } = self.entries;
        memory
    }
}

impl Sink for GroupTable {
    ghost meaning = { meaning_of };

    fn clear(&mut self) {
        self.entries.count = 0;
        self.turn = None;
    }

    fn begin(&mut self) -> Result<(), SinkFault> {
        self.clear();
        self.turn = Some(Turn {
            room: Room::new(self.entries.memory.len()),
            inside: None,
            last: None,
        });
        Ok(())
    }

    fn open(&mut self, group: Group) -> Result<(), SinkFault> {
        let turn = self.turn.ok_or(SinkFault::OutOfTurn)?;
        let room = turn.room.open(group)?;
        let item = Item::Open(GroupBits::pack(group));
        let place = self.entries.add_child(item, turn.inside, turn.last);
        self.turn = Some(Turn {
            room,
            inside: Some(place),
            last: None,
        });
        Ok(())
    }

    fn mark(&mut self, mark: Mark) -> Result<(), SinkFault> {
        let turn = self.turn.ok_or(SinkFault::OutOfTurn)?;
        let room = turn.room.mark(mark)?;
        let item = Item::Mark(MarkBits::pack(mark));
        let place = self.entries.add_child(item, turn.inside, turn.last);
        self.turn = Some(Turn {
            room,
            last: Some(place),
            ..turn
        });
        Ok(())
    }

    fn close(&mut self) -> Result<(), SinkFault> {
        let turn = self.turn.ok_or(SinkFault::OutOfTurn)?;
        let room = turn.room.close()?;
        // The room could close a group, so one is open.
        let group = turn.inside.unwrap();
        let outside = self.entries.parent_at(group);
        self.entries.add(Item::Close, Some(group));
        self.turn = Some(Turn {
            room,
            inside: outside,
            last: Some(group),
        });
        Ok(())
    }

    fn end(&mut self) -> Result<(), SinkFault> {
        let turn = self.turn.ok_or(SinkFault::OutOfTurn)?;
        turn.room.end()?;
        self.turn = None;
        Ok(())
    }

    fn count(&self) -> usize {
        self.entries.count
    }

    fn record(&self, n: usize) -> Option<Record> {
        Some(self.entries.read(n)?.record())
    }

    fn depth(&self) -> Option<usize> {
        Some(self.turn?.room.depth())
    }
}
