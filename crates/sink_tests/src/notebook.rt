ghost use Rattle.std.specs.Prelude.{◌≡◌, true, false, [], IfOk, is_some, map, vec_capacity};
ghost use Rattle.std.specs.Option.{ForSome, ForNone};
ghost use Rattle.record.specs.Zero.{zeroed_record};
ghost use Rattle.sink.specs.Rooms.{IsRoomOf};
ghost use Rattle.sink_tests.specs.Notebooks.{Sound, Whole, notebook_meaning};

use record::{Group, Mark, Record};
use sink::{Room, Sink, SinkFault};
use std::alloc::{AllocError, Global};

/// A sink without base and rewriting that keeps its records as they come. Its memory is taken when it is made.
#[derive(Drop)]
pub struct Notebook {
    records: Vec<Record>,
    /// None is a limit of -1.
    limit: Option<usize>,
    /// The room of the turn; none out of turn.
    turn: Option<Room>,
    ghost ok: { Sound (vec_capacity records) limit },
    ghost ended: { ForNone turn (Whole (map zeroed_record records.items) limit) },
    ghost roomy: { ForSome turn (λ room. IsRoomOf room (notebook_meaning records.items true limit)) },
}

impl Notebook {
    /// A notebook with that limit of places; none is a limit of -1.
    pub fn new(heap: Global, limit: Option<u16>) -> Result<Notebook, AllocError>
        ensures { IfOk result (λ n. notebook_meaning n.records.items (is_some n.turn) n.limit ≡ notebook_meaning [] false limit) }
    {
        let limit = limit.map(usize::from);
        let records = Vec::with_capacity(heap, limit.unwrap_or(0))?;
        Ok(Notebook {
            records,
            limit,
            turn: None,
        })
    }
}

impl Sink for Notebook {
    ghost meaning = { λ n. notebook_meaning n.records.items (is_some n.turn) n.limit };

    fn clear(&mut self) {
        self.records.clear();
        self.turn = None;
    }

    fn begin(&mut self) -> Result<(), SinkFault> {
        self.clear();
        let places = self.limit.ok_or(SinkFault::NoPlaces)?;
        self.turn = Some(Room::new(places));
        Ok(())
    }

    fn open(&mut self, group: Group) -> Result<(), SinkFault> {
        let turn = self.turn.ok_or(SinkFault::OutOfTurn)?;
        let room = turn.open(group)?;
        self.records.push_reserved(Record::Open(group));
        self.turn = Some(room);
        Ok(())
    }

    fn mark(&mut self, mark: Mark) -> Result<(), SinkFault> {
        let turn = self.turn.ok_or(SinkFault::OutOfTurn)?;
        let room = turn.mark(mark)?;
        self.records.push_reserved(Record::Mark(mark));
        self.turn = Some(room);
        Ok(())
    }

    fn close(&mut self) -> Result<(), SinkFault> {
        let turn = self.turn.ok_or(SinkFault::OutOfTurn)?;
        let room = turn.close()?;
        self.records.push_reserved(Record::Close);
        self.turn = Some(room);
        Ok(())
    }

    fn end(&mut self) -> Result<(), SinkFault> {
        let turn = self.turn.ok_or(SinkFault::OutOfTurn)?;
        turn.end()?;
        self.turn = None;
        Ok(())
    }

    fn count(&self) -> usize {
        self.records.len()
    }

    fn record(&self, n: usize) -> Option<Record> {
        self.records.get(n).copied()
    }

    fn depth(&self) -> Option<usize> {
        Some(self.turn?.depth())
    }
}
