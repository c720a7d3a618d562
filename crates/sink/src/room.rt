ghost use Rattle.std.specs.Prelude.{◌≡◌, true, [], Some};
ghost use Rattle.refusal.specs.Order.{first_of, unless};
ghost use Rattle.sink.specs.Meaning.{Meaning, unlayered, limit_of};
ghost use Rattle.sink.specs.Calls.{open_checks, mark_checks, close_checks, end_checks, open_step, mark_step, close_step, depth_of};
ghost use Rattle.sink.specs.Rooms.{IsRoomOf, Answers};

use crate::{MARK_PLACES, MOST_OPEN, MOST_PLACES, OPEN_PLACES, SinkFault};
use record::{Group, Mark};
use refusal::first;

/// What a sink without layers counts in a turn, by which it tells the calls to refuse.
#[derive(Clone, Copy, PartialEq, Eq, Debug)]
pub struct Room {
    open_groups: usize,
    /// The places that are kept neither for a record nor for the close of an open group.
    places_left: usize,
}

impl Room {
    /// The room at the begin of a turn in a memory with so many places, of which at most `MOST_PLACES` are used.
    pub fn new(places: usize) -> Room
        ensures { IsRoomOf result (unlayered [] true (limit_of places)) }
    {
        Room {
            open_groups: 0,
            places_left: places.min(MOST_PLACES),
        }
    }

    /// The room after an open of the group, unless the open is refused.
    pub fn open(self, group: Group) -> Result<Room, SinkFault>
        ensures { (m : Meaning) → IsRoomOf self m → Answers (open_checks m group) (open_step m group) result }
    {
        first(&[
            (!group.is_good(), SinkFault::NotGood),
            (self.open_groups >= MOST_OPEN, SinkFault::TooDeep),
            (self.places_left < OPEN_PLACES, SinkFault::NoPlaces),
        ])?;
        Ok(Room {
            open_groups: self.open_groups + 1,
            places_left: self.places_left - OPEN_PLACES,
        })
    }

    /// The room after the mark, unless it is refused.
    pub fn mark(self, mark: Mark) -> Result<Room, SinkFault>
        ensures { (m : Meaning) → IsRoomOf self m → Answers (mark_checks m mark) (mark_step m mark) result }
    {
        first(&[
            (!mark.is_good(), SinkFault::NotGood),
            (self.places_left < MARK_PLACES, SinkFault::NoPlaces),
        ])?;
        Ok(Room {
            places_left: self.places_left - MARK_PLACES,
            ..self
        })
    }

    /// The room after a close, unless no group is open.
    pub fn close(self) -> Result<Room, SinkFault>
        ensures { (m : Meaning) → IsRoomOf self m → Answers (close_checks m) (close_step m) result }
    {
        if self.open_groups == 0 {
            return Err(SinkFault::OutOfTurn);
        }
        Ok(Room {
            open_groups: self.open_groups - 1,
            ..self
        })
    }

    /// Whether the turn may end: no group is open.
    pub fn end(self) -> Result<(), SinkFault>
        ensures { (m : Meaning) → IsRoomOf self m → result ≡ unless (first_of (end_checks m)) tt }
    {
        if self.open_groups != 0 {
            return Err(SinkFault::OutOfTurn);
        }
        Ok(())
    }

    /// How many groups are open.
    pub fn depth(self) -> usize
        ensures { (m : Meaning) → IsRoomOf self m → Some result ≡ depth_of m }
    {
        let Room { open_groups, .. } = self;
        open_groups
    }
}
