//! A sink takes the records of a picture one by one. A layer is a sink over a sink.

#![tactic(auto)]

ghost use Rattle.std.specs.Prelude.{◌≡◌, length};
ghost use Rattle.std.specs.Option.{option_map};
ghost use Rattle.std.specs.List.{slice_get};
ghost use Rattle.record.specs.Zero.{zeroed_record};
ghost use Rattle.sink.specs.Meaning.{Meaning};
ghost use Rattle.sink.specs.Calls.{cleared, begin_step, open_step, mark_step, close_step, end_step, depth_of};

use record::{Group, Mark, Record};

mod fault;
mod framed;
mod laws;
mod room;
mod strip;

pub use fault::SinkFault;
pub use framed::{Framed, NotFramed};
pub use laws::calls_stand;
pub use room::Room;
pub use strip::Strip;

/// At most so many groups are open at once in a sink, its base included.
pub const MOST_OPEN: usize = 112;

/// No sink has more places than this.
pub const MOST_PLACES: usize = 65_535;

/// The places that an open takes: its own, and that of its close.
pub const OPEN_PLACES: usize = 2;

/// The places that a mark takes.
pub const MARK_PLACES: usize = 1;

/// What takes a picture, record by record, in a turn from `begin` to `end`.
///
/// Its meaning is a script and whether a turn is on, with its limit of places, the groups that it opens itself
/// (its base) and its rewriting of groups; no call changes these three.
/// Each call answers and leaves what its step says of the meaning, in which the order of the checks stands.
pub trait Sink {
    ghost meaning: { Self → Meaning };

    /// Empties the script and ends the turn. It is never refused.
    fn clear(&mut self)
        ensures { meaning self.new ≡ cleared (meaning self.old) };

    /// Clears, opens the base and begins a turn. Refused, it leaves an empty script and no turn.
    fn begin(&mut self) -> Result<(), SinkFault>
        ensures answer { result ≡ (begin_step (meaning self.old)).result }
        ensures after { meaning self.new ≡ (begin_step (meaning self.old)).next };

    /// Opens the group, rewritten. Refused, it changes nothing.
    fn open(&mut self, group: Group) -> Result<(), SinkFault>
        ensures answer { result ≡ (open_step (meaning self.old) group).result }
        ensures after { meaning self.new ≡ (open_step (meaning self.old) group).next };

    /// Adds the mark. Refused, it changes nothing.
    fn mark(&mut self, mark: Mark) -> Result<(), SinkFault>
        ensures answer { result ≡ (mark_step (meaning self.old) mark).result }
        ensures after { meaning self.new ≡ (mark_step (meaning self.old) mark).next };

    /// Closes the group that was opened last. Refused, it changes nothing.
    fn close(&mut self) -> Result<(), SinkFault>
        ensures answer { result ≡ (close_step (meaning self.old)).result }
        ensures after { meaning self.new ≡ (close_step (meaning self.old)).next };

    /// Closes the base and ends the turn. Refused, it changes nothing.
    fn end(&mut self) -> Result<(), SinkFault>
        ensures answer { result ≡ (end_step (meaning self.old)).result }
        ensures after { meaning self.new ≡ (end_step (meaning self.old)).next };

    /// How many records the script has.
    fn count(&self) -> usize
        ensures { result ≡ length (meaning self.now).script };

    /// The record at place n of the script, counted from 0; none past its end. A zero may come with a sign.
    fn record(&self, n: usize) -> Option<Record>
        ensures { option_map zeroed_record result ≡ slice_get (meaning self.now).script n };

    /// How many groups are open beyond the base; none out of turn.
    fn depth(&self) -> Option<usize>
        ensures { result ≡ depth_of (meaning self.now) };
}
