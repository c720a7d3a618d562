//! Feeds a list of records to a sink, whichever it is.

#![tactic(auto)]

ghost use Rattle.std.specs.Prelude.{◌≡◌, false, ◌↔◌, Ok, Err};
ghost use Rattle.sink.specs.Calls.{cleared, with_script};
ghost use Rattle.feed.specs.Accepting.{Accepts};
ghost use Rattle.feed.specs.Feeding.{at_stage, record_step, fed, as_left};
ghost use Rattle.feed.specs.Shown.{MarksBehind, GroupsBehind};
ghost use Rattle.feed.specs.Whole.{whole_script};

use record::Record;
use sink::{Sink, SinkFault};

/// Where in a feeding a call was refused.
#[derive(Clone, Copy, PartialEq, Eq, Debug)]
pub enum Stage {
    /// At the begin.
    Begin,
    /// At the record of this place, counted from 0.
    Record(usize),
    /// At the end.
    End,
}

/// The sink's fault, and where it came.
#[derive(Clone, Copy, PartialEq, Eq, Debug)]
pub struct FeedFault {
    pub stage: Stage,
    pub fault: SinkFault,
}

impl From<(Stage, SinkFault)> for FeedFault {
    ghost from_gives = { λ staged r. r ≡ at_stage staged.0 staged.1 };

    fn from(staged: (Stage, SinkFault)) -> FeedFault {
        let (stage, fault) = staged;
        FeedFault { stage, fault }
    }
}

fn put<S: Sink>(record: &Record, sink: &mut S) -> Result<(), SinkFault>
    ensures answer { result ≡ (record_step (S.meaning sink.old) «record».now).result }
    ensures after { S.meaning sink.new ≡ (record_step (S.meaning sink.old) «record».now).next }
{
    match record {
        Record::Open(group) => sink.open(*group),
        Record::Mark(mark) => sink.mark(*mark),
        Record::Close => sink.close(),
    }
}

fn draw<S: Sink>(records: &[Record], sink: &mut S) -> Result<(), FeedFault>
    ensures answer { result ≡ (fed (S.meaning sink.old) records.now).result }
    ensures after { as_left result (S.meaning sink.new) ≡ (fed (S.meaning sink.old) records.now).next }
{
    sink.begin().map_err(|fault| (Stage::Begin, fault))?;
    for (i, record) in records.iter().enumerate() {
        put(record, sink).map_err(|fault| (Stage::Record(i), fault))?;
    }
    sink.end().map_err(|fault| (Stage::End, fault))?;
    Ok(())
}

/// Begins, feeds the records in their order, and ends. Refused, it leaves the sink cleared.
///
/// Accepted, the script is the sink's own groups round the records with their groups rewritten, and its picture is
/// that of the records, each chain rewritten behind the sink's own groups.
pub fn feed<S: Sink>(records: &[Record], sink: &mut S) -> Result<(), FeedFault>
    ensures answer { result ≡ (fed (S.meaning sink.old) records.now).result }
    ensures after { S.meaning sink.new ≡ (fed (S.meaning sink.old) records.now).next }
    ensures refused { (fault : FeedFault) → result ≡ Err fault → S.meaning sink.new ≡ cleared (S.meaning sink.old) }
    ensures accepted { (result ≡ Ok tt) ↔ Accepts (S.meaning sink.old) records.now }
    ensures script { result ≡ Ok tt → S.meaning sink.new ≡ with_script (S.meaning sink.old) (whole_script (S.meaning sink.old) records.now) false }
    ensures marks { result ≡ Ok tt → MarksBehind (S.meaning sink.old) records.now (S.meaning sink.new).script }
    ensures groups { result ≡ Ok tt → GroupsBehind (S.meaning sink.old) records.now (S.meaning sink.new).script }
{
    let drawn = draw(records, sink);
    if drawn.is_err() {
        sink.clear();
    }
    drawn
}
