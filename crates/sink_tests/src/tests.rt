use crate::Notebook;
use feed::{FeedFault, Stage, feed};
use geom::{Matrix, Rect, Ruler};
use record::{Group, Mark, Record};
use sink::{Framed, Sink, SinkFault, Strip};
use std::alloc::Global;
use std::test::Fail;

fn group(id: u16, opacity: f32) -> Group {
    Group {
        id,
        matrix: Matrix::default(),
        clip: None,
        opacity,
    }
}

fn mark(leaf: u16, width: f32) -> Mark {
    let ruler = Ruler {
        w: width,
        h: 50.0,
        f: 12.0,
    };
    Mark { leaf, ruler }
}

fn clip() -> Rect {
    Rect {
        x: 0.0,
        y: 0.0,
        w: 80.0,
        h: 40.0,
    }
}

// A pile of three layers: the base has the group of the place, and inside it that of the window.
fn pile(heap: Global, limit: Option<u16>) -> Result<Strip<Framed<Framed<Notebook>>>, Fail> {
    let notebook = Notebook::new(heap, limit)?;
    let Ok(placed) = Framed::place(notebook, Matrix::from_translate(5.0, 0.0)) else {
        return Err(Fail::new("a good matrix was refused"));
    };
    let Ok(windowed) = Framed::window(placed, clip()) else {
        return Err(Fail::new("a good clip was refused"));
    };
    Ok(Strip::new(windowed))
}

fn id_at<S: Sink>(sink: &S, n: usize) -> Option<u16> {
    match sink.record(n) {
        Some(Record::Open(group)) => Some(group.id),
        _ => None,
    }
}

const OUT_OF_TURN: Result<(), SinkFault> = Err(SinkFault::OutOfTurn);

const NOT_GOOD: Result<(), SinkFault> = Err(SinkFault::NotGood);

const NO_PLACES: Result<(), SinkFault> = Err(SinkFault::NoPlaces);

#[test]
fn refuses_in_order(rt: HostRuntime) -> Result<(), Fail> {
    let mut sink = pile(rt.alloc(), Some(4))?;
    let early = [
        sink.open(group(1, 2.0)),
        sink.close(),
        sink.end(),
        sink.begin(),
    ];
    assert_eq!(rt; early, [OUT_OF_TURN, OUT_OF_TURN, OUT_OF_TURN, Ok(())]);
    let bad = [
        sink.close(),
        sink.open(group(1, 2.0)),
        sink.mark(mark(1, 1.0 / 0.0)),
    ];
    assert_eq!(rt; bad, [OUT_OF_TURN, NOT_GOOD, NOT_GOOD]);
    let full = [
        sink.open(group(1, 0.0)),
        sink.mark(mark(1, 1.0)),
        sink.end(),
    ];
    assert_eq!(rt; full, [NO_PLACES, NO_PLACES, Ok(())]);
    Ok(())
}

#[test]
fn counts_places_and_strips_ids(rt: HostRuntime) -> Result<(), Fail> {
    let mut sink = pile(rt.alloc(), Some(7))?;
    let drawn = [
        sink.begin(),
        sink.open(group(9, 0.5)),
        sink.open(group(9, 0.5)),
        sink.mark(mark(3, 100.0)),
    ];
    assert_eq!(rt; drawn, [Ok(()), Ok(()), NO_PLACES, Ok(())]);
    assert_eq!(rt; sink.depth(), Some(1));
    let ended = [
        sink.mark(mark(4, 100.0)),
        sink.end(),
        sink.close(),
        sink.end(),
    ];
    assert_eq!(rt; ended, [NO_PLACES, OUT_OF_TURN, Ok(()), Ok(())]);
    assert_eq!(rt; sink.count(), 7);
    assert_eq!(rt; id_at(&sink, 2), Some(0));
    Ok(())
}

#[test]
fn opens_112_groups_with_the_base(rt: HostRuntime) -> Result<(), Fail> {
    let mut sink = pile(rt.alloc(), Some(1000))?;
    assert_eq!(rt; sink.begin(), Ok(()));
    for _ in 0..200 {
        let _ = sink.open(group(1, 1.0));
    }
    assert_eq!(rt; sink.depth(), Some(110));
    assert_eq!(rt; sink.open(group(1, 1.0)), Err(SinkFault::TooDeep));
    Ok(())
}

#[test]
fn begins_within_its_limit(rt: HostRuntime) -> Result<(), Fail> {
    let mut without = Notebook::new(rt.alloc(), None)?;
    let mut empty = Notebook::new(rt.alloc(), Some(0))?;
    let mut narrow = pile(rt.alloc(), Some(3))?;
    assert_eq!(rt;
        [without.begin(), empty.begin(), narrow.begin()],
        [NO_PLACES, Ok(()), NO_PLACES]
    );
    assert_eq!(rt;
        [without.depth(), empty.depth(), narrow.depth()],
        [None, Some(0), None]
    );
    assert_eq!(rt; narrow.count(), 0);
    Ok(())
}

#[test]
fn hands_the_sink_back(rt: HostRuntime) -> Result<(), Fail> {
    let mut notebook = Notebook::new(rt.alloc(), Some(9))?;
    assert_eq!(rt;
        [notebook.begin(), notebook.open(group(4, 1.0))],
        [Ok(()), Ok(())]
    );
    let Err(refused) = Framed::place(notebook, Matrix::from_translate(1.0 / 0.0, 0.0)) else {
        return Err(Fail::new("a matrix that is not finite was taken"));
    };
    assert_eq!(rt; refused.fault, SinkFault::NotGood);
    assert_eq!(rt; refused.below.depth(), Some(1));
    assert_eq!(rt; Strip::new(refused.below).into_below().count(), 0);
    Ok(())
}

#[test]
fn feeds_whole_or_not_at_all(rt: HostRuntime) -> Result<(), Fail> {
    let mut sink = pile(rt.alloc(), Some(20))?;
    let open = Record::Open(group(6, 1.0));
    let leaf = Record::Mark(mark(2, 100.0));
    assert_eq!(rt; feed(&[open, leaf, Record::Close], &mut sink), Ok(()));
    assert_eq!(rt; sink.count(), 7);
    let fault = SinkFault::OutOfTurn;
    let early = FeedFault {
        stage: Stage::Record(2),
        fault,
    };
    let late = FeedFault {
        stage: Stage::End,
        fault,
    };
    assert_eq!(rt;
        feed(&[open, Record::Close, Record::Close], &mut sink),
        Err(early)
    );
    assert_eq!(rt; feed(&[open], &mut sink), Err(late));
    assert_eq!(rt; sink.count(), 0);
    Ok(())
}
