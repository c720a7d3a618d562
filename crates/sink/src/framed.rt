ghost use Rattle.std.specs.Prelude.{◌≡◌, true, MatchResult};
ghost use Rattle.record.specs.Good.{good_group};
ghost use Rattle.sink.specs.Layers.{framed, place_group, window_group, Made, HandedBack};

use crate::{Sink, SinkFault};
use geom::{Matrix, Rect};
use record::{Group, Mark, Record};

/// The layer that adds a group of its own to the base of the sink below, round all that is drawn.
#[derive(Drop)]
pub struct Framed<S> {
    below: S,
    group: Group,
    ghost good: { good_group group ≡ true },
}

/// No layer was made: the sink as it was, and why.
#[derive(Drop)]
pub struct NotFramed<S> {
    pub below: S,
    pub fault: SinkFault,
}

impl<S: Sink> Framed<S> {
    /// The layer that adds the matrix, over a sink, which is cleared.
    pub fn place(sink: S, matrix: Matrix) -> Result<Framed<S>, NotFramed<S>>
        ensures { MatchResult result (λ layer. Made (S.meaning sink) (place_group matrix) layer.group (S.meaning layer.below)) (λ kept. HandedBack sink (place_group matrix) kept.below kept.fault) }
    {
        Framed::over(
            sink,
            Group {
                id: 0,
                matrix,
                clip: None,
                opacity: 1.0,
            },
        )
    }

    /// The layer that adds the clip, over a sink, which is cleared.
    pub fn window(sink: S, clip: Rect) -> Result<Framed<S>, NotFramed<S>>
        ensures { MatchResult result (λ layer. Made (S.meaning sink) (window_group clip) layer.group (S.meaning layer.below)) (λ kept. HandedBack sink (window_group clip) kept.below kept.fault) }
    {
        Framed::over(
            sink,
            Group {
                id: 0,
                matrix: Matrix::default(),
                clip: Some(clip),
                opacity: 1.0,
            },
        )
    }

    fn over(mut sink: S, group: Group) -> Result<Framed<S>, NotFramed<S>>
        ensures { MatchResult result (λ layer. Made (S.meaning sink) group layer.group (S.meaning layer.below)) (λ kept. HandedBack sink group kept.below kept.fault) }
    {
        if !group.is_good() {
            return Err(NotFramed {
                below: sink,
                fault: SinkFault::NotGood,
            });
        }
        sink.clear();
        Ok(Framed { below: sink, group })
    }

    /// The sink below, as it is.
    pub fn into_below(self) -> S
        ensures { result ≡ self.below }
    {
        let Framed { below, group: _ } = self;
        below
    }
}

impl<S: Sink> Sink for Framed<S> {
    ghost meaning = { λ s. framed s.group s.good (S.Sink.meaning s.below) };

    fn clear(&mut self) {
        self.below.clear();
    }

    fn begin(&mut self) -> Result<(), SinkFault> {
        self.below.begin()?;
        let opened = self.below.open(self.group);
        if opened.is_err() {
            self.below.clear();
        }
        opened
    }

    fn open(&mut self, group: Group) -> Result<(), SinkFault> {
        self.below.open(group)
    }

    fn mark(&mut self, mark: Mark) -> Result<(), SinkFault> {
        self.below.mark(mark)
    }

    fn close(&mut self) -> Result<(), SinkFault> {
        match self.below.depth() {
            Some(depth) if depth > 1 => self.below.close(),
            _ => Err(SinkFault::OutOfTurn),
        }
    }

    fn end(&mut self) -> Result<(), SinkFault> {
        if self.below.depth() != Some(1) {
            return Err(SinkFault::OutOfTurn);
        }
        self.below.close()?;
        self.below.end()
    }

    fn count(&self) -> usize {
        self.below.count()
    }

    fn record(&self, n: usize) -> Option<Record> {
        self.below.record(n)
    }

    fn depth(&self) -> Option<usize> {
        self.below.depth().map(|depth| depth.saturating_sub(1))
    }
}
