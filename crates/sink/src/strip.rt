ghost use Rattle.std.specs.Prelude.{◌≡◌};
ghost use Rattle.sink.specs.Calls.{cleared};
ghost use Rattle.sink.specs.Layers.{stripped};

use crate::{Sink, SinkFault};
use record::{Group, Mark, Record};

/// The layer that takes the ids off: groups reach the sink below with id 0.
#[derive(Drop)]
pub struct Strip<S> {
    below: S,
}

impl<S: Sink> Strip<S> {
    /// The layer over a sink, which is cleared.
    pub fn new(mut sink: S) -> Strip<S>
        ensures { S.meaning result.below ≡ cleared (S.meaning sink) }
    {
        sink.clear();
        Strip { below: sink }
    }

    /// The sink below, as it is.
    pub fn into_below(self) -> S
        ensures { result ≡ self.below }
    {
        let Strip { below } = self;
        below
    }
}

impl<S: Sink> Sink for Strip<S> {
    ghost meaning = { λ s. stripped (S.Sink.meaning s.below) };

    fn clear(&mut self) {
        self.below.clear();
    }

    fn begin(&mut self) -> Result<(), SinkFault> {
        self.below.begin()
    }

    fn open(&mut self, group: Group) -> Result<(), SinkFault> {
        self.below.open(Group { id: 0, ..group })
    }

    fn mark(&mut self, mark: Mark) -> Result<(), SinkFault> {
        self.below.mark(mark)
    }

    fn close(&mut self) -> Result<(), SinkFault> {
        self.below.close()
    }

    fn end(&mut self) -> Result<(), SinkFault> {
        self.below.end()
    }

    fn count(&self) -> usize {
        self.below.count()
    }

    fn record(&self, n: usize) -> Option<Record> {
        self.below.record(n)
    }

    fn depth(&self) -> Option<usize> {
        self.below.depth()
    }
}
