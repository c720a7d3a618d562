ghost use Rattle.std.specs.Prelude.{◌≡◌};
ghost use Rattle.sink.specs.Fault.{refusal_of};

use refusal::Refusal;

/// Why a sink refused a call.
#[derive(Clone, Copy, PartialEq, Eq, Debug)]
pub enum SinkFault {
    /// A call out of turn; a close on the base; an end with other groups open.
    OutOfTurn,
    /// A group or a mark that is not good.
    NotGood,
    /// A 113th open group.
    TooDeep,
    /// The places pass the limit.
    NoPlaces,
}

/// The refusal that people and programs know the fault by.
impl From<SinkFault> for Refusal {
    ghost from_gives = { λ fault refusal. refusal ≡ refusal_of fault };

    fn from(fault: SinkFault) -> Refusal {
        match fault {
            SinkFault::OutOfTurn => Refusal::OutOfTurn,
            SinkFault::NotGood => Refusal::BadValue,
            SinkFault::TooDeep => Refusal::TooDeep,
            SinkFault::NoPlaces => Refusal::SinkFull,
        }
    }
}
