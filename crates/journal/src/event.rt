ghost use Rattle.journal.specs.Admission.{admits};
ghost use Rattle.std.specs.Prelude.{◌≡◌};

use crate::refusal::Refusal;
use crate::transaction::State;

/// What a kiosk asks for.
#[derive(Clone, Copy, PartialEq, Eq, Debug)]
pub(crate) enum Event {
    Begin,
    Read,
    Write,
    Commit,
    Abort,
}

impl Event {
    /// The number of the transaction that the event concerns, from the number and the state of the kiosk's latest
    /// transaction, if it has one: the next number for a begin, the latest for anything else.
    pub(crate) fn admit(self, latest: Option<(u8, State)>, next: u8) -> Result<u8, Refusal>
        ensures { result ≡ admits latest self next }
    {
        match (latest, self) {
            (Some((_, State::Open)), Event::Begin) => Err(Refusal::AlreadyOpen),
            (
                Some((number, State::Open)),
                Event::Read | Event::Write | Event::Commit | Event::Abort,
            ) => Ok(number),
            (None | Some((_, State::Committed | State::Aborted)), Event::Begin) => Ok(next),
            (
                None | Some((_, State::Committed | State::Aborted)),
                Event::Read | Event::Write | Event::Commit | Event::Abort,
            ) => Err(Refusal::NothingOpen),
        }
    }
}
