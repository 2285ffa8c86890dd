ghost use Rattle.journal.specs.Calls.{Done};
ghost use Rattle.tape.specs.Records.{call_of, letter_of};
ghost use Rattle.std.specs.Prelude.{◌≡◌};

use journal::{Journal, Refusal};

/// A call of the journal, as a tape has it.
#[derive(Clone, Copy, PartialEq, Eq, Debug)]
pub enum Request {
    Begin { kiosk: u8, mark: u8 },
    Read { kiosk: u8, row: u8, source: u8 },
    Write { kiosk: u8, row: u8 },
    Commit { kiosk: u8 },
    Abort { kiosk: u8 },
}

impl Request {
    /// The letter of its kind, which its record and its line begin with.
    // A byte, as the format has it, and no `char`.
    pub fn letter(self) -> u8
        ensures { result ≡ letter_of self }
    {
        match self {
            Request::Begin { .. } => b'B',
            Request::Read { .. } => b'R',
            Request::Write { .. } => b'W',
            Request::Commit { .. } => b'C',
            Request::Abort { .. } => b'A',
        }
    }

    /// Makes the call.
    pub fn carry_out(self, journal: &mut Journal) -> Result<u8, Refusal>
        ensures { Done (call_of self) journal.old result journal.new }
    {
        match self {
            Request::Begin { kiosk, mark } => journal.begin(kiosk, mark),
            Request::Read { kiosk, row, source } => journal.read(kiosk, row, source),
            Request::Write { kiosk, row } => journal.write(kiosk, row),
            Request::Commit { kiosk } => journal.commit(kiosk),
            Request::Abort { kiosk } => journal.abort(kiosk),
        }
    }
}
