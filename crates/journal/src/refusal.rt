ghost use Rattle.journal.specs.Refusals.{refusal_number};
ghost use Rattle.std.specs.Prelude.{◌≡◌};

/// Why a call is turned down. Each case carries the number that is printed for it.
#[derive(Clone, Copy, PartialEq, Eq, Debug)]
pub enum Refusal {
    /// The kiosk is above 7.
    NoSuchKiosk = 1,
    /// The mark is not 1 to 6.
    NoSuchMark = 2,
    /// The kiosk has an open transaction, so it may not begin another.
    AlreadyOpen = 3,
    /// 32 transactions have begun.
    JournalFull = 4,
    /// The kiosk has no open transaction, so it may only begin one.
    NothingOpen = 5,
    /// The row is above 63.
    NoSuchRow = 6,
    /// The transaction wrote the row, and the source is not its own number.
    NotOwnNumber = 7,
    /// The source is neither 0 nor a committed transaction that wrote the row.
    NoSuchSource = 8,
    /// The transaction has as many outer reads as it may have.
    TooManyReads = 9,
    /// A record of the tape has a kind that is none of the letters.
    UnknownKind = 12,
    /// A record's body is cut short by the tape's end.
    CutShort = 13,
    /// The line buffer is shorter than 96 bytes.
    ShortLine = 14,
    /// The tape is longer than 65,536 bytes, or the place lies beyond its end.
    NoSuchPlace = 15,
}

/// The number by which the refusal is published.
impl From<Refusal> for u8 {
    ghost from_gives = { λ refusal number. number ≡ refusal_number refusal };

    fn from(refusal: Refusal) -> u8 {
        refusal as u8
    }
}
