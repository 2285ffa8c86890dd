ghost use Rattle.journal.specs.Marks.{mark_number, mark_of};
ghost use Rattle.journal.specs.declared.refusal.Refusal.TheVariants.{NoSuchMark};
ghost use Rattle.std.specs.Option.{ok_or};
ghost use Rattle.std.specs.Prelude.{◌≡◌, Some};

use crate::refusal::Refusal;

/// The isolation level that a transaction asks for. Each case carries its number.
#[derive(Clone, Copy, PartialEq, Eq, Debug)]
pub enum Mark {
    ReadCommitted = 1,
    ReadAtomic = 2,
    Causal = 3,
    Prefix = 4,
    Snapshot = 5,
    Serializable = 6,
}

/// The number of the mark.
impl From<Mark> for u8 {
    ghost from_gives = { λ mark number. (number ≡ mark_number mark) × (mark_of number ≡ Some mark) };

    fn from(mark: Mark) -> u8 {
        mark as u8
    }
}

/// The mark of a number, where it is 1 to 6.
impl TryFrom<u8> for Mark {
    type Error = Refusal;

    ghost try_from_gives = { λ number r. r ≡ ok_or (mark_of number) NoSuchMark };

    fn try_from(number: u8) -> Result<Mark, Refusal> {
        match number {
            1 => Ok(Mark::ReadCommitted),
            2 => Ok(Mark::ReadAtomic),
            3 => Ok(Mark::Causal),
            4 => Ok(Mark::Prefix),
            5 => Ok(Mark::Snapshot),
            6 => Ok(Mark::Serializable),
            _ => Err(Refusal::NoSuchMark),
        }
    }
}
