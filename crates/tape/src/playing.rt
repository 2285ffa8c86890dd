ghost use Rattle.tape.specs.Playing.{Onward, Played};

use crate::decoding::{Record, decode};
use crate::limits::{LINE_ROOM, LONGEST_TAPE};
use crate::line::{write_answer, write_fault};
use journal::{Journal, Refusal};

/// Plays the record at a place of the tape: makes its call, writes its line, and gives the place
/// of the next record and the length of the line, or nothing at the tape's end.
// The buffer is the caller's, with the length of what is in it handed back, by the rules of playing.
#[tactic(auto, using(crate::proofs::Texts::written_none))]
pub fn play(
    journal: &mut Journal,
    tape: &[u8],
    place: usize,
    line: &mut [u8],
) -> Result<Option<(usize, usize)>, Refusal>
    ensures onward { Onward tape.now place result }
    ensures played { Played tape.now place journal.old line.old result journal.new line.new }
{
    if line.len() < LINE_ROOM {
        return Err(Refusal::ShortLine);
    }
    if tape.len() > LONGEST_TAPE || place > tape.len() {
        return Err(Refusal::NoSuchPlace);
    }
    match decode(tape, place) {
        Ok(None) => Ok(None),
        Ok(Some(Record { request, size })) => {
            let answer = request.carry_out(journal);
            let length = write_answer(line, request.letter(), answer);
            Ok(Some((place + size, length)))
        }
        Err(fault) => Ok(Some((tape.len(), write_fault(line, fault)))),
    }
}
