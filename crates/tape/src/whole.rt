ghost use Rattle.std.specs.Prelude.{MatchResult};
ghost use Rattle.tape.specs.Whole.{AllLines, Failed};

use crate::failure::Failure;
use crate::limits::LINE_ROOM;
use crate::playing::play;
use journal::Journal;
use std::alloc::Global;

/// The lines of a whole tape, played on a new journal.
pub fn play_all(heap: Global, tape: &[u8]) -> Result<Vec<u8>, Failure>
    ensures { MatchResult result (λ lines. AllLines tape.now lines.items) (λ e. Failed tape.now e) }
{
    let mut journal = Journal::new();
    let mut lines = Vec::new(heap);
    let mut line = [0; LINE_ROOM];
    let mut place = 0;
    // `play` hands back the next place, and writes to the buffer that it is lent: no iterator would be plainer.
    while let Some((next, length)) = play(&mut journal, tape, place, &mut line)? {
        lines.extend_from_slice(&line[..length])?;
        place = next;
    }
    Ok(lines)
}
