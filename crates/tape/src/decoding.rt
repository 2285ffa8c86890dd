ghost use Rattle.tape.specs.Records.{Fitting, ReadsBack, Stands, decoded, found_at};
ghost use Rattle.std.specs.Prelude.{◌≡◌, drop};

use crate::request::Request;
use journal::Refusal;

/// Why no record stands at a place of a tape, and the place.
#[derive(Clone, Copy, PartialEq, Eq, Debug)]
pub struct Fault {
    pub why: Refusal,
    pub place: usize,
}

/// A record of a tape: the call that it asks for, and its length in bytes.
#[derive(Clone, Copy, PartialEq, Eq, Debug)]
pub struct Record {
    pub request: Request,
    pub size: usize,
}

/// What stands at the front of `tape`, a part of a tape that begins at `place`.
fn front(tape: &[u8], place: usize) -> Result<Option<Record>, Fault>
    ensures value { result ≡ decoded tape.now place }
    ensures size { Fitting tape.now 0 result }
{
    let [kind, body @ ..] = tape else {
        return Ok(None);
    };
    let cut_short = Fault {
        why: Refusal::CutShort,
        place,
    };
    // A rule of the project (`docs/DECISIONS.md`): each kind has a pattern of its own, with the bytes of its body by name.
    let (request, rest) = match char::from(*kind) {
        'B' => {
            let &[kiosk, mark, ref rest @ ..] = body else {
                return Err(cut_short);
            };
            (Request::Begin { kiosk, mark }, rest)
        }
        'R' => {
            let &[kiosk, row, source, ref rest @ ..] = body else {
                return Err(cut_short);
            };
            (Request::Read { kiosk, row, source }, rest)
        }
        'W' => {
            let &[kiosk, row, ref rest @ ..] = body else {
                return Err(cut_short);
            };
            (Request::Write { kiosk, row }, rest)
        }
        'C' => {
            let &[kiosk, ref rest @ ..] = body else {
                return Err(cut_short);
            };
            (Request::Commit { kiosk }, rest)
        }
        'A' => {
            let &[kiosk, ref rest @ ..] = body else {
                return Err(cut_short);
            };
            (Request::Abort { kiosk }, rest)
        }
        _ => {
            return Err(Fault {
                why: Refusal::UnknownKind,
                place,
            });
        }
    };
    let size = tape.len() - rest.len();
    Ok(Some(Record { request, size }))
}

/// What stands at a place of a tape: nothing at its end and beyond, a record, or a fault.
pub fn decode(tape: &[u8], place: usize) -> Result<Option<Record>, Fault>
    ensures value { result ≡ found_at tape.now place }
    ensures size { Fitting tape.now place result }
    ensures stands { Stands (drop place tape.now) place result }
    ensures back { ReadsBack }
{
    let Some(part) = tape.get(place..) else {
        return Ok(None);
    };
    front(part, place)
}
