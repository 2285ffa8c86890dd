use crate::decoding::{Fault, Record, decode};
use crate::failure::Failure;
use crate::playing::play;
use crate::request::Request;
use crate::whole::play_all;
use journal::{Journal, Refusal};
use std::test::Fail;

#[test]
fn refusals_of_playing(rt: HostRuntime) {
    let mut journal = Journal::new();
    let mut line = [0; 96];
    let mut short = [0; 95];
    assert_eq!(rt;
        play(&mut journal, b"A\x00", 3, &mut short),
        Err(Refusal::ShortLine)
    );
    assert_eq!(rt;
        play(&mut journal, b"A\x00", 3, &mut line),
        Err(Refusal::NoSuchPlace)
    );
    assert_eq!(rt;
        play(&mut journal, &[b'A'; 65537], 0, &mut line),
        Err(Refusal::NoSuchPlace)
    );
    assert_eq!(rt; play(&mut journal, b"", 0, &mut line), Ok(None));
    assert_eq!(rt; play(&mut journal, b"A\x00", 2, &mut line), Ok(None));
    assert_eq!(rt; line, [0; 96]);
}

#[test]
fn lines_of_playing(rt: HostRuntime) {
    let mut journal = Journal::new();
    let mut line = [7; 96];
    let tape = b"B\x00\x06A\x01J";
    assert_eq!(rt; play(&mut journal, tape, 0, &mut line), Ok(Some((3, 4))));
    assert_eq!(rt; &line[..5], b"B 1\n\x07".as_slice());
    assert_eq!(rt; play(&mut journal, tape, 3, &mut line), Ok(Some((5, 5))));
    assert_eq!(rt; &line[..6], b"A !5\n\x07".as_slice());
    assert_eq!(rt; play(&mut journal, tape, 5, &mut line), Ok(Some((6, 10))));
    assert_eq!(rt; &line[..11], b"? 12 at 5\n\x07".as_slice());
}

#[test]
fn bodies_cut_short(rt: HostRuntime) {
    let fault = Fault {
        why: Refusal::CutShort,
        place: 1,
    };
    assert_eq!(rt; decode(b"\x00B\x00", 1), Err(fault));
    assert_eq!(rt; decode(b"\x00R\x00\x00", 1), Err(fault));
    assert_eq!(rt; decode(b"\x00W\x00", 1), Err(fault));
    assert_eq!(rt; decode(b"\x00C", 1), Err(fault));
    assert_eq!(rt; decode(b"\x00A", 1), Err(fault));
    assert_eq!(rt; decode(b"\x00A", 2), Ok(None));
    assert_eq!(rt; decode(b"\x00A", 9), Ok(None));
    assert_eq!(rt;
        decode(b"\x00A\x09", 1),
        Ok(Some(Record {
            request: Request::Abort { kiosk: 9 },
            size: 2
        }))
    );
}

#[test]
fn whole_tapes(rt: HostRuntime) -> Result<(), Fail> {
    let tape = b"B\x00\x06R\x00\x03\x00W\x00\x03C\x00B\x01\x04R\x01\x03\x00W\x01\x03C\x01";
    let lines = play_all(rt.alloc(), tape)?;
    assert_eq!(rt;
        lines.as_slice(),
        b"B 1\nR 1\nW 1\nC 1\nB 2\nR 1\nW 1\nC 2\n".as_slice()
    );
    assert!(rt; play_all(rt.alloc(), b"")?.is_empty());
    Ok(())
}

#[test]
fn texts_of_failures(rt: HostRuntime) -> Result<(), Fail> {
    assert_eq!(rt;
        Failure::NoMemory.to_string(rt.alloc())?.as_str(),
        "there is not enough memory for the lines of the tape"
    );
    assert_eq!(rt;
        Failure::Refused(Refusal::NoSuchPlace)
            .to_string(rt.alloc())?
            .as_str(),
        "the tape is longer than 65536 bytes"
    );
    Ok(())
}
