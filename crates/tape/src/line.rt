ghost use Rattle.std.specs.Prelude.{◌≡◌, ◌+◌, ◌≤◌, length, decimal};
ghost use Rattle.tape.specs.Limits.{line_room};
ghost use Rattle.tape.specs.Lines.{answer_line, fault_line, outcome, written};

use crate::decoding::Fault;
use journal::Refusal;

/// Writes a text over the line from a place on, and gives the place after it.
fn put(line: &mut [u8], at: usize, text: &[u8]) -> usize
    requires { at + length text.now ≤ length line.old }
    ensures line { line.new ≡ written line.old at text.now }
    ensures end { result ≡ at + length text.now }
{
    let end = at + text.len();
    line[at..end].copy_from_slice(text);
    end
}

/// Writes a number in decimal.
fn put_decimal(line: &mut [u8], at: usize, n: usize) -> usize
    requires { at + length (decimal n) ≤ length line.old }
    ensures line { line.new ≡ written line.old at (decimal n) }
    ensures end { result ≡ at + length (decimal n) }
{
    if n < 10 {
        return put(line, at, &[b'0' + n as u8]);
    }
    let end = put_decimal(line, at, n / 10);
    put(line, end, &[b'0' + (n % 10) as u8])
}

/// Writes an answer, or `!` and the number of a refusal.
fn put_outcome(line: &mut [u8], at: usize, answer: Result<u8, Refusal>) -> usize
    requires { at + 21 ≤ length line.old }
    ensures line { line.new ≡ written line.old at (outcome answer) }
    ensures end { result ≡ at + length (outcome answer) }
    ensures short { result ≤ at + 21 }
{
    match answer {
        Ok(number) => put_decimal(line, at, usize::from(number)),
        Err(refusal) => {
            let end = put(line, at, b"!");
            put_decimal(line, end, usize::from(u8::from(refusal)))
        }
    }
}

/// Writes the line of a call's answer, and gives its length.
pub(crate) fn write_answer(line: &mut [u8], letter: u8, answer: Result<u8, Refusal>) -> usize
    requires { line_room ≤ length line.old }
    ensures line { line.new ≡ written line.old 0 (answer_line letter answer) }
    ensures end { result ≡ length (answer_line letter answer) }
    ensures short { result ≤ line_room }
{
    let end = put(line, 0, &[letter, b' ']);
    let end = put_outcome(line, end, answer);
    put(line, end, b"\n")
}

/// Writes the line of a fault, and gives its length.
pub(crate) fn write_fault(line: &mut [u8], fault: Fault) -> usize
    requires { line_room ≤ length line.old }
    ensures line { line.new ≡ written line.old 0 (fault_line fault) }
    ensures end { result ≡ length (fault_line fault) }
    ensures short { result ≤ line_room }
{
    let end = put(line, 0, b"? ");
    let end = put_decimal(line, end, usize::from(u8::from(fault.why)));
    let end = put(line, end, b" at ");
    let end = put_decimal(line, end, fault.place);
    put(line, end, b"\n")
}
