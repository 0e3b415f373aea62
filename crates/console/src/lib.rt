// Standard input and output for an evening: input is read in pieces of 65,536 bytes, in constant memory.
// No contract can say what is read or written; the evening after a piece is exact.
//
// A read or a write that a signal interrupted is tried again. One that fails ends the run, and is said
// on standard error with its cause.
//
// A proved loop has to end, and nothing says that the input or the signals do. So such a loop runs over
// a count that no run uses up.
#![tactic(auto)]

ghost use Rattle.std.specs.Prelude.{◌≡◌, ◌≤◌, length, IfOk};
ghost use Rattle.evening.specs.Runs.{Sitting};
ghost use Rattle.console.specs.Serving.{served};

use evening::Evening;
use std::io;
use std::io::{Cursor, ErrorKind, Read, Write};

// How many bytes are read at a time, and how many of answers are kept before they are written.
const PIECE: usize = 65536;

// What ended a run before the end of its input.
#[derive(Drop)]
enum Failure {
    Reading(io::Error),
    Writing(io::Error),
}

// One read: how many bytes it put at the start of the row, 0 at the end of the input.
fn read_some<R: Read>(input: &mut R, row: &mut [u8]) -> io::Result<usize>
    ensures { IfOk result (λ n. n ≤ length row.new) }
{
    for _ in 0..u64::MAX {
        match input.read(row) {
            Err(cause) if cause.kind() == ErrorKind::Interrupted => {}
            got => return got,
        }
    }
    input.read(row)
}

// One write: how many of the bytes it took. The loop is `read_some`'s again: one for both, over a closure,
// would need a contract on what its last call moved, and be no plainer.
fn write_some<W: Write>(output: &mut W, bytes: &[u8]) -> io::Result<usize>
    ensures { IfOk result (λ n. n ≤ length bytes.now) }
{
    for _ in 0..u64::MAX {
        match output.write(bytes) {
            Err(cause) if cause.kind() == ErrorKind::Interrupted => {}
            got => return got,
        }
    }
    output.write(bytes)
}

// Writes all of the bytes. std's `write_all` has other words for a write that takes none of them.
fn write_all<W: Write>(output: &mut W, bytes: &[u8]) -> io::Result<()> {
    let mut rest = bytes;
    // A turn goes on by as many bytes as the writer took, and not by one or by a chunk.
    while !rest.is_empty() {
        let some = write_some(output, rest)?;
        if some == 0 {
            return Err(io::Error::from_raw_os_error(0));
        }
        rest = &rest[some..];
    }
    Ok(())
}

// Feeds a whole piece. The answers are written each time that the room for them is used up.
fn serve_piece<W: Write>(
    output: &mut W,
    evening: Evening,
    input: &[u8],
    out: &mut [u8; PIECE],
) -> io::Result<Evening>
    requires { Sitting evening }
    ensures evening { IfOk result (λ e. e ≡ served evening input.now) }
    ensures sitting { IfOk result Sitting }
{
    let mut s = evening;
    let mut rest = input;
    // A turn goes on by as many bytes as were fed.
    while !rest.is_empty() {
        let fed = evening::feed(s, rest, out);
        write_all(output, &out[..fed.written])?;
        rest = &rest[fed.taken..];
        s = fed.evening;
    }
    Ok(s)
}

// Answers a last line without a newline.
fn serve_rest<W: Write>(output: &mut W, evening: Evening, out: &mut [u8; PIECE]) -> io::Result<()>
    requires { Sitting evening }
{
    let n = evening::finish(evening, out);
    write_all(output, &out[..n])
}

// Piece after piece, and at the end of the input the rest. Where a read failed there may be more of the
// line, so that it isn't answered.
fn serve_all<R: Read, W: Write>(
    input: &mut R,
    output: &mut W,
    out: &mut [u8; PIECE],
) -> Result<(), Failure> {
    let mut piece = [0u8; PIECE];
    let mut s = evening::begin();
    for _ in 0..u64::MAX {
        let n = read_some(input, &mut piece).map_err(Failure::Reading)?;
        if n == 0 {
            break;
        }
        s = serve_piece(output, s, &piece[..n], out).map_err(Failure::Writing)?;
    }
    serve_rest(output, s, out).map_err(Failure::Writing)
}

// Says on standard error what failed, and why in the system's words. These are printed with the
// error's number behind them, which is left out.
fn fail<E: Eprint>(errors: &E, what: &str, cause: io::Error) {
    let mut room = Cursor::new([0u8; 128]);
    let _ = write!(room, "{cause}");
    let n = room.position() as usize;
    let text = str::from_utf8(room.get_ref().get(..n).unwrap_or(b"")).unwrap_or("");
    let words = match text.split_once(" (os error ") {
        Some((words, _)) => words,
        None => text,
    };
    let _ = eprintln!(errors; "potcount: {what} failed: {words}");
}

// The program: each line of the input is answered on the output, and what fails is said on `errors`.
pub fn serve<R: Read, W: Write, E: Eprint>(input: &mut R, output: &mut W, errors: &E) {
    let mut out = [0u8; PIECE];
    match serve_all(input, output, &mut out) {
        Ok(()) => {}
        Err(Failure::Reading(cause)) => fail(errors, "reading", cause),
        Err(Failure::Writing(cause)) => fail(errors, "writing", cause),
    }
}
