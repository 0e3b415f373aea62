// The lines of potcount: reading one, and printing an answer.
#![tactic(auto)]

ghost use Rattle.std.specs.Prelude.{◌≡◌, ◌+◌, ◌≤◌, ◌<◌, length};
ghost use Rattle.lists.specs.Rows.{Stored};
ghost use Rattle.line.specs.Lines.{command_of, number};
ghost use Rattle.line.specs.Reading.{numbers_after, row_of, asked};
ghost use Rattle.line.specs.Texts.{decimal, text_line, text_kept, text_refusal, text_of};

use commands::{Answer, Command, Numbers};
use rule::Settings;
use rule::refusals::Refusal;

pub mod commands;

// The bytes of the longest line.
pub const LONGEST: usize = 64;

// A word as a number: digits, at least one, and no 0 before another. std's `parse` takes a + and zeros
// before a digit.
#[tactic(auto, using(crate::proofs::Words::begun_none, crate::proofs::Words::begun_other, crate::proofs::Words::begun_large))]
fn read_number(word: &[u8]) -> Option<u32>
    ensures { result ≡ number word.now }
{
    let first = *word.first()?;
    if first == b'0' && 1 < word.len() {
        return None;
    }
    let mut v: u32 = 0;
    for x in word {
        if !x.is_ascii_digit() {
            return None;
        }
        v = v.checked_mul(10)?.checked_add(u32::from(*x - b'0'))?;
    }
    Some(v)
}

// The numbers after the letter, one space before each, up to the line's end. Their count is part of what
// is answered.
fn read_numbers(rest: &[u8]) -> Option<Numbers>
    ensures { result ≡ row_of (numbers_after rest.now) }
{
    let mut values = [0u32; 5];
    let mut count = 0;
    let Some((space, text)) = rest.split_first() else {
        return Some(Numbers { count, values });
    };
    if *space != b' ' {
        return None;
    }
    for word in text.split(|x| *x == b' ') {
        if count == 5 {
            return None;
        }
        values[count] = read_number(word)?;
        count += 1;
    }
    Some(Numbers { count, values })
}

// A letter with its numbers, of one of the five shapes.
#[tactic(auto, unfolding(crate::specs::Reading::asked))]
fn shape(letter: u8, m: Numbers) -> Option<Command>
    ensures { result ≡ asked letter m }
{
    let [a, b, c, d, e] = m.values;
    match (letter, m.count) {
        (b'S', 5) => Some(Command::Settings(Settings {
            n: a,
            p: b,
            a: c,
            b: d,
            capacity: e,
        })),
        (b'A', 2) => Some(Command::Add { lo: a, hi: b }),
        (b'E', 0) => Some(Command::Estimate),
        (b'C', 3) => Some(Command::Count {
            level: a,
            lo: b,
            hi: c,
        }),
        (b'N', 2) => Some(Command::Next { level: a, from: b }),
        _ => None,
    }
}

// What a line without its newline asks for. An overlong line isn't read at all.
pub fn command(line: &[u8]) -> Option<Command>
    ensures { result ≡ command_of line.now }
{
    if LONGEST < line.len() {
        return None;
    }
    let (letter, rest) = line.split_first()?;
    shape(*letter, read_numbers(rest)?)
}

// The number of decimal digits. By division as the definition has it: std's `ilog10` is of numbers above
// 0, and promises powers.
fn width(x: u64) -> usize
    ensures { result ≡ length (decimal x) }
{
    let mut n = 1;
    let mut y = x;
    while 10 <= y {
        y /= 10;
        n += 1;
    }
    n
}

// The decimal digits, stored from the last to the first. By hand, since std's `Display` promises what is written only where
// the writer takes it, and nothing that it does.
pub fn put_number(out: &mut [u8], at: usize, x: u64) -> usize
    requires { at + 20 ≤ length out.old }
    ensures { Stored out.old at (decimal x) result out.new }
{
    let end = at + width(x);
    let mut y = x;
    for i in (at..end).rev() {
        out[i] = b'0' + (y % 10) as u8;
        y /= 10;
    }
    end
}

// Some bytes. Each of these takes the place to store at and answers the place after it: what std's
// writers promise is where they stand, and not what stands before and after it.
fn put_bytes(out: &mut [u8], at: usize, bytes: &[u8]) -> usize
    requires { at + length bytes.now ≤ length out.old }
    ensures { Stored out.old at bytes.now result out.new }
{
    let end = at + bytes.len();
    out[at..end].copy_from_slice(bytes);
    end
}

// A number after a few bytes, on a line of its own.
fn put_line(out: &mut [u8], at: usize, head: &[u8], v: u64) -> usize
    requires { at + length head.now + 21 ≤ length out.old }
    ensures { Stored out.old at (text_line head.now v) result out.new }
{
    let a = put_bytes(out, at, head);
    let b = put_number(out, a, v);
    put_bytes(out, b, b"\n")
}

// `K level cells`
pub fn put_kept(out: &mut [u8], at: usize, level: u32, cells: u32) -> usize
    requires { at + 40 ≤ length out.old }
    ensures { Stored out.old at (text_kept level cells) result out.new }
{
    let a = put_bytes(out, at, b"K ");
    let b = put_number(out, a, u64::from(level));
    put_line(out, b, b" ", u64::from(cells))
}

// `R number`
pub fn put_refusal(out: &mut [u8], at: usize, number: u32) -> usize
    requires { at + 40 ≤ length out.old }
    ensures { Stored out.old at (text_refusal number) result out.new }
{
    put_line(out, at, b"R ", u64::from(number))
}

// An answer or a refusal as a line, from a place on.
pub fn put(out: &mut [u8], at: usize, answer: Result<Answer, Refusal>) -> usize
    requires { at + 40 ≤ length out.old }
    ensures { Stored out.old at (text_of answer) result out.new }
{
    match answer {
        Ok(Answer::Kept { level, cells }) => put_kept(out, at, level, cells),
        Ok(Answer::Exact(v)) => put_line(out, at, b"E exact ", v),
        Ok(Answer::About(v)) => put_line(out, at, b"E about ", v),
        Ok(Answer::Count(v)) => put_line(out, at, b"C ", u64::from(v)),
        Ok(Answer::Next(Some(cell))) => put_line(out, at, b"N ", u64::from(cell)),
        Ok(Answer::Next(None)) => put_bytes(out, at, b"N none\n"),
        Err(refusal) => put_refusal(out, at, refusal.into()),
    }
}
