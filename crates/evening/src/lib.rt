// An evening of potcount on bytes: each line is answered with a line, and the open sketch is kept from one to the next.
#![tactic(auto)]

ghost use Rattle.std.specs.Prelude.{◌≡◌, Ok};
ghost use Rattle.lists.specs.Rows.{Stored};
ghost use Rattle.evening.specs.Replies.{Sits, Room, Replies, Tells, kept, open_reply, add_reply, reply_to, reply_of};
ghost use Rattle.evening.specs.Runs.{beginning, Sitting, Feeds, rest};

mod tells;

use line::commands::{Answer, Command};
use rule::Settings;
use rule::refusals::Refusal;
use sketch::Sketch;
use tells::{tell_count, tell_estimate, tell_next};

// The bytes that are kept of a line: one more than it may have.
const LINE: usize = line::LONGEST + 1;

// The room that does for any answer.
const ROOM: usize = 40;

// The open sketch, once one has been opened.
pub type Pot = Option<Sketch>;

// The pot, and the line so far: its first bytes, in fixed memory. The places after them hold what is
// left of earlier lines. That what is open is a sketch stands in contracts and in no ghost field: the
// theorems on whole runs make evenings as plain records.
#[derive(Clone, Copy)]
pub struct Evening {
    pub pot: Pot,
    pub length: usize,
    pub line: [u8; LINE],
}

// The evening after a piece of the input, how many of its bytes were taken, and how many were written.
#[derive(Clone, Copy)]
pub struct Fed {
    pub evening: Evening,
    pub taken: usize,
    pub written: usize,
}

// Before the first byte.
pub fn begin() -> Evening
    ensures { result ≡ beginning }
{
    Evening {
        pot: None,
        length: 0,
        line: [0; LINE],
    }
}

// `K level cells`, of the sketch that is open from now on.
fn keep(pot: &mut Pot, sketch: Sketch) -> Answer
    ensures { Replies (kept sketch) (Ok result) pot.new }
{
    *pot = Some(sketch);
    Answer::Kept {
        level: sketch.level,
        cells: sketch.count,
    }
}

// `S n p a b capacity`: a refused one leaves the open sketch.
fn answer_open(pot: &mut Pot, settings: Settings) -> Result<Answer, Refusal>
    ensures { Replies (open_reply pot.old settings) result pot.new }
{
    let changed = Sketch::open(settings);
    changed.answer?;
    Ok(keep(pot, changed.sketch))
}

// `A lo hi`: what is open is known to be a sketch, so that it isn't tested again.
#[tactic(auto, using(crate::proofs::Replying::add_known))]
fn answer_add(pot: &mut Pot, lo: u32, hi: u32) -> Result<Answer, Refusal>
    requires { Sits pot.old }
    ensures { Replies (add_reply pot.old lo hi) result pot.new }
{
    let sketch = pot.as_ref().ok_or(Refusal::NotOne)?;
    sketch::order::add_answer(true, sketch.settings, lo, hi)?;
    let next = sketch.added(lo, hi);
    Ok(keep(pot, next))
}

// The answer to a command, or why it is refused, and the pot after it.
#[tactic(auto, unfolding(crate::specs::Replies::reply_to))]
fn reply(pot: &mut Pot, command: Option<Command>) -> Result<Answer, Refusal>
    requires { Sits pot.old }
    ensures { Replies (reply_to pot.old command) result pot.new }
{
    match command.ok_or(Refusal::Line)? {
        Command::Settings(settings) => answer_open(pot, settings),
        Command::Add { lo, hi } => answer_add(pot, lo, hi),
        Command::Estimate => tell_estimate(pot),
        Command::Count { level, lo, hi } => tell_count(pot, level, lo, hi),
        Command::Next { level, from } => tell_next(pot, level, from),
    }
}

// The answer to a line without its newline, stored from a place on; the place after it.
pub fn answer(pot: &mut Pot, text: &[u8], out: &mut [u8], at: usize) -> usize
    requires { Sits pot.old × Room out.old at }
    ensures { Tells out.old at (reply_of pot.old text.now) out.new pot.new result }
{
    let answer = reply(pot, line::command(text));
    line::put(out, at, answer)
}

// Takes bytes of a piece of the input until it ends, or until an answer might not have room. The
// pot is touched only where a line ends. How many were taken is part of what is answered.
pub fn feed(evening: Evening, input: &[u8], out: &mut [u8]) -> Fed
    requires { Sitting evening }
    ensures { Feeds evening input.now out.old out.new result }
{
    let Evening {
        mut pot,
        mut length,
        mut line,
    } = evening;
    let mut taken = 0;
    let mut written = 0;
    for x in input {
        if out.len() - written < ROOM {
            break;
        }
        taken += 1;
        if *x == b'\n' {
            written = answer(&mut pot, &line[..length], out, written);
            length = 0;
        } else if length < LINE {
            line[length] = *x;
            length += 1;
        }
    }
    Fed {
        evening: Evening { pot, length, line },
        taken,
        written,
    }
}

// The answer to a last line without a newline, and how many bytes it has.
#[tactic(auto, unfolding(crate::specs::Runs::rest))]
pub fn finish(evening: Evening, out: &mut [u8]) -> usize
    requires { Sitting evening × Room out.old 0 }
    ensures { Stored out.old 0 (rest evening) result out.new }
{
    let Evening {
        mut pot,
        length,
        line,
    } = evening;
    if length == 0 {
        return 0;
    }
    answer(&mut pot, &line[..length], out, 0)
}
