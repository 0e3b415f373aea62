// The lines that only read, `E`, `C` and `N`. The pot is lent to them: by value it would be copied.
ghost use Rattle.std.specs.Prelude.{◌≡◌};
ghost use Rattle.line.specs.Texts.{text_of};
ghost use Rattle.evening.specs.Replies.{estimate_told, count_told, next_told};

use crate::Pot;
use line::commands::Answer;
use rule::refusals::Refusal;

// `E exact v` or `E about v`
pub fn tell_estimate(pot: &Pot) -> Result<Answer, Refusal>
    ensures { text_of result ≡ estimate_told pot.now }
{
    let sketch = pot.as_ref().ok_or(Refusal::NotOne)?;
    if sketch.level == 0 {
        return Ok(Answer::Exact(u64::from(sketch.count)));
    }
    Ok(Answer::About(sketch::stands_at(sketch.settings, sketch.level, sketch.count)))
}

// `C v`
pub fn tell_count(pot: &Pot, level: u32, lo: u32, hi: u32) -> Result<Answer, Refusal>
    ensures { text_of result ≡ count_told pot.now level lo hi }
{
    let sketch = pot.as_ref().ok_or(Refusal::NotOne)?;
    Ok(Answer::Count(find::count(sketch.settings, level, lo, hi)?))
}

// `N cell` or `N none`
pub fn tell_next(pot: &Pot, level: u32, from: u32) -> Result<Answer, Refusal>
    ensures { text_of result ≡ next_told pot.now level from }
{
    let sketch = pot.as_ref().ok_or(Refusal::NotOne)?;
    Ok(Answer::Next(find::next_hit(sketch.settings, level, from)?))
}
