// In which order adding and merging are refused: it is said here, and nowhere else. The calls by
// value, the boundary and the program ask here first, and do the work only where nothing refuses it.
ghost use Rattle.std.specs.Prelude.{◌≡◌};
ghost use Rattle.rule.specs.Refusals.{of_answer};
ghost use Rattle.sketch.specs.Calls.{add_when, merge_when};

use rule::Settings;
use rule::refusals::Refusal;

// To adding lo..hi, where it is known whether something with these settings is a sketch: those who ask
// know it in ways of their own, and have the settings whatever it is.
pub fn add_answer(known: bool, settings: Settings, lo: u32, hi: u32) -> Result<(), Refusal>
    ensures { of_answer result ≡ add_when known settings lo hi }
{
    if !known {
        return Err(Refusal::NotOne);
    }
    if !find::in_range(settings, lo, hi) {
        return Err(Refusal::Range);
    }
    Ok(())
}

// To merging, where it is known of both.
pub fn merge_answer(mine: bool, s: Settings, its: bool, t: Settings) -> Result<(), Refusal>
    ensures { of_answer result ≡ merge_when mine s its t }
{
    if !mine {
        return Err(Refusal::NotOne);
    }
    if !its {
        return Err(Refusal::NotOne);
    }
    if s == t {
        Ok(())
    } else {
        Err(Refusal::Unequal)
    }
}
