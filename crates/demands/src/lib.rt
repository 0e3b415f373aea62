// The three demands are theorems over the calls' promises: see specs/ and proofs/. A promise that no proof cites could be changed
// unseen, so each function here ties a public call to the promise that the theorems speak of.
#![tactic(auto)]

ghost use Rattle.std.specs.Prelude.{◌≡◌, [], ◌∷◌};
ghost use Rattle.rule.specs.Refusals.{of_counted, of_found, of_row};
ghost use Rattle.find.specs.Finding.{count_on, next_on};
ghost use Rattle.find.specs.Walking.{Starts, Steps};
ghost use Rattle.sketch.specs.Sketches.{is_sketch, opened, add, merge};
ghost use Rattle.sketch.specs.Calls.{open_on, add_on, merge_on, no_sketch, Hands};
ghost use Rattle.sketch.specs.Estimates.{Estimates};
ghost use Rattle.row.specs.Stretches.{add_all, row_when, row_on, HandsRow};
ghost use Rattle.image.specs.Calls.{Writes, Reads};

pub mod crossings;
pub mod engines;
pub mod rules;
pub mod walkers;

use find::{Started, Stepped, Walker};
use row::Stretch;
use rule::Settings;
use rule::refusals::{ReadError, Refusal, RowError};
use sketch::estimates::Estimate;
use sketch::{Changed, Sketch};

pub fn counts(s: Settings, level: u32, lo: u32, hi: u32) -> Result<u32, Refusal>
    ensures { of_counted result ≡ count_on s level lo hi }
{
    find::count(s, level, lo, hi)
}

pub fn finds(s: Settings, level: u32, from: u32) -> Result<Option<u32>, Refusal>
    ensures { of_found result ≡ next_on s level from }
{
    find::next_hit(s, level, from)
}

pub fn starts(s: Settings, level: u32, lo: u32, hi: u32) -> Started
    ensures { Starts s level lo hi result }
{
    Walker::open(s, level, lo, hi)
}

pub fn steps(w: Walker) -> Stepped
    ensures { Steps w result }
{
    w.step()
}

pub fn is_one(k: Sketch) -> bool
    ensures { result ≡ is_sketch k }
{
    k.good()
}

pub fn opens(s: Settings) -> Changed<Refusal>
    ensures { Hands (open_on s) (opened s) no_sketch result }
{
    Sketch::open(s)
}

pub fn adds(k: Sketch, lo: u32, hi: u32) -> Changed<Refusal>
    ensures { Hands (add_on k lo hi) (add k lo hi) k result }
{
    k.add(lo, hi)
}

pub fn adds_row(k: Sketch, row: &[Stretch]) -> Changed<RowError>
    ensures { HandsRow (row_on k row.now) (add_all k row.now) k result }
{
    row::add_row(k, row)
}

pub fn adds_two(k: Sketch, first: Stretch, second: Stretch) -> Changed<RowError>
    ensures { HandsRow (row_on k (first ∷ second ∷ [])) (add_all k (first ∷ second ∷ [])) k result }
{
    row::add_two(k, first, second)
}

pub fn answers_row(known: bool, s: Settings, row: &[Stretch]) -> Result<(), RowError>
    ensures { of_row result ≡ row_when known s row.now }
{
    row::row_answer(known, s, row)
}

pub fn merges(j: Sketch, k: Sketch) -> Changed<Refusal>
    ensures { Hands (merge_on j k) (merge j k) j result }
{
    j.merge(k)
}

pub fn estimates(k: Sketch) -> Estimate
    ensures { Estimates k result }
{
    k.estimate()
}

pub fn writes(k: Sketch, room: &mut [u8]) -> Result<usize, Refusal>
    ensures { Writes k room.old result room.new }
{
    image::write(k, room)
}

pub fn reads(bytes: &[u8]) -> Changed<ReadError>
    ensures { Reads bytes.now result }
{
    image::read(bytes)
}
