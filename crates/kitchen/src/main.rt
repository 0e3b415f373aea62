// The kitchen tests that are not marked (RULES: Kitchen tests): run here, and compared with the stored output. The marked ones are
// proved, in specs/Table.antt and proofs/Tests.antt.
#![tactic(auto)]

use find::{Started, Walker, count};
use rule::Settings;
use rule::refusals::Refusal;
use sketch::Sketch;
use std::io;

fn q(capacity: u32) -> Settings {
    Settings {
        n: 10,
        p: 101,
        a: 37,
        b: 5,
        capacity,
    }
}

// The number of a refusal, 0 where there is none.
fn number<T: Drop>(answer: Result<T, Refusal>) -> u32 {
    match answer {
        Ok(_) => 0,
        Err(refusal) => u32::from(refusal),
    }
}

fn opened(capacity: u32) -> u32 {
    number(Sketch::open(q(capacity)).answer)
}

// A room of so many bytes for an empty sketch.
fn written(room: &mut [u8]) -> u32 {
    number(image::write(Sketch::open(q(16)).sketch, room))
}

// The walker over 1..10 at a level.
fn over_all(level: u32) -> Started {
    Walker::open(q(16), level, 1, 10)
}

// One step of a walker that is lent: the cell, and the position after it.
fn step(rt: &impl Print, walker: Walker) -> io::Result<Walker> {
    let m = lent::moved_on(walker);
    match m.found {
        Ok(Some(x)) => print!(rt; "  cell {x}")?,
        Ok(None) => print!(rt; "  none")?,
        Err(refusal) => print!(rt; "  refused {}", u32::from(refusal))?,
    }
    println!(rt; ", position {}", m.walker.at)?;
    Ok(m.walker)
}

// A walker that nothing opened, and what a step leaves of it.
fn forged(rt: &impl Print, at: u32, hi: u32) -> io::Result<()> {
    let walker = Walker {
        settings: q(16),
        level: 1,
        at,
        hi,
    };
    println!(rt; "forged walker under Q, position {at}, hi {hi}")?;
    let after = step(rt, walker)?;
    let what = if walker == after {
        "unchanged"
    } else {
        "changed"
    };
    println!(rt; "  {what}")
}

fn walk(rt: &impl Print, mut walker: Walker, steps: u32) -> io::Result<()> {
    for _ in 0..steps {
        walker = step(rt, walker)?;
    }
    Ok(())
}

fn main(rt: HostRuntime) -> io::Result<()> {
    println!(&rt;
        "level 7 under Q, count: {}",
        number(count(q(16), 7, 1, 10))
    )?;
    println!(&rt;
        "level 7 under Q, next hit: {}",
        number(find::next_hit(q(16), 7, 1))
    )?;
    println!(&rt; "level 7 under Q, walker: {}", number(over_all(7).answer))?;
    println!(&rt;
        "level 6 under Q, count: {}",
        number(count(q(16), 6, 1, 10))
    )?;
    println!(&rt; "capacity 504: {}", opened(504))?;
    println!(&rt; "capacity 505: {}", opened(505))?;
    println!(&rt;
        "room of 511 for an empty sketch: {}",
        written(&mut [0; 511])
    )?;
    println!(&rt;
        "room of 512 for an empty sketch: {}",
        written(&mut [0; 512])
    )?;
    println!(&rt; "walker over 1..10 at level 1 under Q:")?;
    walk(&rt, over_all(1).walker, 6)?;
    forged(&rt, 0, 10)?;
    forged(&rt, 1, 11)
}
