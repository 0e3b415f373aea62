// A small kitchen on paper: each cell with its hash and the highest level at which it passes, a count by the plain engine, cell by
// cell, and then a short evening on two handhelds, step by step, so that a person with a pencil can follow. docs/KITCHEN.md walks
// through what this prints.
#![tactic(auto)]

use rule::Settings;
use sketch::Sketch;
use sketch::estimates::Estimate;
use std::io;

// Ten cells, and room for three.
fn kitchen() -> Settings {
    Settings {
        n: 10,
        p: 101,
        a: 37,
        b: 5,
        capacity: 3,
    }
}

// The highest level at which the cell passes; at level 0 every cell does.
fn highest(settings: Settings, x: u32) -> u32 {
    let top = settings.top();
    (1..=top)
        .rev()
        .find(|level| settings.passes(*level, x))
        .unwrap_or(0)
}

fn print_regions(rt: &impl Print, settings: Settings) -> io::Result<()> {
    println!(rt; "level region")?;
    for level in 0..=6 {
        println!(rt; "{level} {}", settings.region(level))?;
    }
    Ok(())
}

fn print_list(rt: &impl Print, settings: Settings) -> io::Result<()> {
    println!(rt; "cell hash highest level")?;
    for x in 1..=10 {
        println!(rt; "{x} {} {}", settings.hash(x), highest(settings, x))?;
    }
    Ok(())
}

// A count of the plain engine: at this level, over lo..hi.
const LEVEL: u32 = 1;

const LO: u32 = 3;

const HI: u32 = 9;

fn print_asked(rt: &impl Print, settings: Settings) -> io::Result<()> {
    println!(rt;
        "plain count of {LO}..{HI} at level {LEVEL}, region {}",
        settings.region(LEVEL)
    )?;
    println!(rt; "cell hash counts so far")
}

// The engine's own loop, with a line printed for each cell that it tests: what that counts, and what all
// have counted so far.
fn print_steps(rt: &impl Print, settings: Settings) -> io::Result<()> {
    let mut many: u32 = 0;
    for x in LO..=HI {
        let counts = plain::counts(settings, LEVEL, x);
        many = many + counts;
        println!(rt; "{x} {} {counts} {many}", settings.hash(x))?;
    }
    Ok(())
}

// What it answers, which is what the last line has come to.
fn print_counted(rt: &impl Print, settings: Settings) -> io::Result<()> {
    match plain::count(settings, LEVEL, LO, HI) {
        Ok(v) => println!(rt; "counted {v}"),
        Err(_) => println!(rt; "refused"),
    }
}

// About: the number of cells times p, divided by the region's size; what is left over is let go.
fn print_about(rt: &impl Print, settings: Settings, level: u32, count: u32) -> io::Result<()> {
    print!(rt;
        ", about {count} * {} / {}",
        settings.p,
        settings.region(level)
    )?;
    print!(rt; " = {}", sketch::stands_at(settings, level, count))
}

fn print_estimate(rt: &impl Print, k: Sketch) -> io::Result<()> {
    match k.estimate() {
        Estimate::Exact(v) => print!(rt; ", exactly {v}"),
        Estimate::About(_) => print_about(rt, k.settings, k.level, k.count),
        Estimate::Refused(_) => print!(rt; ", refused"),
    }
}

fn show(rt: &impl Print, k: Sketch) -> io::Result<()> {
    print!(rt; "level {}, cells", k.level)?;
    for x in k.cells.iter().take(k.count as usize) {
        print!(rt; " {x}")?;
    }
    print_estimate(rt, k)?;
    println!(rt)
}

// One stretch on a handheld.
fn sees(rt: &impl Print, name: &str, k: Sketch, lo: u32, hi: u32) -> io::Result<Sketch> {
    print!(rt; "{name} sees {lo}..{hi}: ")?;
    let r = k.add(lo, hi);
    show(rt, r.sketch)?;
    Ok(r.sketch)
}

fn merges(rt: &impl Print, name: &str, j: Sketch, k: Sketch) -> io::Result<()> {
    print!(rt; "{name}")?;
    let r = j.merge(k);
    show(rt, r.sketch)
}

fn main(rt: HostRuntime) -> io::Result<()> {
    let settings = kitchen();
    print_regions(&rt, settings)?;
    print_list(&rt, settings)?;
    print_asked(&rt, settings)?;
    print_steps(&rt, settings)?;
    print_counted(&rt, settings)?;
    let opened = Sketch::open(settings);
    let empty = opened.sketch;
    let a = sees(&rt, "first handheld", empty, 1, 2)?;
    let a = sees(&rt, "first handheld", a, 6, 6)?;
    let b = sees(&rt, "second handheld", empty, 2, 4)?;
    let b = sees(&rt, "second handheld", b, 9, 10)?;
    merges(&rt, "first with second: ", a, b)?;
    merges(&rt, "second with first: ", b, a)?;
    merges(&rt, "first with itself: ", a, a)
}
