// Two rows and a range between them.
ghost use Rattle.std.proofs.Props.{props};
ghost use Rattle.settle.specs.Around.{Around, Rising-prop};

use rule::Settings;

// The cells of a row before lo, those of lo..hi, which may be empty, and those of a row after hi.
#[derive(Clone, Copy)]
pub struct Parts<'a> {
    pub settings: Settings,
    pub front: &'a [u32],
    pub lo: u32,
    pub hi: u32,
    pub back: &'a [u32],
    ghost around: { Around settings front.now back.now lo hi } by { Prim.hlevel (props, Rising-prop) },
}
