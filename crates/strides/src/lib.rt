// The distances from a hit to the next: of the passing cells of a range only the first is searched for.
#![tactic(auto)]

ghost use Rattle.std.specs.Prelude.{◌<◌, ◌≤◌};
ghost use Rattle.rule.specs.Rule.{Good};
ghost use Rattle.strides.specs.Striding.{Shortest, Striding, IsHit, Next};

use rule::Settings;

// A distance between cells, and by how much it changes the hash.
#[derive(Clone, Copy)]
pub struct Stride {
    pub distance: u32,
    pub change: u32,
}

impl Stride {
    // The least distance up to `far` after which a hash that grows by a, modulo p, with each cell
    // has grown by less than `size`. Where there is none: one past `far`, with the change `size`. A
    // number and no Option, so that `next` needs no case for it: with this change no hit has room to move.
    fn least(p: u32, a: u32, size: u32, far: u32) -> Stride
        requires { (p ≤ 4000000000) × (a < p) × (far < 4000000000) }
        ensures { Shortest p a size far result }
    {
        let modulus = u64::from(p);
        let step = u64::from(a);
        match next::next_hit(modulus, step, step, u64::from(size), u64::from(far)) {
            Some(i) => {
                let d = i + 1;
                Stride {
                    distance: d as u32,
                    change: (d * step % modulus) as u32,
                }
            }
            None => Stride {
                distance: far + 1,
                change: size,
            },
        }
    }
}

// A passing cell, with its hash.
#[derive(Clone, Copy)]
pub struct Hit {
    pub cell: u32,
    pub hash: u32,
}

// The size of a level's region, with the least distance that raises the hash of a hit by less than
// it, and the least that lowers the hash so.
#[derive(Clone, Copy)]
pub struct Strides {
    pub size: u32,
    pub up: Stride,
    pub down: Stride,
}

impl Strides {
    // Of good settings, as a hasher.
    pub fn of(settings: Settings, level: u32, far: u32) -> Strides
        requires { Good settings × (far ≤ settings.n) }
        ensures { Striding settings level far result }
    {
        let p = settings.p;
        let a = settings.a;
        let size = settings.region(level);
        Strides {
            size,
            up: Stride::least(p, a, size, far),
            down: Stride::least(p, p - a, size, far),
        }
    }

    // The next hit after one: where the hash can neither rise nor fall and stay in the region, it
    // does both. Only the contract needs the settings, the level and `far`, which the struct doesn't
    // hold: with them in it a stride would be copied with what no turn reads.
    pub fn next(self, settings: Settings, level: u32, far: u32, hit: Hit) -> Hit
        requires { Good settings × Striding settings level far self × IsHit settings level hit × (hit.cell ≤ settings.n) × (far ≤ settings.n) }
        ensures { Next settings level far hit result }
    {
        let up = self.up;
        let down = self.down;
        let x = hit.cell;
        let h = hit.hash;
        if h < self.size - up.change {
            Hit {
                cell: x + up.distance,
                hash: h + up.change,
            }
        } else if down.change <= h {
            Hit {
                cell: x + down.distance,
                hash: h - down.change,
            }
        } else {
            Hit {
                cell: x + (up.distance + down.distance),
                hash: up.change - (down.change - h),
            }
        }
    }
}
