// Answers as C takes them, without an enum: the refusal's number, 0 where there is none, and the
// value, 0 with a refusal. No pointer hands a value out, so a refusal has nothing to write. The structs
// are those of include/pot.h, each with its own name for the value.
ghost use Rattle.std.specs.Prelude.{◌≡◌};
ghost use Rattle.rule.specs.Refusals.{of_answer, of_counted, of_found, of_written, of_taken, of_row};
ghost use Rattle.sketch.specs.Estimates.{of_estimate};
ghost use Rattle.crossing.specs.Crossing.{told_number, Crosses, Weighs};

use rule::refusals::{ReadError, Refusal, RowError};
use sketch::estimates::Estimate;

#[repr(C)]
#[derive(Clone, Copy)]
pub struct ToldValue {
    pub number: u32,
    pub value: u32,
}

// No cell is 0, so 0 says that there is none.
#[repr(C)]
#[derive(Clone, Copy)]
pub struct ToldCell {
    pub number: u32,
    pub cell: u32,
}

#[repr(C)]
#[derive(Clone, Copy)]
pub struct ToldLength {
    pub number: u32,
    pub length: usize,
}

// The block is the one that refusal 7 names.
#[repr(C)]
#[derive(Clone, Copy)]
pub struct ToldBlock {
    pub number: u32,
    pub block: u32,
}

// The place is that of the first bad stretch, which a row's 2 names.
#[repr(C)]
#[derive(Clone, Copy)]
pub struct ToldPlace {
    pub number: u32,
    pub place: usize,
}

// `exact` is 1 where the value is exact, and otherwise 0.
#[repr(C)]
#[derive(Clone, Copy)]
pub struct ToldDouble {
    pub number: u32,
    pub exact: u32,
    pub value: f64,
}

// The number of a refusal, 0 where there is none: from one type of std to another, so no `From`.
pub fn number_of(answer: Result<(), Refusal>) -> u32
    ensures { result ≡ told_number (of_answer answer) }
{
    match answer {
        Ok(()) => 0,
        Err(refusal) => refusal.into(),
    }
}

impl From<Result<u32, Refusal>> for ToldValue {
    ghost from_gives = { λ counted told. Crosses (of_counted counted) told.number told.value };

    fn from(counted: Result<u32, Refusal>) -> ToldValue {
        match counted {
            Ok(value) => ToldValue { number: 0, value },
            Err(refusal) => ToldValue {
                number: refusal.into(),
                value: 0,
            },
        }
    }
}

impl From<Result<Option<u32>, Refusal>> for ToldCell {
    ghost from_gives = { λ found told. Crosses (of_found found) told.number told.cell };

    fn from(found: Result<Option<u32>, Refusal>) -> ToldCell {
        match found {
            Ok(Some(cell)) => ToldCell { number: 0, cell },
            Ok(None) => ToldCell { number: 0, cell: 0 },
            Err(refusal) => ToldCell {
                number: refusal.into(),
                cell: 0,
            },
        }
    }
}

// A next hit crosses as a value, a walker's step as a cell.
impl From<ToldCell> for ToldValue {
    ghost from_gives = { λ cell value. (value.number ≡ cell.number) × (value.value ≡ cell.cell) };

    fn from(told: ToldCell) -> ToldValue {
        ToldValue {
            number: told.number,
            value: told.cell,
        }
    }
}

impl From<Result<usize, Refusal>> for ToldLength {
    ghost from_gives = { λ written told. Crosses (of_written written) told.number told.length };

    fn from(written: Result<usize, Refusal>) -> ToldLength {
        match written {
            Ok(length) => ToldLength { number: 0, length },
            Err(refusal) => ToldLength {
                number: refusal.into(),
                length: 0,
            },
        }
    }
}

impl From<Result<(), ReadError>> for ToldBlock {
    ghost from_gives = { λ taken told. Crosses (of_taken taken) told.number told.block };

    fn from(taken: Result<(), ReadError>) -> ToldBlock {
        match taken {
            Ok(()) => ToldBlock {
                number: 0,
                block: 0,
            },
            Err(error) => ToldBlock {
                number: Refusal::from(error).into(),
                block: error.block(),
            },
        }
    }
}

impl From<Result<(), RowError>> for ToldPlace {
    ghost from_gives = { λ added told. Crosses (of_row added) told.number told.place };

    fn from(added: Result<(), RowError>) -> ToldPlace {
        match added {
            Ok(()) => ToldPlace {
                number: 0,
                place: 0,
            },
            Err(error) => ToldPlace {
                number: Refusal::from(error).into(),
                place: error.place(),
            },
        }
    }
}

// A double holds every whole number of 32 bits, so nothing is lost of an exact answer either.
impl From<Estimate> for ToldDouble {
    ghost from_gives = { λ estimate told. Weighs (of_estimate estimate) told.number told.exact told.value };

    fn from(estimate: Estimate) -> ToldDouble {
        match estimate {
            Estimate::Exact(v) => ToldDouble {
                number: 0,
                exact: 1,
                value: f64::from(v),
            },
            Estimate::About(x) => ToldDouble {
                number: 0,
                exact: 0,
                value: x,
            },
            Estimate::Refused(number) => ToldDouble {
                number,
                exact: 0,
                value: 0.0,
            },
        }
    }
}
