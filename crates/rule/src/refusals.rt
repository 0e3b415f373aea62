// Why a call refuses. specs/Refusals.antt gives each cause its number, and its place where it has one (RULES: Refusals).
ghost use Rattle.std.specs.Prelude.{◌≡◌};
ghost use Rattle.rule.specs.Refusals.{number_of, of_read, block_of, of_stretch, place_of};

#[derive(Clone, Copy, PartialEq, Eq)]
pub enum Refusal {
    // A setting outside its rule.
    Settings,
    // lo or from below 1, hi or from above n, or lo above hi.
    Range,
    // A level above the top.
    Level,
    // Not a sketch or not a walker, or none opened yet.
    NotOne,
    // Two sketches with a setting unequal.
    Unequal,
    // Room shorter than the image.
    NoRoom,
    // A block's check is wrong.
    Check,
    // Any other fault of an image.
    Image,
    // A program line of no known shape.
    Line,
}

// The number of a refusal.
impl From<Refusal> for u32 {
    ghost from_gives = { λ refusal number. number ≡ number_of refusal };

    fn from(refusal: Refusal) -> u32 {
        match refusal {
            Refusal::Settings => 1,
            Refusal::Range => 2,
            Refusal::Level => 3,
            Refusal::NotOne => 4,
            Refusal::Unequal => 5,
            Refusal::NoRoom => 6,
            Refusal::Check => 7,
            Refusal::Image => 8,
            Refusal::Line => 9,
        }
    }
}

// Why the image reader refuses: a wrong check has its block.
#[derive(Clone, Copy, PartialEq, Eq)]
pub enum ReadError {
    Settings,
    Check { block: u32 },
    Image,
}

impl From<ReadError> for Refusal {
    ghost from_gives = { λ error refusal. refusal ≡ of_read error };

    fn from(error: ReadError) -> Refusal {
        match error {
            ReadError::Settings => Refusal::Settings,
            ReadError::Check { .. } => Refusal::Check,
            ReadError::Image => Refusal::Image,
        }
    }
}

impl ReadError {
    // The block of a wrong check. A number and no Option, here and below: by the rules what a refusal
    // doesn't name is 0.
    pub fn block(self) -> u32
        ensures { result ≡ block_of self }
    {
        match self {
            ReadError::Check { block } => block,
            ReadError::Settings | ReadError::Image => 0,
        }
    }
}

// Why a row of stretches is refused: a range has its place, that of the first bad stretch.
#[derive(Clone, Copy, PartialEq, Eq)]
pub enum RowError {
    NotOne,
    Range { place: usize },
}

impl From<RowError> for Refusal {
    ghost from_gives = { λ error refusal. refusal ≡ of_stretch error };

    fn from(error: RowError) -> Refusal {
        match error {
            RowError::NotOne => Refusal::NotOne,
            RowError::Range { .. } => Refusal::Range,
        }
    }
}

impl RowError {
    // The place of the first bad stretch, 0 elsewhere.
    pub fn place(self) -> usize
        ensures { result ≡ place_of self }
    {
        match self {
            RowError::NotOne => 0,
            RowError::Range { place } => place,
        }
    }
}
