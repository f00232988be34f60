//! What the options of a mount ask for.
ghost use Rattle.std.specs.Prelude.{◌≤◌};

/// A part of a hundred.
#[derive(Clone, Copy)]
pub struct Part {
    pub percent: u64,
    pub ghost in_range: { percent ≤ 100 },
}

/// A size, or a part of the pages that were asked for.
#[derive(Clone, Copy)]
pub enum Amount {
    InBytes(u64),
    Percent(Part),
}

/// What the options set; None is not set.
#[derive(Clone, Copy)]
pub struct Wanted {
    pub size: Option<Amount>,
    pub min_size: Option<Amount>,
    pub nr_inodes: Option<u64>,
}
