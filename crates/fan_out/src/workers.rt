//! How many workers there are.
ghost use Rattle.std.specs.Prelude.{◌≤◌};
ghost use Rattle.fan_out.specs.promise.Counts.{most_workers};

/// How many workers share the rows of a chunk: 1 to 64.
#[derive(Clone, Copy)]
pub struct Workers {
    pub count: u32,
    pub ghost some: { 1 ≤ count },
    pub ghost few: { count ≤ most_workers },
}
