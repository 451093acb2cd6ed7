ghost use Rattle.std.specs.Prelude.{◌≡◌, false};

/// The aggregates that a task allows.
#[derive(Clone, Copy, Debug, PartialEq, Eq)]
pub struct AggSet {
    pub count_all: bool,
    pub count: bool,
    pub count_distinct: bool,
    pub sum: bool,
    pub min: bool,
    pub max: bool,
}

impl AggSet {
    /// No aggregate.
    pub const NONE: AggSet = AggSet {
        count_all: false,
        count: false,
        count_distinct: false,
        sum: false,
        min: false,
        max: false,
    };

    /// The law of `NONE`: it allows no aggregate.
    pub fn none_allows_nothing()
        ensures rows { AggSet.NONE.count_all ≡ false }
        ensures values { AggSet.NONE.count ≡ false }
        ensures distinct_values { AggSet.NONE.count_distinct ≡ false }
        ensures sums { AggSet.NONE.sum ≡ false }
        ensures least { AggSet.NONE.min ≡ false }
        ensures greatest { AggSet.NONE.max ≡ false }
    {}
}
