/// An aggregate over the rows of a group, with the column that it is over.
#[derive(Clone, Copy, Debug, PartialEq, Eq)]
pub enum Agg {
    CountAll,
    Count(usize),
    CountDistinct(usize),
    Sum(usize),
    Min(usize),
    Max(usize),
}
