use query_core::Pairing;
use table_core::Tuple;
use value_core::ColType;

/// The rows of a pair's two parts, with the types of the pair's columns and of its parts'.
#[derive(Clone, Copy, Debug)]
pub struct PairSeen<'a> {
    pub kind: Pairing,
    pub types: &'a [ColType],
    pub left: &'a [ColType],
    pub right: &'a [ColType],
    pub lefts: &'a [Tuple],
    pub rights: &'a [Tuple],
}

/// The rows of a group's part, with the types of the group's columns and of its part's, and the key columns.
#[derive(Clone, Copy, Debug)]
pub struct GroupSeen<'a> {
    pub types: &'a [ColType],
    pub keys: &'a [usize],
    pub child: &'a [ColType],
    pub rows: &'a [Tuple],
}
