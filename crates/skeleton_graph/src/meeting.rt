use query_core::{Pairing, Uniting};

/// How two parts meet in one skeleton: as a pair or as a union.
#[derive(Clone, Copy)]
pub enum Meeting {
    Pair(Pairing),
    Union(Uniting),
}
