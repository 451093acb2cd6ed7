/// How two parts are paired: the pairs that the predicate keeps, or these and each left row without one.
#[derive(Clone, Copy, Debug, PartialEq, Eq)]
pub enum Pairing {
    Join,
    Left,
}

/// How two parts are united: every copy, or each row once.
#[derive(Clone, Copy, Debug, PartialEq, Eq)]
pub enum Uniting {
    All,
    Firsts,
}
