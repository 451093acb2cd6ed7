/// What is wrong with a query.
#[derive(Clone, Copy, Debug, PartialEq, Eq)]
pub enum QueryFault {
    /// A leaf names no input.
    BadTable,
    /// A column or a constant isn't there.
    BadColumn,
    /// Two types that have to agree don't.
    TypesDiffer,
    /// A rule of the grammar is broken: a filter over a filter or a join (1), a filter by Always (2), parts out of order (3),
    /// keys that are more than two or don't ascend (4), an aggregate over a key (5) or not allowed (6), atoms out of order (7).
    NotInGrammar { rule: u8 },
    /// There are more operators than the task allows.
    TooManyOps,
    /// There are more leaves than the task allows.
    TooManyLeaves,
    /// A predicate has more atoms than the task allows.
    TooManyAtoms,
    OutOfMemory,
}
