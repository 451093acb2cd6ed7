/// What is wrong with the file of a table. Rows and columns are counted from 1, and the header is no row.
#[derive(Clone, Copy, Debug, PartialEq, Eq)]
pub enum TableFault {
    BadText,
    NoHeader,
    TooManyColumns,
    BadName { column: u32 },
    /// As many types as there are columns have to be declared.
    BadTypes,
    TooManyRows,
    BadWidth { row: u32 },
    BadCell { row: u32, column: u32 },
}
