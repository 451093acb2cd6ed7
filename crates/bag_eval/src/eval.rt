use table_core::Table;

/// What evaluation gives: a table, or that a sum leaves 64 bits.
#[derive(Debug, Drop)]
pub enum Eval {
    Rows(Table),
    Past64,
}
