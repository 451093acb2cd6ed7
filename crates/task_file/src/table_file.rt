use sqlite_items::Items;
use value_core::{Bytes, ColType, Word};

/// An input of the task: its name, the file that holds it, and the types of its columns where they are declared.
#[derive(Debug, Drop)]
pub struct InputFile {
    pub name: Word,
    pub file: Bytes,
    pub types: Option<Items<ColType>>,
}

/// The output of the task: the file that holds it, and the types of its columns where they are declared.
#[derive(Debug, Drop)]
pub struct OutputFile {
    pub file: Bytes,
    pub types: Option<Items<ColType>>,
}
