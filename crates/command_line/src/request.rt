use value_core::Bytes;

/// What the words ask for.
#[derive(Debug, Drop)]
pub enum Request {
    /// The text of the task in this file, searched by so many workers.
    Run { file: Bytes, workers: u32 },
    /// The same text by plain listing.
    Plain { file: Bytes },
}
