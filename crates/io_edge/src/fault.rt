/// Why a file wasn't read.
#[derive(Clone, Copy, Debug, PartialEq, Eq)]
pub enum FolderFault {
    Failed,
    TooLong,
    OutOfMemory,
}

/// A write that took nothing.
#[derive(Clone, Copy, Debug, PartialEq, Eq)]
pub struct Failed;

/// A write of several turns that stopped before its end.
#[derive(Clone, Copy, Debug, PartialEq, Eq)]
pub struct WriteFault;
