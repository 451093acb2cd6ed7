use fill_core::FillEnd;
use query_core::QueryFault;
use std::alloc::{AllocError, AllocFailed};
use std::io;
use table_core::{BadPart, PushFault};
use value_core::{OutOfMemory, WordFault};

/// Why the program ends before its last sample.
#[derive(Debug, Drop)]
pub enum Failed {
    NoMemory,
    NoPrint,
    /// A sample can't be made as it is described.
    BadSample,
}

impl From<OutOfMemory> for Failed {
    fn from(_fault: OutOfMemory) -> Failed {
        Failed::NoMemory
    }
}

impl From<AllocError> for Failed {
    fn from(_error: AllocError) -> Failed {
        Failed::NoMemory
    }
}

impl<T: Drop> From<AllocFailed<T>> for Failed {
    fn from(_failed: AllocFailed<T>) -> Failed {
        Failed::NoMemory
    }
}

impl From<io::Error> for Failed {
    fn from(_error: io::Error) -> Failed {
        Failed::NoPrint
    }
}

impl From<WordFault> for Failed {
    fn from(fault: WordFault) -> Failed {
        match fault {
            WordFault::BadLength { .. } => Failed::BadSample,
            WordFault::OutOfMemory => Failed::NoMemory,
        }
    }
}

impl From<QueryFault> for Failed {
    fn from(fault: QueryFault) -> Failed {
        match fault {
            QueryFault::OutOfMemory => Failed::NoMemory,
            _ => Failed::BadSample,
        }
    }
}

impl From<PushFault> for Failed {
    fn from(fault: PushFault) -> Failed {
        match fault {
            PushFault::Width { .. } | PushFault::WrongType { .. } => Failed::BadSample,
            PushFault::OutOfMemory => Failed::NoMemory,
        }
    }
}

impl From<BadPart> for Failed {
    fn from(_fault: BadPart) -> Failed {
        Failed::BadSample
    }
}

impl From<FillEnd> for Failed {
    fn from(end: FillEnd) -> Failed {
        match end {
            FillEnd::Heavy => Failed::BadSample,
            FillEnd::OutOfMemory => Failed::NoMemory,
        }
    }
}
