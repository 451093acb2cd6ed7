ghost use Rattle.std.specs.Prelude.{◌≡◌, ◌↔◌, IfOk, IsErr, None, option_map};
ghost use Rattle.toml.specs.Errors.{IsMemory};
ghost use Rattle.toml.specs.View.{table_view};
ghost use Rattle.toml_keys.specs.Keys.{document_of};

use std::alloc::{AllocError, Global};
use toml::Table;
use toml::de::Error;

// What an error tells of the bytes: nothing where memory was wanting, else that they write no document.
fn no_document(error: &Error) -> Result<Option<Table>, AllocError>
    ensures memory { IsErr result ↔ IsMemory error.now }
    ensures none { IfOk result (λ found. found ≡ None) }
{
    if error.is_memory() {
        Err(AllocError)
    } else {
        Ok(None)
    }
}

/// The table that a TOML document of these bytes writes, or `None` where they write none.
pub fn read_document(alloc: Global, bytes: &[u8]) -> Result<Option<Table>, AllocError>
    ensures { IfOk result (λ found. option_map table_view found ≡ document_of bytes.now) }
{
    match toml::table_from_slice(alloc, bytes) {
        Ok(table) => Ok(Some(table)),
        Err(error) => no_document(&error),
    }
}
