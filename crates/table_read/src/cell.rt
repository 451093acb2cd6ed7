ghost use Rattle.std.specs.Prelude.{◌≡◌, ◌↔◌, ℕ, Ok, Err, Some, None, IfOk, IsErr};
ghost use Rattle.value_core.specs.declared.word.WordFault.TheVariants.{BadLength};
ghost use Rattle.table_read.specs.Table.{cell_of, field_at, word_of};

use csv_records::Record;
use std::alloc::Global;
use value_core::{ColType, OutOfMemory, Value, Word, WordFault, read_int};

/// The field at a place of a row, which is empty past the end.
pub(crate) fn field(row: &Record, at: usize) -> &[u8]
    ensures { result.now ≡ field_at row.now at }
{
    match row.field(at) {
        Some(field) => field,
        None => b"",
    }
}

// The word that was made, and none where the bytes have another length than a word.
fn made_word(made: Result<Word, WordFault>) -> Result<Option<Word>, OutOfMemory>
    ensures word { IfOk made (λ word. result ≡ Ok (Some word)) }
    ensures none { (length : ℕ) → made ≡ Err (BadLength length) → result ≡ Ok None }
    ensures memory { IsErr result ↔ (made ≡ Err WordFault.OutOfMemory) }
{
    match made {
        Ok(word) => Ok(Some(word)),
        Err(WordFault::BadLength { .. }) => Ok(None),
        Err(WordFault::OutOfMemory) => Err(OutOfMemory),
    }
}

/// The bytes as a word, where they are one.
pub(crate) fn word_of(alloc: Global, bytes: &[u8]) -> Result<Option<Word>, OutOfMemory>
    ensures { IfOk result (λ word. word ≡ word_of bytes.now) }
{
    made_word(Word::of(alloc, bytes))
}

/// The value that a field spells in a column of this type, if it does.
pub(crate) fn cell_of(
    alloc: Global,
    kind: ColType,
    field: &[u8],
) -> Result<Option<Value>, OutOfMemory>
    ensures { IfOk result (λ cell. cell ≡ cell_of kind field.now) }
{
    if field.is_empty() {
        return Ok(Some(Value::Null));
    }
    match kind {
        ColType::Int => Ok(read_int(field).map(Value::Int)),
        ColType::Text => Ok(word_of(alloc, field)?.map(Value::Text)),
    }
}
