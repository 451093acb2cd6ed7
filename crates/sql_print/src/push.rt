ghost use Rattle.std.specs.Prelude.{◌≡◌, ◌∷◌, ◌++◌, [], OnOk, flat_map, codes, if◌then◌else◌, ◌==◌};
ghost use Rattle.std.specs.Fmt.{decimal, signed_decimal};
ghost use Rattle.sql_print.specs.Sql.{quoted, quoted_name, separated, doubled};

use std::alloc::Global;
use value_core::{Bytes, OutOfMemory};

// Appends these bytes.
pub fn push_bytes(out: &mut Vec<u8>, bytes: &[u8]) -> Result<(), OutOfMemory>
    ensures { OnOk result (out.new.items ≡ out.old.items ++ bytes.now) }
{
    Ok(out.extend_from_slice(bytes)?)
}

// Appends one byte.
fn push_byte(out: &mut Vec<u8>, byte: u8) -> Result<(), OutOfMemory>
    ensures { OnOk result (out.new.items ≡ out.old.items ++ byte ∷ []) }
{
    Ok(out.push(byte)?)
}

// Appends a number in decimal.
pub fn push_number(alloc: Global, out: &mut Vec<u8>, number: u64) -> Result<(), OutOfMemory>
    ensures { OnOk result (out.new.items ≡ out.old.items ++ decimal number) }
{
    let text = number.to_string(alloc)?;
    push_bytes(out, text.as_bytes())
}

// Appends a whole number in decimal, with a `-` where it is below 0.
pub fn push_integer(alloc: Global, out: &mut Vec<u8>, number: i64) -> Result<(), OutOfMemory>
    ensures { OnOk result (out.new.items ≡ out.old.items ++ signed_decimal number) }
{
    let text = number.to_string(alloc)?;
    push_bytes(out, text.as_bytes())
}

// Appends a byte, twice where it is the mark.
fn push_doubled(out: &mut Vec<u8>, mark: u8, byte: u8) -> Result<(), OutOfMemory>
    ensures { OnOk result (out.new.items ≡ out.old.items ++ doubled mark byte) }
{
    if byte == mark {
        push_byte(out, byte)?;
    }
    push_byte(out, byte)
}

// Appends these bytes, with each mark among them doubled.
fn push_all_doubled(out: &mut Vec<u8>, mark: u8, text: &[u8]) -> Result<(), OutOfMemory>
    ensures { OnOk result (out.new.items ≡ out.old.items ++ flat_map (doubled mark) text.now) }
{
    for byte in text {
        push_doubled(out, mark, *byte)?;
    }
    Ok(())
}

// Appends a text between two marks, with each mark in it doubled.
pub fn push_quoted(out: &mut Vec<u8>, mark: u8, text: &[u8]) -> Result<(), OutOfMemory>
    ensures { OnOk result (out.new.items ≡ out.old.items ++ quoted mark text.now) }
{
    push_byte(out, mark)?;
    push_all_doubled(out, mark, text)?;
    push_byte(out, mark)
}

// Appends a name as SQL quotes it.
pub fn push_name(out: &mut Vec<u8>, name: &[u8]) -> Result<(), OutOfMemory>
    ensures { OnOk result (out.new.items ≡ out.old.items ++ quoted_name name.now) }
{
    push_quoted(out, b'"', name)
}

// Appends the texts, each after a separator.
fn push_separated(out: &mut Vec<u8>, separator: &[u8], texts: &[Bytes]) -> Result<(), OutOfMemory>
    ensures { OnOk result (out.new.items ≡ out.old.items ++ flat_map (λ t. separator.now ++ t) texts.now) }
{
    for text in texts {
        push_bytes(out, separator)?;
        push_bytes(out, text.as_slice())?;
    }
    Ok(())
}

// Appends the texts, joined by a separator.
pub fn push_between(out: &mut Vec<u8>, separator: &[u8], texts: &[Bytes]) -> Result<(), OutOfMemory>
    ensures { OnOk result (out.new.items ≡ out.old.items ++ separated separator.now texts.now) }
{
    if texts.is_empty() {
        return Ok(());
    }
    push_bytes(out, texts[0].as_slice())?;
    push_separated(out, separator, &texts[1..])
}
