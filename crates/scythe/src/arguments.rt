use std::alloc::Global;
use std::env::{Env, FillError};
use value_core::{Bytes, OutOfMemory};

// The room that is tried first for a word.
const FIRST_ROOM: usize = 256;

// The word at this place, where the program's name stands at 0, or none past the last word.
fn word<R: Env>(env: &R, alloc: Global, place: usize) -> Result<Option<Bytes>, OutOfMemory> {
    let mut room = FIRST_ROOM;
    for _ in 0..usize::BITS {
        let mut bytes = Vec::from_elem(alloc, 0u8, room)?;
        match env.arg(place, bytes.as_mut_slice()) {
            Ok(length) => {
                bytes.truncate(length);
                return Ok(Some(Bytes::from_vec(bytes)));
            }
            Err(FillError::NotPresent) => return Ok(None),
            Err(FillError::TooLong) => room = room.saturating_mul(2),
        }
    }
    Err(OutOfMemory)
}

/// The words after the program's name, as the bytes that they are.
pub fn words<R: Env>(env: &R, alloc: Global) -> Result<Vec<Bytes>, OutOfMemory> {
    let mut words = Vec::new(alloc);
    for place in 1..usize::MAX {
        match word(env, alloc, place)? {
            Some(word) => words.push(word)?,
            None => break,
        }
    }
    Ok(words)
}
