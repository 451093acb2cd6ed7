ghost use Rattle.std.specs.Prelude.{◌≡◌, ◌-◌, find};
ghost use Rattle.std.specs.Fmt.{decimal};
ghost use Rattle.std.specs.List.{range_with_len};
ghost use Rattle.std.specs.Str.{bytes_eq};
ghost use Rattle.command_line.specs.Word.{is_known, is_operand, is_option, workers_of};

use itoa::Buffer;
use value_core::is_text;

/// Whether a word may name the task file.
pub fn is_operand(word: &[u8]) -> bool
    ensures { result ≡ is_operand word.now }
{
    if word.is_empty() || word[0] == b'-' {
        return false;
    }
    is_text(word)
}

/// Whether a word is the one option.
pub fn is_option(word: &[u8]) -> bool
    ensures { result ≡ is_option word.now }
{
    word == b"--workers".as_slice()
}

/// Whether a word is one that clap may read.
pub fn is_known(word: &[u8]) -> bool
    ensures { result ≡ is_known word.now }
{
    is_operand(word) || is_option(word)
}

// Whether a word spells this number.
fn spells(word: &[u8], number: u32) -> bool
    ensures { result ≡ bytes_eq word.now (decimal number) }
{
    let mut buffer = Buffer::new();
    word == buffer.format(number).as_bytes()
}

/// The number of workers that a word spells.
pub fn workers_of(word: &[u8]) -> Option<u32>
    ensures { result ≡ workers_of word.now }
{
    for number in 1..17 {
        if spells(word, number) {
            return Some(number);
        }
    }
    None
}
