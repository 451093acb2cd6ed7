ghost use Rattle.std.specs.Prelude.{◌≡◌, pos, neg_ℤ, ◌+◌, ◌^◌, drop, slice_index, option_map};
ghost use Rattle.std.specs.Char.{is_ascii_digit};
ghost use Rattle.std.specs.List.{list_all};
ghost use Rattle.value_core.specs.Integer.{is_numeral, numeral_below, integer_of};

// Whether each of these bytes is a decimal digit.
fn are_digits(bytes: &[u8]) -> bool
    ensures { result ≡ list_all is_ascii_digit bytes.now }
{
    bytes.iter().all(|byte| byte.is_ascii_digit())
}

// Whether these are one or more decimal digits, of which the first isn't 0.
fn is_numeral(digits: &[u8]) -> bool
    ensures { result ≡ is_numeral digits.now }
{
    if digits.is_empty() || digits[0] == b'0' {
        return false;
    }
    are_digits(digits)
}

#[tactic(auto, using(crate::proofs::Numerals::plain_utf8, crate::proofs::Numerals::parsed_plain))]
// The number that a numeral without a sign stands for.
fn read_plain(bytes: &[u8]) -> Option<i64>
    ensures { result ≡ option_map pos (numeral_below (2 ^ 63) bytes.now) }
{
    if !is_numeral(bytes) {
        return None;
    }
    match std::str::from_utf8(bytes) {
        Ok(text) => text.parse::<i64>().ok(),
        Err(_) => None,
    }
}

#[tactic(auto, using(crate::proofs::Numerals::minus_utf8, crate::proofs::Numerals::parsed_minus))]
// The number that a `-` and a numeral stand for.
fn read_minus(bytes: &[u8]) -> Option<i64>
    requires { slice_index bytes.now 0 ≡ 45 }
    ensures { result ≡ option_map (λ n. neg_ℤ (pos n)) (numeral_below (2 ^ 63 + 1) (drop 1 bytes.now)) }
{
    if bytes.is_empty() || !is_numeral(&bytes[1..]) {
        return None;
    }
    match std::str::from_utf8(bytes) {
        Ok(text) => text.parse::<i64>().ok(),
        Err(_) => None,
    }
}

/// The number that an integer spelling stands for: `0`, or digits that don't begin with `0`, perhaps after a `-`.
pub fn read_int(bytes: &[u8]) -> Option<i64>
    ensures { result ≡ integer_of bytes.now }
{
    if bytes.is_empty() {
        return None;
    }
    if bytes[0] == b'-' {
        return read_minus(bytes);
    }
    if bytes[0] == b'0' && bytes.len() == 1 {
        return Some(0);
    }
    read_plain(bytes)
}
