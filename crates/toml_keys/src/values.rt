ghost use Rattle.std.specs.Prelude.{◌≡◌, ◌≤◌, IfSome, length, map, option_map};
ghost use Rattle.toml.specs.View.{view};
ghost use Rattle.toml_keys.specs.Keys.{array_of, number_of, text_of};

use toml::Value;

/// The whole number that a value is, where it lies within the two bounds.
#[tactic(auto, unfolding(crate::specs::Keys::number_of))]
pub fn number_of(value: &Value, low: u32, high: u32) -> Option<u32>
    ensures { result ≡ number_of low high (view value.now) }
{
    let number = u32::try_from(value.as_integer()?).ok()?;
    if low <= number && number <= high {
        Some(number)
    } else {
        None
    }
}

/// The bytes of the text that a value is, where it has 1 to `longest`.
#[tactic(auto, unfolding(crate::specs::Keys::text_of))]
pub fn text_of(value: &Value, longest: usize) -> Option<&[u8]>
    ensures value { option_map (λ text. text.now) result ≡ text_of longest (view value.now) }
    ensures within { IfSome result (λ text. (1 ≤ length text.now) × (length text.now ≤ longest)) }
{
    let text = value.as_str()?.as_bytes();
    if 1 <= text.len() && text.len() <= longest {
        Some(text)
    } else {
        None
    }
}

/// The items of the array that a value is, where it has `least` to `most`.
#[tactic(auto, using(crate::proofs::Lists::list_of_items), unfolding(crate::specs::Keys::array_of))]
pub fn array_of(value: &Value, least: usize, most: usize) -> Option<&[Value]>
    ensures { option_map (λ items. map view items.now) result ≡ array_of least most (view value.now) }
{
    let items = value.as_array()?.as_slice();
    if least <= items.len() && items.len() <= most {
        Some(items)
    } else {
        None
    }
}
