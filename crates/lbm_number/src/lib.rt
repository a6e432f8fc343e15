#![tactic(auto)]
//! Decimal numbers, as the command line and voxel files have them.

ghost use Rattle.std.specs.Prelude.{◌≡◌, ◌≤◌, true, length};
ghost use Rattle.std.specs.Char.{is_ascii_digit};
ghost use Rattle.std.specs.List.{list_all};
ghost use Rattle.std.specs.Str.Parse.{digits_value};
ghost use Rattle.lbm_number.specs.Number.{number_of};

const MOST_DIGITS: usize = 9;

fn has_only_digits(word: &[u8]) -> bool
    ensures { result ≡ list_all is_ascii_digit word.now }
{
    word.iter().all(|byte| byte.is_ascii_digit())
}

/// The number that at most nine digits write.
fn digits_value(digits: &[u8]) -> u32
    requires few { length digits.now ≤ MOST_DIGITS }
    requires digits { list_all is_ascii_digit digits.now ≡ true }
    ensures { result ≡ digits_value 10 digits.now }
{
    let mut value = 0;
    for digit in digits {
        value = value * 10 + u32::from(*digit - b'0');
    }
    value
}

/// The number that a word spells: 1 to 9 decimal digits and nothing else.
#[tactic(auto, unfolding(crate::specs::Number::number_of))]
pub fn number_of(word: &[u8]) -> Option<u32>
    ensures { result ≡ number_of word.now }
{
    if word.is_empty() || word.len() > MOST_DIGITS || !has_only_digits(word) {
        return None;
    }
    Some(digits_value(word))
}
