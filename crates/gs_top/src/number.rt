//! Numbers among a command's words.
ghost use Rattle.std.specs.Prelude.{◌≡◌, ◌≤◌, fold};
ghost use Rattle.std.specs.Str.{all_ascii_digits};
ghost use Rattle.gs_top.specs.Job.{if_within, number_of, with_digit};

/// The number that these digits write after another, where it is not above the most.
fn number_from(most: u32, number: u32, digits: &[u8]) -> Option<u32>
    requires within { number ≤ most }
    requires small { most ≤ 1000000 }
    ensures { result ≡ if_within most (all_ascii_digits digits.now) (fold with_digit number digits.now) }
{
    match digits {
        [] => Some(number),
        [digit, digits @ ..] => {
            if !digit.is_ascii_digit() {
                return None;
            }
            let next = number * 10 + (*digit - 48) as u32;
            if next > most {
                return None;
            }
            number_from(most, next, digits)
        }
    }
}

/// The number that a word writes in one or more digits, where it is not above the most.
pub(crate) fn number_of(most: u32, word: &str) -> Option<u32>
    requires { most ≤ 1000000 }
    ensures { result ≡ number_of most word.now }
{
    if word.is_empty() {
        return None;
    }
    number_from(most, 0, word.as_bytes())
}
