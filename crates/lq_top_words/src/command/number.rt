// A number in the words.
ghost use Rattle.std.specs.Prelude.{◌≡◌};
ghost use Rattle.std.specs.List.{list_all};
ghost use Rattle.std.specs.Char.{is_ascii_digit};
ghost use Rattle.lq_top_words.specs.Command.Command.{number_of, numeral_of};

// The greatest number.
const NUMBER_LIMIT: u64 = 1_000_000_000;

// How many digits a number has at most.
const DIGIT_LIMIT: usize = 10;

// The number that the text writes, where it isn't too great.
pub(crate) fn number(text: &str) -> Option<u64>
    ensures { result ≡ number_of text.now }
{
    let number = numeral(text)?;
    if number <= NUMBER_LIMIT {
        Some(number)
    } else {
        None
    }
}

// The number that the digits of the text write.
fn numeral(text: &str) -> Option<u64>
    ensures { result ≡ numeral_of text.now }
{
    if text.is_empty() || text.len() > DIGIT_LIMIT || !all_digits(text.as_bytes()) {
        return None;
    }
    text.parse::<u64>().ok()
}

fn all_digits(bytes: &[u8]) -> bool
    ensures { result ≡ list_all is_ascii_digit bytes.now }
{
    bytes.iter().all(|b| b.is_ascii_digit())
}
