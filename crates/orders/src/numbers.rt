// Decimal numbers.
ghost use Rattle.std.specs.Prelude.{◌≡◌};
ghost use Rattle.orders.specs.Numbers.{number_of};

// The number that a word spells; one that is too large is as large as a number can be. (`parse` refuses that, and takes a sign.)
pub(crate) fn read_number(word: &[u8]) -> Option<u64>
    ensures { result ≡ number_of word.now }
{
    if word.is_empty() {
        return None;
    }
    word.iter().try_fold(0u64, |number, &byte| match byte {
        b'0'..=b'9' => {
            let digit = u64::from(byte - b'0');
            Some(number.saturating_mul(10).saturating_add(digit))
        }
        _ => None,
    })
}
