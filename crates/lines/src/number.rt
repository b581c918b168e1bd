// Numbers in decimal, without leading zeros.
ghost use Rattle.std.specs.Prelude.{◌≡◌, ◌+◌, ◌-◌, ◌*◌, ◌≤◌, cond};
ghost use Rattle.std.proofs.Math.Option.{none, some};
ghost use Rattle.lines.specs.Answers.{number_read};
ghost use Rattle.lines.specs.Numbers.{is_decimal, says_after, number_of, most, capped, held};

// The largest number that is told; it stands for all above it too.
pub const MOST: usize = 1 << 62;

// A number with one digit more behind it, if the byte is a digit.
fn with_digit(n: usize, b: u8) -> Option<usize>
    ensures { number_read result ≡ cond (is_decimal b) (some (capped (n * 10 + (b - 48)))) none }
{
    if !b.is_ascii_digit() {
        return None;
    }
    let more = n.saturating_mul(10).saturating_add((b - b'0') as usize);
    Some(more.min(MOST))
}

// The number that digits say, if all bytes are digits.
fn digits_say(text: &[u8]) -> Option<usize>
    ensures { number_read result ≡ held (says_after 0 text.now) }
{
    let mut n = 0;
    for b in text {
        n = with_digit(n, *b)?;
    }
    Some(n)
}

// The number that a text says.
pub fn number_of(text: &[u8]) -> Option<usize>
    ensures { number_read result ≡ held (number_of text.now) }
{
    if text.is_empty() {
        return None;
    }
    if text[0] == b'0' && text.len() > 1 {
        return None;
    }
    digits_say(text)
}
