// Lower-case hex.
ghost use Rattle.std.specs.Prelude.{◌≡◌, true, ◌+◌, ◌<◌, ◌≤◌, length};
ghost use Rattle.names.specs.Splice.{splice};
ghost use Rattle.lines.specs.Answers.{outcome};
ghost use Rattle.lines.specs.Hex.{is_digit, value_of, hexed, bytes_of};
ghost use Rattle.lines.specs.Texts.{decoded};

// Whether a byte is a digit.
pub fn is_digit(b: u8) -> bool
    ensures { result ≡ is_digit b }
{
    matches!(b, b'0'..=b'9' | b'a'..=b'f')
}

// What a digit says.
fn digit_value(b: u8) -> u8
    requires { is_digit b ≡ true }
    ensures value { result ≡ value_of b }
    ensures small { result < 16 }
{
    if b <= b'9' { b - b'0' } else { b - b'a' + 10 }
}

// Whether a text is digits, two to each byte.
pub fn is_hex(s: &[u8]) -> bool
    ensures { result ≡ hexed s.now }
{
    s.len() % 2 == 0 && s.iter().all(|b| is_digit(*b))
}

// Writes the bytes that digits say.
fn unhex_into(out: &mut [u8], at: usize, s: &[u8])
    requires s_value { hexed s.now ≡ true }
    requires s_in_bounds { at + length (bytes_of s.now) ≤ length out.old }
    ensures { out.new ≡ splice out.old at (bytes_of s.now) }
{
    let (pairs, _) = s.as_chunks::<2>();
    for (i, [high, low]) in pairs.iter().enumerate() {
        out[at + i] = digit_value(*high) * 16 + digit_value(*low);
    }
}

// Writes the bytes that a text says from a place on, if it is hex and they fit.
pub fn decode(out: &mut [u8], at: usize, s: &[u8]) -> Option<usize>
    ensures { outcome result out.new ≡ decoded out.old at s.now }
{
    let n = s.len() / 2;
    if !is_hex(s) || !crate::text::has_room(out.len(), at, n) {
        return None;
    }
    unhex_into(out, at, s);
    Some(at + n)
}
