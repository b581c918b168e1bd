// Lines of a key and a text, a number, or bytes in hex, written into lent bytes where they fit.
ghost use Rattle.std.specs.Prelude.{◌≡◌, ◌+◌, ◌≤◌, ◌<◌, leb, length, drop};
ghost use Rattle.lines.specs.Answers.{outcome};
ghost use Rattle.names.specs.Splice.{splice};
ghost use Rattle.lines.specs.Hex.{digit_for, hex_of};
ghost use Rattle.lines.specs.Texts.{decimal, key_of, line_of, written};

// Whether n bytes fit from a place on.
pub fn has_room(len: usize, at: usize, n: usize) -> bool
    ensures { result ≡ leb (at + n) len }
{
    at <= len && n <= len - at
}

// Whether a line with a key and a value of so many bytes fits from a place on.
fn line_room(len: usize, at: usize, key: usize, n: usize) -> bool
    ensures { result ≡ leb (at + (key + (n + 2))) len }
{
    at <= len && key <= len - at && n <= len - at - key && 2 <= len - at - key - n
}

// The digit for a number below 16.
fn digit_for(n: u8) -> u8
    requires { n < 16 }
    ensures { result ≡ digit_for n }
{
    if n < 10 { b'0' + n } else { b'a' + (n - 10) }
}

// Writes bytes in hex, and gives the place after them.
fn hex_into(out: &mut [u8], at: usize, bytes: &[u8]) -> usize
    requires { at + length (hex_of bytes.now) ≤ length out.old }
    ensures value { result ≡ at + length (hex_of bytes.now) }
    ensures out_after { out.new ≡ splice out.old at (hex_of bytes.now) }
{
    for (i, b) in bytes.iter().enumerate() {
        let place = at + 2 * i;
        out[place] = digit_for(*b / 16);
        out[place + 1] = digit_for(*b % 16);
    }
    at + 2 * bytes.len()
}

// Puts the digits of a number at the end of the twenty bytes, and gives the place where they start.
pub fn decimal_into(digits: &mut [u8; 20], n: u64) -> usize
    ensures digits_after { drop result digits.new ≡ decimal n }
    ensures digits_len { length digits.new ≡ 20 }
{
    let mut m = n;
    for i in (0..20).rev() {
        digits[i] = b'0' + (m % 10) as u8;
        m /= 10;
        if m == 0 {
            return i;
        }
    }
    0
}

// Writes a key and the `=` after it, and gives the place after them.
fn put_key(out: &mut [u8], at: usize, key: &[u8]) -> usize
    requires { at + (length key.now + 1) ≤ length out.old }
    ensures value { result ≡ at + length (key_of key.now) }
    ensures out_after { out.new ≡ splice out.old at (key_of key.now) }
{
    let a = names::write::put(out, at, key);
    names::write::put(out, a, b"=")
}

// Writes a line of a key and a text from a place on.
pub fn put_line(out: &mut [u8], at: usize, key: &[u8], value: &[u8]) -> Option<usize>
    ensures { outcome result out.new ≡ written out.old at (line_of key.now value.now) }
{
    if !line_room(out.len(), at, key.len(), value.len()) {
        return None;
    }
    let a = put_key(out, at, key);
    let b = names::write::put(out, a, value);
    Some(names::write::put(out, b, b"\n"))
}

// Writes a line of a key and a number from a place on.
pub fn put_number_line(out: &mut [u8], at: usize, key: &[u8], n: u64) -> Option<usize>
    ensures { outcome result out.new ≡ written out.old at (line_of key.now (decimal n)) }
{
    let mut digits = [0u8; 20];
    let from = decimal_into(&mut digits, n);
    put_line(out, at, key, names::part::after(&digits, from))
}

// Writes a line of a key and bytes in hex from a place on.
pub fn put_hex_line(out: &mut [u8], at: usize, key: &[u8], bytes: &[u8]) -> Option<usize>
    ensures { outcome result out.new ≡ written out.old at (line_of key.now (hex_of bytes.now)) }
{
    if !line_room(out.len(), at, key.len(), 2 * bytes.len()) {
        return None;
    }
    let a = put_key(out, at, key);
    let b = hex_into(out, a, bytes);
    Some(names::write::put(out, b, b"\n"))
}
