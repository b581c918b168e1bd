// Words out of bytes, the lowest byte first.
ghost use Rattle.std.specs.Prelude.{◌+◌, ◌≤◌, length};

// The half word at a place.
pub fn half_at(s: &[u8], at: usize) -> u32
    requires { at + 4 ≤ length s.now }
{
    u32::from_le_bytes(*s[at..].first_chunk::<4>().unwrap())
}

// The word at a place.
pub fn word_at(s: &[u8], at: usize) -> u64
    requires { at + 8 ≤ length s.now }
{
    u64::from_le_bytes(*s[at..].first_chunk::<8>().unwrap())
}

// Writes the words that the bytes say, as far as there are bytes and room.
pub fn unpack(s: &[u8], out: &mut [u64]) {
    let (words, _) = s.as_chunks::<8>();
    for (word, bytes) in out.iter_mut().zip(words) {
        *word = u64::from_le_bytes(*bytes);
    }
}

// The first k elements of s, or all of it.
pub fn front<T>(s: &[T], k: usize) -> &[T] {
    &s[..k.min(s.len())]
}
