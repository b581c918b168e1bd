// A number below 4,096 for a path. Equal paths have equal numbers, and different ones mostly different.
ghost use Rattle.std.specs.Prelude.{◌≡◌, ◌+◌, ◌≤◌, ◌<◌, length};
ghost use Rattle.store_check.specs.Tag.{word_at, turned, by_bytes, by_four, by_words, spread_of, tag_of};

// The word of four bytes, the lowest first.
fn word_at(s: &[u8], at: usize) -> u32
    requires { at + 4 ≤ length s.now }
    ensures { result ≡ word_at s.now at }
{
    u32::from_le_bytes([s[at], s[at + 1], s[at + 2], s[at + 3]])
}

// A word turned by five bits, and another added bit by bit.
fn rotate_xor(h: u32, w: u32) -> u32
    ensures { result ≡ turned h w }
{
    h.rotate_left(5) ^ w
}

// The length and the bytes of a path, one by one, as one word.
fn by_bytes(path: &[u8]) -> u32
    ensures { result ≡ by_bytes path.now }
{
    let length = (path.len() % 65536) as u32;
    path.iter()
        .fold(length, |h, b| rotate_xor(h, u32::from(*b)))
}

// The length and the bytes of a path of 4 to 16, as one word: four words have them all.
fn by_four(path: &[u8]) -> u32
    requires { (4 ≤ length path.now) × (length path.now ≤ 16) }
    ensures { result ≡ by_four path.now }
{
    let n = path.len();
    let x = n / 8 * 4;
    let h = rotate_xor((n % 65536) as u32, word_at(path, 0));
    let g = rotate_xor(h, word_at(path, x));
    rotate_xor(
        rotate_xor(g, word_at(path, n - 4 - x)),
        word_at(path, n - 4),
    )
}

// The length and the bytes of a path, four by four and then the last four, as one word.
fn by_words(path: &[u8]) -> u32
    requires { 4 ≤ length path.now }
    ensures { result ≡ by_words path.now }
{
    let last = path.len() - 4;
    let mut h = (path.len() % 65536) as u32;
    for i in (0..last).step_by(4) {
        h = rotate_xor(h, word_at(path, i));
    }
    rotate_xor(h, word_at(path, last))
}

// Twelve bits of a word, each of which depends on most of it.
fn spread(h: u32) -> usize
    ensures { result ≡ spread_of h }
{
    (u64::from(h) * 3266489909 / 1048576 % 4096) as usize
}

// The number of a path.
pub fn tag(path: &[u8]) -> usize
    ensures { (result ≡ tag_of path.now) × (result < 4096) }
{
    spread(match path.len() {
        0..4 => by_bytes(path),
        4..=16 => by_four(path),
        _ => by_words(path),
    })
}
