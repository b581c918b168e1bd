// Names eight bytes at a time.
ghost use Rattle.std.specs.Prelude.{◌≡◌, true, ◌+◌, ◌≤◌, length, take, drop};
ghost use Rattle.model.specs.Bytes.{same};
ghost use Rattle.names.specs.Check.{plain};
ghost use Rattle.names.specs.Eight.{number, bytes_of, LowAt, AlikeTo};

// Eight bytes from k on as one number, the first the lowest.
pub fn low_at(s: &[u8], k: usize) -> u64
    requires { k + 8 ≤ length s.now }
    ensures { LowAt s.now k result }
{
    u64::from_le_bytes(s[k..k + 8].try_into().unwrap())
}

// A number with its eight bytes turned around.
pub fn swap(w: u64) -> u64
    ensures { result ≡ number 0 (bytes_of 8 w) }
{
    w.swap_bytes()
}

// Eight bytes from k on as one number, the first the highest.
pub fn word_at(s: &[u8], k: usize) -> u64
    requires { k + 8 ≤ length s.now }
    ensures { result ≡ number 0 (take 8 (drop k s.now)) }
{
    swap(low_at(s, k))
}

// How many of the first n bytes two names begin with alike, in eights.
pub fn alike_front(a: &[u8], b: &[u8], n: usize) -> usize
    requires { (n ≤ length a.now) × (n ≤ length b.now) }
    ensures { AlikeTo a.now b.now n result }
{
    for k in 0..n / 8 {
        if low_at(a, 8 * k) != low_at(b, 8 * k) {
            return 8 * k;
        }
    }
    n / 8 * 8
}

// Whether the eight bytes from k on are neither slash nor NUL.
// Stays: with a fold over the eight bytes the check of an entry with 16 bytes of name takes 81 instructions in place of 62, and 71 are allowed.
fn plain_eight(s: &[u8], k: usize) -> bool
    requires { k + 8 ≤ length s.now }
    ensures { result ≡ plain (take 8 (drop k s.now)) }
{
    let a = s[k];
    let b = s[k + 1];
    let c = s[k + 2];
    let d = s[k + 3];
    let e = s[k + 4];
    let f = s[k + 5];
    let g = s[k + 6];
    let h = s[k + 7];
    !((a == 0)
        | (a == 47)
        | (b == 0)
        | (b == 47)
        | (c == 0)
        | (c == 47)
        | (d == 0)
        | (d == 47)
        | (e == 0)
        | (e == 47)
        | (f == 0)
        | (f == 47)
        | (g == 0)
        | (g == 47)
        | (h == 0)
        | (h == 47))
}

// Whether a name has neither slash nor NUL: eight bytes at a time, from both ends. A call in its place costs the check of a store 12 instructions an entry.
#[inline(always)]
pub fn plain_name(s: &[u8]) -> bool
    ensures { result ≡ plain s.now }
{
    if s.len() < 8 {
        return crate::neighbour::plain_from(s, 0);
    }
    let mut i = 0;
    // Stays: it goes from both ends at once, and stops where they meet.
    while i < s.len() - i {
        if !(plain_eight(s, i) & plain_eight(s, s.len() - 8 - i)) {
            return false;
        }
        i += 8;
    }
    true
}

// Whether two names are the same: those of eight to sixteen bytes by their first eight and their last eight.
pub fn same_name(a: &[u8], b: &[u8]) -> bool
    ensures { result ≡ same a.now b.now }
{
    if a.len() != b.len() {
        return false;
    }
    if a.len() < 8 || 16 < a.len() {
        return crate::order::same_bytes(a, b);
    }
    let n = a.len() - 8;
    low_at(a, 0) == low_at(b, 0) && low_at(a, n) == low_at(b, n)
}

// How many bytes at the front, in eights, have neither slash nor NUL.
pub fn plain_front(s: &[u8]) -> usize
    ensures { (result ≤ length s.now) × (plain (take result s.now) ≡ true) }
{
    for k in 0..s.len() / 8 {
        if !plain_eight(s, 8 * k) {
            return 8 * k;
        }
    }
    s.len() / 8 * 8
}
