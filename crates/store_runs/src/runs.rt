// Runs of bytes end to end in a lent slice, with their lengths in another.
ghost use Rattle.std.specs.Prelude.{◌≡◌, ℕ, ◌+◌, ◌-◌, ◌^◌, ◌≤◌, ◌<◌, length, take, get_or, replicate, List, eqb};
ghost use Rattle.store_runs.specs.Moves.{part, inserted, removed};
ghost use Rattle.store_runs.specs.Runs.{total, cut, run_of, with_run, Sound};
ghost use Rattle.store_runs.specs.Find.{hit, find_from};
ghost use Rattle.store_runs.specs.Digits.{digits};

// Where the run k starts.
pub fn start(lens: &[u64], k: usize) -> usize
    requires { (k ≤ length lens.now) × (total lens.now < 2 ^ 63) }
    ensures { result ≡ total (take k lens.now) }
{
    let sum: u64 = lens[..k].iter().sum();
    sum as usize
}

// The run k, as a part of the caller's bytes.
pub fn run<'a>(lens: &[u64], bytes: &'a [u8], used: usize, k: usize) -> &'a [u8]
    requires { Sound lens.now bytes.now used × (k < length lens.now) }
    ensures { result.now ≡ run_of lens.now bytes.now k }
{
    let a = start(lens, k);
    let e = a + lens[k] as usize;
    &bytes[a..e]
}

// Puts src in before the byte `at` of the run k.
pub fn insert(
    lens: &mut [u64],
    bytes: &mut [u8],
    used: usize,
    k: usize,
    at: usize,
    src: &[u8],
) -> usize
    requires { Sound lens.old bytes.old used × (k < length lens.old) × (at ≤ get_or lens.old k 0) × (used + length src.now ≤ length bytes.old) }
    ensures view { cut lens.new bytes.new ≡ with_run k (λ (l : List ℕ). inserted l at src.now) (cut lens.old bytes.old) }
    ensures sound { Sound lens.new bytes.new result × (result ≡ used + length src.now) }
{
    let a = start(lens, k) + at;
    crate::moves::insert(bytes, a, used, src);
    lens[k] += src.len() as u64;
    used + src.len()
}

// Takes n bytes from the byte `at` of the run k on out.
pub fn remove(
    lens: &mut [u64],
    bytes: &mut [u8],
    used: usize,
    k: usize,
    at: usize,
    n: usize,
) -> usize
    requires { Sound lens.old bytes.old used × (k < length lens.old) × (at + n ≤ get_or lens.old k 0) }
    ensures view { cut lens.new bytes.new ≡ with_run k (λ (l : List ℕ). removed l at n) (cut lens.old bytes.old) }
    ensures sound { Sound lens.new bytes.new result × (result ≡ used - n) }
{
    let a = start(lens, k) + at;
    crate::moves::remove(bytes, a, used, n);
    lens[k] -= n as u64;
    used - n
}

// Whether the slot k is used and at the path: its own path is the n bytes from a on.
pub fn is_at(free: u64, bytes: &[u8], k: usize, a: usize, n: usize, path: &[u8]) -> bool
    requires { (k < 64) × (a + n ≤ length bytes.now) }
    ensures { result ≡ hit (get_or (digits 64 free) k 0) (part bytes.now a n) path.now }
{
    let e = a + n;
    names::order::same_bytes(path, &bytes[a..e]) && !crate::bits::is_set(free, k)
}

// The first slot that is used and at the path.
pub fn find(free: u64, lens: &[u64], bytes: &[u8], used: usize, path: &[u8]) -> Option<usize>
    requires { Sound lens.now bytes.now used × (length lens.now ≡ 64) }
    ensures { result ≡ find_from 0 (digits 64 free) (cut lens.now bytes.now) path.now }
{
    let mut a: usize = 0;
    for (k, len) in lens.iter().enumerate() {
        let n = *len as usize;
        if is_at(free, bytes, k, a, n, path) {
            return Some(k);
        }
        a += n;
    }
    None
}

// Whether the lengths add up to `used`.
pub fn sum_is(lens: &[u64], used: usize) -> bool
    ensures { result ≡ eqb (total lens.now) used }
{
    let mut left = used as u64;
    for n in lens {
        let Some(rest) = left.checked_sub(*n) else {
            return false;
        };
        left = rest;
    }
    left == 0
}

// No run has a byte.
pub fn clear(lens: &mut [u64])
    ensures { lens.new ≡ replicate (length lens.old) 0 }
{
    lens.fill(0);
}
