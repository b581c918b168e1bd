// Moves of bytes within a lent slice.
ghost use Rattle.std.specs.Prelude.{◌≡◌, ◌+◌, ◌-◌, ◌≤◌, length, take};
ghost use Rattle.names.specs.Splice.{splice};
ghost use Rattle.store_runs.specs.Moves.{part, inserted, removed, over};

// Moves s[at..used] up by n.
fn shift_up(s: &mut [u8], at: usize, used: usize, n: usize)
    requires { (at ≤ used) × (used + n ≤ length s.old) }
    ensures { s.new ≡ splice s.old (at + n) (part s.old at (used - at)) }
{
    if n == 0 {
        return;
    }
    let mut k = used;
    // Stays: `copy_within` would have the library ask for memmove, and README says that it needs memcpy and memset alone.
    while at < k {
        k -= 1;
        s[k + n] = s[k];
    }
}

// Moves s[at + n..used] down by n.
fn shift_down(s: &mut [u8], at: usize, used: usize, n: usize)
    requires { (at + n ≤ used) × (used ≤ length s.old) }
    ensures { s.new ≡ splice s.old at (part s.old (at + n) (used - (at + n))) }
{
    if n == 0 {
        return;
    }
    let mut k = at + n;
    // Stays: as in shift_up.
    while k < used {
        s[k - n] = s[k];
        k += 1;
    }
}

// Moves s[from..end] to where it stands from `to` on.
pub fn shift(s: &mut [u8], from: usize, end: usize, to: usize)
    requires { (from ≤ end) × (end ≤ length s.old) × (to + (end - from) ≤ length s.old) }
    ensures { s.new ≡ splice s.old to (part s.old from (end - from)) }
{
    if from < to {
        shift_up(s, from, end, to - from);
    } else {
        shift_down(s, to, end, from - to);
    }
}

// Puts src in before `at` of the first `used` bytes, which are then more.
pub fn insert(s: &mut [u8], at: usize, used: usize, src: &[u8])
    requires { (at ≤ used) × (used + length src.now ≤ length s.old) }
    ensures { s.new ≡ over s.old (inserted (take used s.old) at src.now) }
{
    let to = at + src.len();
    shift(s, at, used, to);
    names::write::put(s, at, src);
}

// Takes the n bytes from `at` on out of the first `used` bytes, which are then fewer.
pub fn remove(s: &mut [u8], at: usize, used: usize, n: usize)
    requires { (at + n ≤ used) × (used ≤ length s.old) }
    ensures { s.new ≡ over s.old (removed (take used s.old) at n) }
{
    let from = at + n;
    shift(s, from, used, at);
}
