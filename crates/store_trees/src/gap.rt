// A gap in the runs for bytes that are written where they stay.
ghost use Rattle.std.specs.Prelude.{◌≡◌, List, ℕ, ◌+◌, ◌≤◌, ◌<◌, length, take, get_or};
ghost use Rattle.std.proofs.Math.Option.{some};
ghost use Rattle.model.specs.Raw.{read_tree};
ghost use Rattle.model.specs.Tree.{Tree};
ghost use Rattle.names_compact.specs.Compact.{packed_all, Takes};
ghost use Rattle.store_runs.specs.Moves.{part};
ghost use Rattle.store_runs.specs.Runs.{total, cut, with_run, Sound};

// Opens a gap of n bytes in the run k, which is empty, and gives its start.
pub fn widen(lens: &mut [u64], bytes: &mut [u8], used: usize, k: usize, n: usize) -> usize
    requires { Sound lens.old bytes.old used × (k < length lens.old) × (get_or lens.old k 0 ≡ 0) × (used + n ≤ length bytes.old) }
    ensures view { cut lens.new bytes.new ≡ with_run k (λ (l : List ℕ). part bytes.new result n) (cut lens.old bytes.old) }
    ensures sound { Sound lens.new bytes.new (used + n) }
    ensures place { (result ≡ total (take k lens.new)) × (get_or lens.new k 0 ≡ n) }
{
    let a = store_runs::runs::start(lens, k);
    let to = a + n;
    store_runs::moves::shift(bytes, a, used, to);
    lens[k] = n as u64;
    a
}

// Fills the run k, which is empty, with the compact form of a tree that is read from its raw form and takes n bytes.
pub fn fill(
    lens: &mut [u64],
    bytes: &mut [u8],
    used: usize,
    k: usize,
    n: usize,
    raw: &[u8],
    width: usize,
)
    requires { Sound lens.old bytes.old used × (k < length lens.old) × (get_or lens.old k 0 ≡ 0) × (used + n ≤ length bytes.old) × Takes width raw.now n }
    ensures view { (t : Tree) → read_tree width raw.now ≡ some t → cut lens.new bytes.new ≡ with_run k (λ (l : List ℕ). packed_all t) (cut lens.old bytes.old) }
    ensures sound { Sound lens.new bytes.new (used + n) }
{
    let a = widen(lens, bytes, used, k, n);
    let e = a + n;
    names_compact::compact::pack(&mut bytes[a..e], raw, width);
}
