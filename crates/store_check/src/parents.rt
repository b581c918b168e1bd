// Which trees lie below one tree. They stand in the order of its entries, so that one walk over these finds them all.
ghost use Rattle.std.specs.Prelude.{◌≡◌, true, ◌&&◌, ◌-◌, ◌^◌, ◌≤◌, ◌<◌, [], eqb, length, take, drop, get_or, MatchOption};
ghost use Rattle.std.specs.Bool.{⊤};
ghost use Rattle.model.specs.Bytes.{same};
ghost use Rattle.model.specs.Paths.{join};
ghost use Rattle.names_compact.specs.Compact.{unpack};
ghost use Rattle.store_runs.specs.Runs.{total};
ghost use Rattle.store_slots.specs.View.{path_of};
ghost use Rattle.store_check.specs.Parents.{Begins, Begun, Read, Starts, Named, Child, Table, Children};

use names::limits::SLOTS;
use names_compact::compact::Tree;

// Where each run starts.
pub fn starts(lens: &[u64]) -> [u64; SLOTS]
    requires { (length lens.now ≡ 64) × (total lens.now < 2 ^ 63) }
    ensures { Begins lens.now 64 result }
{
    let mut begins = [0u64; SLOTS];
    let mut sum = 0;
    for (i, n) in lens.iter().enumerate() {
        begins[i] = sum;
        sum += *n;
    }
    begins
}

// The paths of a store, and where each starts.
#[derive(Clone, Copy)]
pub struct Paths<'a> {
    pub lens: &'a [u64],
    pub bytes: &'a [u8],
    pub begins: &'a [u64],
    ghost begun: { Begun lens.now bytes.now begins.now },
}

impl<'a> Paths<'a> {
    // The path of a slot.
    pub fn at(self, k: usize) -> &'a [u8]
        requires { k < 64 }
        ensures { result.now ≡ path_of self.entry.lens.now self.entry.bytes.now k }
    {
        let a = self.begins[k] as usize;
        let e = a + self.lens[k] as usize;
        &self.bytes[a..e]
    }
}

// The slots that stand in a table from `low` on, and the paths of the store.
#[derive(Clone, Copy)]
pub struct Stack<'a> {
    pub paths: Paths<'a>,
    pub slots: &'a [u64],
    pub low: usize,
    ghost table: { Table paths.lens.now paths.bytes.now paths.begins.now slots.now low 64 },
}

// What a path has after another and a slash; nothing where it does not begin so.
fn below<'a>(home: &[u8], path: &'a [u8]) -> &'a [u8]
    ensures { (result.now ≡ [] → ⊥) → path.now ≡ join home.now result.now }
{
    let n = home.len();
    if n == 0 {
        return path;
    }
    if path.len() <= n || path[n] != b'/' || !names::order::same_bytes(home, &path[..n]) {
        return &path[..0];
    }
    &path[n + 1..]
}

// Whether the entry that starts at a is a tree, and its name, which lies from lo to hi, is this one.
fn is_tree(tree: &[u8], a: usize, lo: usize, hi: usize, name: &[u8]) -> bool
    requires { (a < length tree.now) × (lo ≤ hi) × (hi ≤ length tree.now) }
    ensures { result ≡ (eqb (get_or tree.now a 0) 0 && same (take (hi - lo) (drop lo tree.now)) name.now) }
{
    tree[a] == 0 && names::eight::same_name(&tree[lo..hi], name)
}

// How far down slots of the table are those of children, and where in the tree's entries the next may be.
#[derive(Clone, Copy)]
struct Walk {
    low: usize,
    at: usize,
}

// How far down slots of the table are known to be those of children, and whether a path that comes after theirs is known to be a child's too.
// Stays: the flag is no sign that the number is missing; each of the two is known without the other.
#[derive(Clone, Copy)]
pub struct Known {
    pub low: usize,
    pub asked: bool,
}

// A well-formed tree, and its path.
#[derive(Clone, Copy)]
pub struct Parent<'a> {
    pub home: &'a [u8],
    pub tree: Tree<'a>,
    ghost read: { Read tree.width tree.bytes.now },
}

impl<'a> Parent<'a> {
    // The place after the first tree entry of this name from the entry on that starts at `at`.
    fn entry_after(self, at: usize, name: &[u8]) -> Option<usize>
        requires { Starts self.tree.width self.tree.bytes.now at }
        ensures { MatchOption result ⊤ (λ next. Starts self.entry.tree.width self.entry.tree.bytes.now next × Named name.now (unpack self.entry.tree.width self.entry.tree.bytes.now)) }
    {
        let tree = self.tree.bytes;
        let mut a = at;
        // Stays: it begins in the middle of a tree, at a place of an entry, and such a place is its answer.
        while a < tree.len() {
            let lo = a + 2 + self.tree.width;
            let hi = lo + tree[a + 1] as usize;
            if is_tree(tree, a, lo, hi, name) {
                return Some(hi);
            }
            a = hi;
        }
        None
    }

    // The place after the first tree entry for this path from the entry on that starts at `at`, where the path lies below the tree's own.
    fn after_child(self, at: usize, path: &[u8]) -> Option<usize>
        requires { Starts self.tree.width self.tree.bytes.now at }
        ensures { MatchOption result ⊤ (λ next. Starts self.entry.tree.width self.entry.tree.bytes.now next × Child self.entry.home.now (unpack self.entry.tree.width self.entry.tree.bytes.now) path.now) }
    {
        let name = below(self.home, path);
        if name.is_empty() {
            return None;
        }
        self.entry_after(at, name)
    }

    // How far down the slots of the stack below `high` are those of children, in the order of the tree's entries.
    fn children(self, stack: Stack<'_>, high: usize) -> Walk
        requires { (stack.low ≤ high) × (high ≤ 64) }
        ensures { Children self.entry.home.now (unpack self.entry.tree.width self.entry.tree.bytes.now) stack.entry.paths.lens.now stack.entry.paths.bytes.now stack.entry.slots.now stack.entry.low high result.low
            × Starts self.entry.tree.width self.entry.tree.bytes.now result.at }
    {
        let mut at = 0;
        for i in (stack.low..high).rev() {
            let path = stack.paths.at(stack.slots[i] as usize);
            let Some(next) = self.after_child(at, path) else {
                return Walk { low: i + 1, at };
            };
            at = next;
        }
        Walk { low: stack.low, at }
    }

    // How far down the slots of the stack below `high` are those of children, and where they all are, whether the path is a child's that comes after them.
    pub fn known_children(self, stack: Stack<'_>, high: usize, path: &[u8]) -> Known
        requires { (stack.low ≤ high) × (high ≤ 64) }
        ensures { Children self.entry.home.now (unpack self.entry.tree.width self.entry.tree.bytes.now) stack.entry.paths.lens.now stack.entry.paths.bytes.now stack.entry.slots.now stack.entry.low high result.low
            × (result.asked ≡ true → Child self.entry.home.now (unpack self.entry.tree.width self.entry.tree.bytes.now) path.now) }
    {
        let walk = self.children(stack, high);
        Known {
            low: walk.low,
            asked: walk.low <= stack.low && self.after_child(walk.at, path).is_some(),
        }
    }
}
