// Whether bytes are a well-formed tree in compact form.
ghost use Rattle.std.specs.Prelude.{◌≡◌, true, ◌+◌, ◌≤◌, ◌<◌, length, take, drop, Some, IfSome};
ghost use Rattle.names.specs.Answers.{checked_as};
ghost use Rattle.names.specs.Check.{size_of, TwinIs, Lower, plain, FitsIs};
ghost use Rattle.model.specs.Tree.{is_tree};
ghost use Rattle.names_compact.specs.Judge.{end_as, end_at, entry_held, held_at, compact_tree, Head, name_before, tree_before, Reached};

use names::later::Bounded;
use names::order::Key;
use names::tree::Size;

// Where the entry at `at` ends, if its kind is one of the five and its bytes are there.
fn end_of(tree: &[u8], width: usize, at: usize) -> Option<usize>
    ensures { end_as result ≡ end_at tree.now width at }
{
    let room = tree
        .len()
        .checked_sub(at)?
        .checked_sub(2)?
        .checked_sub(width)?;
    let n = tree[at + 1] as usize;
    if room < n || 4 < tree[at] {
        return None;
    }
    Some(at + 2 + width + n)
}

// The key of the entry at `at`, which ends at `next`.
fn key_held(tree: &[u8], width: usize, at: usize, next: usize) -> Key<'_>
    requires { end_at tree.now width at ≡ end_as (Some next) }
    ensures name { result.name.now ≡ (entry_held tree.now width at).name }
    ensures tree { result.tree ≡ is_tree (entry_held tree.now width at).mode }
    ensures short { length result.name.now ≤ 255 }
{
    Key {
        name: &tree[at + 2 + width..next],
        tree: tree[at] == 0,
    }
}

// Bytes that are read as a tree in compact form.
#[derive(Clone, Copy)]
pub struct Packed<'a> {
    tree: &'a [u8],
    width: usize,
}

impl<'a> Bounded for Packed<'a> {
    ghost use Rattle.std.specs.Prelude.{length};
    ghost use Rattle.names_compact.specs.Judge.{held_at};

    ghost held = { λ s at. held_at s.tree.now s.width at };

    ghost end = { λ s. length s.tree.now };

    fn key_at(&self, at: usize) -> Option<(Key<'_>, usize)> {
        let next = end_of(self.tree, self.width, at)?;
        Some((key_held(self.tree, self.width, at, next), next))
    }

    fn len(&self) -> usize {
        self.tree.len()
    }
}

// The first eight bytes of a name as one number, if it has eight.
fn head(name: &[u8]) -> Option<u64>
    ensures { IfSome result (λ x. Head name.now x) }
{
    if name.len() < 8 {
        None
    } else {
        Some(names::eight::word_at(name, 0))
    }
}

// Which eight bytes tell apart two names that are as long and begin with eight alike: the first that differ, in eights, else the last.
fn unlike(a: &[u8], b: &[u8]) -> usize
    requires { (8 ≤ length a.now) × (length a.now ≡ length b.now) × (take 8 a.now ≡ take 8 b.now) }
    ensures { (result + 8 ≤ length a.now) × (take result a.now ≡ take result b.now) }
{
    let last = a.len() - 8;
    // Stays: over `(8..last).step_by(8)` the check of an entry with 16 bytes of name takes 73 instructions in place of 63, and 71 are allowed.
    let mut i = 8;
    while i < last {
        if names::eight::low_at(a, i) != names::eight::low_at(b, i) {
            return i;
        }
        i += 8;
    }
    last
}

// Whether a name comes after the one before it by eight bytes: by the first, or, where these are alike and both names as long, by the first eight that differ or the last.
fn ahead(prev: &[u8], name: &[u8], last: u64, head: u64) -> bool
    requires { Head prev.now last × Head name.now head }
    ensures { result ≡ true → Lower prev.now name.now }
{
    if last != head {
        return last < head;
    }
    if prev.len() != name.len() {
        return false;
    }
    let k = unlike(prev, name);
    names::eight::word_at(prev, k) < names::eight::word_at(name, k)
}

// A check that has come to the entry at `at`: where the entry before it starts, and what was counted.
#[derive(Clone, Copy)]
pub struct Check<'a> {
    tree: &'a [u8],
    width: usize,
    at: usize,
    prev: usize,
    size: Size,
    ghost reached: { Reached tree.now width at prev size.entries size.name_bytes },
}

impl<'a> Check<'a> {
    // A check at the first entry.
    fn start(tree: &'a [u8], width: usize) -> Check<'a>
        ensures tree { result.tree.now ≡ tree.now }
        ensures width { result.width ≡ width }
        ensures at { result.at ≡ 0 }
    {
        Check {
            tree,
            width,
            at: 0,
            prev: 0,
            size: Size {
                entries: 0,
                name_bytes: 0,
            },
        }
    }

    // The key of the entry before, or of no name where there is none.
    fn before(self) -> Key<'a>
        ensures name { result.name.now ≡ name_before self.entry.tree.now self.entry.width self.entry.prev self.entry.at }
        ensures tree { result.tree ≡ tree_before self.entry.tree.now self.entry.prev self.entry.at }
    {
        if self.at == 0 {
            return Key {
                name: &self.tree[..0],
                tree: false,
            };
        }
        key_held(self.tree, self.width, self.prev, self.at)
    }

    // The same past one more entry, which ends at `next` and has so many bytes of name.
    fn past(self, next: usize, name_len: usize) -> Check<'a>
        requires { Reached self.tree.now self.width next self.at (self.size.entries + 1) (self.size.name_bytes + name_len) }
        ensures tree { result.tree.now ≡ self.entry.tree.now }
        ensures width { result.width ≡ self.entry.width }
        ensures at { result.at ≡ next }
        ensures prev { result.prev ≡ self.entry.at }
    {
        Check {
            tree: self.tree,
            width: self.width,
            at: next,
            prev: self.at,
            size: Size {
                entries: self.size.entries + 1,
                name_bytes: self.size.name_bytes + name_len,
            },
        }
    }

    // Whether a name comes after the one before it, if there is one, by eight bytes.
    fn is_behind(self, name: &[u8], last: u64, head: u64) -> bool
        requires last { 0 < self.at → Head (name_before self.tree.now self.width self.prev self.at) last }
        requires head { Head name.now head }
        ensures { result ≡ true → 0 < self.entry.at → Lower (name_before self.entry.tree.now self.entry.width self.entry.prev self.entry.at) name.now }
    {
        if last < head {
            return true;
        }
        if self.at == 0 {
            return false;
        }
        ahead(self.before().name, name, last, head)
    }

    // Goes on over the entries that surely fit: a first one, and those whose names come after the one before by eight bytes. `first` is the head of the last name.
    fn run_on(self, first: u64) -> Check<'a>
        requires { 0 < self.at → Head (name_before self.tree.now self.width self.prev self.at) first }
        ensures tree { result.tree.now ≡ self.entry.tree.now }
        ensures width { result.width ≡ self.entry.width }
        ensures on { self.entry.at ≤ result.at }
    {
        let mut run = self;
        let mut last = first;
        while let Some(next) = end_of(run.tree, run.width, run.at) {
            let name = key_held(run.tree, run.width, run.at, next).name;
            let Some(head) = head(name) else {
                break;
            };
            if !run.is_behind(name, last, head) || !names::eight::plain_name(name) {
                break;
            }
            run = run.past(next, name.len());
            last = head;
        }
        run
    }

    // The same, if the last name has eight bytes.
    fn run_past(self, first: Option<u64>) -> Check<'a>
        requires { 0 < self.at → IfSome first (λ x. Head (name_before self.tree.now self.width self.prev self.at) x) }
        ensures tree { result.tree.now ≡ self.entry.tree.now }
        ensures width { result.width ≡ self.entry.width }
        ensures on { self.entry.at ≤ result.at }
    {
        match first {
            Some(first) => self.run_on(first),
            None => self,
        }
    }
}

// Whether the bytes are a well-formed tree in compact form, and how many entries and bytes of names it then has.
pub fn judge(tree: &[u8], width: usize) -> Option<Size>
    ensures { checked_as result ≡ size_of (compact_tree width tree.now) }
{
    let mut check = Check::start(tree, width);
    let mut first = Some(0);
    // Stays: each turn goes on from where a run of entries stopped; entries differ in length.
    while check.at < check.tree.len() {
        check = check.run_past(first);
        if check.tree.len() <= check.at {
            return Some(check.size);
        }
        let next = end_of(check.tree, check.width, check.at)?;
        let key = key_held(check.tree, check.width, check.at, next);
        let entries = Packed {
            tree: check.tree,
            width: check.width,
        };
        if !names::later::may_follow(&entries, next, check.before(), key) {
            return None;
        }
        check = check.past(next, key.name.len());
        first = head(key.name);
    }
    Some(check.size)
}
