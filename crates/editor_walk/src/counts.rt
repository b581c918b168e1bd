// What an editor's trees use, and what an edit's steps make of it.
ghost use Rattle.std.specs.Prelude.{◌≡◌, true, ◌≤◌, length};
ghost use Rattle.model.specs.Bytes.{Bytes};
ghost use Rattle.model.specs.Tree.{Tree, name_bytes};
ghost use Rattle.model.specs.Measure.{within as withinLimits, less_name, plus_tree};
ghost use Rattle.editor_terms.specs.Edits.{put_counts, counts_after};
ghost use Rattle.editor_walk.specs.Counted.{counts_as, record_counts};

use editor_terms::edit::{Seen, Turn};
use names::limits::{ENTRIES, NAME_BYTES, PATH_BYTES, SLOTS};
use names::tree::Size;
use store_slots::Record;

// What is used: trees, entries, bytes of names and of paths.
#[derive(Clone, Copy)]
pub struct Counts {
    pub trees: usize,
    pub entries: usize,
    pub names: usize,
    pub paths: usize,
}

// What a record's trees use.
pub fn counts_of(ed: Record) -> Counts
    ensures { counts_as result ≡ record_counts ed }
{
    Counts {
        trees: store_slots::used(ed),
        entries: ed.entries,
        names: ed.names,
        paths: ed.paths,
    }
}

// Whether what is used is within the limits.
pub fn within(u: Counts) -> bool
    ensures { result ≡ withinLimits (counts_as u) }
{
    if SLOTS < u.trees || ENTRIES < u.entries || NAME_BYTES < u.names {
        return false;
    }
    u.paths <= PATH_BYTES
}

// What is used after an entry of a name of n bytes is set: one more, if there was none.
fn with_entry(seen: Option<Seen>, n: usize, u: Counts) -> Counts
    requires { (withinLimits (counts_as u) ≡ true) × (n ≤ 1280) }
    ensures { (name : Bytes) → n ≡ length name → counts_as result ≡ put_counts seen name (counts_as u) }
{
    match seen {
        Some(_) => u,
        None => Counts {
            entries: u.entries + 1,
            names: u.names + n,
            ..u
        },
    }
}

// What is used after an entry of a name of n bytes is gone.
fn without_entry(n: usize, u: Counts) -> Counts
    ensures { (name : Bytes) → n ≡ length name → counts_as result ≡ less_name name (counts_as u) }
{
    Counts {
        entries: u.entries.saturating_sub(1),
        names: u.names.saturating_sub(n),
        ..u
    }
}

// What is used after a turn at a name of n bytes.
pub fn turned(turn: Turn, seen: Option<Seen>, n: usize, u: Counts) -> Counts
    requires { (withinLimits (counts_as u) ≡ true) × (n ≤ 1280) }
    ensures { (name : Bytes) → n ≡ length name → counts_as result ≡ counts_after turn seen name (counts_as u) }
{
    match turn {
        Turn::Cut => without_entry(n, u),
        Turn::Put(_, _) => with_entry(seen, n, u),
        Turn::Stop(_) | Turn::Down(_) => u,
    }
}

// What is used with one tree more, of so many entries and bytes of names, at a path of n bytes.
pub fn with_tree(size: Size, n: usize, u: Counts) -> Counts
    requires { (withinLimits (counts_as u) ≡ true) × (size.entries ≤ 1024) × (size.name_bytes ≤ 16384) × (n ≤ 1280) }
    ensures { (q : Bytes) (t : Tree) → n ≡ length q → size.entries ≡ length t → size.name_bytes ≡ name_bytes t → counts_as result ≡ plus_tree q t (counts_as u) }
{
    Counts {
        trees: u.trees + 1,
        entries: u.entries + size.entries,
        names: u.names + size.name_bytes,
        paths: u.paths + n,
    }
}
