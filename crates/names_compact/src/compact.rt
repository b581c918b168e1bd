// A tree in compact form: entries end to end in Git's order, each a kind, the length of its name, its id and its name.
ghost use Rattle.std.specs.Prelude.{◌≡◌, true, not, ◌+◌, ◌≤◌, ◌<◌, length, take, drop, Ok, Err};
ghost use Rattle.model.specs.Bytes.{cmp};
ghost use Rattle.model.specs.Map.{rising};
ghost use Rattle.model.specs.Raw.{raw_entry, raw_tree};
ghost use Rattle.model.specs.Tree.{as_kind, key as key_of};
ghost use Rattle.model.specs.Search.{searched};
ghost use Rattle.names.specs.Answers.{as_mode, as_ordering, entry};
ghost use Rattle.names_compact.specs.Compact.{kind_of, mode_at, unpack, packed, Run, offset, entry_at, Tells, Finds, begun, Takes, PackedAs};
ghost use Rattle.names_compact.specs.Entries.{shown};
ghost use Rattle.names.specs.Splice.{splice};

use names::mode::EntryKind;
use names::order::Key;
use names::write::Entry;
use std::cmp::Ordering;

// The byte of a kind.
pub fn kind_byte(kind: EntryKind) -> u8
    ensures { result ≡ kind_of (as_mode kind) }
{
    kind as u8
}

// The kind that a byte stands for.
// Stays: the byte is this form's own, so its conversion is not for `names`, whose type EntryKind is; here a From<u8> for it cannot be written.
pub fn kind_of(byte: u8) -> EntryKind
    ensures { as_mode result ≡ mode_at byte }
{
    match byte {
        0 => EntryKind::Tree,
        1 => EntryKind::Blob,
        2 => EntryKind::BlobExecutable,
        3 => EntryKind::Link,
        _ => EntryKind::Commit,
    }
}

// A tree: its bytes, and how many bytes an id has.
#[derive(Clone, Copy)]
pub struct Tree<'a> {
    pub bytes: &'a [u8],
    pub width: usize,
    ghost run: { Run width bytes.now },
    ghost narrow: { width ≤ 64 },
}

// The id of the entry i, which starts at `at`, of a tree that is those bytes.
pub fn id_at<'a>(tree: &'a [u8], width: usize, at: usize, i: usize) -> &'a [u8]
    requires { Run width tree.now × (at ≡ offset width tree.now i) × (i < length (unpack width tree.now)) }
    ensures { result.now ≡ (entry_at width tree.now i).id }
{
    &tree[at + 2..at + 2 + width]
}

// Where a name is in a tree, or where it would stand: the number of the entry, its first byte, and how many names were compared.
#[derive(Clone, Copy)]
pub struct Place {
    pub index: usize,
    pub at: usize,
    pub compared: usize,
}

impl<'a> Tree<'a> {
    // Where the entry m after the entry i starts, which starts at `at`.
    pub fn skip(self, at: usize, i: usize, m: usize) -> usize
        requires { (at ≡ offset self.width self.bytes.now i) × (i + m ≤ length (unpack self.width self.bytes.now)) }
        ensures { result ≡ offset self.entry.width self.entry.bytes.now (i + m) }
    {
        let mut a = at;
        for _ in 0..m {
            a += 2 + self.width + self.bytes[a + 1] as usize;
        }
        a
    }

    // The entry i, which starts at `at`.
    pub fn entry_at(self, at: usize, i: usize) -> Entry<'a>
        requires { (at ≡ offset self.width self.bytes.now i) × (i < length (unpack self.width self.bytes.now)) }
        ensures { shown result ≡ entry_at self.entry.width self.entry.bytes.now i }
    {
        let name = at + 2 + self.width;
        let next = name + self.bytes[at + 1] as usize;
        Entry {
            kind: kind_of(self.bytes[at]),
            name: &self.bytes[name..next],
            id: id_at(self.bytes, self.width, at, i),
        }
    }

    // The name of the entry i, which starts at `at`.
    pub fn name_at(self, at: usize, i: usize) -> &'a [u8]
        requires { (at ≡ offset self.width self.bytes.now i) × (i < length (unpack self.width self.bytes.now)) }
        ensures { result.now ≡ (entry_at self.entry.width self.entry.bytes.now i).name }
    {
        self.entry_at(at, i).name
    }

    // The kind of the entry i, which starts at `at`.
    pub fn kind_at(self, at: usize, i: usize) -> EntryKind
        requires { (at ≡ offset self.width self.bytes.now i) × (i < length (unpack self.width self.bytes.now)) }
        ensures { as_mode result ≡ (entry_at self.entry.width self.entry.bytes.now i).mode }
    {
        self.entry_at(at, i).kind
    }

    // How a name stands to the entry i, which starts at `at`, in Git's order.
    pub fn order_at(self, at: usize, i: usize, key: Key<'_>) -> Ordering
        requires { (at ≡ offset self.width self.bytes.now i) × (i < length (unpack self.width self.bytes.now)) }
        ensures { as_ordering result ≡ cmp (as_kind key.entry.tree key.entry.name.now) (key_of (entry_at self.entry.width self.entry.bytes.now i)) }
    {
        let e = self.entry_at(at, i);
        let other = Key {
            name: e.name,
            tree: e.kind.is_tree(),
        };
        names::order::name_order(key, other)
    }

    // Searches a name among the entries by halving, in file order or in tree order: where it is, else where it would stand.
    pub fn search(self, key: Key<'_>) -> Result<Place, Place>
        ensures { Tells self.entry.width self.entry.bytes.now (searched key_of (as_kind key.entry.tree key.entry.name.now) (unpack self.entry.width self.entry.bytes.now)) result }
    {
        let mut len = self.count();
        let mut index = 0;
        let mut at = 0;
        let mut compared = 0;
        // Stays: a search by halving over entries that differ in length has no slice to give to the library's.
        while len > 0 {
            let half = len / 2;
            let middle = self.skip(at, index, half);
            compared += 1;
            match self.order_at(middle, index + half, key) {
                Ordering::Less => len = half,
                Ordering::Equal => {
                    return Ok(Place {
                        index: index + half,
                        at: middle,
                        compared,
                    });
                }
                Ordering::Greater => {
                    at = self.skip(middle, index + half, 1);
                    index += half + 1;
                    len -= half + 1;
                }
            }
        }
        Err(Place {
            index,
            at,
            compared,
        })
    }

    // Whether the entry i, which starts at `at` if it is there, has a name that begins with this one.
    fn begins_at(self, at: usize, i: usize, name: &[u8]) -> bool
        requires { (at ≡ offset self.width self.bytes.now i) × (i ≤ length (unpack self.width self.bytes.now)) }
        ensures { result ≡ begun name.now (drop i (unpack self.entry.width self.entry.bytes.now)) }
    {
        if self.bytes.len() <= at {
            return false;
        }
        names::order::same_bytes(names::part::front(self.name_at(at, i), name.len()), name)
    }

    // Searches a name in the other order, after the search that did not find it. Between a file's place and the tree of its name stand only names that begin with it, so the entry at the place often tells.
    pub fn search_twin(self, key: Key<'_>, place: Place) -> Result<Place, Place>
        requires { (rising key_of (unpack self.width self.bytes.now) ≡ true)
            × Tells self.width self.bytes.now (searched key_of (as_kind key.tree key.name.now) (unpack self.width self.bytes.now)) (Err place) }
        ensures { Finds self.entry.width self.entry.bytes.now (as_kind (not key.entry.tree) key.entry.name.now) result }
    {
        if !key.tree && !self.begins_at(place.at, place.index, key.name) {
            return Err(place);
        }
        self.search(Key {
            name: key.name,
            tree: !key.tree,
        })
    }
}

// Writes an entry from `at` on, and gives the place after it.
pub fn put_at(out: &mut [u8], at: usize, e: Entry<'_>) -> usize
    requires room { at + length (packed (entry e.kind e.name.now e.id.now)) ≤ length out.old }
    requires short { length e.name.now ≤ 255 }
    ensures value { result ≡ at + length (packed (entry e.entry.kind e.entry.name.now e.entry.id.now)) }
    ensures out_after { out.new ≡ splice out.old at (packed (entry e.entry.kind e.entry.name.now e.entry.id.now)) }
{
    let a = names::write::put(out, at, &[kind_byte(e.kind), e.name.len() as u8]);
    let b = names::write::put(out, a, e.id);
    names::write::put(out, b, e.name)
}

// Writes an entry to the front of buf, and says how long it is.
pub fn put_entry(buf: &mut [u8], e: Entry<'_>) -> usize
    requires { (length buf.old ≡ 321) × (length e.id.now ≤ 64) × (length e.name.now ≤ 255) }
    ensures { (result ≡ length (packed (entry e.entry.kind e.entry.name.now e.entry.id.now)))
        × (take result buf.new ≡ packed (entry e.entry.kind e.entry.name.now e.entry.id.now)) }
{
    put_at(buf, 0, e)
}

// Writes the compact form of a tree that is read from its raw form, and fills dst with it.
pub fn pack(dst: &mut [u8], raw: &[u8], width: usize)
    requires { Takes width raw.now (length dst.old) }
    ensures { PackedAs width raw.now dst.new }
{
    let mut at = 0;
    let mut to = 0;
    while let Some(read) = names::raw::read_entry(raw, at, width) {
        let e = Entry {
            kind: read.kind,
            name: names::part::between(raw, read.name_at, read.name_len),
            id: names::part::between(raw, read.id_at, width),
        };
        to = put_at(dst, to, e);
        at = read.next;
    }
}
