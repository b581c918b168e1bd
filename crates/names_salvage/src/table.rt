// The table of the entries kept, in Git's order.
ghost use Rattle.std.specs.Prelude.{◌≡◌, true, List, [], ◌∷◌, ◌++◌, ◌+◌, ◌*◌, ◌/◌, ◌%◌, ◌≤◌, ◌<◌, eqb, length, take, drop};
ghost use Rattle.names_compact.specs.Compact.{begun};
ghost use Rattle.model.specs.Map.{rising};
ghost use Rattle.model.specs.Tree.{Tree, as_kind, key, good_name};
ghost use Rattle.names_salvage.specs.Answers.{Lists, SearchIs, PlaceIs};
ghost use Rattle.names_salvage.specs.Slots.{order_byte, slot_order};
ghost use Rattle.names_salvage.specs.declared.table.Slot.{Slot};

use crate::piece::RawPiece;
use names::order::Key;
use names::part::after;
use std::cmp::Ordering;
use std::marker::Model;

// An entry of the table.
// Stays: the number is eight times the place of the entry's name, and how long its mode's text is, so that 1,024 entries take 4 KiB of fixed memory.
#[derive(Clone, Copy)]
pub struct Slot {
    pub word: u32,
}

impl Slot {
    // The slot of an entry that was read.
    pub fn of(piece: RawPiece<'_>) -> Slot
        requires { (length piece.mode.now < 8) × (piece.at + length piece.mode.now + 1 ≤ 536870911) }
        ensures { result.word ≡ (piece.entry.at + length piece.entry.mode.now + 1) * 8 + length piece.entry.mode.now }
    {
        let mode_len = piece.mode.len();
        Slot {
            word: ((piece.at + mode_len + 1) * 8 + mode_len) as u32,
        }
    }

    // Where the entry's name begins.
    pub fn name_at(self) -> usize
        ensures { result ≡ self.word / 8 }
    {
        self.word as usize / 8
    }

    // How long the text of the entry's mode is.
    pub fn mode_len(self) -> usize
        ensures { result ≡ self.word % 8 }
    {
        self.word as usize % 8
    }

    // Whether the entry is a tree: no other mode has a text of five bytes.
    fn is_tree(self) -> bool
        ensures { result ≡ eqb (self.word % 8) 5 }
    {
        self.mode_len() == 5
    }

    // How the entry stands to a name in Git's order.
    fn order(self, raw: &[u8], sought: Key<'_>) -> Ordering
        ensures { result ≡ slot_order raw.now sought.entry.name.now sought.entry.tree self.word }
    {
        let there = after(raw, self.name_at());
        let i = names::order::shared(sought.name, there);
        order_byte(there, self.is_tree(), i).cmp(&order_byte(sought.name, sought.tree, i))
    }
}

// The byte at i of a name where its order is taken: behind a tree's name a slash, and behind another a NUL.
fn order_byte(name: &[u8], tree: bool, i: usize) -> u8
    ensures { result ≡ order_byte name.now tree i }
{
    match name.get(i) {
        Some(&b) if b != 0 => b,
        _ if tree => b'/',
        _ => 0,
    }
}

// Whether the entry at the place i, if there is one, has a name that begins with this one.
fn begins_at(kept: &[Slot], raw: &[u8], i: usize, name: &[u8]) -> bool
    requires { good_name name.now ≡ true }
    ensures { (t : Tree) → Lists raw.now kept.now t → result ≡ begun name.now (drop i t) }
{
    match kept.get(i) {
        Some(slot) => names::order::shared(name, after(raw, slot.name_at())) == name.len(),
        None => false,
    }
}

// Searches a name among the slots by halving. By itself, so that what it works with stays in registers.
#[inline(never)]
fn search(kept: &[Slot], raw: &[u8], sought: Key<'_>) -> Result<usize, usize>
    requires { good_name sought.name.now ≡ true }
    ensures { (t : Tree) → Lists raw.now kept.now t → rising key t ≡ true → SearchIs t (as_kind sought.entry.tree sought.entry.name.now) result }
{
    let mut lo = 0;
    let mut hi = kept.len();
    // Stays: the library's search does not end where it meets the name: with it copies of a name take twice the time.
    while lo < hi {
        let middle = lo + (hi - lo) / 2;
        match kept[middle].order(raw, sought) {
            Ordering::Less => lo = middle + 1,
            Ordering::Equal => return Ok(middle),
            Ordering::Greater => hi = middle,
        }
    }
    Err(lo)
}

// Whether a name is among these slots, and where an entry of it would stand. Between a file's place and the tree of its name stand only names that begin with it.
pub fn place_in(kept: &[Slot], raw: &[u8], sought: Key<'_>) -> Result<usize, usize>
    requires { good_name sought.name.now ≡ true }
    ensures { (t : Tree) → Lists raw.now kept.now t → rising key t ≡ true → PlaceIs t sought.entry.name.now sought.entry.tree result }
{
    let file = search(
        kept,
        raw,
        Key {
            tree: false,
            ..sought
        },
    );
    let Err(i) = file else {
        return file;
    };
    if !begins_at(kept, raw, i, sought.name) {
        return file;
    }
    match search(
        kept,
        raw,
        Key {
            tree: true,
            ..sought
        },
    ) {
        Err(_) if !sought.tree => file,
        twin => twin,
    }
}

// Puts a slot in before the place i of the first n, of which those behind move up.
pub fn put_before(slots: &mut [Slot], n: usize, i: usize, slot: Slot)
    requires { (i ≤ n) × (n < length slots.old) }
    ensures { take (n + 1) slots.new ≡ take i (take n slots.old) ++ (slot ∷ drop i (take n slots.old)) }
{
    let mut k = n;
    // Stays: `copy_within` would have the library ask for memmove, and README says that it needs memcpy and memset alone.
    while i < k {
        slots[k] = slots[k - 1];
        k -= 1;
    }
    slots[i] = slot;
}

// The entries kept, of which there are at most 1,024.
#[derive(Drop)]
pub struct Table {
    slots: [Slot; 1024],
    len: usize,
}

impl Model for Table {
    ghost Value = { List Slot };

    ghost view = { λ t. take t.len t.slots };

    ghost invariant = { λ t. t.len ≤ 1024 };
}

impl Table {
    // A table with no entries.
    pub fn new() -> Table
        ensures { result ≡ [] }
    {
        Table {
            slots: [Slot { word: 0 }; 1024],
            len: 0,
        }
    }

    // Takes all entries out.
    pub fn clear(&mut self)
        ensures { self.new ≡ [] }
    {
        self.len = 0;
    }

    // The slots of the entries kept.
    pub fn kept(&self) -> &[Slot]
        ensures { result.now ≡ self.now }
    {
        &self.slots[..self.len]
    }

    // Whether a name is kept already, and where an entry of it would stand.
    pub fn place_for(&self, raw: &[u8], sought: Key<'_>) -> Result<usize, usize>
        requires { good_name sought.name.now ≡ true }
        ensures { (t : Tree) → Lists raw.now self.now t → rising key t ≡ true → PlaceIs t sought.entry.name.now sought.entry.tree result }
    {
        place_in(self.kept(), raw, sought)
    }

    // Puts a slot in before the place i.
    pub fn insert(&mut self, i: usize, slot: Slot)
        requires { (i ≤ length self.old) × (length self.old < 1024) }
        ensures { self.new ≡ take i self.old ++ (slot ∷ drop i self.old) }
    {
        put_before(&mut self.slots, self.len, i, slot);
        self.len += 1;
    }
}
