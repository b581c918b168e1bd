// The entries of a tree in compact form, one after the other.
ghost use Rattle.std.specs.Prelude.{◌≡◌, ◌≤◌, [], ◌∷◌, length, IfSome, IfNone};
ghost use Rattle.model.specs.Raw.{raw_entry, raw_tree};
ghost use Rattle.names.specs.Answers.{entry};
ghost use Rattle.names.specs.Splice.{splice};
ghost use Rattle.names_compact.specs.Compact.{unpack};

use crate::compact::Tree;
use names::write::Entry;
use std::marker::Model;

// What is left of a tree's entries, seen as the list of them.
#[derive(Drop)]
pub struct Entries<'a> {
    left: Tree<'a>,
}

impl<'a> Model for Entries<'a> {
    ghost use Rattle.std.specs.Prelude.{List};
    ghost use Rattle.model.specs.Tree as model;
    ghost use Rattle.names_compact.specs.Compact.{unpack};

    ghost Value = { List model.Entry };

    ghost view = { λ s. unpack s.left.width s.left.bytes.now };
}

impl<'a> Iterator for Entries<'a> {
    ghost use Rattle.std.specs.Iterator.{YieldsFirstBy, item_count};
    ghost use Rattle.names_compact.specs.Entries.{shown};

    type Item = Entry<'a>;

    ghost next_gives = { YieldsFirstBy shown (λ rest. rest) };

    ghost remaining = { item_count (λ rest. rest) };

    fn next(&mut self) -> Option<Entry<'a>> {
        let (first, others) = self.left.split_first()?;
        self.left = others;
        Some(first)
    }
}

impl<'a> Tree<'a> {
    // The first entry and the tree of the others.
    pub fn split_first(self) -> Option<(Entry<'a>, Tree<'a>)>
        ensures first { IfSome result (λ p. unpack self.entry.width self.entry.bytes.now ≡ entry p.0.kind p.0.name.now p.0.id.now ∷ unpack p.1.width p.1.bytes.now) }
        ensures width { IfSome result (λ p. p.1.width ≡ self.entry.width) }
        ensures empty { IfNone result (unpack self.entry.width self.entry.bytes.now ≡ []) }
    {
        if self.bytes.is_empty() {
            return None;
        }
        let first = self.entry_at(0, 0);
        let next = self.skip(0, 0, 1);
        let others = Tree {
            bytes: &self.bytes[next..],
            width: self.width,
        };
        Some((first, others))
    }

    // Its entries.
    pub fn entries(self) -> Entries<'a>
        ensures { result ≡ unpack self.entry.width self.entry.bytes.now }
    {
        Entries { left: self }
    }

    // The number of entries.
    pub fn count(self) -> usize
        ensures { result ≡ length (unpack self.entry.width self.entry.bytes.now) }
    {
        self.entries().count()
    }

    // How long the raw form of the tree is.
    pub fn raw_len(self) -> usize
        requires { length self.bytes.now ≤ 4294967296 }
        ensures { result ≡ length (raw_tree (unpack self.entry.width self.entry.bytes.now)) }
    {
        let mut n = 0;
        for e in self.entries() {
            n += raw_entry_len(e);
        }
        n
    }

    // Writes the raw form of the tree to the front of out, and says how long it is.
    pub fn put_raw(self, out: &mut [u8]) -> usize
        requires { length (raw_tree (unpack self.width self.bytes.now)) ≤ length out.old }
        ensures value { result ≡ length (raw_tree (unpack self.entry.width self.entry.bytes.now)) }
        ensures out_after { out.new ≡ splice out.old 0 (raw_tree (unpack self.entry.width self.entry.bytes.now)) }
    {
        let mut to = 0;
        for e in self.entries() {
            to = names::write::put_entry(out, to, e);
        }
        to
    }
}

// How long the raw form of an entry is.
fn raw_entry_len(e: Entry<'_>) -> usize
    requires { length (raw_entry (entry e.kind e.name.now e.id.now)) ≤ 18446744073709551615 }
    ensures { result ≡ length (raw_entry (entry e.entry.kind e.entry.name.now e.entry.id.now)) }
{
    let rest = 2 + e.name.len() + e.id.len();
    if e.kind.is_tree() { 5 + rest } else { 6 + rest }
}
