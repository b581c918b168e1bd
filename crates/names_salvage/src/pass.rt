// The pass over a damaged tree: which entries are kept, and what is counted.
ghost use Rattle.std.specs.Prelude.{◌≡◌, true, cond, ℕ, ◌≤◌, eqb, length};
ghost use Rattle.model.specs.Tree.{Entry, good_name};
ghost use Rattle.names_salvage.specs.Answers.{StandsAt, piece_at, Enters, Holds, Turned, Passed};
ghost use Rattle.names_salvage.specs.Mending as mending;

use crate::piece::RawPiece;
use crate::table::{Slot, Table};
use names::mode::Mode;
use names::order::Key;

// What was found of a tree up to a place, beside the entries kept: the bytes of their names and of their raw form, and what was dropped.
#[derive(Clone, Copy, Default)]
pub struct Tally {
    pub at: usize,
    pub names: usize,
    pub len: usize,
    pub badname: usize,
    pub badmode: usize,
    pub double: usize,
    pub moved: usize,
}

// Whether so many entries, with so many bytes of names, are within the limits.
fn fits(entries: usize, bytes: usize) -> bool
    ensures { result ≡ mending.fits entries bytes }
{
    entries <= 1024 && bytes <= 16384
}

// An entry with a good name and mode is kept, unless its name is kept already; nothing, where the entries kept then pass a limit.
fn keep(raw: &[u8], table: &mut Table, t: Tally, piece: RawPiece<'_>, tree: bool) -> Option<Tally>
    requires { ((w : ℕ) × (m : mending.Mended) × (e : Entry) × Holds raw.now w table.old t m × Enters raw.now w t.at piece tree e)
        × (good_name piece.name.now ≡ true) × (length raw.now ≤ 536870911) }
    ensures { (w : ℕ) (m : mending.Mended) (e : Entry) → Holds raw.now w table.old t m → Enters raw.now w t.at piece.entry tree e
        → Turned raw.now w table.new result (mending.keep e m) piece.entry.next }
{
    let name = piece.name;
    let Err(i) = table.place_for(raw, Key { name, tree }) else {
        return Some(Tally {
            at: piece.next,
            double: t.double + 1,
            ..t
        });
    };
    let n = table.kept().len();
    if !fits(n + 1, t.names + name.len()) {
        return None;
    }
    table.insert(i, Slot::of(piece));
    Some(Tally {
        at: piece.next,
        names: t.names + name.len(),
        len: t.len + (piece.next - t.at),
        moved: if i == n { t.moved } else { 1 },
        ..t
    })
}

// What is known after one entry more; nothing, where the entries kept pass a limit.
fn turn(raw: &[u8], table: &mut Table, t: Tally, piece: RawPiece<'_>) -> Option<Tally>
    requires { ((w : ℕ) × (m : mending.Mended) × Holds raw.now w table.old t m × StandsAt raw.now w t.at piece) × (length raw.now ≤ 536870911) }
    ensures { (w : ℕ) (m : mending.Mended) → Holds raw.now w table.old t m → StandsAt raw.now w t.at piece.entry
        → Turned raw.now w table.new result (mending.mend1 (piece_at raw.now w piece.entry) m) piece.entry.next }
{
    if !crate::piece::good_name(piece.name) {
        return Some(Tally {
            at: piece.next,
            badname: t.badname + 1,
            ..t
        });
    }
    let Some(kind) = Mode::from_octal(piece.mode) else {
        return Some(Tally {
            at: piece.next,
            badmode: t.badmode + 1,
            ..t
        });
    };
    keep(raw, table, t, piece, kind.is_tree())
}

// Reads entries until one can't be read, into a table that is emptied first; nothing, where the entries kept pass a limit.
pub fn pass(raw: &[u8], width: usize, table: &mut Table) -> Option<Tally>
    requires { length raw.now ≤ 536870911 }
    ensures { Passed raw.now width table.new result }
{
    table.clear();
    let mut t = Tally::default();
    while let Some(piece) = crate::piece::read_piece(raw, t.at, width) {
        t = turn(raw, table, t, piece)?;
    }
    Some(t)
}
