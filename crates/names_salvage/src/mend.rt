// A damaged tree mended in one call.
ghost use Rattle.std.specs.Prelude.{◌≡◌, Err, IfOk, ◌+◌, ◌≤◌, true, length};
ghost use Rattle.model.specs.Raw.{raw_entry, raw_tree};
ghost use Rattle.model.specs.Tree.{Entry, Tree, good_entries};
ghost use Rattle.names.specs.Splice.{splice};
ghost use Rattle.names_salvage.specs.Answers.{Stands, Lists, answer, outcome};
ghost use Rattle.names_salvage.specs.Mending.{salvaged, takes};

use crate::table::{Slot, Table};
use names::part::{after, between};
use names::path::position;
use names::write::put;

// The answer: a number, the length of the tree that was written or is needed, and what was changed.
// Stays: a number for each refusal and the length that is needed, since `tree_editor_mend` gives this struct to C.
#[repr(C)]
#[derive(Clone, Copy)]
pub struct Mended {
    pub code: u32,
    pub len: usize,
    pub cut: usize,
    pub badname: usize,
    pub badmode: usize,
    pub double: usize,
    pub moved: usize,
}

// Why a tree is not mended, with nothing written: its ids have no known width or it has 2 ^ 29 bytes or more; what can be kept passes a limit; or the output
// is too short.
#[derive(Clone, Copy, PartialEq, Eq)]
pub enum Refusal {
    NotTaken,
    OverLimit,
    TooShort { needed: usize },
}

impl From<Refusal> for Mended {
    ghost from_gives = { λ e r. (d : _) → answer r d ≡ outcome (Err e) d };

    fn from(refusal: Refusal) -> Mended {
        let (code, len) = match refusal {
            Refusal::NotTaken => (255, 0),
            Refusal::OverLimit => (5, 0),
            Refusal::TooShort { needed } => (11, needed),
        };
        Mended {
            code,
            len,
            cut: 0,
            badname: 0,
            badmode: 0,
            double: 0,
            moved: 0,
        }
    }
}

// Writes an entry of the table as it stands, and gives the place after it.
fn put_piece(raw: &[u8], width: usize, slot: Slot, out: &mut [u8], to: usize) -> usize
    requires { (e : Entry) × Stands raw.now slot.word e × (length e.id ≡ width) × (to + length (raw_entry e) ≤ length out.old) }
    ensures { (e : Entry) → Stands raw.now slot.word e → length e.id ≡ width
        → (result ≡ to + length (raw_entry e)) × (out.new ≡ splice out.old to (raw_entry e)) }
{
    let name_at = slot.name_at();
    let mode_len = slot.mode_len();
    let Some(name_len) = position(after(raw, name_at), 0) else {
        unreachable!()
    };
    let len = mode_len + 1 + name_len + 1 + width;
    put(out, to, between(raw, name_at - 1 - mode_len, len))
}

// Writes the entries of the table, one after the other.
fn put_all(raw: &[u8], width: usize, slots: &[Slot], out: &mut [u8])
    requires { (t : Tree) × Lists raw.now slots.now t × (good_entries width t ≡ true) × (length (raw_tree t) ≤ length out.old) }
    ensures { (t : Tree) → Lists raw.now slots.now t → good_entries width t ≡ true
        → length (raw_tree t) ≤ length out.old → out.new ≡ splice out.old 0 (raw_tree t) }
{
    let mut to = 0;
    for slot in slots {
        to = put_piece(raw, width, *slot, out, to);
    }
}

// Whether a tree of these bytes, with ids of so many, is one to be mended.
fn is_taken(raw: &[u8], width: usize) -> bool
    ensures { result ≡ takes width raw.now }
{
    matches!(width, 20 | 32) && raw.len() < 536870912
}

// Mends a tree, unless it is refused.
pub(crate) fn try_mend(raw: &[u8], width: usize, out: &mut [u8]) -> Result<Mended, Refusal>
    ensures value { outcome result out.new ≡ salvaged width raw.now out.old }
    ensures code { IfOk result (λ m. m.code ≡ 0) }
{
    if !is_taken(raw, width) {
        return Err(Refusal::NotTaken);
    }
    let mut table = Table::new();
    let t = crate::pass::pass(raw, width, &mut table).ok_or(Refusal::OverLimit)?;
    let needed = t.len;
    if out.len() < needed {
        return Err(Refusal::TooShort { needed });
    }
    put_all(raw, width, table.kept(), out);
    Ok(Mended {
        code: 0,
        len: needed,
        cut: raw.len() - t.at,
        badname: t.badname,
        badmode: t.badmode,
        double: t.double,
        moved: t.moved,
    })
}

// Reads what can be read of a tree with ids of 20 or 32 bytes, and writes a well-formed one of what can be kept.
pub fn mend(raw: &[u8], width: usize, out: &mut [u8]) -> Mended
    ensures { answer result out.new ≡ salvaged width raw.now out.old }
{
    match try_mend(raw, width, out) {
        Ok(mended) => mended,
        Err(refusal) => Mended::from(refusal),
    }
}
