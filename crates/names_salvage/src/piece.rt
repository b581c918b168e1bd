// Raw entries as they stand, whatever their modes and names are.
ghost use Rattle.std.specs.Prelude.{◌≡◌};
ghost use Rattle.model.specs.Tree.{good_name};
ghost use Rattle.names_salvage.specs.Answers.{ReadAs};

use names::part::{after, front};
use names::path::position;

// An entry as it stands: where it begins, the text of its mode, its name, and where what is left begins.
#[derive(Clone, Copy)]
pub struct RawPiece<'a> {
    pub at: usize,
    pub mode: &'a [u8],
    pub name: &'a [u8],
    pub next: usize,
}

// Reads the entry at a place, with an id of so many bytes.
pub fn read_piece(raw: &[u8], at: usize, width: usize) -> Option<RawPiece<'_>>
    ensures { ReadAs raw.now at width result }
{
    let entry = after(raw, at);
    let mode_len = position(entry, b' ')?;
    let named = after(entry, mode_len + 1);
    let name_len = position(named, 0)?;
    let id = after(named, name_len + 1);
    if id.len() < width {
        return None;
    }
    Some(RawPiece {
        at,
        mode: front(entry, mode_len),
        name: front(named, name_len),
        next: raw.len() - (id.len() - width),
    })
}

// Whether a name may stand in a tree.
pub fn good_name(name: &[u8]) -> bool
    ensures { result ≡ good_name name.now }
{
    !name.is_empty() && name.len() <= 255 && names::eight::plain_name(name)
}
