// Reading the open request.
ghost use Rattle.std.specs.Prelude.{◌≡◌, List, [], ℕ, ◌≤◌, ◌<◌, length};
ghost use Rattle.std.proofs.Math.Option.{some};
ghost use Rattle.model.specs.Editor.{Held};
ghost use Rattle.model.specs.Editor.{Editor as Model};
ghost use Rattle.model.specs.Write.{requested, show};
ghost use Rattle.store_slots.specs.View.{held_at};
ghost use Rattle.store_slots.specs.Stores.{KeysSound};
ghost use Rattle.store_trees.specs.Trees.{Readable};
ghost use Rattle.editor.specs.Lent.{lent_seen, Good};
ghost use Rattle.editor.specs.Looks.{cursor_at};
ghost use Rattle.editor_write.specs.Requests.{answer_of, len_of, place_of, place_in, Shows, Requests};

use editor::cursor::Cursor;
use editor_terms::refusal::Refusal;
use names::limits::{PATH_BYTES, SLOTS, TREE_BYTES, WIDTH};
use store_slots::View;

// How long the raw tree is that was written to the front of the output, and where the tree belongs.
#[derive(Drop)]
pub struct Asked {
    pub len: usize,
    pub at: Cursor,
}

// The request over slices that hold an editor with an open write.
fn request_held(v: View<'_>, out: &mut [u8]) -> Result<Asked, Refusal>
    requires { Readable 20 v.ed v.tlens.now v.trees.now v.ed.asked × KeysSound v × (v.ed.asked < length v.plens.now) }
    ensures { (E : Model) (h : Held) → requested E ≡ some h
        → h ≡ held_at 20 v.entry.plens.now v.entry.paths.now v.entry.tlens.now v.entry.trees.now v.entry.ed.asked → length h.path ≤ 1024
        → Shows (λ m. show m E) (answer_of result) (len_of result) out.old out.new
        × (place_of result ≡ cursor_at (place_in (show (length out.old) E) (requested E))) }
{
    let slot = v.ed.asked;
    let n = store_trees::raw::raw_len_of(v, WIDTH, slot);
    if out.len() < n {
        return Err(Refusal::OutputShort(n));
    }
    Ok(Asked {
        len: store_trees::raw::put_raw(v, WIDTH, slot, out),
        at: editor::cursor::at(v.path_in(slot)),
    })
}

// The request over a store that holds an editor: 10 where no write is open. Its order of the taken trees is not looked at.
pub(crate) fn request_accepted(v: View<'_>, out: &mut [u8]) -> Result<Asked, Refusal>
    requires { (order : List ℕ) × Good (lent_seen v order) }
    ensures { (order : List ℕ) → Good (lent_seen v.entry order)
        → Requests (lent_seen v.entry order) (answer_of result) (len_of result) (place_of result) out.old out.new }
{
    if v.ed.open == 0 {
        return Err(Refusal::NoWriteOpen);
    }
    let fronts = View {
        ed: v.ed,
        plens: &v.plens[..SLOTS],
        paths: &v.paths[..PATH_BYTES],
        tlens: &v.tlens[..SLOTS],
        trees: &v.trees[..TREE_BYTES],
    };
    request_held(fronts, out)
}

// Writes the raw tree that is requested to the front of the output.
pub fn request(v: View<'_>, order: &[u64], out: &mut [u8]) -> Result<Asked, Refusal>
    ensures { Requests (lent_seen v.entry order.now) (answer_of result) (len_of result) (place_of result) out.old out.new }
{
    if !store_check::holds::holds(v, order) {
        return Err(Refusal::StoreDamaged);
    }
    request_accepted(v, out)
}
