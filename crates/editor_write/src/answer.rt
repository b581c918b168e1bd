// Answering the open request with the id of its tree.
ghost use Rattle.std.specs.Prelude.{◌≡◌, List, ℕ, length};
ghost use Rattle.model.specs.Bytes.{Bytes};
ghost use Rattle.model.specs.Formats.{sha1};
ghost use Rattle.model.specs.Write.{answered};
ghost use Rattle.editor_terms.specs.Answers.{code_number};
ghost use Rattle.editor_terms.specs.Ids.{id_bytes};
ghost use Rattle.store_slots.specs.Stores.{SameLent};
ghost use Rattle.editor.specs.Lent.{lent, lent_in, Good, Does};
ghost use Rattle.editor_write.specs.Steps.{HoldsExactly, Made};

use editor_terms::id::Id;
use editor_terms::refusal::Refusal;
use names::limits::{PATH_BYTES, SLOTS, TREE_BYTES, WIDTH};
use store_slots::{Record, Store};

// The start tree was requested: the write is over. From the root it alone stays cached; from a cursor it goes back to the others.
fn close(s: &mut Store<'_>)
    requires { ((order : List ℕ) × HoldsExactly (lent_in s.old order)) × (s.old.ed.«open» ≡ 0 → ⊥) × (s.old.ed.aside ≡ 0) }
    ensures done { (order : List ℕ) (id : Bytes) → HoldsExactly (lent_in s.old order) → length id ≡ 20
        → Made (answered sha1 id) (lent_in s.old order) (lent_in s.new order) }
    ensures lent { SameLent s.old s.new }
{
    if s.ed.open == 1 {
        let slot = s.ed.asked;
        store_taken::keep_only(s, WIDTH, slot);
    } else {
        store_taken::close(&mut s.ed);
    }
}

// Another tree was requested: its entry in its parent has the id now, and the write goes on to the next request.
fn go_on(s: &mut Store<'_>, order: &mut [u64], id: Id)
    requires { HoldsExactly (lent_in s.old order.old) × (s.old.ed.«open» ≡ 0 → ⊥) × (s.old.ed.aside ≡ 0 → ⊥) }
    ensures done { Made (answered sha1 (id_bytes id)) (lent_in s.old order.old)
        (lent_in s.new order.new) }
    ensures lent { SameLent s.old s.new }
{
    let slot = s.ed.asked;
    editor_write_steps::links::link(s, WIDTH, slot, &id.bytes);
    let next = editor_write_steps::turn::onward(s, order, WIDTH);
    store_taken::ask(&mut s.ed, next);
}

// An answer over slices that hold an editor with an open write.
fn answer_held(s: &mut Store<'_>, order: &mut [u64], id: Id)
    requires { HoldsExactly (lent_in s.old order.old) × (s.old.ed.«open» ≡ 0 → ⊥) }
    ensures done { Made (answered sha1 (id_bytes id)) (lent_in s.old order.old)
        (lent_in s.new order.new) }
    ensures lent { SameLent s.old s.new }
{
    if s.ed.aside == 0 {
        close(s);
    } else {
        go_on(s, order, id);
    }
}

// The same over its parts.
// Stays: parts as parameters; of fronts put into a `Store` at once, and of parts taken out of one by a pattern, the check made no proof (both were tried).
fn answer_exact(
    ed: &mut Record,
    plens: &mut [u64],
    paths: &mut [u8],
    tlens: &mut [u64],
    trees: &mut [u8],
    order: &mut [u64],
    id: Id,
)
    requires { HoldsExactly (lent ed.old plens.old paths.old tlens.old trees.old order.old) × (ed.old.«open» ≡ 0 → ⊥) }
    ensures { Made (answered sha1 (id_bytes id))
        (lent ed.old plens.old paths.old tlens.old trees.old order.old) (lent ed.new plens.new paths.new tlens.new trees.new order.new) }
{
    let mut exact = Store {
        ed: *ed,
        plens,
        paths,
        tlens,
        trees,
    };
    answer_held(&mut exact, order, id);
    *ed = exact.ed;
}

// The same in the fronts of slices that may be longer.
fn answer_fronts(
    ed: &mut Record,
    plens: &mut [u64],
    paths: &mut [u8],
    tlens: &mut [u64],
    trees: &mut [u8],
    order: &mut [u64],
    id: Id,
)
    requires { Good (lent ed.old plens.old paths.old tlens.old trees.old order.old) × (ed.old.«open» ≡ 0 → ⊥) }
    ensures { Does (answered sha1 (id_bytes id))
        (lent ed.old plens.old paths.old tlens.old trees.old order.old) 0 (lent ed.new plens.new paths.new tlens.new trees.new order.new) }
{
    answer_exact(
        ed,
        &mut plens[..SLOTS],
        &mut paths[..PATH_BYTES],
        &mut tlens[..SLOTS],
        &mut trees[..TREE_BYTES],
        &mut order[..SLOTS],
        id,
    );
}

// An answer over a store that holds an editor: 10 where no write is open, else it is made in the fronts of the slices.
pub(crate) fn answer_accepted(s: &mut Store<'_>, order: &mut [u64], id: Id) -> Result<(), Refusal>
    requires { Good (lent_in s.old order.old) }
    ensures done { Does (answered sha1 (id_bytes id)) (lent_in s.old order.old) (code_number result)
        (lent_in s.new order.new) }
    ensures lent { SameLent s.old s.new }
{
    if s.ed.open == 0 {
        return Err(Refusal::NoWriteOpen);
    }
    answer_fronts(
        &mut s.ed,
        &mut *s.plens,
        &mut *s.paths,
        &mut *s.tlens,
        &mut *s.trees,
        order,
        id,
    );
    Ok(())
}

// Answers the open request with the id of the tree that was requested.
pub fn answer(s: &mut Store<'_>, order: &mut [u64], id: Id) -> Result<(), Refusal>
    ensures done { Does (answered sha1 (id_bytes id)) (lent_in s.old order.old) (code_number result)
        (lent_in s.new order.new) }
    ensures lent { SameLent s.old s.new }
{
    if !store_check::holds::holds(s.view(), order) {
        return Err(Refusal::StoreDamaged);
    }
    answer_accepted(s, order, id)
}
