// One turn of a write, to its end.
ghost use Rattle.std.specs.Prelude.{◌≡◌, not, ◌&&◌, List, [], ◌∷◌, ℕ, ◌≤◌, eqb};
ghost use Rattle.model.specs.Tree.{null};
ghost use Rattle.model.specs.Write.{asking};
ghost use Rattle.store_slots.specs.View.{SameWrite};
ghost use Rattle.store_slots.specs.Stores.{LaidIn, SameLent, held_in_slot};
ghost use Rattle.store_taken.specs.Taken.{going_in, Between};
ghost use Rattle.editor_write_steps.specs.Writes.{step_in, finished_as, next_of, hand_asked, HandIn, Ready, Steady, asks_on};

use crate::pick::Picked;
use store_slots::Store;

// Whether a tree of so many bytes, with so many set aside, is empty and not the start tree.
fn is_dropped(len: u64, aside: usize) -> bool
    ensures { result ≡ (eqb len 0 && not (eqb aside 0)) }
{
    len == 0 && aside != 0
}

// Finishes the tree in hand: its null-id entries go; it is to be requested then, unless it is empty and not the start tree. Gives its slot if it is.
fn finish(s: &mut Store<'_>, width: usize, slot: usize) -> Option<usize>
    requires { LaidIn width s.old × (width ≤ 64) × ((order : List ℕ) × HandIn width s.old order slot) }
    ensures step { (order : List ℕ) → HandIn width s.old order slot → step_in width s.new order result
        ≡ finished_as (null width) (held_in_slot width s.old slot) (going_in width s.old order) }
    ensures between { (order : List ℕ) → HandIn width s.old order slot → Between s.new.ed order (hand_asked result) }
    ensures laid { LaidIn width s.new }
    ensures same { SameWrite s.old.ed s.new.ed }
    ensures lent { SameLent s.old s.new }
{
    store_trees::nulls::drop_null(s, width, slot);
    if is_dropped(s.tlens[slot], s.ed.aside) {
        crate::links::unlink(s, width, slot);
        None
    } else {
        Some(slot)
    }
}

// One turn: the next tree is taken, and finished or set aside. Gives its slot if it is to be requested.
pub fn next(s: &mut Store<'_>, order: &mut [u64], width: usize) -> Option<usize>
    requires { LaidIn width s.old × (width ≤ 64) × Between s.old.ed order.old [] × Ready (going_in width s.old order.old) }
    ensures step { step_in width s.new order.new result
        ≡ next_of (null width) (going_in width s.old order.old) }
    ensures between { Between s.new.ed order.new (hand_asked result) }
    ensures laid { LaidIn width s.new }
    ensures same { s.new.ed.«open» ≡ s.old.ed.«open» }
    ensures lent { SameLent s.old s.new }
{
    match crate::pick::pick(s, order, width) {
        Picked::Finish(slot) => finish(s, width, slot),
        Picked::Aside(_) => None,
    }
}

// Goes on to the next request, and gives the slot of the tree that is to be requested.
pub fn onward(s: &mut Store<'_>, order: &mut [u64], width: usize) -> usize
    requires { LaidIn width s.old × (width ≤ 64) × Between s.old.ed order.old [] × ((n : ℕ) × Steady (null width) n (going_in width s.old order.old)) }
    ensures asks { asks_on (held_in_slot width s.new result) (going_in width s.new order.new)
        ≡ asking (null width) (going_in width s.old order.old).stack (going_in width s.old order.old).kept (going_in width s.old order.old).cache }
    ensures between { Between s.new.ed order.new (result ∷ []) }
    ensures laid { LaidIn width s.new }
    ensures same { s.new.ed.«open» ≡ s.old.ed.«open» }
    ensures lent { SameLent s.old s.new }
{
    loop {
        if let Some(slot) = next(s, order, width) {
            return slot;
        }
    }
}
