// The next tree of a write.
ghost use Rattle.std.specs.Prelude.{◌≡◌, [], ◌+◌, ◌≤◌, ◌<◌};
ghost use Rattle.model.specs.Order.{All};
ghost use Rattle.store_slots.specs.Stores.{LaidIn, SameKeys, SameLent, SameTrees};
ghost use Rattle.store_taken.specs.Taken.{going_in, Between, SameSlots};
ghost use Rattle.editor_write_steps.specs.Writes.{Brief, turned, turn_in, hand_of};

use store_slots::Store;

// The slot of a tree that was taken: it is to be finished, or it was set aside.
#[derive(Clone, Copy)]
pub enum Picked {
    Finish(usize),
    Aside(usize),
}

// Takes the top of the stack: with cached trees under it, they are stacked and it is set aside; else it is to be finished.
fn take_top(s: &mut Store<'_>, order: &mut [u64], width: usize) -> Picked
    requires { LaidIn width s.old × (width ≤ 64) × Between s.old.ed order.old [] × (0 < s.old.ed.stacked)
        × All Brief (going_in width s.old order.old).stack }
    ensures turn { turn_in width s.new order.new result ≡ turned (going_in width s.old order.old) }
    ensures between { Between s.new.ed order.new (hand_of result) }
    ensures same { SameSlots s.old.ed s.new.ed × (s.new.ed.«open» ≡ s.old.ed.«open») }
    ensures lent { SameLent s.old s.new }
    ensures keys { SameKeys s.old s.new }
    ensures trees { SameTrees s.old s.new }
{
    let slot = store_taken::pop(&mut s.ed, &*order);
    let left = s.ed.stacked;
    s.ed = crate::scan::scan(s.view(), order, width, slot);
    if s.ed.stacked == left {
        Picked::Finish(slot)
    } else {
        store_taken::set_aside(&mut s.ed, order, slot);
        Picked::Aside(slot)
    }
}

// Takes the next tree: the top of the stack, or, when it is empty, the latest set aside, which is to be finished.
pub fn pick(s: &mut Store<'_>, order: &mut [u64], width: usize) -> Picked
    requires { LaidIn width s.old × (width ≤ 64) × Between s.old.ed order.old [] × (0 < s.old.ed.aside + s.old.ed.stacked)
        × All Brief (going_in width s.old order.old).stack }
    ensures turn { turn_in width s.new order.new result ≡ turned (going_in width s.old order.old) }
    ensures between { Between s.new.ed order.new (hand_of result) }
    ensures same { SameSlots s.old.ed s.new.ed × (s.new.ed.«open» ≡ s.old.ed.«open») }
    ensures lent { SameLent s.old s.new }
    ensures keys { SameKeys s.old s.new }
    ensures trees { SameTrees s.old s.new }
{
    if s.ed.stacked == 0 {
        Picked::Finish(store_taken::latest(&mut s.ed, &*order))
    } else {
        take_top(s, order, width)
    }
}
