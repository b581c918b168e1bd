// A failure ends the write: the start tree goes back as it stands.
ghost use Rattle.std.specs.Prelude.{◌≡◌};
ghost use Rattle.model.specs.Formats.{sha1};
ghost use Rattle.model.specs.Write.{failed};
ghost use Rattle.store_slots.specs.Stores.{SameLent};
ghost use Rattle.editor_terms.specs.Answers.{code_number};
ghost use Rattle.editor.specs.Lent.{lent, lent_in, Good, Does};
ghost use Rattle.editor_write.specs.Steps.{HoldsExactly, Made};

use editor_terms::refusal::Refusal;
use names::limits::{PATH_BYTES, SLOTS, TREE_BYTES, WIDTH};
use store_slots::{Record, Store};

// A failure over slices that hold an editor with an open write.
fn fail_held(s: &mut Store<'_>, order: &[u64])
    requires { HoldsExactly (lent_in s.old order.now) × (s.old.ed.«open» ≡ 0 → ⊥) }
    ensures done { Made failed (lent_in s.old order.now)
        (lent_in s.new order.now) }
    ensures lent { SameLent s.old s.new }
{
    let start = store_slots::start(s.ed, order);
    store_taken::drop_others(s, WIDTH, start);
    store_taken::close(&mut s.ed);
}

// The same over its parts.
// Stays: parts as parameters; of fronts put into a `Store` at once, and of parts taken out of one by a pattern, the check made no proof (both were tried).
fn fail_exact(
    ed: &mut Record,
    plens: &mut [u64],
    paths: &mut [u8],
    tlens: &mut [u64],
    trees: &mut [u8],
    order: &[u64],
)
    requires { HoldsExactly (lent ed.old plens.old paths.old tlens.old trees.old order.now) × (ed.old.«open» ≡ 0 → ⊥) }
    ensures { Made failed (lent ed.old plens.old paths.old tlens.old trees.old order.now) (lent ed.new plens.new paths.new tlens.new trees.new order.now) }
{
    let mut exact = Store {
        ed: *ed,
        plens,
        paths,
        tlens,
        trees,
    };
    fail_held(&mut exact, order);
    *ed = exact.ed;
}

// The same in the fronts of slices that may be longer.
fn fail_fronts(
    ed: &mut Record,
    plens: &mut [u64],
    paths: &mut [u8],
    tlens: &mut [u64],
    trees: &mut [u8],
    order: &[u64],
)
    requires { Good (lent ed.old plens.old paths.old tlens.old trees.old order.now) × (ed.old.«open» ≡ 0 → ⊥) }
    ensures { Does failed (lent ed.old plens.old paths.old tlens.old trees.old order.now) 0 (lent ed.new plens.new paths.new tlens.new trees.new order.now) }
{
    fail_exact(
        ed,
        &mut plens[..SLOTS],
        &mut paths[..PATH_BYTES],
        &mut tlens[..SLOTS],
        &mut trees[..TREE_BYTES],
        &order[..SLOTS],
    );
}

// Fails the open request: the start tree goes back as it stands, the other taken trees are lost.
pub fn fail(s: &mut Store<'_>, order: &[u64]) -> Result<(), Refusal>
    ensures done { Does failed (lent_in s.old order.now) (code_number result)
        (lent_in s.new order.now) }
    ensures lent { SameLent s.old s.new }
{
    if !store_check::holds::holds(s.view(), order) {
        return Err(Refusal::StoreDamaged);
    }
    if s.ed.open == 0 {
        return Err(Refusal::NoWriteOpen);
    }
    fail_fronts(
        &mut s.ed,
        &mut *s.plens,
        &mut *s.paths,
        &mut *s.tlens,
        &mut *s.trees,
        order,
    );
    Ok(())
}
