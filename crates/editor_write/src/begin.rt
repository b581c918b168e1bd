// Beginning a write, from the root or at a cursor's prefix.
ghost use Rattle.std.specs.Prelude.{◌≡◌};
ghost use Rattle.model.specs.Editor.{from_root, from_cursor, start_path};
ghost use Rattle.model.specs.Formats.{sha1};
ghost use Rattle.model.specs.Write.{begun};
ghost use Rattle.store_slots.specs.Stores.{SameLent, path_in_slot};
ghost use Rattle.store_taken.specs.Taken.{Cached};
ghost use Rattle.editor_terms.specs.Answers.{code_number};
ghost use Rattle.editor.specs.Lent.{lent, lent_in, Good, Does};
ghost use Rattle.editor_write.specs.Starts.{start_as, start_number};
ghost use Rattle.editor_write.specs.Steps.{HoldsExactly, Made, Answers};

use editor_terms::refusal::Refusal;
use names::limits::{PATH_BYTES, SLOTS, TREE_BYTES, WIDTH};
use store_slots::{Record, Store};

// Where a write begins.
// Stays: no Option, for Root is as much a place to begin at as a cursor, with a number of its own in the record.
#[derive(Clone, Copy)]
enum Start<'a> {
    Root,
    Cursor(&'a [u8]),
}

impl<'a> Start<'a> {
    // The path of the tree it begins at.
    fn path(self) -> &'a [u8]
        ensures { result.now ≡ start_path (start_as self.entry) }
    {
        match self {
            Start::Root => b"",
            Start::Cursor(prefix) => prefix,
        }
    }

    // Its number in the record.
    fn number(self) -> u64
        ensures { result ≡ start_number self.entry }
    {
        match self {
            Start::Root => 1,
            Start::Cursor(_) => 2,
        }
    }
}

// Begins a write at the cached tree in a slot, over slices that hold an editor with none open.
fn begin_slot(s: &mut Store<'_>, order: &mut [u64], slot: usize, start: Start<'_>)
    requires { HoldsExactly (lent_in s.old order.old) × (s.old.ed.«open» ≡ 0) × Cached s.old.ed slot
        × (start_path (start_as start) ≡ path_in_slot s.old slot) }
    ensures done { Made (begun sha1 (start_as start.entry)) (lent_in s.old order.old) (lent_in s.new order.new) }
    ensures lent { SameLent s.old s.new }
{
    s.ed.open = start.number();
    store_taken::stack(&mut s.ed, order, slot);
    let next = editor_write_steps::turn::onward(s, order, WIDTH);
    store_taken::ask(&mut s.ed, next);
}

// Begins a write over slices that hold an editor with none open.
fn begin_held(s: &mut Store<'_>, order: &mut [u64], start: Start<'_>) -> Result<(), Refusal>
    requires { HoldsExactly (lent_in s.old order.old) × (s.old.ed.«open» ≡ 0) }
    ensures done { Answers (begun sha1 (start_as start.entry)) (lent_in s.old order.old) (code_number result) (lent_in s.new order.new) }
    ensures lent { SameLent s.old s.new }
{
    let slot = s.view().find(start.path()).ok_or(Refusal::CursorStale)?;
    begin_slot(s, order, slot, start);
    Ok(())
}

// The same over its parts.
// Stays: parts as parameters; of fronts put into a `Store` at once, and of parts taken out of one by a pattern, the check made no proof (both were tried).
fn begin_exact(
    ed: &mut Record,
    plens: &mut [u64],
    paths: &mut [u8],
    tlens: &mut [u64],
    trees: &mut [u8],
    order: &mut [u64],
    start: Start<'_>,
) -> Result<(), Refusal>
    requires { HoldsExactly (lent ed.old plens.old paths.old tlens.old trees.old order.old) × (ed.old.«open» ≡ 0) }
    ensures { Answers (begun sha1 (start_as start.entry))
        (lent ed.old plens.old paths.old tlens.old trees.old order.old) (code_number result) (lent ed.new plens.new paths.new tlens.new trees.new order.new) }
{
    let mut exact = Store {
        ed: *ed,
        plens,
        paths,
        tlens,
        trees,
    };
    let answer = begin_held(&mut exact, order, start);
    *ed = exact.ed;
    answer
}

// The same in the fronts of slices that may be longer.
fn begin_fronts(
    ed: &mut Record,
    plens: &mut [u64],
    paths: &mut [u8],
    tlens: &mut [u64],
    trees: &mut [u8],
    order: &mut [u64],
    start: Start<'_>,
) -> Result<(), Refusal>
    requires { Good (lent ed.old plens.old paths.old tlens.old trees.old order.old) × (ed.old.«open» ≡ 0) }
    ensures { Does (begun sha1 (start_as start.entry))
        (lent ed.old plens.old paths.old tlens.old trees.old order.old) (code_number result) (lent ed.new plens.new paths.new tlens.new trees.new order.new) }
{
    begin_exact(
        ed,
        &mut plens[..SLOTS],
        &mut paths[..PATH_BYTES],
        &mut tlens[..SLOTS],
        &mut trees[..TREE_BYTES],
        &mut order[..SLOTS],
        start,
    )
}

// Begins a write.
fn begin_from(s: &mut Store<'_>, order: &mut [u64], start: Start<'_>) -> Result<(), Refusal>
    ensures done { Does (begun sha1 (start_as start.entry)) (lent_in s.old order.old) (code_number result) (lent_in s.new order.new) }
    ensures lent { SameLent s.old s.new }
{
    if !store_check::holds::holds(s.view(), order) {
        return Err(Refusal::StoreDamaged);
    }
    if s.ed.open != 0 {
        return Err(Refusal::WriteOpen);
    }
    begin_fronts(
        &mut s.ed,
        &mut *s.plens,
        &mut *s.paths,
        &mut *s.tlens,
        &mut *s.trees,
        order,
        start,
    )
}

// Begins a write from the root.
pub fn begin(s: &mut Store<'_>, order: &mut [u64]) -> Result<(), Refusal>
    ensures done { Does (begun sha1 from_root) (lent_in s.old order.old) (code_number result) (lent_in s.new order.new) }
    ensures lent { SameLent s.old s.new }
{
    begin_from(s, order, Start::Root)
}

// Begins a write at a cursor's prefix.
pub fn begin_at(s: &mut Store<'_>, order: &mut [u64], prefix: &[u8]) -> Result<(), Refusal>
    ensures done { Does (begun sha1 (from_cursor prefix.now)) (lent_in s.old order.old) (code_number result) (lent_in s.new order.new) }
    ensures lent { SameLent s.old s.new }
{
    begin_from(s, order, Start::Cursor(prefix))
}
