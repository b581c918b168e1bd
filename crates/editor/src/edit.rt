// Edits of a lent store, below a prefix.
ghost use Rattle.std.specs.Prelude.{◌≡◌, true, List, ℕ};
ghost use Rattle.model.specs.Formats.{sha1};
ghost use Rattle.model.specs.Valid.{valid};
ghost use Rattle.model.specs.Calls as model;
ghost use Rattle.model.specs.AllCalls.{GoodEdit};
ghost use Rattle.store_slots.specs.View.{Laid, view_of, editor_of};
ghost use Rattle.store_slots.specs.Stores.{LaidIn, SameLent, view_in};
ghost use Rattle.editor_walk.specs.Steps.{editor_at};
ghost use Rattle.editor_terms.specs.Answers.{code_number};
ghost use Rattle.editor_terms.specs.Edits.{as_edit};
ghost use Rattle.editor_terms.specs.Tables.{table_in};
ghost use Rattle.editor.specs.Lent.{Good, lent, lent_in, editor_in, Does};
ghost use Rattle.editor.specs.Edited.{EditedAs, EditedIn};

use editor_terms::edit::Edit;
use editor_terms::refusal::Refusal;
use editor_terms::table::Table;
use names::limits::{FULL, PATH_BYTES, SLOTS, TREE_BYTES};
use store_slots::{Record, Store};

// The id of an edit has the bytes of one: this runs nothing, and says what the type does.
fn id_is_whole(edit: Edit)
    ensures { GoodEdit sha1 (as_edit edit) }
{
    if let Edit::Upsert(_, id) = edit {
        let _whole = id.bytes.len();
    }
}

// An edit at a path below a prefix, over slices as long as a store, which hold an editor.
fn edit_held(
    s: &mut Store<'_>,
    table: Table<'_>,
    prefix: &[u8],
    path: &[u8],
    edit: Edit,
    opening: bool,
) -> Result<(), Refusal>
    requires { LaidIn 20 s.old × (s.old.ed.«open» ≡ 0 → s.old.ed.hidden ≡ s.old.ed.free)
        × (s.old.ed.«open» ≡ 0 → valid sha1 (editor_at (view_in 20 s.old)) ≡ true) }
    ensures done { (order : List ℕ) → EditedIn s.old order
        (model.edited sha1 (table_in table.entry) (as_edit edit) opening prefix.now path.now (editor_in s.old order)) result s.new }
    ensures lent { SameLent s.old s.new }
{
    if s.ed.open != 0 {
        return Err(Refusal::WriteOpen);
    }
    let table = table.checked().ok_or(Refusal::BadTable)?;
    let slot = crate::ready::slot_for(s.view(), prefix, path)?;
    let mut buf = [0u8; FULL];
    let n = names::full::put_full(&mut buf, prefix, path);
    editor_walk::apply::settle(s, table, &buf[..n], path, edit, opening, slot)
}

// The same over the record and its slices.
// Stays: parts as parameters; of fronts put into a `Store` at once the check made no proof (tried).
fn edit_exact(
    ed: &mut Record,
    plens: &mut [u64],
    paths: &mut [u8],
    tlens: &mut [u64],
    trees: &mut [u8],
    table: Table<'_>,
    prefix: &[u8],
    path: &[u8],
    edit: Edit,
    opening: bool,
) -> Result<(), Refusal>
    requires { Laid 20 ed.old plens.old paths.old tlens.old trees.old × (ed.old.«open» ≡ 0 → ed.old.hidden ≡ ed.old.free)
        × (ed.old.«open» ≡ 0 → valid sha1 (editor_at (view_of 20 ed.old plens.old paths.old tlens.old trees.old)) ≡ true) }
    ensures { (order : List ℕ) → EditedAs ed.old plens.old paths.old tlens.old trees.old order
        (model.edited sha1 (table_in table.entry) (as_edit edit) opening prefix.now path.now (editor_of 20 ed.old plens.old paths.old tlens.old trees.old order))
        result ed.new plens.new paths.new tlens.new trees.new }
{
    let mut s = Store {
        ed: *ed,
        plens,
        paths,
        tlens,
        trees,
    };
    let answer = edit_held(&mut s, table, prefix, path, edit, opening);
    *ed = s.ed;
    answer
}

// The same over slices that may be longer, of which the fronts hold an editor.
fn edit_fronts(
    ed: &mut Record,
    plens: &mut [u64],
    paths: &mut [u8],
    tlens: &mut [u64],
    trees: &mut [u8],
    table: Table<'_>,
    prefix: &[u8],
    path: &[u8],
    edit: Edit,
    opening: bool,
) -> Result<(), Refusal>
    requires { (order : List ℕ) × Good (lent ed.old plens.old paths.old tlens.old trees.old order) }
    ensures { (order : List ℕ) → Good (lent ed.old plens.old paths.old tlens.old trees.old order) →
        Does (model.edited sha1 (table_in table.entry) (as_edit edit) opening prefix.now path.now)
        (lent ed.old plens.old paths.old tlens.old trees.old order) (code_number result)
        (lent ed.new plens.new paths.new tlens.new trees.new order) }
{
    id_is_whole(edit);
    edit_exact(
        ed,
        &mut plens[..SLOTS],
        &mut paths[..PATH_BYTES],
        &mut tlens[..SLOTS],
        &mut trees[..TREE_BYTES],
        table,
        prefix,
        path,
        edit,
        opening,
    )
}

// An edit, or with `opening` the opening of a cursor, at a path below a prefix.
pub fn edit(
    s: &mut Store<'_>,
    order: &[u64],
    table: Table<'_>,
    prefix: &[u8],
    path: &[u8],
    edit: Edit,
    opening: bool,
) -> Result<(), Refusal>
    ensures done { Does (model.edited sha1 (table_in table.entry) (as_edit edit) opening prefix.now path.now)
        (lent_in s.old order.now) (code_number result) (lent_in s.new order.now) }
    ensures lent { SameLent s.old s.new }
{
    if !store_check::holds::holds(s.view(), order) {
        return Err(Refusal::StoreDamaged);
    }
    edit_fronts(
        &mut s.ed,
        &mut *s.plens,
        &mut *s.paths,
        &mut *s.tlens,
        &mut *s.trees,
        table,
        prefix,
        path,
        edit,
        opening,
    )
}
