// Edits, and the opening of a cursor.
ghost use Rattle.std.specs.Prelude.{false};
ghost use Rattle.model.specs.Formats.{sha1};
ghost use Rattle.model.specs.Calls as model;
ghost use Rattle.editor_terms.specs.Edits.{as_edit};
ghost use Rattle.editor_terms.specs.Tables.{table_in};
ghost use Rattle.editor_terms.specs.declared.edit.Edit.TheVariants.{Remove};
ghost use Rattle.store_slots.specs.Stores.{SameLent};
ghost use Rattle.editor.specs.Lent.{lent_in, Does};
ghost use Rattle.adapter_numbers.specs.Numbers.{Numbers, put_by};

use editor_terms::edit::{Edit, RemoveKind};
use editor_terms::refusal::number;
use editor_terms::table::Table;
use names::limits::WIDTH;
use names::mode::Mode;
use store_slots::Store;

// An edit at a path below a prefix.
fn numbered_edit(
    s: &mut Store<'_>,
    order: &[u64],
    table: Table<'_>,
    prefix: &[u8],
    path: &[u8],
    edit: Edit,
) -> u8
    ensures done { Does (model.edited sha1 (table_in table.entry) (as_edit edit) false prefix.now path.now)
        (lent_in s.old order.now) result
        (lent_in s.new order.now) }
    ensures lent { SameLent s.old s.new }
{
    let answer = editor::edit::edit(s, order, table, prefix, path, edit, false);
    number(answer)
}

// Sets the entry at a path below a prefix: 255 where the mode is none of the five, or the id has not 20 bytes.
pub fn upsert(
    s: &mut Store<'_>,
    order: &[u64],
    table: Table<'_>,
    prefix: &[u8],
    path: &[u8],
    id: &[u8],
    mode: u32,
) -> u8
    ensures done { Numbers (put_by (table_in table.entry) mode id.now prefix.now path.now)
        (lent_in s.old order.now) result
        (lent_in s.new order.now) }
    ensures lent { SameLent s.old s.new }
{
    let kind = Mode { bits: mode }.kind();
    match kind {
        Some(kind) if id.len() == WIDTH => {
            let edit = Edit::Upsert(kind, editor_terms::id::id_at(id, 0));
            numbered_edit(s, order, table, prefix, path, edit)
        }
        _ => 255,
    }
}

// Removes the entry at a path below a prefix; the leaf kind refuses a tree.
pub fn remove(
    s: &mut Store<'_>,
    order: &[u64],
    table: Table<'_>,
    prefix: &[u8],
    path: &[u8],
    kind: RemoveKind,
) -> u8
    ensures done { Does (model.edited sha1 (table_in table.entry) (as_edit (Remove kind)) false prefix.now path.now)
        (lent_in s.old order.now) result
        (lent_in s.new order.now) }
    ensures lent { SameLent s.old s.new }
{
    numbered_edit(s, order, table, prefix, path, Edit::Remove(kind))
}

// Opens a cursor at a path, where a tree is then cached.
pub fn cursor_at(s: &mut Store<'_>, order: &[u64], table: Table<'_>, path: &[u8]) -> u8
    ensures done { Does (model.opened sha1 (table_in table.entry) path.now)
        (lent_in s.old order.now) result
        (lent_in s.new order.now) }
    ensures lent { SameLent s.old s.new }
{
    let opened = editor::cursor::cursor_at(s, order, table, path);
    number(opened.map(|_| ()).map_err(|unopened| unopened.refusal))
}
