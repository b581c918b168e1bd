// A cursor is a prefix by value: the calls below it take its bytes.
ghost use Rattle.std.specs.Prelude.{◌≡◌, [], ◌≤◌, length, take, IfOk, IfErr};
ghost use Rattle.model.specs.Formats.{sha1};
ghost use Rattle.model.specs.Calls as model;
ghost use Rattle.store_slots.specs.Stores.{SameLent};
ghost use Rattle.editor_terms.specs.Tables.{table_in};
ghost use Rattle.editor.specs.Lent.{lent_in, Does};
ghost use Rattle.editor.specs.Looks.{standing, prefix_of, cursor_at, opened_number};

use editor_terms::edit::Edit;
use editor_terms::id::Id;
use editor_terms::refusal::Refusal;
use editor_terms::table::Table;
use names::limits::PATH;
use names::mode::EntryKind;
use store_slots::Store;

#[derive(Drop)]
pub struct Cursor {
    pub prefix: [u8; PATH],
    pub len: usize,
}

// The cursor at a path of at most 1,024 bytes; at the root where the path is longer.
pub fn at(path: &[u8]) -> Cursor
    ensures { (result.len ≤ 1024) × (take result.len result.prefix ≡ standing path.now) × (result ≡ cursor_at (standing path.now)) }
{
    let mut prefix = [0u8; PATH];
    if PATH < path.len() {
        return Cursor { prefix, len: 0 };
    }
    let len = names::write::put(&mut prefix, 0, path);
    Cursor { prefix, len }
}

// The cursor that stands at the root.
pub fn to_cursor() -> Cursor
    ensures { (prefix_of result ≡ []) × (result ≡ cursor_at []) }
{
    at(b"")
}

// A cursor whose length is within its bytes: one that is not stands at a NUL, where no tree is ever cached.
pub fn sound(cursor: Cursor) -> Cursor
    ensures { (result.len ≤ 1024) × (take result.len result.prefix ≡ prefix_of cursor) }
{
    if cursor.len <= PATH {
        return cursor;
    }
    at(b"\0")
}

// What an opening that is refused gives: why it is refused, and a cursor, which stands at the root.
#[derive(Drop)]
pub struct Unopened {
    pub refusal: Refusal,
    pub cursor: Cursor,
}

// Opens a cursor at a path, where a tree is then cached.
pub fn cursor_at(
    s: &mut Store<'_>,
    order: &[u64],
    table: Table<'_>,
    path: &[u8],
) -> Result<Cursor, Unopened>
    ensures done { Does (model.opened sha1 (table_in table.entry) path.now) (lent_in s.old order.now) (opened_number result) (lent_in s.new order.now) }
    ensures cursor { IfOk result (λ c. (prefix_of c ≡ path.now) × (c ≡ cursor_at path.now)) }
    ensures root { IfErr result (λ u. (prefix_of u.cursor ≡ []) × (u.cursor ≡ cursor_at [])) }
    ensures lent { SameLent s.old s.new }
{
    let edit = Edit::Upsert(EntryKind::Tree, Id::NULL);
    match crate::edit::edit(s, order, table, b"", path, edit, true) {
        Ok(()) => Ok(at(path)),
        Err(refusal) => Err(Unopened {
            refusal,
            cursor: to_cursor(),
        }),
    }
}
