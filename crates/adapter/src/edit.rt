// Edits, and the opening of a cursor, for C.
ghost use Rattle.std.specs.Prelude.{false};
ghost use Rattle.model.specs.Formats.{sha1};
ghost use Rattle.model.specs.Calls as model;
ghost use Rattle.model.specs.Walk as walk;
ghost use Rattle.editor_terms.specs.Objects.{table_of};
ghost use Rattle.editor.specs.Lent.{lent, Does};
ghost use Rattle.adapter_numbers.specs.Numbers.{Numbers, put_by};

use editor_terms::edit::RemoveKind;
use editor_terms::table::Table;
use store_slots::{Record, Store};

// Sets the entry at a path below a prefix: 255 where the mode is none of the five, or the id has not 20 bytes.
#[unsafe(no_mangle)]
pub extern "C" fn tree_editor_upsert(
    ed: &mut Record,
    plens: &mut [u64],
    paths: &mut [u8],
    tlens: &mut [u64],
    trees: &mut [u8],
    order: &[u64],
    ids: &[u8],
    ends: &[u32],
    raws: &[u8],
    prefix: &[u8],
    path: &[u8],
    id: &[u8],
    mode: u32,
) -> u8
    ensures { Numbers (put_by (table_of ids.now ends.now raws.now) mode id.now prefix.now path.now)
        (lent ed.old plens.old paths.old tlens.old trees.old order.now) result
        (lent ed.new plens.new paths.new tlens.new trees.new order.now) }
{
    let mut s = Store {
        ed: *ed,
        plens,
        paths,
        tlens,
        trees,
    };
    let code = adapter_numbers::edit::upsert(
        &mut s,
        order,
        Table { ids, ends, raws },
        prefix,
        path,
        id,
        mode,
    );
    *ed = s.ed;
    code
}

// Removes the entry at a path below a prefix.
#[unsafe(no_mangle)]
pub extern "C" fn tree_editor_remove(
    ed: &mut Record,
    plens: &mut [u64],
    paths: &mut [u8],
    tlens: &mut [u64],
    trees: &mut [u8],
    order: &[u64],
    ids: &[u8],
    ends: &[u32],
    raws: &[u8],
    prefix: &[u8],
    path: &[u8],
) -> u8
    ensures { Does (model.edited sha1 (table_of ids.now ends.now raws.now) (walk.remove walk.ANY) false prefix.now path.now)
        (lent ed.old plens.old paths.old tlens.old trees.old order.now) result
        (lent ed.new plens.new paths.new tlens.new trees.new order.now) }
{
    let mut s = Store {
        ed: *ed,
        plens,
        paths,
        tlens,
        trees,
    };
    let code = adapter_numbers::edit::remove(
        &mut s,
        order,
        Table { ids, ends, raws },
        prefix,
        path,
        RemoveKind::Any,
    );
    *ed = s.ed;
    code
}

// Removes the entry at a path below a prefix, which must not be a tree.
#[unsafe(no_mangle)]
pub extern "C" fn tree_editor_remove_leaf(
    ed: &mut Record,
    plens: &mut [u64],
    paths: &mut [u8],
    tlens: &mut [u64],
    trees: &mut [u8],
    order: &[u64],
    ids: &[u8],
    ends: &[u32],
    raws: &[u8],
    prefix: &[u8],
    path: &[u8],
) -> u8
    ensures { Does (model.edited sha1 (table_of ids.now ends.now raws.now) (walk.remove walk.LEAF) false prefix.now path.now)
        (lent ed.old plens.old paths.old tlens.old trees.old order.now) result
        (lent ed.new plens.new paths.new tlens.new trees.new order.now) }
{
    let mut s = Store {
        ed: *ed,
        plens,
        paths,
        tlens,
        trees,
    };
    let code = adapter_numbers::edit::remove(
        &mut s,
        order,
        Table { ids, ends, raws },
        prefix,
        path,
        RemoveKind::Leaf,
    );
    *ed = s.ed;
    code
}

// Opens a cursor at a path, where a tree is then cached.
#[unsafe(no_mangle)]
pub extern "C" fn tree_editor_cursor_at(
    ed: &mut Record,
    plens: &mut [u64],
    paths: &mut [u8],
    tlens: &mut [u64],
    trees: &mut [u8],
    order: &[u64],
    ids: &[u8],
    ends: &[u32],
    raws: &[u8],
    path: &[u8],
) -> u8
    ensures { Does (model.opened sha1 (table_of ids.now ends.now raws.now) path.now)
        (lent ed.old plens.old paths.old tlens.old trees.old order.now) result
        (lent ed.new plens.new paths.new tlens.new trees.new order.now) }
{
    let mut s = Store {
        ed: *ed,
        plens,
        paths,
        tlens,
        trees,
    };
    let code = adapter_numbers::edit::cursor_at(&mut s, order, Table { ids, ends, raws }, path);
    *ed = s.ed;
    code
}
