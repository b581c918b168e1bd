// A new root, for C.
ghost use Rattle.model.specs.Calls.{set_root};
ghost use Rattle.model.specs.Formats.{sha1};
ghost use Rattle.editor.specs.Lent.{lent, Does};
ghost use Rattle.editor.specs.Roots.{Makes};

use store_slots::{Record, Store};

// Makes an editor with this root.
#[unsafe(no_mangle)]
pub extern "C" fn tree_editor_new(
    ed: &mut Record,
    plens: &mut [u64],
    paths: &mut [u8],
    tlens: &mut [u64],
    trees: &mut [u8],
    order: &[u64],
    raw: &[u8],
) -> u8
    ensures { Makes raw.now
        (lent ed.old plens.old paths.old tlens.old trees.old order.now) result
        (lent ed.new plens.new paths.new tlens.new trees.new order.now) }
{
    let mut s = Store {
        ed: *ed,
        plens,
        paths,
        tlens,
        trees,
    };
    let code = adapter_numbers::root::new(&mut s, order, raw);
    *ed = s.ed;
    code
}

// Sets the root, and drops every cached tree.
#[unsafe(no_mangle)]
pub extern "C" fn tree_editor_set_root(
    ed: &mut Record,
    plens: &mut [u64],
    paths: &mut [u8],
    tlens: &mut [u64],
    trees: &mut [u8],
    order: &[u64],
    raw: &[u8],
) -> u8
    ensures { Does (set_root sha1 raw.now)
        (lent ed.old plens.old paths.old tlens.old trees.old order.now) result
        (lent ed.new plens.new paths.new tlens.new trees.new order.now) }
{
    let mut s = Store {
        ed: *ed,
        plens,
        paths,
        tlens,
        trees,
    };
    let code = adapter_numbers::root::set_root(&mut s, order, raw);
    *ed = s.ed;
    code
}
