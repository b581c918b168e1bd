// The write, one request at a time, for C.
ghost use Rattle.model.specs.Editor.{from_root, from_cursor};
ghost use Rattle.model.specs.Formats.{sha1};
ghost use Rattle.model.specs.Write.{begun, failed};
ghost use Rattle.editor.specs.Lent.{lent, Does};
ghost use Rattle.adapter_numbers.specs.Asks.{slices, AnswersAndAsks};
ghost use Rattle.adapter_numbers.specs.Numbers.{Numbers, answer_by};

use store_slots::{Record, Store};

// Begins a write from the root.
#[unsafe(no_mangle)]
pub extern "C" fn tree_editor_begin(
    ed: &mut Record,
    plens: &mut [u64],
    paths: &mut [u8],
    tlens: &mut [u64],
    trees: &mut [u8],
    order: &mut [u64],
) -> u8
    ensures { Does (begun sha1 from_root)
        (lent ed.old plens.old paths.old tlens.old trees.old order.old) result
        (lent ed.new plens.new paths.new tlens.new trees.new order.new) }
{
    let mut s = Store {
        ed: *ed,
        plens,
        paths,
        tlens,
        trees,
    };
    let code = adapter_numbers::write::begin(&mut s, order);
    *ed = s.ed;
    code
}

// Begins a write from the tree cached at a prefix.
#[unsafe(no_mangle)]
pub extern "C" fn tree_editor_begin_at(
    ed: &mut Record,
    plens: &mut [u64],
    paths: &mut [u8],
    tlens: &mut [u64],
    trees: &mut [u8],
    order: &mut [u64],
    prefix: &[u8],
) -> u8
    ensures { Does (begun sha1 (from_cursor prefix.now))
        (lent ed.old plens.old paths.old tlens.old trees.old order.old) result
        (lent ed.new plens.new paths.new tlens.new trees.new order.new) }
{
    let mut s = Store {
        ed: *ed,
        plens,
        paths,
        tlens,
        trees,
    };
    let code = adapter_numbers::write::begin_at(&mut s, order, prefix);
    *ed = s.ed;
    code
}

// Answers the open request with the id of the tree that was requested: 255 where it has not 20 bytes.
#[unsafe(no_mangle)]
pub extern "C" fn tree_editor_answer(
    ed: &mut Record,
    plens: &mut [u64],
    paths: &mut [u8],
    tlens: &mut [u64],
    trees: &mut [u8],
    order: &mut [u64],
    id: &[u8],
) -> u8
    ensures { Numbers (answer_by id.now)
        (lent ed.old plens.old paths.old tlens.old trees.old order.old) result
        (lent ed.new plens.new paths.new tlens.new trees.new order.new) }
{
    let mut s = Store {
        ed: *ed,
        plens,
        paths,
        tlens,
        trees,
    };
    let code = adapter_numbers::write::answer(&mut s, order, id);
    *ed = s.ed;
    code
}

// Answers the open request, and reads the one that is open then to the fronts of the slices, with the number of the reading: 255 where the id has not
// 20 bytes, or where there is no room.
#[unsafe(no_mangle)]
pub extern "C" fn tree_editor_answer_and_request(
    ed: &mut Record,
    plens: &mut [u64],
    paths: &mut [u8],
    tlens: &mut [u64],
    trees: &mut [u8],
    order: &mut [u64],
    id: &[u8],
    out: &mut [u8],
    path: &mut [u8],
    lens: &mut [usize],
    next: &mut [u8],
) -> u8
    ensures { AnswersAndAsks id.now
        (lent ed.old plens.old paths.old tlens.old trees.old order.old)
        (slices out.old path.old lens.old) next.old result
        (lent ed.new plens.new paths.new tlens.new trees.new order.new)
        (slices out.new path.new lens.new) next.new }
{
    let mut s = Store {
        ed: *ed,
        plens,
        paths,
        tlens,
        trees,
    };
    let code = adapter_numbers::next::answer_and_request(&mut s, order, id, out, path, lens, next);
    *ed = s.ed;
    code
}

// Fails the open request: the start tree goes back as it stands, the other taken trees are lost.
#[unsafe(no_mangle)]
pub extern "C" fn tree_editor_fail(
    ed: &mut Record,
    plens: &mut [u64],
    paths: &mut [u8],
    tlens: &mut [u64],
    trees: &mut [u8],
    order: &[u64],
) -> u8
    ensures { Does failed
        (lent ed.old plens.old paths.old tlens.old trees.old order.now) result
        (lent ed.new plens.new paths.new tlens.new trees.new order.now) }
{
    let mut s = Store {
        ed: *ed,
        plens,
        paths,
        tlens,
        trees,
    };
    let code = adapter_numbers::write::fail(&mut s, order);
    *ed = s.ed;
    code
}
