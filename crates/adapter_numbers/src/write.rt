// The write, one request at a time.
ghost use Rattle.model.specs.Editor.{from_root, from_cursor};
ghost use Rattle.model.specs.Formats.{sha1};
ghost use Rattle.model.specs.Write.{begun, failed};
ghost use Rattle.store_slots.specs.Stores.{SameLent};
ghost use Rattle.editor.specs.Lent.{lent_in, Does};
ghost use Rattle.adapter_numbers.specs.Numbers.{Numbers, answer_by};

use editor_terms::refusal::number;
use names::limits::WIDTH;
use store_slots::Store;

// Begins a write from the root.
pub fn begin(s: &mut Store<'_>, order: &mut [u64]) -> u8
    ensures done { Does (begun sha1 from_root)
        (lent_in s.old order.old) result
        (lent_in s.new order.new) }
    ensures lent { SameLent s.old s.new }
{
    number(editor_write::begin::begin(s, order))
}

// Begins a write from the tree cached at a prefix.
pub fn begin_at(s: &mut Store<'_>, order: &mut [u64], prefix: &[u8]) -> u8
    ensures done { Does (begun sha1 (from_cursor prefix.now))
        (lent_in s.old order.old) result
        (lent_in s.new order.new) }
    ensures lent { SameLent s.old s.new }
{
    number(editor_write::begin::begin_at(s, order, prefix))
}

// Answers the open request with the id of the tree that was requested: 255 where it has not 20 bytes.
pub fn answer(s: &mut Store<'_>, order: &mut [u64], id: &[u8]) -> u8
    ensures done { Numbers (answer_by id.now)
        (lent_in s.old order.old) result
        (lent_in s.new order.new) }
    ensures lent { SameLent s.old s.new }
{
    if id.len() != WIDTH {
        return 255;
    }
    let id = editor_terms::id::id_at(id, 0);
    number(editor_write::answer::answer(s, order, id))
}

// Fails the open request: the start tree goes back as it stands, the other taken trees are lost.
pub fn fail(s: &mut Store<'_>, order: &[u64]) -> u8
    ensures done { Does failed
        (lent_in s.old order.now) result
        (lent_in s.new order.now) }
    ensures lent { SameLent s.old s.new }
{
    number(editor_write::fail::fail(s, order))
}
