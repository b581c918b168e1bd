// A new root.
ghost use Rattle.model.specs.Calls.{set_root};
ghost use Rattle.model.specs.Formats.{sha1};
ghost use Rattle.store_slots.specs.Stores.{SameLent};
ghost use Rattle.editor.specs.Lent.{lent_in, Does};
ghost use Rattle.editor.specs.Roots.{Makes};

use editor_terms::refusal::number;
use store_slots::Store;

// Makes an editor with this root.
pub fn new(s: &mut Store<'_>, order: &[u64], raw: &[u8]) -> u8
    ensures done { Makes raw.now
        (lent_in s.old order.now) result
        (lent_in s.new order.now) }
    ensures lent { SameLent s.old s.new }
{
    number(editor::root::new(s, order, raw))
}

// Sets the root, and drops every cached tree.
pub fn set_root(s: &mut Store<'_>, order: &[u64], raw: &[u8]) -> u8
    ensures done { Does (set_root sha1 raw.now)
        (lent_in s.old order.now) result
        (lent_in s.new order.now) }
    ensures lent { SameLent s.old s.new }
{
    number(editor::root::set_root(s, order, raw))
}
