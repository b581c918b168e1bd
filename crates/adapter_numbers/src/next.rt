// Answering the open request and reading the next one in one call.
ghost use Rattle.store_check.specs.Decides.{Decides};
ghost use Rattle.store_slots.specs.Stores.{SameLent};
ghost use Rattle.editor.specs.Lent.{lent_in};
ghost use Rattle.adapter_numbers.specs.Asks.{slices, Whole, AnswersAndAsks};

use editor_terms::refusal::number;
use names::limits::{PATH, WIDTH};
use store_slots::Store;

// Whether the id has 20 bytes, and the slices have room for any path, two lengths and a number.
fn arguments_ok(id: &[u8], path: &[u8], lens: &[usize], next: &[u8]) -> bool
    ensures { Decides (Whole id.now path.now lens.now next.now) result }
{
    id.len() == WIDTH && PATH <= path.len() && 2 <= lens.len() && !next.is_empty()
}

// Answers the open request with the id of the tree that was requested, and reads the request that is open then: 255 where the id has not 20 bytes, or
// where there is no room.
pub fn answer_and_request(
    s: &mut Store<'_>,
    order: &mut [u64],
    id: &[u8],
    out: &mut [u8],
    path: &mut [u8],
    lens: &mut [usize],
    next: &mut [u8],
) -> u8
    ensures done { AnswersAndAsks id.now
        (lent_in s.old order.old)
        (slices out.old path.old lens.old) next.old result
        (lent_in s.new order.new)
        (slices out.new path.new lens.new) next.new }
    ensures lent { SameLent s.old s.new }
{
    if !arguments_ok(id, path, lens, next) {
        return 255;
    }
    let id = editor_terms::id::id_at(id, 0);
    let both = editor_write::next::answer_and_request(s, order, id, out);
    let answer = both.answer;
    next[0] = crate::told::tell_request(both.next, path, lens);
    number(answer)
}
