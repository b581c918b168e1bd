// Answering the open request and reading the one that is open then, with one check of the store.
ghost use Rattle.model.specs.Formats.{sha1};
ghost use Rattle.model.specs.Write.{answered};
ghost use Rattle.editor_terms.specs.Answers.{code_number};
ghost use Rattle.editor_terms.specs.Ids.{id_bytes};
ghost use Rattle.store_slots.specs.Stores.{SameLent};
ghost use Rattle.editor.specs.Lent.{lent_in, Does};
ghost use Rattle.editor_write.specs.Requests.{answer_of, len_of, place_of, Requests};

use crate::request::Asked;
use editor_terms::id::Id;
use editor_terms::refusal::Refusal;
use store_slots::Store;

// What an answer gave, and what reading the next request gave.
#[derive(Drop)]
pub struct AnsweredAndRead {
    pub answer: Result<(), Refusal>,
    pub next: Result<Asked, Refusal>,
}

// Answers the open request with the id of the tree that was requested, and reads the request that is open then.
pub fn answer_and_request(
    s: &mut Store<'_>,
    order: &mut [u64],
    id: Id,
    out: &mut [u8],
) -> AnsweredAndRead
    ensures done { Does (answered sha1 (id_bytes id)) (lent_in s.old order.old) (code_number result.answer)
        (lent_in s.new order.new)
        × Requests (lent_in s.new order.new) (answer_of result.next) (len_of result.next) (place_of result.next) out.old out.new }
    ensures lent { SameLent s.old s.new }
{
    if !store_check::holds::holds(s.view(), order) {
        return AnsweredAndRead {
            answer: Err(Refusal::StoreDamaged),
            next: Err(Refusal::StoreDamaged),
        };
    }
    let answer = crate::answer::answer_accepted(s, order, id);
    AnsweredAndRead {
        answer,
        next: crate::request::request_accepted(s.view(), out),
    }
}
