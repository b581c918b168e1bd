// The records of an input, one after the other: each edit is made, and a refusal told.
ghost use Rattle.std.specs.Prelude.{Some, Ok, Option, ◌≡◌, true, false, List, [], ℕ, ◌≤◌, ◌<◌, length};
ghost use Rattle.model.specs.Formats.{sha1};
ghost use Rattle.model.specs.Script.{no_table};
ghost use Rattle.model.specs.Calls as model;
ghost use Rattle.editor_terms.specs.Answers.{code_number};
ghost use Rattle.editor_terms.specs.Edits.{as_edit};
ghost use Rattle.editor_terms.specs.Ids.{id_bytes};
ghost use Rattle.store_slots.specs.Stores.{SameLent};
ghost use Rattle.editor.specs.Lent.{lent_in, Good, viewed};
ghost use Rattle.small_records.specs.Answers.{as_op, found_as};
ghost use Rattle.lines.specs.Hex.{hexed, bytes_of};
ghost use Rattle.small_records.specs.Places.{found, next_at, record_found};
ghost use Rattle.small_records.specs.Records.{EditRecord as Model, edit_of, good_id, good as goodInput, reading};
ghost use Rattle.small_run.specs.Lesson.{made_by, refusal, record_lines, after_records};
ghost use Rattle.small_run.specs.Puts.{Puts, Leaves};

use editor_terms::edit::{Edit, RemoveKind};
use editor_terms::id::Id;
use editor_terms::refusal::Refusal;
use editor_terms::table::Table;
use names::limits::WIDTH;
use small_records::record::{EditRecord, Op};
use store_slots::Store;

// The id that forty digits say.
fn id_of(digits: &[u8]) -> Id
    requires { (hexed digits.now ≡ true) × (length (bytes_of digits.now) ≡ 20) }
    ensures { id_bytes result ≡ bytes_of digits.now }
{
    let mut id = Id::NULL;
    lines::hex::decode(&mut id.bytes, 0, digits);
    id
}

// The edit that a record says, with the digits of its id.
fn edit_of(op: Op, digits: &[u8]) -> Edit
    requires { good_id 20 (as_op op) digits.now ≡ true }
    ensures { as_edit result ≡ edit_of (as_op op) digits.now }
{
    match op {
        Op::Upsert(kind) => Edit::Upsert(kind, id_of(digits)),
        Op::Remove => Edit::Remove(RemoveKind::Any),
        Op::Leaf => Edit::Remove(RemoveKind::Leaf),
    }
}

// Makes an edit at the path that digits say, with an empty table.
fn apply(s: &mut Store<'_>, order: &[u64], digits: &[u8], edit: Edit) -> Result<(), Refusal>
    requires { Good (lent_in s.old order.now) × (hexed digits.now ≡ true) × (length (bytes_of digits.now) ≤ 32768) }
    ensures code { code_number result ≡ (model.edited sha1 no_table (as_edit edit) false [] (bytes_of digits.now) (viewed (lent_in s.old order.now))).code }
    ensures editor { Leaves (model.edited sha1 no_table (as_edit edit) false [] (bytes_of digits.now) (viewed (lent_in s.old order.now))) (lent_in s.new order.now) }
    ensures lent { SameLent s.old s.new }
{
    let mut path = [0u8; 32768];
    lines::hex::decode(&mut path, 0, digits);
    let p = names::part::front(&path, digits.len() / 2);
    let ends = [0u32; 0];
    let table = Table {
        ids: b"",
        ends: &ends,
        raws: b"",
    };
    editor::edit::edit(s, order, table, b"", p, edit, false)
}

// Writes the two lines of a refused edit; an accepted one has none.
fn report(out: &mut [u8], to: usize, k: u64, answer: Result<(), Refusal>) -> Option<usize>
    requires { to ≤ length out.old }
    ensures { Puts out.old to (refusal k (code_number answer)) result out.new }
{
    let n = editor_terms::refusal::number(answer);
    if n == 0 {
        return Some(to);
    }
    let next = lines::text::put_number_line(out, to, b"edit", k)?;
    lines::text::put_number_line(out, next, b"code", u64::from(n))
}

// Makes the edit of a record, the k-th, and tells its refusal: gives the place after what was written.
fn make_record(
    s: &mut Store<'_>,
    order: &[u64],
    input: &[u8],
    record: EditRecord,
    k: u64,
    out: &mut [u8],
    to: usize,
) -> Option<usize>
    requires { Good (lent_in s.old order.now) × (length input.now ≤ 65536) × (to ≤ length out.old) × ((at : ℕ) × (next_at 20 input.now at ≡ found (found_as «record»))) }
    ensures editor { Leaves (made_by (record_found input.now (found_as «record»)) (viewed (lent_in s.old order.now))) (lent_in s.new order.now) }
    ensures put { Puts out.old to (refusal k (made_by (record_found input.now (found_as «record»)) (viewed (lent_in s.old order.now))).code) result out.new }
    ensures lent { SameLent s.old s.new }
{
    let edit = edit_of(record.op, record.id.text(input));
    let answer = apply(s, order, record.path.text(input), edit);
    report(out, to, k, answer)
}

// Makes all records of a good input, and gives the place after what was written.
pub fn make_edits(s: &mut Store<'_>, order: &[u64], input: &[u8], out: &mut [u8]) -> Option<usize>
    requires { Good (lent_in s.old order.now) × (length input.now ≤ 65536) × ((rs : List Model) × (reading 20 input.now ≡ goodInput rs)) }
    ensures editor { (rs : List Model) (n : ℕ) → reading 20 input.now ≡ goodInput rs → result ≡ Some n
        → Good (lent_in s.new order.now) × (viewed (lent_in s.new order.now) ≡ after_records rs (viewed (lent_in s.old order.now))) }
    ensures put { (rs : List Model) → reading 20 input.now ≡ goodInput rs → Puts out.old 0 (record_lines 1 rs (viewed (lent_in s.old order.now))) result out.new }
    ensures lent { SameLent s.old s.new }
{
    let mut at = 0;
    let mut k = 1;
    let mut to = 0;
    while let Ok(Some(record)) = small_records::record::next_record(input, at, WIDTH) {
        to = make_record(s, order, input, record, k, out, to)?;
        at = record.next;
        k += 1;
    }
    Some(to)
}
