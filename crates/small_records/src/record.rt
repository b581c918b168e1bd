// Records of four lines, by the places where their parts stand.
ghost use Rattle.std.specs.Prelude.{◌≡◌, ◌≤◌, length, IfSome};
ghost use Rattle.lines.specs.Answers.{value_read};
ghost use Rattle.small_records.specs.Answers.{as_verb, verb_read, op_line, as_op, op_read, kind_line, line_number, next_read};
ghost use Rattle.small_records.specs.Places.{op_at, path_at, kind_at, id_at, next_at};
ghost use Rattle.small_records.specs.Records.{verb_of, op_of, good_id};

use lines::line::Span;
use names::mode::{EntryKind, Mode};

// What an `op=` line says.
// Stays: beside Op, since the kind that an upsert has comes two lines later.
#[derive(Clone, Copy, PartialEq, Eq)]
pub enum Verb {
    Upsert,
    Remove,
    Leaf,
}

// What a record does, once its `kind=` line is read.
#[derive(Clone, Copy, PartialEq, Eq)]
pub enum Op {
    Upsert(EntryKind),
    Remove,
    Leaf,
}

// What a line told, and the place of the next one.
#[derive(Clone, Copy)]
struct Told<T> {
    what: T,
    next: usize,
}

// A record: what it does, where the digits of its path and of its id stand, and the place after it.
#[derive(Clone, Copy)]
pub struct EditRecord {
    pub op: Op,
    pub path: Span,
    pub id: Span,
    pub next: usize,
}

// The line of a record that breaks the form.
#[derive(Clone, Copy, PartialEq, Eq)]
pub enum BadLine {
    Op,
    Path,
    Kind,
    Id,
}

impl BadLine {
    // The line's number in its record, from 0.
    pub fn number(self) -> usize
        ensures { result ≡ line_number self }
    {
        match self {
            BadLine::Op => 0,
            BadLine::Path => 1,
            BadLine::Kind => 2,
            BadLine::Id => 3,
        }
    }
}

const UPSERT: &[u8] = b"upsert";

const REMOVE: &[u8] = b"remove";

const LEAF: &[u8] = b"leaf";

// What the value of an `op=` line says.
fn verb_of(text: &[u8]) -> Option<Verb>
    ensures { verb_read result ≡ verb_of text.now }
{
    if text == UPSERT {
        Some(Verb::Upsert)
    } else if text == REMOVE {
        Some(Verb::Remove)
    } else if text == LEAF {
        Some(Verb::Leaf)
    } else {
        None
    }
}

// The `op=` line at a place.
fn op_at(input: &[u8], at: usize) -> Option<Told<Verb>>
    ensures { op_line result ≡ op_at input.now at }
{
    let value = lines::line::value_at(input, at, b"op=")?;
    let what = verb_of(value.text(input))?;
    let next = value.past();
    Some(Told { what, next })
}

// The `path=` line at a place.
fn path_at(input: &[u8], at: usize) -> Option<Span>
    ensures { value_read result ≡ path_at input.now at }
{
    let value = lines::line::value_at(input, at, b"path=")?;
    lines::hex::is_hex(value.text(input)).then_some(value)
}

// What the value of a `kind=` line makes of a verb.
fn op_of(verb: Verb, text: &[u8]) -> Option<Op>
    ensures { op_read result ≡ op_of (as_verb verb) text.now }
{
    match verb {
        Verb::Upsert => Some(Op::Upsert(Mode::from_octal(text)?)),
        Verb::Remove => text.is_empty().then_some(Op::Remove),
        Verb::Leaf => text.is_empty().then_some(Op::Leaf),
    }
}

// The `kind=` line at a place, after the verb.
fn kind_at(input: &[u8], verb: Verb, at: usize) -> Option<Told<Op>>
    ensures { kind_line result ≡ kind_at input.now (as_verb verb) at }
{
    let value = lines::line::value_at(input, at, b"kind=")?;
    let what = op_of(verb, value.text(input))?;
    let next = value.past();
    Some(Told { what, next })
}

// Whether the value of an `id=` line goes with the record, for ids of so many bytes.
fn id_ok(width: usize, op: Op, text: &[u8]) -> bool
    ensures { result ≡ good_id width (as_op op) text.now }
{
    match op {
        Op::Upsert(_) => lines::hex::is_hex(text) && text.len() / 2 == width,
        Op::Remove | Op::Leaf => text.is_empty(),
    }
}

// The `id=` line at a place.
fn id_at(width: usize, input: &[u8], op: Op, at: usize) -> Option<Span>
    ensures { value_read result ≡ id_at width input.now (as_op op) at }
{
    let value = lines::line::value_at(input, at, b"id=")?;
    id_ok(width, op, value.text(input)).then_some(value)
}

// The record at a place, for ids of so many bytes; none where the input ends there.
pub fn next_record(input: &[u8], at: usize, width: usize) -> Result<Option<EditRecord>, BadLine>
    ensures { next_read result ≡ next_at width input.now at }
{
    if input.len() <= at {
        return Ok(None);
    }
    let verb = op_at(input, at).ok_or(BadLine::Op)?;
    let path = path_at(input, verb.next).ok_or(BadLine::Path)?;
    let op = kind_at(input, verb.what, path.past()).ok_or(BadLine::Kind)?;
    let id = id_at(width, input, op.what, op.next).ok_or(BadLine::Id)?;
    Ok(Some(EditRecord {
        op: op.what,
        path,
        id,
        next: id.past(),
    }))
}
