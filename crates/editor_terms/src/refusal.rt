// What a call answers.
ghost use Rattle.std.specs.Prelude.{◌≡◌};
ghost use Rattle.editor_terms.specs.Answers.{code_number, refusal_number};

// Why a call is refused, one case for each of the numbers; the output that is too short comes with the length needed.
#[derive(Clone, Copy, PartialEq, Eq)]
pub enum Refusal {
    EmptyComponent,
    TreeNotFound,
    TreeDamaged,
    NotALeaf,
    NoRoom,
    PathRefused,
    BadTable,
    CursorStale,
    WriteOpen,
    NoWriteOpen,
    OutputShort(usize),
    BadRoot,
    StoreDamaged,
}

// The number of a refusal.
impl From<Refusal> for u8 {
    ghost from_gives = { λ refusal n. n ≡ refusal_number refusal };

    fn from(refusal: Refusal) -> u8 {
        match refusal {
            Refusal::EmptyComponent => 1,
            Refusal::TreeNotFound => 2,
            Refusal::TreeDamaged => 3,
            Refusal::NotALeaf => 4,
            Refusal::NoRoom => 5,
            Refusal::PathRefused => 6,
            Refusal::BadTable => 7,
            Refusal::CursorStale => 8,
            Refusal::WriteOpen => 9,
            Refusal::NoWriteOpen => 10,
            Refusal::OutputShort(_) => 11,
            Refusal::BadRoot => 12,
            Refusal::StoreDamaged => 13,
        }
    }
}

// The number of an answer: 0 where the call is done.
// Stays: neither u8 nor Result is a type of this repository, so that no From can be written.
pub fn number(answer: Result<(), Refusal>) -> u8
    ensures { result ≡ code_number answer }
{
    match answer {
        Ok(()) => 0,
        Err(refusal) => u8::from(refusal),
    }
}
