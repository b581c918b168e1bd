// Lines of a text: a key, a value and a newline.
ghost use Rattle.std.specs.Prelude.{◌≡◌, ◌+◌, ◌<◌, ◌^◌, length, IfSome};
ghost use Rattle.lines.specs.Answers.{part, value_read};
ghost use Rattle.lines.specs.Places.{text_at, past, value_at};

// Where a line's value stands, and how long it is.
#[derive(Clone, Copy)]
pub struct Span {
    pub at: usize,
    pub len: usize,
}

impl Span {
    // The bytes there.
    pub fn text(self, input: &[u8]) -> &[u8]
        ensures { result.now ≡ text_at input.now (part self) }
    {
        names::part::between(input, self.at, self.len)
    }

    // The place after the newline that follows.
    pub fn past(self) -> usize
        requires { self.at + self.len + 1 < 2 ^ 64 }
        ensures { result ≡ past (part self) }
    {
        self.at + self.len + 1
    }
}

// Where the value of the line at a place stands, if a newline ends the line and it begins with the key.
pub fn value_at(input: &[u8], at: usize, key: &[u8]) -> Option<Span>
    ensures value { value_read result ≡ value_at key.now input.now at }
    ensures within { IfSome result (λ s. s.at + s.len < length input.now) }
{
    let rest = names::part::after(input, at);
    let n = names::path::position(rest, b'\n')?;
    let value = rest[..n].strip_prefix(key)?;
    Some(Span {
        at: at + key.len(),
        len: value.len(),
    })
}
