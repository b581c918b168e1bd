// Whether a whole input has the form.
ghost use Rattle.std.specs.Prelude.{◌≡◌};
ghost use Rattle.small_records.specs.Answers.{as_form};
ghost use Rattle.small_records.specs.Records.{form_of, reading};

// The first line that breaks the form, from 1; 0 where the input is too long.
#[derive(Clone, Copy, PartialEq, Eq)]
pub struct BadForm {
    pub line: usize,
}

// Reads a whole input, for ids of so many bytes, and gives how many records there are.
pub fn first_bad(input: &[u8], width: usize) -> Result<usize, BadForm>
    ensures { as_form result ≡ form_of (reading width input.now) }
{
    if 65536 < input.len() {
        return Err(BadForm { line: 0 });
    }
    let mut at = 0;
    let mut count = 0;
    loop {
        match crate::record::next_record(input, at, width) {
            Ok(Some(record)) => {
                at = record.next;
                count += 1;
            }
            Ok(None) => return Ok(count),
            Err(bad) => {
                let line = 4 * count + 1 + bad.number();
                return Err(BadForm { line });
            }
        }
    }
}
