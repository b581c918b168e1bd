// The cases: two names to be ordered, or a raw tree to be checked and written anew. Where a line cannot be written, the error goes to the caller.
ghost use Rattle.std.specs.Prelude.{◌≤◌, IfOk, length};

use names::order::Key;
use names::tree::Size;
use std::cmp::Ordering;
use std::{fmt, io};

// What a case gives.
#[derive(Clone, Copy)]
enum Answer {
    Ordered(Ordering),
    Well { size: Size, same: bool },
    Broken,
}

impl fmt::Display for Answer {
    fn fmt<W: fmt::Write>(&self, f: &mut fmt::Formatter<W>) -> fmt::Result {
        match self {
            Answer::Ordered(Ordering::Less) => f.write_str("less"),
            Answer::Ordered(Ordering::Equal) => f.write_str("equal"),
            Answer::Ordered(Ordering::Greater) => f.write_str("greater"),
            Answer::Well { size, same } => {
                let again = if *same { "same" } else { "other" };
                write!(f, "well {} {} {again}", size.entries, size.name_bytes)
            }
            Answer::Broken => f.write_str("broken"),
        }
    }
}

// What the check of a raw tree in hex says, and whether writing it anew gives the same bytes; none where the line breaks the form.
fn tree_case(digits: &[u8]) -> Option<Answer> {
    let mut raw = [0u8; 32768];
    let n = lines::hex::decode(&mut raw, 0, digits)?;
    let raw = names::part::front(&raw, n);
    let Some(size) = names::tree::well_formed(raw, 20) else {
        return Some(Answer::Broken);
    };
    let same = crate::again::is_same_again(raw, size.entries);
    Some(Answer::Well { size, same })
}

// The key that a kind's letter, f or t, and the hex of at most 512 bytes say, with its name in lent bytes.
fn key_of<'a>(text: &[u8], name: &'a mut [u8; 512]) -> Option<Key<'a>> {
    let (letter, digits) = text.split_first()?;
    let tree = match *letter {
        b'f' => false,
        b't' => true,
        _ => return None,
    };
    let n = lines::hex::decode(name, 0, digits)?;
    Some(Key {
        name: names::part::front(name, n),
        tree,
    })
}

// The case of two keys; none where one of them breaks the form.
fn order_case(first: &[u8], second: &[u8]) -> Option<Answer> {
    let mut a = [0u8; 512];
    let mut b = [0u8; 512];
    let a = key_of(first, &mut a)?;
    let b = key_of(second, &mut b)?;
    Some(Answer::Ordered(names::order::name_order(a, b)))
}

// The case on a line; none where the line breaks the form.
fn line_case(line: &[u8]) -> Option<Answer> {
    if let Some(digits) = line.strip_prefix(b"r") {
        return tree_case(digits);
    }
    let k = names::path::position(line, b' ')?;
    order_case(&line[..k], &line[k + 1..])
}

// Replays the whole lines at the front, up to the first that breaks the form, and gives the place
// after them. An error is that of a print, and leaves the input as it was.
pub fn replay(rt: &impl Print, input: &[u8]) -> io::Result<usize>
    ensures { IfOk result (λ n. n ≤ length input.now) }
{
    let mut at = 0;
    while let Some(k) = names::path::position(&input[at..], b'\n') {
        let Some(answer) = line_case(&input[at..at + k]) else {
            break;
        };
        println!(rt; "{answer}")?;
        at += k + 1;
    }
    Ok(at)
}
