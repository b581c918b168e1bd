// The cases: a letter, a message in hex, a space, and the value expected in hex. Where a line cannot be written, the error goes to the caller.
ghost use Rattle.std.specs.Prelude.{◌≤◌, IfOk, length};

use crate::often::often;
use hash::{Digest, sha1, sha256};
use lines::hex::decode;
use names::part::front;
use names::path::{position, tail};
use std::io;
use tree_id::{object_id, tree_id};

// Prints a value, and a word more where another was expected.
fn print_value(rt: &impl Print, value: &[u8], expected: &[u8]) -> io::Result<()> {
    let mut text = [0u8; 128];
    if let Some(n) = lines::text::put_hex_line(&mut text, 0, b"id", value) {
        rt.write_all(front(&text, n))?;
    }
    if value != expected {
        rt.write_all(b"other\n")?;
    }
    Ok(())
}

// The value of a message of at most 8,192 bytes, by its letter; false, with nothing printed, for a letter that stands for none.
fn value_case(rt: &impl Print, letter: u8, message: &[u8], expected: &[u8]) -> io::Result<bool> {
    if 8192 < message.len() {
        return Ok(false);
    }
    match letter {
        b'1' => print_value(rt, &hash::of::<sha1::Words>(message).bytes(), expected)?,
        b'2' => print_value(rt, &hash::of::<sha256::Words>(message).bytes(), expected)?,
        b'm' => print_value(rt, &often::<sha1::Words>(message).bytes(), expected)?,
        b'n' => print_value(rt, &often::<sha256::Words>(message).bytes(), expected)?,
        b't' => print_value(rt, &tree_id::<sha1::Words, 20>(message), expected)?,
        b'u' => print_value(rt, &tree_id::<sha256::Words, 32>(message), expected)?,
        b'b' => print_value(
            rt,
            &object_id::<sha1::Words, 20>(b"blob", message),
            expected,
        )?,
        b'c' => print_value(
            rt,
            &object_id::<sha256::Words, 32>(b"blob", message),
            expected,
        )?,
        _ => {
            return Ok(false);
        }
    }
    Ok(true)
}

// The case of a message in hex and a value in hex; false, with nothing printed, where the line breaks the form.
fn hex_case(rt: &impl Print, letter: u8, message: &[u8], value: &[u8]) -> io::Result<bool> {
    let mut bytes = [0u8; 8192];
    let mut expected = [0u8; 32];
    let Some(n) = decode(&mut bytes, 0, message) else {
        return Ok(false);
    };
    let Some(k) = decode(&mut expected, 0, value) else {
        return Ok(false);
    };
    value_case(rt, letter, front(&bytes, n), front(&expected, k))
}

// The case on a line; false, with nothing printed, where the line breaks the form.
fn line_case(rt: &impl Print, line: &[u8]) -> io::Result<bool> {
    let Some((letter, rest)) = line.split_first() else {
        return Ok(false);
    };
    let k = position(rest, b' ').unwrap_or(rest.len());
    hex_case(rt, *letter, front(rest, k), tail(rest, k))
}

// Replays the whole lines at the front, up to the first that breaks the form, and gives the place after them. An error is that
// of a print, and leaves the input as it was.
pub fn replay(rt: &impl Print, input: &[u8]) -> io::Result<usize>
    ensures { IfOk result (λ n. n ≤ length input.now) }
{
    let mut rest = input;
    while let Some(k) = position(rest, b'\n') {
        if !line_case(rt, &rest[..k])? {
            break;
        }
        rest = &rest[k + 1..];
    }
    Ok(input.len() - rest.len())
}
