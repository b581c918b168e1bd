// Stores from the standard input, one after the other. A read or a write that fails gives its error to the caller.
use crate::words::{front, half_at, word_at};
use std::io;
use std::io::Read;
use store_slots::{Record, View};

// Room for the five slices of a store.
#[derive(Drop)]
pub struct Room<'a> {
    pub plens: &'a mut [u64],
    pub paths: &'a mut [u8],
    pub tlens: &'a mut [u64],
    pub trees: &'a mut [u8],
    pub order: &'a mut [u64],
}

// The lengths of the five slices, and the record.
#[derive(Clone, Copy)]
struct Head {
    plens: usize,
    paths: usize,
    tlens: usize,
    trees: usize,
    order: usize,
    record: Record,
}

// Reads so many bytes to the front of a slice. False where the input has fewer, or the slice no room for them.
fn read_bytes<R: Read>(reader: &mut R, out: &mut [u8], n: usize) -> io::Result<bool> {
    if out.len() < n {
        return Ok(false);
    }
    Ok(streams::read_full(reader, &mut out[..n])? == n)
}

// Reads so many words to the front of a slice. False where the input has fewer, or there is no room for them.
fn read_words<R: Read>(reader: &mut R, out: &mut [u64], n: usize) -> io::Result<bool> {
    let mut buf = [0u8; 1024];
    if out.len() < n || 128 < n {
        return Ok(false);
    }
    let whole = read_bytes(reader, &mut buf, 8 * n)?;
    crate::words::unpack(&buf, out);
    Ok(whole)
}

// The head that the bytes say.
fn head_of(bytes: &[u8; 100]) -> Head {
    Head {
        plens: half_at(bytes, 0) as usize,
        paths: half_at(bytes, 4) as usize,
        tlens: half_at(bytes, 8) as usize,
        trees: half_at(bytes, 12) as usize,
        order: half_at(bytes, 16) as usize,
        record: Record {
            free: word_at(bytes, 20),
            hidden: word_at(bytes, 28),
            paths: word_at(bytes, 36) as usize,
            trees: word_at(bytes, 44) as usize,
            entries: word_at(bytes, 52) as usize,
            names: word_at(bytes, 60) as usize,
            open: word_at(bytes, 68),
            aside: word_at(bytes, 76) as usize,
            stacked: word_at(bytes, 84) as usize,
            asked: word_at(bytes, 92) as usize,
        },
    }
}

impl Room<'_> {
    // Reads the five slices of a store with this head. False where the input ends within them or one has no room.
    fn read<R: Read>(&mut self, reader: &mut R, head: Head) -> io::Result<bool> {
        let a = read_words(reader, &mut *self.plens, head.plens)?;
        let b = read_bytes(reader, &mut *self.paths, head.paths)?;
        let c = read_words(reader, &mut *self.tlens, head.tlens)?;
        let d = read_bytes(reader, &mut *self.trees, head.trees)?;
        let e = read_words(reader, &mut *self.order, head.order)?;
        Ok(a & b & c & d & e)
    }

    // Whether a store with this head holds an editor whose slices are at the front of these.
    fn is_good(&self, head: Head) -> bool {
        let v = View {
            ed: head.record,
            plens: front(&*self.plens, head.plens),
            paths: front(&*self.paths, head.paths),
            tlens: front(&*self.tlens, head.tlens),
            trees: front(&*self.trees, head.trees),
        };
        store_check::holds::holds(v, front(&*self.order, head.order))
    }

    // Reads a store and says whether it holds an editor. False, with nothing printed, where there is none.
    fn turn<R: Read>(&mut self, rt: &impl Print, reader: &mut R) -> io::Result<bool> {
        let mut bytes = [0u8; 100];
        if streams::read_full(reader, &mut bytes)? != 100 {
            return Ok(false);
        }
        let head = head_of(&bytes);
        if !self.read(reader, head)? {
            return Ok(false);
        }
        rt.write_all(if self.is_good(head) { b"1\n" } else { b"0\n" })?;
        Ok(true)
    }
}

// Says of each store that a reader gives whether it holds an editor. Nothing says that the input ends, so the stores are
// counted, to a number that no run reaches.
pub fn run<R: Read>(rt: &impl Print, reader: &mut R, room: &mut Room<'_>) -> io::Result<()> {
    for _ in 0..u64::MAX {
        if !room.turn(rt, reader)? {
            break;
        }
    }
    Ok(())
}
