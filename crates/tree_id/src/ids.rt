// Ids of N bytes: of 20 by SHA-1, of 32 by SHA-256.
ghost use Rattle.std.specs.Prelude.{◌≡◌, ◌+◌, ◌^◌, ◌≤◌, ◌<◌, eqb, length};
ghost use Rattle.hash.specs.Stream.{Holds};
ghost use Rattle.model.specs.Bytes.{Bytes};
ghost use Rattle.model.specs.Raw.{raw_tree};
ghost use Rattle.names_compact.specs.Compact.{unpack};
ghost use Rattle.tree_id.specs.Ids.{header, hashed_by, by_sha1, by_sha256, object_id, tree_id};

use hash::{Digest, Hash, State, sha1, sha256};
use names_compact::compact::Tree;

// A hash that makes ids.
pub trait Format<const N: usize>: Digest<N> {
    ghost makes_ids: { (m : Bytes) → Self.bytes_of (Self.value_of m) ≡ hashed_by (eqb N 32) m };
}

impl Format<20> for sha1::Words {
    ghost makes_ids = { by_sha1 };
}

impl Format<32> for sha256::Words {
    ghost makes_ids = { by_sha256 };
}

// A message that begins with the header of an object of so many bytes.
pub fn begin<H: Hash>(kind: &[u8], n: u64) -> State<H>
    requires { length kind.now < 2 ^ 60 }
    ensures { Holds H.after_block H.start_value result.words result.block result.length (header kind.now n) }
{
    let mut digits = [0u8; 20];
    let from = lines::text::decimal_into(&mut digits, n);
    let a = State::start().update(kind).update(b" ");
    a.update(names::part::after(&digits, from)).update(b"\0")
}

// The id of an object of a kind.
pub fn object_id<H: Format<N>, const N: usize>(kind: &[u8], body: &[u8]) -> [u8; N]
    requires { length kind.now + length body.now < 2 ^ 60 }
    ensures { result ≡ object_id N kind.now body.now }
{
    begin::<H>(kind, body.len() as u64)
        .update(body)
        .finish()
        .bytes()
}

// The id of a tree.
pub fn tree_id<H: Format<N>, const N: usize>(raw: &[u8]) -> [u8; N]
    requires { length raw.now < 2 ^ 59 }
    ensures { result ≡ tree_id N raw.now }
{
    object_id::<H, N>(b"tree", raw)
}

// The id of a tree in compact form: its raw form is hashed a part at a time.
pub fn compact_id<H: Format<N>, const N: usize>(tree: Tree<'_>) -> [u8; N]
    requires width { tree.width ≡ N }
    requires short { length tree.bytes.now ≤ 4294967296 }
    ensures { result ≡ tree_id N (raw_tree (unpack N tree.entry.bytes.now)) }
{
    let mut state = begin::<H>(b"tree", tree.raw_len() as u64);
    let mut rest = tree;
    let mut buf = [0u8; 512];
    while 0 < rest.bytes.len() {
        let (first, others) = crate::part::split(rest);
        let n = first.put_raw(&mut buf);
        state = state.update(names::part::front(&buf, n));
        rest = others;
    }
    state.finish().bytes()
}
