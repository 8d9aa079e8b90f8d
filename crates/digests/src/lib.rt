//! The digests of docs/PROTOCOL.md, section 3: leaf, parent, record hash and the memoranda, each with the count of blocks
//! that it took (§10.1.1).
#![tactic(auto)]

ghost use Rattle.std.specs.Prelude.{◌≡◌, ◌≤◌, [], length};
ghost use Rattle.sha256.specs.Hash.{sha256};
ghost use Rattle.paper.specs.Strings as S;
ghost use Rattle.paper.specs.Refusals.{leaf_of, leaf_forms};
ghost use Rattle.digests.specs.Worked.{worked, hashed};
ghost use Rattle.digests.specs.Speaking.{AllWhole, SaidAs, Spoken, memo_of, made_of};

use paper::{Item, Record};

/// A digest, and the blocks worked for it.
#[derive(Clone, Copy)]
pub struct Digest {
    pub bytes: [u8; 32],
    pub blocks: u64,
}

impl Digest {
    /// A digest that no string was formed for.
    fn given(bytes: [u8; 32]) -> Self
        ensures { result ≡ worked bytes [] }
    {
        Digest { bytes, blocks: 0 }
    }
}

/// What a memorandum says: one of four tags, with its digests.
#[derive(Clone, Copy)]
pub enum Memo {
    U1([u8; 32], [u8; 32], [u8; 32], [u8; 32]),
    V1([u8; 32], [u8; 32]),
    U2([u8; 32], [u8; 32], [u8; 32], [u8; 32], [u8; 32], [u8; 32]),
    Ei([u8; 32], [u8; 32]),
}

impl Memo {
    /// Its tag and its digests, one behind the other.
    pub fn says(self) -> Says
        ensures { Spoken result (memo_of self) }
    {
        match self {
            Memo::U1(x, y, xn, yn) => said(0x04, &[x, y, xn, yn]),
            Memo::V1(x, y) => said(0x05, &[x, y]),
            Memo::U2(x1, x2, y, x1n, x2n, yn) => said(0x06, &[x1, x2, y, x1n, x2n, yn]),
            Memo::Ei(y, yn) => said(0x07, &[y, yn]),
        }
    }

    /// The memorandum.
    #[tactic(auto, using(crate::proofs::Speaking::made_of_all))]
    pub fn made(self, secret: [u8; 32]) -> Digest
        ensures { result ≡ hashed (S.memo_string (memo_of self) secret) }
    {
        memorandum(self.says(), secret)
    }
}

/// What a memorandum says as bytes: its tag and its digests over the front of an array, and how many bytes these are. The array has room
/// for the secret behind as many bytes as the length can tell, so that a memorandum can be made of any such value.
#[derive(Clone, Copy)]
pub struct Says {
    pub bytes: [u8; 287],
    pub length: u8,
}

/// A tag and digests, one behind the other.
fn said(tag: u8, parts: &[[u8; 32]]) -> Says
    requires { (length parts.now ≤ 6) × AllWhole parts.now }
    ensures { SaidAs result tag parts.now }
{
    let mut bytes = [0u8; 287];
    bytes[0] = tag;
    for i in 0..parts.len() {
        fields::put(&mut bytes, 1 + 32 * i, &parts[i]);
    }
    Says {
        bytes,
        length: (1 + 32 * parts.len()) as u8,
    }
}

/// How a memorandum is made of what it says and the secret: here and nowhere else.
pub fn memorandum(s: Says, secret: [u8; 32]) -> Digest
    ensures { result ≡ made_of s secret }
{
    let n = s.length as usize;
    let end = n + 32;
    let mut bytes = s.bytes;
    fields::put(&mut bytes, n, &secret);
    Digest {
        bytes: sha256::digest(&bytes[..end]),
        blocks: sha256::blocks(end) as u64,
    }
}

/// The leaf of a and b with the hash of a record.
pub fn leaf(a: Item, b: Item, hash: [u8; 32]) -> Digest
    ensures { result ≡ hashed (S.leaf a.0 b.0 hash) }
{
    let mut s = [1u8; 49];
    fields::put(&mut s, 1, &fields::spelled(a.0));
    fields::put(&mut s, 9, &fields::spelled(b.0));
    fields::put(&mut s, 17, &hash);
    Digest {
        bytes: sha256::digest(&s),
        blocks: 1,
    }
}

/// H(u,v).
pub fn parent(u: [u8; 32], v: [u8; 32]) -> Digest
    ensures { result ≡ worked (S.H sha256 u v) (S.parent_forms u v) }
{
    if fields::is_zero(v) {
        return Digest::given(u);
    }
    if fields::is_zero(u) {
        return Digest::given(v);
    }
    let mut s = [2u8; 65];
    fields::put(&mut s, 1, &u);
    fields::put(&mut s, 33, &v);
    Digest {
        bytes: sha256::digest(&s),
        blocks: 2,
    }
}

/// The hash of a record; of an empty one, 0.
pub fn record_hash(r: Record) -> Digest
    ensures { result ≡ worked (S.record_hash sha256 r) (S.record_forms r) }
{
    if records::is_blank(r) {
        return Digest::given([0; 32]);
    }
    let mut s = [3u8; 33];
    fields::put(&mut s, 1, &records::record_bytes(r));
    Digest {
        bytes: sha256::digest(&s),
        blocks: 1,
    }
}

/// The leaf of a and b with a record, and all that is formed for it.
pub fn leaf_of(a: Item, b: Item, rec: Record) -> Digest
    ensures { result ≡ worked (S.digest_of sha256 (leaf_of sha256 a.0 b.0 rec)) (leaf_forms sha256 a.0 b.0 rec) }
{
    let hash = record_hash(rec);
    let mut leaf = leaf(a, b, hash.bytes);
    leaf.blocks += hash.blocks;
    leaf
}
