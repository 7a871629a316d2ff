// Reading records one by one out of a lent buffer.
ghost use Rattle.std.specs.Prelude.{◌≡◌, ◌+◌, ◌≤◌, length};
ghost use Rattle.std.specs.Borrow.{u8};
ghost use Rattle.std.specs.Ptr.{as_ptr, ptr_add};
ghost use Rattle.blocks.specs.Records.{size_of, item_of, look, offset_of, rest_at, moved};
ghost use Rattle.blocks.specs.Walk.{body_of, item, kind_byte, DecodesKind, shown, IsLent, Visits};

use crate::block::{Header, UnknownKind};
use crate::record::{BadHeader, Record};
use crate::refusal::Refusal;

// What a record's kind says: a block with this header, or a pair note.
#[derive(Clone, Copy)]
enum Kind {
    Block(Header),
    Note,
}

impl TryFrom<u8> for Kind {
    type Error = UnknownKind;

    ghost try_from_gives = { DecodesKind };

    fn try_from(kind: u8) -> Result<Kind, UnknownKind> {
        if kind == 16 {
            return Ok(Kind::Note);
        }
        Ok(Kind::Block(Header::try_from(kind)?))
    }
}

impl Kind {
    fn body_size(self) -> usize
        ensures value { result ≡ size_of (kind_byte self) }
        ensures bound { result ≤ 8 }
    {
        match self {
            Kind::Block(_) => 8,
            Kind::Note => 3,
        }
    }

    fn record<'a>(self, body: &'a [u8]) -> Record<'a>
        ensures value { item result ≡ item_of (kind_byte self) body.now }
        ensures body { body_of result ≡ body.entry }
    {
        match self {
            Kind::Block(Header::Zeros) => Record::BadHeader(BadHeader::Zeros, body),
            Kind::Block(Header::Control) => Record::Control(body),
            Kind::Block(Header::Data) => Record::Data(body),
            Kind::Block(Header::Ones) => Record::BadHeader(BadHeader::Ones, body),
            Kind::Note => Record::Note(body),
        }
    }
}

// `index` records stand before `rest`, which is a part of `src`. `src` is kept for the contracts alone, which speak of the
// whole buffer.
#[derive(Drop)]
pub struct Reader<'a> {
    src: &'a [u8],
    rest: &'a [u8],
    index: usize,
    ghost counted: { index + length rest.now ≤ length src.now },
    ghost placed: { rest.now ≡ rest_at src.now index },
    ghost lent: { as_ptr rest ≡ ptr_add u8 (offset_of src.now index) (as_ptr src) },
}

impl<'a> Reader<'a> {
    pub fn new(src: &'a [u8]) -> Reader<'a>
        ensures source { result.src ≡ src.entry }
        ensures index { result.index ≡ 0 }
        ensures visits { Visits }
    {
        Reader {
            src,
            rest: src,
            index: 0,
        }
    }

    // The next record and its index, or none behind the last. A refused read moves nothing.
    // No `Iterator`: a refused read is refused again, so an iterator would never end.
    pub fn next(&mut self) -> Result<Option<(usize, Record<'a>)>, Refusal>
        ensures answer { shown result ≡ look self.old.index (rest_at self.old.src.now self.old.index) }
        ensures lent { IsLent self.old.src (offset_of self.old.src.now self.old.index) result }
        ensures source { self.new.src ≡ self.old.src }
        ensures index { self.new.index ≡ moved (shown result) self.old.index }
    {
        let (rest, index) = (self.rest, self.index);
        let &[kind, ..] = rest else {
            return Ok(None);
        };
        let kind = Kind::try_from(kind).map_err(|_| Refusal::Kind(index))?;
        let end = 1 + kind.body_size();
        if rest.len() < end {
            return Err(Refusal::Length);
        }
        // By index: `get` and `split_at_checked` do not say where the parts lie.
        self.rest = &rest[end..];
        self.index += 1;
        let body = &rest[1..end];
        Ok(Some((index, kind.record(body))))
    }
}
