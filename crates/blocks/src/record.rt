// A record in a buffer: a kind and a body, which it borrows.

// The two headers that are neither data nor control: 00 and 11.
#[derive(Clone, Copy, PartialEq, Eq, Debug)]
pub enum BadHeader {
    Zeros,
    Ones,
}

// A body has the eight octets of a payload, or the three of a pair note.
#[derive(Clone, Copy)]
pub enum Record<'a> {
    Data(&'a [u8]),
    Control(&'a [u8]),
    BadHeader(BadHeader, &'a [u8]),
    Note(&'a [u8]),
}
