// Groups of 257 bits: four blocks written, and read back.
ghost use Rattle.std.specs.Prelude.{◌≡◌, ◌+◌, ◌*◌, ◌/◌, ◌%◌, ◌^◌, ◌<◌, ◌++◌, map, drop, position};
ghost use Rattle.bits.specs.Bits.{field, number};
ghost use Rattle.blocks.specs.Blocks.{good, is_control, second_bit};
ghost use Rattle.blocks.specs.Groups.{headers, payloads, all_good, without, with_digit_at, high_digit, words, bits_of, group_bits, read_back, flagged, blocks_under};
ghost use Rattle.blocks.specs.Sound.{is_type, sound};

use crate::block::{Block, Header};
use std::array;
use std::cmp::Ordering;

// Bit 0, then 256 bits in four parts, the lowest bit of each first.
#[derive(Clone, Copy, PartialEq, Eq, Debug)]
pub struct Group {
    pub first: bool,
    pub parts: [u64; 4],
}

fn headers_of(blocks: [Block; 4]) -> [Header; 4]
    ensures { result ≡ headers blocks }
{
    blocks.map(|b| b.header)
}

fn payloads_of(blocks: [Block; 4]) -> [u64; 4]
    ensures { words result ≡ payloads blocks }
{
    blocks.map(|b| b.payload)
}

// One 0 and one 1.
fn is_good(h: Header) -> bool
    ensures { result ≡ good h }
{
    matches!(h, Header::Control | Header::Data)
}

// Whether each header is good. By value: of the blocks by reference, four headers were tested as a vector, and a bad one, which
// is hard to foretell, was seen late.
fn are_good(headers: [Header; 4]) -> bool
    ensures { result ≡ all_good headers }
{
    let [a, b, c, d] = headers;
    is_good(a) && is_good(b) && is_good(c) && is_good(d)
}

// The place of the first control block.
fn first_control(headers: &[Header; 4]) -> Option<usize>
    ensures { result ≡ position is_control headers.now }
{
    headers.iter().position(|&h| h == Header::Control)
}

fn flag(h: Header) -> u64
    ensures value { result ≡ second_bit h }
    ensures bound { result < 2 }
{
    u64::from(matches!(h, Header::Data | Header::Ones))
}

// The second header bits, the first block's lowest.
fn flags(headers: [Header; 4]) -> u64
    ensures { result ≡ number (map second_bit headers) }
{
    headers.iter().rev().fold(0, |x, &h| (x << 1) | flag(h))
}

// The part in front of the one that loses its digit: the last four bits of `before`, the word in front of payload x, then the
// payload's first sixty.
#[tactic(auto, using(crate::proofs::Parts::carried_bits))]
fn carried(before: u64, x: u64) -> u64
    ensures { field result 0 64 ≡ field before 60 4 ++ field x 0 60 }
{
    (x << 4) + (before >> 60)
}

// The part that loses its digit, bits 4 to 7 of payload x.
#[tactic(auto, using(crate::proofs::Parts::shortened_bits))]
fn shortened(before: u64, x: u64) -> u64
    ensures { field result 0 64 ≡ field before 60 4 ++ (field x 0 4 ++ field x 8 56) }
{
    x / 256 * 256 + x % 16 * 16 + (before >> 60)
}

// Four flags and the payloads, without the digit of payload `at`. An arm a place: with a part made by its index and `at`, which
// of the three it is was asked four times, and a group took 1.6 times as long.
fn without_digit(flags: u64, at: usize, payloads: [u64; 4]) -> [u64; 4]
    requires { at < 4 }
    ensures { words result ≡ field flags 0 4 ++ without (64 * at + 4) (words payloads) }
{
    let [a, b, c, d] = payloads;
    let front = flags << 60;
    match at {
        0 => [shortened(front, a), b, c, d],
        1 => [carried(front, a), shortened(a, b), c, d],
        2 => [carried(front, a), carried(a, b), shortened(b, c), d],
        _ => [
            carried(front, a),
            carried(a, b),
            carried(b, c),
            shortened(c, d),
        ],
    }
}

// The types of control blocks.
const TYPES: [u64; 11] = [
    0x1E, 0x78, 0x4B, 0x87, 0x99, 0xAA, 0xB4, 0xCC, 0xD2, 0xE1, 0xFF,
];

// The high digit of the type that has this low digit.
fn high_digit(low: u64) -> Option<u64>
    ensures { result ≡ high_digit low }
{
    TYPES.iter().find(|&t| t % 16 == low).map(|&t| t / 16)
}

// Payload i of a group, where payload `at` gets the digit as its bits 4 to 7. The first four bits of `next`, the part behind
// part x, come last.
#[tactic(auto, using(crate::proofs::Parts::uncarried_bits, crate::proofs::Parts::restored_bits))]
fn payload(i: usize, at: usize, digit: u64, x: u64, next: u64) -> u64
    requires { digit < 16 }
    ensures in_front { i < at → field result 0 64 ≡ field x 4 60 ++ field next 0 4 }
    ensures restored { i ≡ at → field result 0 64 ≡ field x 4 4 ++ (field digit 0 4 ++ field x 8 56) }
    ensures behind { at < i → result ≡ x }
{
    match i.cmp(&at) {
        Ordering::Less => x / 16 + ((next % 16) << 60),
        Ordering::Equal => x / 256 * 256 + digit * 16 + x / 16 % 16,
        Ordering::Greater => x,
    }
}

// The payloads behind the flags, with the digit of payload `at` put back.
fn with_digit(digit: u64, at: usize, parts: [u64; 4]) -> [u64; 4]
    requires { (digit < 16) × (at < 4) }
    ensures { words result ≡ with_digit_at (64 * at + 4) digit (drop 4 (words parts)) }
{
    let [_, b, c, d] = parts;
    let next = [b, c, d, 0];
    array::from_fn(|i| payload(i, at, digit, parts[i], next[i]))
}

// Whether the first octet of a payload is a listed type.
#[tactic(auto, unfolding(crate::specs::Sound::is_type, crate::specs::Groups::types))]
fn has_type(payload: u64) -> bool
    ensures { result ≡ is_type (payload % 256) }
{
    matches!(
        payload % 256,
        0x1E | 0x78 | 0x4B | 0x87 | 0x99 | 0xAA | 0xB4 | 0xCC | 0xD2 | 0xE1 | 0xFF
    )
}

// Whether a group of these blocks is sound: all headers are good, and the first control block, if any, has a listed type.
pub fn are_sound(blocks: [Block; 4]) -> bool
    ensures { result ≡ sound blocks }
{
    // By its place: the block that `find` lends has to lie in memory, and this took 1.4 times as long.
    let headers = headers_of(blocks);
    let [a, b, c, d] = blocks;
    are_good(headers)
        && match first_control(&headers) {
            None => true,
            Some(0) => has_type(a.payload),
            Some(1) => has_type(b.payload),
            Some(2) => has_type(c.payload),
            Some(_) => has_type(d.payload),
        }
}

// Flag 0 is a control block, flag 1 a data block.
fn headers(flags: u64) -> [Header; 4]
    ensures { result ≡ map flagged (field flags 0 4) }
{
    array::from_fn(|i| if (flags >> i) % 2 == 0 {
        Header::Control
    } else {
        Header::Data
    })
}

// A block from its 64 payload bits.
fn block(header: Header, payload: u64) -> Block
    ensures { result ≡ record { header = header; payload = number (field payload 0 64) } }
{
    Block { header, payload }
}

fn joined(headers: [Header; 4], payloads: [u64; 4]) -> [Block; 4]
    ensures { result ≡ blocks_under headers (words payloads) }
{
    array::from_fn(|i| block(headers[i], payloads[i]))
}

impl Group {
    // Four blocks as 257 bits.
    pub fn of(blocks: [Block; 4]) -> Group
        ensures { bits_of result ≡ group_bits blocks }
    {
        let headers = headers_of(blocks);
        let payloads = payloads_of(blocks);
        if !are_good(headers) {
            return Group {
                first: false,
                parts: without_digit(15, 0, payloads),
            };
        }
        match first_control(&headers) {
            None => Group {
                first: true,
                parts: payloads,
            },
            Some(at) => Group {
                first: false,
                parts: without_digit(flags(headers), at, payloads),
            },
        }
    }

    // Four blocks from 257 bits. Inlined, since a group or blocks with padding are copied in pieces at a call.
    #[inline(always)]
    pub fn blocks(self) -> [Block; 4]
        ensures { result ≡ read_back (bits_of self) }
    {
        let Group { first, parts } = self;
        if first {
            return joined([Header::Data; 4], parts);
        }
        let mut headers = headers(parts[0]);
        match first_control(&headers) {
            Some(at) => {
                let digit = match high_digit(parts[at] / 16 % 16) {
                    Some(digit) => digit,
                    None => {
                        headers[at] = Header::Ones;
                        0
                    }
                };
                joined(headers, with_digit(digit, at, parts))
            }
            None => {
                let headers = [Header::Zeros, Header::Ones, Header::Zeros, Header::Ones];
                joined(headers, with_digit(0, 0, parts))
            }
        }
    }
}
