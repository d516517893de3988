// Values made of a line's numbers. The line was held to its call's kinds before, so nothing is cut off here.
ghost use Rattle.std.specs.Prelude.{◌≡◌, ◌≤◌, length};

use crate::kinds::BUFFER;
use crate::numbers::NUMBERS;
use arrayvec::ArrayVec;

// Number i; 0 past the end.
pub fn number(ns: &[u64], i: usize) -> u64 {
    ns.get(i).copied().unwrap_or(0)
}

fn low_byte(v: u64) -> u8 {
    (v % 0x100) as u8
}

fn low_word(v: u64) -> u32 {
    (v % 0x1_0000_0000) as u32
}

pub fn natural(ns: &[u64], i: usize) -> u32 {
    low_word(number(ns, i))
}

pub fn signed(ns: &[u64], i: usize) -> i32 {
    natural(ns, i).cast_signed()
}

pub fn half(ns: &[u64], i: usize) -> u16 {
    (number(ns, i) % 0x1_0000) as u16
}

pub fn byte(ns: &[u64], i: usize) -> u8 {
    low_byte(number(ns, i))
}

pub fn signed_half(ns: &[u64], i: usize) -> i16 {
    half(ns, i).cast_signed()
}

pub fn signed_byte(ns: &[u64], i: usize) -> i8 {
    byte(ns, i).cast_signed()
}

// Whether the numbers from `from` on are bytes.
pub fn are_bytes(ns: &[u64], from: usize) -> bool {
    ns.iter().skip(from).all(|n| *n <= 0xff)
}

// The numbers from `from` on as bytes.
pub fn bytes_of(ns: &[u64], from: usize) -> ArrayVec<u8, NUMBERS> {
    let mut bytes = ArrayVec::new();
    let _ = bytes.extend(ns.iter().skip(from).map(|n| low_byte(*n)));
    bytes
}

// The numbers from `from` on with their signs.
pub fn frame_of(ns: &[u64], from: usize) -> ArrayVec<i32, NUMBERS> {
    let mut frame = ArrayVec::new();
    let _ = frame.extend(ns.iter().skip(from).map(|n| low_word(*n).cast_signed()));
    frame
}

// The N numbers from `from` on as bytes.
pub fn array_of<const N: usize>(ns: &[u64], from: usize) -> [u8; N] {
    let mut bytes = [0; N];
    for (byte, n) in bytes.iter_mut().zip(ns.iter().skip(from)) {
        *byte = low_byte(*n);
    }
    bytes
}

// Number i as a buffer's size.
pub fn size(ns: &[u64], i: usize) -> usize
    ensures { result ≤ 4096 }
{
    (number(ns, i) as usize).min(BUFFER)
}

// Marks, so that a byte that was touched shows.
pub fn marks() -> [u8; BUFFER]
    ensures { 4096 ≡ length result }
{
    let mut buf = io::buffer();
    for i in 0..BUFFER {
        buf[i] = ((37 * i + 11) % 256) as u8;
    }
    buf
}
