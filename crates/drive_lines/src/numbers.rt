// A line's numbers, each held to its kind. A negative one is kept as its 32 bits; a kind of fewer takes the lowest.
use crate::calls::{Call, Row};
use crate::kinds::Kind;
use arrayvec::ArrayVec;

// The most numbers of a line.
pub const NUMBERS: usize = 12000;

// Digits as a number, if they are that and 64 bits hold it.
fn size_of(digits: &[u8]) -> Option<u64> {
    let mut size: u64 = 0;
    for digit in digits {
        if !digit.is_ascii_digit() {
            return None;
        }
        size = size.checked_mul(10)?.checked_add(u64::from(digit - b'0'))?;
    }
    Some(size)
}

// A word as a number of a kind.
fn number_of(word: &[u8], kind: Kind) -> Option<u64> {
    let (most, below) = kind.range();
    match word {
        [] | [b'-'] => None,
        [b'-', digits @ ..] => size_of(digits)
            .filter(|size| *size <= below)
            .map(|size| size.wrapping_neg() % 0x1_0000_0000),
        _ => size_of(word).filter(|size| *size <= most),
    }
}

// The call that a line makes, whose numbers are left in `ns`; none where it is no call.
pub fn read(line: &[u8], ns: &mut ArrayVec<u64, NUMBERS>) -> Option<Call> {
    let mut words = line.split(|b| *b == b' ').filter(|word| !word.is_empty());
    let row = Row::named(words.next()?)?;
    ns.clear();
    for word in words {
        let kind = row.kind_at(ns.len())?;
        ns.try_push(number_of(word, kind)?).ok()?;
    }
    row.is_whole(ns.len()).then_some(row.1)
}
