// The calls of the shift recorder (K2): a block made, a recording's next blocks laid into a buffer of marks, and a piece read as a block.
use crate::say_buffer;
use drive_lines::kinds::{BLOCK_BYTES, LAY_BYTES};
use drive_lines::values;
use recorder::BlockRefusal;
use stream::{Out, say};

// Where a line has a block's number, and the position and the size of a buffer. The bytes come behind them, or at once behind the number.
const NUMBER: usize = 0;

const POSITION: usize = 1;

const SIZE: usize = 2;

pub fn block(out: &mut Out, ns: &[u64]) {
    let events = values::bytes_of(ns, BLOCK_BYTES);
    let a = recorder::make_block(values::natural(ns, NUMBER), events.as_slice());
    say!(out, "{}", a.verdict);
    say_buffer(out, &a.block);
}

pub fn lay(out: &mut Out, ns: &[u64]) {
    let number = values::natural(ns, NUMBER);
    let position = values::number(ns, POSITION) as usize;
    let events = values::bytes_of(ns, LAY_BYTES);
    let mut marks = values::marks();
    let buf = &mut marks[..values::size(ns, SIZE)];
    let a = recorder::lay_blocks(number, events.as_slice(), buf, position);
    say!(out, "{} {} {} {}", a.verdict, a.blocks, a.next, a.need);
    say_buffer(out, buf);
}

// The place and count of the events, or the number of the name that the block is refused by, in document 02's order.
pub fn read(out: &mut Out, ns: &[u64]) {
    let piece = values::bytes_of(ns, BLOCK_BYTES);
    match recorder::read_block(piece.as_slice(), values::natural(ns, NUMBER)) {
        Ok(run) => say!(out, "0 {} {}", run.at, run.count),
        Err(BlockRefusal::WrongCheck) => say!(out, "1"),
        Err(BlockRefusal::WrongNumber) => say!(out, "2"),
        Err(BlockRefusal::CountOver) => say!(out, "3"),
        Err(BlockRefusal::NotZero) => say!(out, "4"),
    }
}
