// The shift recorder of document 02's K2: a block made of its events, a recording's next blocks laid into a lent buffer, and a lent block read.
// `make_block`, `lay_blocks` and `read_block` are the public functions; none requires anything, and what they answer is the model's.
#![tactic(auto)]

mod words;

ghost use Rattle.std.specs.Prelude.{◌≡◌, ◌+◌, ◌-◌, ◌≤◌, ◌<◌, min, length};
ghost use Rattle.model.specs.Records.{low_bytes, lay};
ghost use Rattle.model.specs.Pod.{zeros};
ghost use Rattle.model.specs.Recorder.{check_place, full_run, check_of, part, block_of, joined, recording};
ghost use Rattle.model.specs.Recorder.{four_at, count_in, judged_block, block_call};
ghost use Rattle.records.specs.Seen.{over};
ghost use Rattle.recorder.specs.Seen.{made_from, not_made, Room, not_laid, LaysAs, held_read, AnswersAs};

use common::Verdict;

// A block's bytes, the most events that it holds, and their bytes.
pub const BLOCK: usize = 512;

pub const MOST: usize = 62;

pub const FULL: usize = 496;

// The events stand behind the header, and the check behind all that it is over.
const HEADER: usize = 8;

const CHECK: usize = 508;

const LAST_NUMBER: usize = 4294967295;

// The block is zeros where the verdict is a refusal.
#[derive(Clone, Copy)]
pub struct BlockMade {
    pub verdict: Verdict,
    pub block: [u8; BLOCK],
}

// `next` is the number of the block after those that were laid; 0 after the last number, and no call takes that.
#[derive(Clone, Copy)]
pub struct BlocksLaid {
    pub verdict: Verdict,
    pub blocks: usize,
    pub next: u32,
    pub need: usize,
}

// The place and count of a block's events.
#[derive(Clone, Copy, Debug, PartialEq, Eq)]
pub struct Run {
    pub at: usize,
    pub count: usize,
}

// The name that a block is refused by.
#[derive(Clone, Copy, Debug, PartialEq, Eq)]
pub enum BlockRefusal {
    WrongCheck,
    WrongNumber,
    CountOver,
    NotZero,
}

// The sum over the bytes before the check. A byte weighs its position plus one.
fn sum_of(b: &[u8]) -> u32
    requires { check_place ≤ length b.now }
    ensures { result ≡ check_of b.now }
{
    let mut sum: u32 = 0;
    for i in 0..CHECK {
        sum += u32::from(b[i]) * (i as u32 + 1);
    }
    sum
}

// Whether the bytes from one place to before another are zero. All bits are joined before one test: with a test at each byte the loop is
// thirty times as long.
fn clear(b: &[u8], from: usize, to: usize) -> bool
    requires { to ≤ length b.now }
    ensures { result ≡ zeros (part from to b.now) }
{
    let mut bits: u8 = 0;
    for i in from..to {
        bits |= b[i];
    }
    bits == 0
}

// The bytes s at the start of b; the others stay.
#[tactic(auto, unfolding(records::specs::Seen::over))]
fn copy(b: &mut [u8], s: &[u8])
    requires { length s.now ≤ length b.old }
    ensures { b.new ≡ over s.now b.old }
{
    b[..s.len()].copy_from_slice(s);
}

// The four bytes of a number at the start of b, the lowest first; the others stay.
#[tactic(auto, unfolding(records::specs::Seen::over))]
fn put(b: &mut [u8], v: u32)
    requires { 4 ≤ length b.old }
    ensures { b.new ≡ over (low_bytes 4 v) b.old }
{
    b[..4].copy_from_slice(&v.to_le_bytes());
}

// The block is built whole, starting from 512 zeros. A count of 62 needs one byte of its two.
fn build(number: u32, events: &[u8]) -> [u8; BLOCK]
    requires { length events.now ≤ full_run }
    ensures { result ≡ block_of number events.now }
{
    let mut b = [0; BLOCK];
    put(&mut b, number);
    b[4] = (events.len() / 8) as u8;
    copy(&mut b[HEADER..], events);
    let sum = sum_of(&b);
    put(&mut b[CHECK..], sum);
    b
}

fn not_made(verdict: Verdict) -> BlockMade
    ensures { result ≡ not_made verdict }
{
    BlockMade {
        verdict,
        block: [0; BLOCK],
    }
}

// One block of 1 to 62 events: 4 where its number is 0 or the events are none or too many, 6 where they are no whole records.
pub fn make_block(number: u32, events: &[u8]) -> BlockMade
    ensures { result ≡ made_from (block_call number events.now) }
{
    if !common::between(number as usize, LAST_NUMBER) {
        return not_made(Verdict::Value);
    }
    if !common::between(events.len(), FULL) {
        return not_made(Verdict::Value);
    }
    if events.len() % 8 != 0 {
        return not_made(Verdict::Ragged);
    }
    BlockMade {
        verdict: Verdict::Accepted,
        block: build(number, events),
    }
}

// The end of the run that starts at `from`: 62 events on, or where the events end.
fn run_end(from: usize, len: usize) -> usize
    requires { from ≤ len }
    ensures { result ≡ from + min full_run (len - from) }
{
    from + FULL.min(len - from)
}

// All blocks of the events, one after the other from the position `at` on.
fn put_blocks(number: u32, events: &[u8], blocks: usize, buf: &mut [u8], at: usize)
    requires { Room number events.now blocks buf.old at }
    ensures { buf.new ≡ lay at (joined (recording number events.now)) buf.old }
{
    for k in 0..blocks {
        let from = FULL * k;
        let end = run_end(from, events.len());
        let b = build(number + (k as u32), &events[from..end]);
        let to = at + BLOCK * k;
        copy(&mut buf[to..], &b);
    }
}

fn not_laid(verdict: Verdict, number: u32, need: usize) -> BlocksLaid
    ensures { result ≡ not_laid verdict number need }
{
    BlocksLaid {
        verdict,
        blocks: 0,
        next: number,
        need,
    }
}

// A recording's next blocks, the first with this number, into `buf` from the position `at` on: 62 events to each but the last, which has the
// rest. So a recording that is laid by several calls has a multiple of 62 events in each but the last. 4 where a block's number would be none,
// 5 with the need, 6 where the events are no whole records.
pub fn lay_blocks(number: u32, events: &[u8], buf: &mut [u8], at: usize) -> BlocksLaid
    ensures { LaysAs number events.now at buf.old buf.new result }
{
    let blocks = events.len().div_ceil(FULL);
    if !common::between(number as usize, LAST_NUMBER) {
        return not_laid(Verdict::Value, number, 0);
    }
    let after = (number as usize) + blocks;
    if LAST_NUMBER + 1 < after {
        return not_laid(Verdict::Value, number, 0);
    }
    let need = BLOCK * blocks;
    if buf.len() < at || buf.len() - at < need {
        return not_laid(Verdict::NoRoom, number, need);
    }
    if events.len() % 8 != 0 {
        return not_laid(Verdict::Ragged, number, 0);
    }
    put_blocks(number, events, blocks, buf, at);
    BlocksLaid {
        verdict: Verdict::Accepted,
        blocks,
        next: (after % (LAST_NUMBER + 1)) as u32,
        need: 0,
    }
}

// The number whose four bytes stand from a place on.
fn four_at(b: &[u8], at: usize) -> u32
    requires { at + 4 ≤ length b.now }
    ensures { result ≡ four_at at b.now }
{
    u32::from_le_bytes([b[at], b[at + 1], b[at + 2], b[at + 3]])
}

fn count_of(block: &[u8]) -> usize
    requires { 6 ≤ length block.now }
    ensures { result ≡ count_in block.now }
{
    u16::from_le_bytes([block[4], block[5]]) as usize
}

// The first of the four tests that fails names the refusal.
fn judged(check: bool, number: bool, count: usize, zero: bool) -> Result<Run, BlockRefusal>
    ensures { result ≡ held_read (judged_block check number count zero) }
{
    if !check {
        return Err(BlockRefusal::WrongCheck);
    }
    if !number {
        return Err(BlockRefusal::WrongNumber);
    }
    if MOST < count {
        return Err(BlockRefusal::CountOver);
    }
    if !zero {
        return Err(BlockRefusal::NotZero);
    }
    Ok(Run { at: HEADER, count })
}

// One block where a number is expected. A piece of another length has a wrong check; of a block all tests are made, and the order is in `judged`.
pub fn read_block(block: &[u8], number: u32) -> Result<Run, BlockRefusal>
    ensures { AnswersAs number block.now result }
{
    if block.len() != BLOCK {
        return Err(BlockRefusal::WrongCheck);
    }
    let check = sum_of(block) == four_at(block, CHECK);
    let numbered = four_at(block, 0) == number;
    let count = count_of(block);
    let zero = clear(block, 6, HEADER) & clear(block, HEADER + 8 * count, CHECK);
    judged(check, numbered, count, zero)
}
