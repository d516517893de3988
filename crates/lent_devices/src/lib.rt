// The shift recorder and the force stick for a host that lends its buffers and has every answer as numbers. The public functions require nothing;
// what they answer is the library's. Called by `export`.
#![tactic(auto)]

ghost use Rattle.std.specs.Prelude.{◌≡◌, true, cond, eqb, length};
ghost use Rattle.model.specs.Force.{fits_in, word_values, byte_values, report as a_report};
ghost use Rattle.common.specs.Seen.{natural, verdict_number};
ghost use Rattle.force.specs.Seen.{seen, answer_seen};
ghost use Rattle.recorder.specs.Seen.{read_seen, name_of};
ghost use Rattle.lent_devices.specs.Blocks.{BlockMade, BlocksLaid, read_told, BlockRead as BlockTold};
ghost use Rattle.lent_devices.specs.Sticks.{up_to, most_byte, most_word, typed as typed_in, report_in, ForceWritten, short, force_told, ForceRead};

use common::Verdict;
use force::{Answer, Report};
use recorder::{BLOCK, BlockRefusal, Run};

// The numbers of a report, and of the answers: blocks, next and need; place and count; the need; a name and a report.
pub const REPORT: usize = 6;

pub const LAID: usize = 3;

pub const FOUND: usize = 2;

pub const NEED: usize = 1;

pub const TOLD: usize = 7;

// What a report's types hold.
const LEAST_WORD: i32 = -32768;

const MOST_SIGNED_WORD: i32 = 32767;

const LEAST_BYTE: i32 = -128;

const MOST_SIGNED_BYTE: i32 = 127;

const MOST_BYTE: u32 = 255;

const MOST_WORD: u32 = 65535;

// The names of an answer that is read.
const NOTHING: u8 = 0;

const A_REPORT: i32 = 1;

const NOT_FOR_US: u8 = 2;

const LENGTH_OVER: u8 = 3;

const WRONG_CHECK: u8 = 4;

const UNFINISHED: u8 = 5;

fn number_of(verdict: Verdict) -> u32
    ensures { result ≡ verdict_number verdict }
{
    verdict.number() as u32
}

// One block of 1 to 62 events in the lent block: 2 where that has not its 512 bytes, then the library's 4 and 6.
pub fn make_block(number: u32, events: &[u8], block: &mut [u8]) -> u32
    ensures { BlockMade number events.now block.old result block.new }
{
    if block.len() != BLOCK {
        return number_of(Verdict::State);
    }
    let a = recorder::make_block(number, events);
    let refusal = number_of(a.verdict);
    if refusal == 0 {
        block.copy_from_slice(&a.block);
    }
    refusal
}

// A recording's next blocks into `buf` from the position `at` on, with how many they are, the number of the block after them, which with a refusal is the first's, and the need with 5.
pub fn lay_blocks(
    number: u32,
    events: &[u8],
    buf: &mut [u8],
    at: usize,
    answer: &mut [u64; LAID],
) -> u32
    ensures { BlocksLaid number events.now at buf.old result answer.new buf.new }
{
    let a = recorder::lay_blocks(number, events, buf, at);
    *answer = [a.blocks as u64, a.next as u64, a.need as u64];
    number_of(a.verdict)
}

// Document 02's order of the names, and 0 for events.
fn name_of(a: Result<Run, BlockRefusal>) -> u32
    ensures { result ≡ name_of a }
{
    match a {
        Ok(_) => 0,
        Err(BlockRefusal::WrongCheck) => 1,
        Err(BlockRefusal::WrongNumber) => 2,
        Err(BlockRefusal::CountOver) => 3,
        Err(BlockRefusal::NotZero) => 4,
    }
}

fn read_told(a: Result<Run, BlockRefusal>) -> [u64; FOUND]
    ensures { result ≡ read_told (read_seen a) }
{
    match a {
        Ok(run) => [run.at as u64, run.count as u64],
        Err(_) => [0, 0],
    }
}

// One block where a number is expected: its events' place and count, or the number of the name that it is refused by.
pub fn read_block(block: &[u8], number: u32, answer: &mut [u64; FOUND]) -> u32
    ensures { BlockTold number block.now result answer.new }
{
    let a = recorder::read_block(block, number);
    *answer = read_told(a);
    name_of(a)
}

fn word_fits(v: i32) -> bool
    ensures { result ≡ fits_in word_values v }
{
    (LEAST_WORD..=MOST_SIGNED_WORD).contains(&v)
}

fn byte_fits(v: i32) -> bool
    ensures { result ≡ fits_in byte_values v }
{
    (LEAST_BYTE..=MOST_SIGNED_BYTE).contains(&v)
}

// Whether each number is one that the report's type holds.
#[tactic(auto, unfolding(crate::specs::Sticks::typed))]
fn typed(l: &[i32; REPORT]) -> bool
    ensures { result ≡ typed_in l.now }
{
    if !word_fits(l[0]) {
        return false;
    }
    if !word_fits(l[1]) {
        return false;
    }
    if !common::within(l[2], MOST_BYTE) {
        return false;
    }
    if !common::within(l[3], MOST_WORD) {
        return false;
    }
    if !common::within(l[4], MOST_BYTE) {
        return false;
    }
    byte_fits(l[5])
}

fn signed_word(v: i32) -> i16
    requires { fits_in word_values v ≡ true }
    ensures { result ≡ v }
{
    v as i16
}

fn signed_byte(v: i32) -> i8
    requires { fits_in byte_values v ≡ true }
    ensures { result ≡ v }
{
    v as i8
}

fn plain_byte(v: i32) -> u8
    requires { up_to most_byte v ≡ true }
    ensures { result ≡ natural v }
{
    common::nat_of(v) as u8
}

fn plain_word(v: i32) -> u16
    requires { up_to most_word v ≡ true }
    ensures { result ≡ natural v }
{
    common::nat_of(v) as u16
}

fn report_of(l: &[i32; REPORT]) -> Report
    requires { typed_in l.now ≡ true }
    ensures { seen result ≡ report_in l.now }
{
    Report {
        x: signed_word(l[0]),
        y: signed_word(l[1]),
        throttle: plain_byte(l[2]),
        buttons: plain_word(l[3]),
        hat: plain_byte(l[4]),
        rudder: signed_byte(l[5]),
    }
}

// A report's packet into `buf` from the position `at` on, from its six numbers; 4 where one is none of its type's, then the library's 4 and 5.
pub fn force_write(
    report: &[i32; REPORT],
    buf: &mut [u8],
    at: usize,
    answer: &mut [u64; NEED],
) -> u32
    ensures { ForceWritten report.now at buf.old result answer.new buf.new }
{
    if !typed(report) {
        *answer = [0; NEED];
        return number_of(Verdict::Value);
    }
    let a = force::write(report_of(report), buf, at);
    *answer = [a.need as u64];
    number_of(a.verdict)
}

fn report_told(r: Report) -> [i32; TOLD]
    ensures { result ≡ force_told (a_report (seen r)) }
{
    [
        A_REPORT,
        i32::from(r.x),
        i32::from(r.y),
        i32::from(r.throttle),
        i32::from(r.buttons),
        i32::from(r.hat),
        i32::from(r.rudder),
    ]
}

fn few(name: u8, a: u8, b: u8) -> [i32; TOLD]
    ensures { result ≡ short name a b }
{
    [i32::from(name), i32::from(a), i32::from(b), 0, 0, 0, 0]
}

fn force_told(a: Answer) -> [i32; TOLD]
    ensures { result ≡ force_told (answer_seen a) }
{
    match a {
        Answer::Report(r) => report_told(r),
        Answer::NotForUs(op, len) => few(NOT_FOR_US, op, len),
        Answer::LengthOver => few(LENGTH_OVER, 0, 0),
        Answer::WrongCheck => few(WRONG_CHECK, 0, 0),
        Answer::Unfinished => few(UNFINISHED, 0, 0),
        Answer::Nothing => few(NOTHING, 0, 0),
    }
}

// The packet at the first 0x2B from `at` on as numbers, and where reading goes on.
pub fn force_read(bytes: &[u8], at: usize, answer: &mut [i32; TOLD]) -> usize
    ensures { ForceRead bytes.now at result answer.new }
{
    let a = force::read(bytes, at);
    *answer = force_told(a.answer);
    a.next
}
