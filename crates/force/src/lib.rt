// The force stick on the serial port, 02's K10: I-Force packets read from a lent slice, and a stick's report written into a lent buffer. Called
// by programs and by a host; `read` and `write` are the calls, neither requires anything, and what they answer is the model's. `join`, `word_of`
// and `signed_byte` are for a program that has a report's bytes in another order.
#![tactic(auto)]

mod words;

ghost use Rattle.std.specs.Prelude.{◌≡◌, true, ◌&&◌, ◌≤◌, eqb, length};
ghost use Rattle.model.specs.Records.{join16};
ghost use Rattle.model.specs.Calls.{room_for};
ghost use Rattle.model.specs.Force.{stick_op, stick_data, word_values, byte_values, stick_bytes, check_of, signed_in, bits_in};
ghost use Rattle.model.specs.Force.{good_report, report_of, packet_of, meant, len_in, judged_by, packet_in, mark_from};
ghost use Rattle.records.specs.Seen.{over};
ghost use Rattle.force.specs.Seen.{seen, held, held_answer, held_read, AnswersAs, Wrote};

use common::Verdict;

// A packet is 0x2B, OP, LEN, LEN data bytes and CS.
const MARK: u8 = 0x2b;

const STICK_OP: u8 = 0x01;

const STICK_DATA: u8 = 8;

const MOST_DATA: u8 = 16;

// 0x2B, OP and LEN.
const HEAD: usize = 3;

// The bytes of a written packet, and where its CS stands.
pub const LENGTH: usize = 12;

const CHECK: usize = 11;

pub const MOST_BUTTONS: u16 = 4095;

pub const MOST_HAT: u8 = 15;

#[derive(Clone, Copy)]
pub struct Report {
    pub x: i16,
    pub y: i16,
    pub throttle: u8,
    pub buttons: u16,
    pub hat: u8,
    pub rudder: i8,
}

#[derive(Clone, Copy)]
pub enum Answer {
    Report(Report),
    // OP and LEN
    NotForUs(u8, u8),
    LengthOver,
    WrongCheck,
    Unfinished,
    Nothing,
}

#[derive(Clone, Copy)]
pub struct ReadAnswer {
    pub answer: Answer,
    pub next: usize,
}

#[derive(Clone, Copy)]
pub struct Written {
    pub verdict: Verdict,
    pub need: usize,
}

fn check_of(bytes: &[u8]) -> u8
    ensures { result ≡ check_of bytes.now }
{
    let mut sum = 0;
    for b in bytes {
        sum ^= *b;
    }
    sum
}

pub fn join(low: u8, high: u8) -> u16
    ensures { result ≡ join16 low high }
{
    u16::from_le_bytes([low, high])
}

#[tactic(auto, unfolding(model::specs::Force::signed_in))]
pub fn signed_byte(v: u8) -> i8
    ensures { result ≡ signed_in byte_values v }
{
    v.cast_signed()
}

#[tactic(auto, unfolding(model::specs::Force::signed_in))]
pub fn word_of(low: u8, high: u8) -> i16
    ensures { result ≡ signed_in word_values (join16 low high) }
{
    i16::from_le_bytes([low, high])
}

// Eight data bytes. Byte 06 holds the buttons' upper bits in its lower half and the hat in its upper one.
fn report_of(bytes: &[u8]) -> Report
    requires { length bytes.now ≡ stick_data }
    ensures { result ≡ held (report_of bytes.now) }
{
    Report {
        x: word_of(bytes[0], bytes[1]),
        y: word_of(bytes[2], bytes[3]),
        throttle: bytes[4],
        buttons: join(bytes[5], bytes[6] % 16),
        hat: bytes[6] / 16,
        rudder: signed_byte(bytes[7]),
    }
}

// OP 01 with LEN 8.
fn is_report(op: u8, len: u8) -> bool
    ensures { result ≡ (eqb op stick_op && eqb len stick_data) }
{
    op == STICK_OP && len == STICK_DATA
}

// What a packet with a good CS says.
fn contents(op: u8, len: u8, bytes: &[u8]) -> Answer
    requires { length bytes.now ≡ len }
    ensures { result ≡ held_answer (meant op len bytes.now) }
{
    if !is_report(op, len) {
        return Answer::NotForUs(op, len);
    }
    Answer::Report(report_of(bytes))
}

// LEN of a packet at the start of `packet`; 0 where it is not there yet, so that the packet is then too short as well.
fn len_in(packet: &[u8]) -> u8
    ensures { result ≡ len_in packet.now }
{
    if packet.len() < HEAD {
        return 0;
    }
    packet[2]
}

// How many bytes it takes to answer: LEN alone refuses a length.
fn judged_by(len: u8) -> usize
    ensures { result ≡ judged_by len }
{
    if MOST_DATA < len {
        return HEAD;
    }
    HEAD + (len as usize) + 1
}

fn answered(answer: Answer, next: usize) -> ReadAnswer
    ensures { result ≡ record { answer = answer; next = next } }
{
    ReadAnswer { answer, next }
}

// A packet at the start of `packet`; places are counted from there. Too few bytes leave reading at its 0x2B, a refusal at the very next byte.
fn packet_in(packet: &[u8]) -> ReadAnswer
    ensures { result ≡ held_read (packet_in packet.now) }
{
    let len = len_in(packet);
    let need = judged_by(len);
    if packet.len() < need {
        return answered(Answer::Unfinished, 0);
    }
    if MOST_DATA < len {
        return answered(Answer::LengthOver, 1);
    }
    let end = need - 1;
    if check_of(&packet[..end]) != packet[end] {
        return answered(Answer::WrongCheck, 1);
    }
    let answer = contents(packet[1], len, &packet[HEAD..end]);
    answered(answer, need)
}

// The place of the first 0x2B from `at` on; the end, or `at` if that is past it, where there is none.
fn mark_from(bytes: &[u8], at: usize) -> usize
    ensures { result ≡ mark_from bytes.now at }
{
    for place in at..bytes.len() {
        if bytes[place] == MARK {
            return place;
        }
    }
    at.max(bytes.len())
}

// The packet at the first 0x2B from `at` on, and where reading goes on; nothing, at the end, where there is none.
pub fn read(bytes: &[u8], at: usize) -> ReadAnswer
    ensures { AnswersAs bytes.now at result }
{
    let place = mark_from(bytes, at);
    if bytes.len() <= place {
        return answered(Answer::Nothing, bytes.len());
    }
    let found = packet_in(&bytes[place..]);
    answered(found.answer, place + found.next)
}

fn report_ok(report: Report) -> bool
    ensures { result ≡ good_report (seen report) }
{
    report.buttons <= MOST_BUTTONS && report.hat <= MOST_HAT
}

// A report's packet at the start of `b`; the other bytes stay.
fn put(b: &mut [u8], report: Report)
    requires { (stick_bytes ≤ length b.old) × (good_report (seen report) ≡ true) }
    ensures { b.new ≡ over (packet_of (seen report)) b.old }
{
    let x = report.x.to_le_bytes();
    let y = report.y.to_le_bytes();
    let buttons = report.buttons.to_le_bytes();
    let unchecked = [
        MARK,
        STICK_OP,
        STICK_DATA,
        x[0],
        x[1],
        y[0],
        y[1],
        report.throttle,
        buttons[0],
        16 * report.hat + buttons[1],
        report.rudder.cast_unsigned(),
    ];
    b[..CHECK].copy_from_slice(&unchecked);
    b[CHECK] = check_of(&unchecked);
}

fn has_room(size: usize, at: usize) -> bool
    ensures { result ≡ room_for stick_bytes at size }
{
    at <= size && LENGTH <= size - at
}

// Writes a report's packet into `buf` from the position `at` on; refusals 4 and 5 in rising number.
pub fn write(report: Report, buf: &mut [u8], at: usize) -> Written
    ensures { Wrote report at buf.old result buf.new }
{
    if !report_ok(report) {
        return Written {
            verdict: Verdict::Value,
            need: 0,
        };
    }
    if !has_room(buf.len(), at) {
        return Written {
            verdict: Verdict::NoRoom,
            need: LENGTH,
        };
    }
    put(&mut buf[at..], report);
    Written {
        verdict: Verdict::Accepted,
        need: 0,
    }
}
