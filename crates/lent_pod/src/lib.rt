// The pod, and the commands to it, for a host that lends the pod's state as bytes and has every answer as numbers. The public functions require
// nothing; each answers document 01's number, 0 for accepted, and what it leaves is the library's answer. Called by `export`.
#![tactic(auto)]

ghost use Rattle.std.specs.Prelude.{◌≡◌, ◌∷◌, [], ◌<◌, pos, length};
ghost use Rattle.model.specs.Pod.{relative, time_of_day, both_sticks, one_stick};
ghost use Rattle.model.specs.Commands.{buttons, absolute, threshold, scale, load, set_clock};
ghost use Rattle.common.specs.Seen.{verdict_number};
ghost use Rattle.pod.specs.Seen.{clock_seen, report_seen, refusal_of};
ghost use Rattle.commands.specs.Seen.{seen as command_seen, answer_seen};
ghost use Rattle.lent_pod.specs.Pods.{pod_size, bit, formed as formed_in, unpacked as unpacked_of, packed, report_told, PodFresh, PodStepped};
ghost use Rattle.lent_pod.specs.Orders.{clock_of, command_in, both_up_to, three_bytes, typed, named as names_in, held_named, command_told};
ghost use Rattle.lent_pod.specs.Orders.{Asked, CommandWritten, order_told, CommandRead};

use commands::{
    AbsoluteMode, Answer, AskClock, ButtonAction, Command, Interrogate, LoadPosition, RelativeMode,
    Reset, Scale, SetClock, Threshold,
};
use common::Verdict;
use pod::{Clock, PodState, Relative, Report, Stick};

// The bytes of a pod's state, and how they begin.
pub const POD: usize = 12;

const VERSION: u8 = 1;

const KIND: u8 = 4;

// The numbers of an answer: its name's, and at most six others.
pub const TOLD: usize = 7;

const MORE: u16 = 0;

const SELF_TEST_PASSED: u16 = 1;

const KEY_DOWN: u16 = 2;

const KEY_UP: u16 = 3;

const ABSOLUTE: u16 = 4;

const RELATIVE: i32 = 5;

const BOTH_STICKS: u16 = 6;

const ONE_STICK: u16 = 7;

const TIME_OF_DAY: i32 = 8;

const BAD_BYTE: u16 = 9;

const BAD_REPORT: u16 = 10;

// The numbers of a command: its own, and at most six that it carries; with a name before them they are an answer. A need by itself is one number.
pub const ORDER: usize = 7;

pub const ORDER_TOLD: usize = 8;

pub const NEED: usize = 1;

const MOST_BYTE: u32 = 255;

const MOST_WORD: u32 = 65535;

// The names of an answer that is read.
const NOTHING: u32 = 0;

const A_COMMAND: u32 = 1;

const LOST: u32 = 2;

const NOT_FOR_US: u32 = 3;

const REFUSED: u32 = 4;

const UNFINISHED: u32 = 5;

// What seven numbers name.
#[derive(Clone, Copy)]
pub enum Named {
    Command(Command),
    Nothing,
}

fn number_of(verdict: Verdict) -> u32
    ensures { result ≡ verdict_number verdict }
{
    verdict.number() as u32
}

// Whether the bytes have the form of a pod's state.
#[tactic(auto, unfolding(crate::specs::Pods::formed))]
fn formed(b: &[u8]) -> bool
    ensures { result ≡ formed_in b.now }
{
    b.len() == POD && b[0] == VERSION && b[1] == KIND && b[2] <= 1 && b[10] == 0 && b[11] == 0
}

fn unpacked(b: &[u8]) -> PodState
    requires { length b.now ≡ pod_size }
    ensures { result ≡ unpacked_of b.now }
{
    PodState {
        waits: b[2] == 1,
        bytes: [b[4], b[5], b[6], b[7], b[8], b[9]],
        count: b[3] as usize,
    }
}

fn bit_of(b: bool) -> u8
    ensures { result ≡ bit b }
{
    u8::from(b)
}

// All twelve bytes are written: those before count for nothing.
fn pack(b: &mut [u8], s: PodState)
    requires { (length b.old ≡ pod_size) × (s.count < 256) }
    ensures { b.new ≡ packed s }
{
    b.copy_from_slice(&[
        VERSION,
        KIND,
        bit_of(s.waits),
        s.count as u8,
        s.bytes[0],
        s.bytes[1],
        s.bytes[2],
        s.bytes[3],
        s.bytes[4],
        s.bytes[5],
        0,
        0,
    ]);
}

// A fresh pod's state in the bytes, which waits; 2 where they are not as many as a state has.
pub fn pod_fresh(state: &mut [u8]) -> u32
    ensures { PodFresh state.old result state.new }
{
    if state.len() != POD {
        return number_of(Verdict::State);
    }
    pack(state, PodState::fresh());
    number_of(Verdict::Accepted)
}

// A name and up to four numbers.
fn few(name: u16, a: u16, b: u16, c: u16, d: u16) -> [i32; TOLD]
    ensures { result ≡ pos name ∷ pos a ∷ pos b ∷ pos c ∷ pos d ∷ pos 0 ∷ pos 0 ∷ [] }
{
    [
        i32::from(name),
        i32::from(a),
        i32::from(b),
        i32::from(c),
        i32::from(d),
        0,
        0,
    ]
}

fn relative_told(r: Relative) -> [i32; TOLD]
    ensures { result ≡ report_told (relative r.left r.right r.dx r.dy) }
{
    [
        RELATIVE,
        i32::from(bit_of(r.left)),
        i32::from(bit_of(r.right)),
        i32::from(r.dx),
        i32::from(r.dy),
        0,
        0,
    ]
}

fn clock_told(c: Clock) -> [i32; TOLD]
    ensures { result ≡ report_told (time_of_day (clock_seen c)) }
{
    [
        TIME_OF_DAY,
        i32::from(c.year),
        i32::from(c.month),
        i32::from(c.day),
        i32::from(c.hour),
        i32::from(c.minute),
        i32::from(c.second),
    ]
}

fn both_told(s: Stick, t: Stick) -> [i32; TOLD]
    ensures { result ≡ report_told (both_sticks s.trigger s.position t.trigger t.position) }
{
    few(
        BOTH_STICKS,
        u16::from(bit_of(s.trigger)),
        u16::from(s.position),
        u16::from(bit_of(t.trigger)),
        u16::from(t.position),
    )
}

fn stick_told(which: u8, s: Stick) -> [i32; TOLD]
    ensures { result ≡ report_told (one_stick which s.trigger s.position) }
{
    few(
        ONE_STICK,
        u16::from(which),
        u16::from(bit_of(s.trigger)),
        u16::from(s.position),
        0,
    )
}

// The numbers of an answer; zeros of a refusal.
fn told_of(report: Report) -> [i32; TOLD]
    ensures { result ≡ report_told (report_seen report) }
{
    match report {
        Report::More => few(MORE, 0, 0, 0, 0),
        Report::KeyDown(r) => few(KEY_DOWN, u16::from(r.key), 0, 0, 0),
        Report::KeyUp(r) => few(KEY_UP, u16::from(r.key), 0, 0, 0),
        Report::Absolute(r) => few(ABSOLUTE, u16::from(r.flags), r.x, r.y, 0),
        Report::Relative(r) => relative_told(r),
        Report::TimeOfDay(r) => clock_told(r.clock),
        Report::BothSticks(r) => both_told(r.stick0, r.stick1),
        Report::OneStick(r) => stick_told(r.which, r.stick),
        Report::SelfTestPassed(_) => few(SELF_TEST_PASSED, 0, 0, 0, 0),
        Report::BadByte(_) => few(BAD_BYTE, 0, 0, 0, 0),
        Report::BadReport => few(BAD_REPORT, 0, 0, 0, 0),
        Report::Refused => [0; TOLD],
    }
}

fn refusal_of(report: Report) -> u32
    ensures { result ≡ refusal_of report }
{
    match report {
        Report::Refused => 2,
        _ => 0,
    }
}

// One byte to the pod whose state the bytes hold, and the answer's numbers; 2 where they hold none, or one that is not well formed.
pub fn pod_step(state: &mut [u8], byte: u8, answer: &mut [i32; TOLD]) -> u32
    ensures { PodStepped state.old byte result state.new answer.new }
{
    if !formed(state) {
        *answer = [0; TOLD];
        return number_of(Verdict::State);
    }
    let a = pod::step(unpacked(state), byte);
    *answer = told_of(a.report);
    let refusal = refusal_of(a.report);
    if refusal == 0 {
        pack(state, a.state);
    }
    refusal
}

fn both_up_to(x: u32, y: u32, top: u32) -> bool
    ensures { result ≡ both_up_to top x y }
{
    x <= top && y <= top
}

fn three_bytes(a: u32, b: u32, c: u32) -> bool
    ensures { result ≡ three_bytes a b c }
{
    a <= MOST_BYTE && both_up_to(b, c, MOST_BYTE)
}

fn buttons_of(action: u32) -> Named
    ensures { result ≡ held_named (typed (buttons action)) (buttons action) }
{
    if MOST_BYTE < action {
        return Named::Nothing;
    }
    Named::Command(Command::ButtonAction(ButtonAction {
        action: action as u8,
    }))
}

fn absolute_of(x: u32, y: u32) -> Named
    ensures { result ≡ held_named (typed (absolute x y)) (absolute x y) }
{
    if !both_up_to(x, y, MOST_WORD) {
        return Named::Nothing;
    }
    Named::Command(Command::AbsoluteMode(AbsoluteMode {
        x: x as u16,
        y: y as u16,
    }))
}

fn threshold_of(x: u32, y: u32) -> Named
    ensures { result ≡ held_named (typed (threshold x y)) (threshold x y) }
{
    if !both_up_to(x, y, MOST_BYTE) {
        return Named::Nothing;
    }
    Named::Command(Command::Threshold(Threshold {
        x: x as u8,
        y: y as u8,
    }))
}

fn scale_of(x: u32, y: u32) -> Named
    ensures { result ≡ held_named (typed (scale x y)) (scale x y) }
{
    if !both_up_to(x, y, MOST_BYTE) {
        return Named::Nothing;
    }
    Named::Command(Command::Scale(Scale {
        x: x as u8,
        y: y as u8,
    }))
}

fn load_of(x: u32, y: u32) -> Named
    ensures { result ≡ held_named (typed (load x y)) (load x y) }
{
    if !both_up_to(x, y, MOST_WORD) {
        return Named::Nothing;
    }
    Named::Command(Command::LoadPosition(LoadPosition {
        x: x as u16,
        y: y as u16,
    }))
}

fn clock_of(ns: &[u32; ORDER]) -> Named
    ensures { result ≡ held_named (typed (set_clock (clock_of ns.now))) (set_clock (clock_of ns.now)) }
{
    if !three_bytes(ns[1], ns[2], ns[3]) || !three_bytes(ns[4], ns[5], ns[6]) {
        return Named::Nothing;
    }
    let clock = Clock {
        year: ns[1] as u8,
        month: ns[2] as u8,
        day: ns[3] as u8,
        hour: ns[4] as u8,
        minute: ns[5] as u8,
        second: ns[6] as u8,
    };
    Named::Command(Command::SetClock(SetClock { clock }))
}

// docs/DRIVE.md numbers the commands. Numbers past a command's own are not looked at.
#[tactic(auto, unfolding(crate::specs::Orders::command_by))]
fn what_of(ns: &[u32; ORDER]) -> Named
    ensures { result ≡ held_named (names_in ns.now) (command_in ns.now) }
{
    match ns[0] {
        0 => Named::Command(Command::Reset(Reset {})),
        1 => buttons_of(ns[1]),
        2 => Named::Command(Command::RelativeMode(RelativeMode {})),
        3 => absolute_of(ns[1], ns[2]),
        4 => threshold_of(ns[1], ns[2]),
        5 => scale_of(ns[1], ns[2]),
        6 => Named::Command(Command::Interrogate(Interrogate {})),
        7 => load_of(ns[1], ns[2]),
        8 => clock_of(ns),
        9 => Named::Command(Command::AskClock(AskClock {})),
        _ => Named::Nothing,
    }
}

// The library's write of a command, with the pod's next state packed where it is accepted.
fn write_packed(
    b: &mut [u8],
    s: PodState,
    command: Command,
    buf: &mut [u8],
    at: usize,
    answer: &mut [u64; NEED],
) -> u32
    requires { length b.old ≡ pod_size }
    ensures { Asked s command at b.old buf.old result b.new answer.new buf.new }
{
    let a = commands::write(s, command, buf, at);
    *answer = [a.need as u64];
    let refusal = number_of(a.verdict);
    if refusal == 0 {
        pack(b, a.state);
    }
    refusal
}

// A command, by its numbers, into `buf` from the position `at` on, with the pod's state in hand: 2, then 11 where the numbers name none, then the
// library's 5 and 11.
pub fn command_write(
    state: &mut [u8],
    command: &[u32; ORDER],
    buf: &mut [u8],
    at: usize,
    answer: &mut [u64; NEED],
) -> u32
    ensures { CommandWritten state.old command.now at buf.old result state.new answer.new buf.new }
{
    *answer = [0; NEED];
    if !formed(state) {
        return number_of(Verdict::State);
    }
    let s = unpacked(state);
    if !pod::well_formed(s) {
        return number_of(Verdict::State);
    }
    match what_of(command) {
        Named::Command(c) => write_packed(state, s, c, buf, at, answer),
        Named::Nothing => number_of(Verdict::Command),
    }
}

// A command's number and up to two that it carries.
fn two_told(number: u32, x: u16, y: u16) -> [u32; ORDER_TOLD]
    ensures { result ≡ 1 ∷ number ∷ x ∷ y ∷ 0 ∷ 0 ∷ 0 ∷ 0 ∷ [] }
{
    [A_COMMAND, number, u32::from(x), u32::from(y), 0, 0, 0, 0]
}

fn six_told(c: Clock) -> [u32; ORDER_TOLD]
    ensures { result ≡ 1 ∷ command_told (set_clock (clock_seen c)) }
{
    [
        A_COMMAND,
        8,
        u32::from(c.year),
        u32::from(c.month),
        u32::from(c.day),
        u32::from(c.hour),
        u32::from(c.minute),
        u32::from(c.second),
    ]
}

fn command_told(command: Command) -> [u32; ORDER_TOLD]
    ensures { result ≡ 1 ∷ command_told (command_seen command) }
{
    match command {
        Command::Reset(_) => two_told(0, 0, 0),
        Command::ButtonAction(c) => two_told(1, u16::from(c.action), 0),
        Command::RelativeMode(_) => two_told(2, 0, 0),
        Command::AbsoluteMode(c) => two_told(3, c.x, c.y),
        Command::Threshold(c) => two_told(4, u16::from(c.x), u16::from(c.y)),
        Command::Scale(c) => two_told(5, u16::from(c.x), u16::from(c.y)),
        Command::Interrogate(_) => two_told(6, 0, 0),
        Command::LoadPosition(c) => two_told(7, c.x, c.y),
        Command::SetClock(c) => six_told(c.clock),
        Command::AskClock(_) => two_told(9, 0, 0),
    }
}

fn named_told(name: u32) -> [u32; ORDER_TOLD]
    ensures { result ≡ name ∷ 0 ∷ 0 ∷ 0 ∷ 0 ∷ 0 ∷ 0 ∷ 0 ∷ [] }
{
    [name, 0, 0, 0, 0, 0, 0, 0]
}

fn order_told(a: Answer) -> [u32; ORDER_TOLD]
    ensures { result ≡ order_told (answer_seen a) }
{
    match a {
        Answer::Command(c) => command_told(c),
        Answer::Lost => named_told(LOST),
        Answer::NotForUs => named_told(NOT_FOR_US),
        Answer::Refused => named_told(REFUSED),
        Answer::Unfinished => named_told(UNFINISHED),
        Answer::Nothing => named_told(NOTHING),
    }
}

// The command that begins at `at` as numbers, and where reading goes on.
pub fn command_read(bytes: &[u8], at: usize, answer: &mut [u32; ORDER_TOLD]) -> usize
    ensures { CommandRead bytes.now at result answer.new }
{
    let a = commands::read(bytes, at);
    *answer = order_told(a.answer);
    a.next
}
