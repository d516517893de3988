// The pod reader of document 01, "Pod reports", with 02's K3 and K13's report of the time of day: one byte at a time, the state holds the
// unfinished report and knows whether it waits for "self-test passed". Called by show_pod and by a host; `PodState::fresh` and `step` are the
// public functions, neither requires anything, and what they answer is the model's. `well_formed` and `clock_ok` are public for `commands`.
#![tactic(auto)]

mod words;

ghost use Rattle.std.specs.Prelude.{◌≡◌, ◌∷◌, [], ◌++◌, ◌-◌, ◌≤◌, take, drop};
ghost use Rattle.model.specs.Pod.{kind_of, amended, length_of, places, held_in, emptied, unfinished, zeros, well_formed, waits_after, relative, word, signed, good_digits, good_three, good_clock, good_stick, judged_absolute, judged_time, judged_both, judged_stick, judged, clock_in, first_of};
ghost use Rattle.pod.specs.Seen.{kind_seen, seen, held, clock_seen, held_clock, held_stick, held_report, report_seen, fresh_state, AnswersAs};

// One fewer than the longest report has bytes, since its last byte is never held.
pub const PLACES: usize = 6;

// What a pod sends after power-up or reset where its self-test passed. Later it is key 0x70 coming up.
const SELF_TEST: u8 = 0xf0;

// The places from `count` on are unused, and 0 in a well-formed state.
#[derive(Clone, Copy)]
pub struct PodState {
    pub waits: bool,
    pub bytes: [u8; PLACES],
    pub count: usize,
}

#[derive(Clone, Copy)]
pub struct KeyDown {
    pub key: u8,
}

impl KeyDown {
    pub const LENGTH: usize = 1;
}

#[derive(Clone, Copy)]
pub struct KeyUp {
    pub key: u8,
}

impl KeyUp {
    pub const LENGTH: usize = 1;
}

#[derive(Clone, Copy)]
pub struct Absolute {
    pub flags: u8,
    pub x: u16,
    pub y: u16,
}

impl Absolute {
    pub const LENGTH: usize = 6;
}

#[derive(Clone, Copy)]
pub struct Relative {
    pub left: bool,
    pub right: bool,
    pub dx: i8,
    pub dy: i8,
}

impl Relative {
    pub const LENGTH: usize = 3;
}

// Six clock bytes as they stand on the line: two decimal digits each, packed.
#[derive(Clone, Copy)]
pub struct Clock {
    pub year: u8,
    pub month: u8,
    pub day: u8,
    pub hour: u8,
    pub minute: u8,
    pub second: u8,
}

const MOST_DIGIT: u8 = 9;

#[derive(Clone, Copy)]
pub struct TimeOfDay {
    pub clock: Clock,
}

impl TimeOfDay {
    pub const LENGTH: usize = 7;
}

#[derive(Clone, Copy)]
pub struct Stick {
    pub trigger: bool,
    pub position: u8,
}

#[derive(Clone, Copy)]
pub struct BothSticks {
    pub stick0: Stick,
    pub stick1: Stick,
}

impl BothSticks {
    pub const LENGTH: usize = 3;
}

#[derive(Clone, Copy)]
pub struct OneStick {
    pub which: u8,
    pub stick: Stick,
}

impl OneStick {
    pub const LENGTH: usize = 2;
}

// These two say nothing, and are here for their lengths: each is a row of the table like the others.
#[derive(Clone, Copy)]
pub struct SelfTestPassed {}

impl SelfTestPassed {
    pub const LENGTH: usize = 1;
}

#[derive(Clone, Copy)]
pub struct BadByte {}

impl BadByte {
    pub const LENGTH: usize = 1;
}

#[derive(Clone, Copy)]
pub enum Report {
    More,
    KeyDown(KeyDown),
    KeyUp(KeyUp),
    Absolute(Absolute),
    Relative(Relative),
    TimeOfDay(TimeOfDay),
    BothSticks(BothSticks),
    OneStick(OneStick),
    SelfTestPassed(SelfTestPassed),
    BadByte(BadByte),
    BadReport,
    // refusal 2, STATE
    Refused,
}

#[derive(Clone, Copy)]
pub struct PodAnswer {
    pub state: PodState,
    pub report: Report,
}

// What a first byte opens, with what it says by itself: the key; left and right; which stick.
#[derive(Clone, Copy)]
enum Kind {
    KeyDown(u8),
    KeyUp(u8),
    Absolute,
    Relative(bool, bool),
    TimeOfDay,
    BothSticks,
    OneStick(u8),
    SelfTest,
    BadByte,
}

impl PodState {
    // The state that holds nothing.
    fn emptied(waits: bool) -> Self
        ensures { result ≡ held (emptied waits) }
    {
        PodState {
            waits,
            bytes: [0; PLACES],
            count: 0,
        }
    }

    // It waits, as a pod's state does after power-up or reset.
    pub fn fresh() -> Self
        ensures { result ≡ fresh_state }
    {
        PodState::emptied(true)
    }
}

// The one decision over a first byte that is no passed self-test.
#[tactic(auto, unfolding(model::specs::Pod::kind_of))]
fn kind_of(first: u8) -> Kind
    ensures { kind_seen result ≡ kind_of first }
{
    match first {
        0x01..=0x75 => Kind::KeyDown(first),
        0x81..=0xf5 => Kind::KeyUp(first - 0x80),
        0xf7 => Kind::Absolute,
        0xf8..=0xfb => Kind::Relative(first / 2 % 2 == 1, first % 2 == 1),
        0xfc => Kind::TimeOfDay,
        0xfd => Kind::BothSticks,
        0xfe..=0xff => Kind::OneStick(first - 0xfe),
        _ => Kind::BadByte,
    }
}

// By K3 before 01's table: while waiting a 0xF0 is no key.
#[tactic(auto, unfolding(model::specs::Pod::amended))]
fn opened(waits: bool, first: u8) -> Kind
    ensures { kind_seen result ≡ amended waits first }
{
    if waits && first == SELF_TEST {
        return Kind::SelfTest;
    }
    kind_of(first)
}

fn length_of(kind: Kind) -> usize
    ensures { result ≡ length_of (kind_seen kind) }
{
    match kind {
        Kind::KeyDown(_) => KeyDown::LENGTH,
        Kind::KeyUp(_) => KeyUp::LENGTH,
        Kind::Absolute => Absolute::LENGTH,
        Kind::Relative(_, _) => Relative::LENGTH,
        Kind::TimeOfDay => TimeOfDay::LENGTH,
        Kind::BothSticks => BothSticks::LENGTH,
        Kind::OneStick(_) => OneStick::LENGTH,
        Kind::SelfTest => SelfTestPassed::LENGTH,
        Kind::BadByte => BadByte::LENGTH,
    }
}

fn join(high: u8, low: u8) -> u16
    ensures { result ≡ word high low }
{
    u16::from_be_bytes([high, low])
}

// Two decimal digits.
fn digits_ok(b: u8) -> bool
    ensures { result ≡ good_digits b }
{
    b / 16 <= MOST_DIGIT && b % 16 <= MOST_DIGIT
}

fn three_ok(a: u8, b: u8, c: u8) -> bool
    ensures { result ≡ good_three a b c }
{
    digits_ok(a) && digits_ok(b) && digits_ok(c)
}

// Every clock byte is two decimal digits; no month or hour is judged.
pub fn clock_ok(clock: Clock) -> bool
    ensures { result ≡ good_clock (clock_seen clock) }
{
    three_ok(clock.year, clock.month, clock.day) && three_ok(clock.hour, clock.minute, clock.second)
}

// Whether a stick byte is x000yyyy.
fn stick_ok(b: u8) -> bool
    ensures { result ≡ good_stick b }
{
    b / 16 % 8 == 0
}

fn stick_of(b: u8) -> Stick
    ensures { result ≡ held_stick b }
{
    Stick {
        trigger: b / 128 == 1,
        position: b % 16,
    }
}

fn judge_absolute(flags: u8, x: u16, y: u16) -> Report
    ensures { result ≡ held_report (judged_absolute flags x y) }
{
    if flags / 16 != 0 {
        return Report::BadReport;
    }
    Report::Absolute(Absolute { flags, x, y })
}

#[tactic(auto, unfolding(model::specs::Pod::signed))]
fn relative_of(left: bool, right: bool, dx: u8, dy: u8) -> Report
    ensures { result ≡ held_report (relative left right (signed dx) (signed dy)) }
{
    Report::Relative(Relative {
        left,
        right,
        dx: dx.cast_signed(),
        dy: dy.cast_signed(),
    })
}

fn judge_time(clock: Clock) -> Report
    ensures { result ≡ held_report (judged_time (clock_seen clock)) }
{
    if !clock_ok(clock) {
        return Report::BadReport;
    }
    Report::TimeOfDay(TimeOfDay { clock })
}

// The clock of a whole report: the places after the first, and the last byte.
fn clock_of(bytes: [u8; PLACES], last: u8) -> Clock
    ensures { result ≡ held_clock (clock_in (take places bytes ++ last ∷ [])) }
{
    Clock {
        year: bytes[1],
        month: bytes[2],
        day: bytes[3],
        hour: bytes[4],
        minute: bytes[5],
        second: last,
    }
}

fn judge_both(s0: u8, s1: u8) -> Report
    ensures { result ≡ held_report (judged_both s0 s1) }
{
    if !stick_ok(s0) || !stick_ok(s1) {
        return Report::BadReport;
    }
    Report::BothSticks(BothSticks {
        stick0: stick_of(s0),
        stick1: stick_of(s1),
    })
}

fn judge_stick(which: u8, s: u8) -> Report
    ensures { result ≡ held_report (judged_stick which s) }
{
    if !stick_ok(s) {
        return Report::BadReport;
    }
    Report::OneStick(OneStick {
        which,
        stick: stick_of(s),
    })
}

// A whole report: as many of the places as its kind has bytes before the last one, and the last one.
fn judge(kind: Kind, bytes: [u8; PLACES], last: u8) -> Report
    ensures { result ≡ held_report (judged (kind_seen kind) (take (length_of (kind_seen kind) - 1) bytes ++ last ∷ [])) }
{
    match kind {
        Kind::KeyDown(key) => Report::KeyDown(KeyDown { key }),
        Kind::KeyUp(key) => Report::KeyUp(KeyUp { key }),
        Kind::Absolute => judge_absolute(bytes[1], join(bytes[2], bytes[3]), join(bytes[4], last)),
        Kind::Relative(left, right) => relative_of(left, right, bytes[1], last),
        Kind::TimeOfDay => judge_time(clock_of(bytes, last)),
        Kind::BothSticks => judge_both(bytes[1], last),
        Kind::OneStick(which) => judge_stick(which, last),
        Kind::SelfTest => Report::SelfTestPassed(SelfTestPassed {}),
        Kind::BadByte => Report::BadByte(BadByte {}),
    }
}

#[tactic(auto, using(model::proofs::Places::clear_from))]
fn unused_clear(bytes: [u8; PLACES], count: usize) -> bool
    ensures { result ≡ zeros (drop count bytes) }
{
    for i in count..PLACES {
        if bytes[i] != 0 {
            return false;
        }
    }
    true
}

// That the first byte opens a longer report needs no test of its own: a byte is held, and fewer than the report's length are.
fn begun(bytes: [u8; PLACES], count: usize) -> bool
    requires { count ≤ places }
    ensures { result ≡ unfinished (take count bytes) }
{
    count == 0 || count < length_of(kind_of(bytes[0]))
}

#[tactic(auto, unfolding(model::specs::Pod::well_formed))]
pub fn well_formed(state: PodState) -> bool
    ensures { result ≡ well_formed (seen state) }
{
    state.count <= PLACES
        && begun(state.bytes, state.count)
        && unused_clear(state.bytes, state.count)
}

fn first_of(state: PodState, byte: u8) -> u8
    ensures { result ≡ first_of (held_in (seen state)) byte }
{
    if state.count == 0 {
        return byte;
    }
    state.bytes[0]
}

// "Self-test passed" ends the wait, and no other answer touches it.
fn waits_after(waits: bool, report: Report) -> bool
    ensures { result ≡ waits_after waits (report_seen report) }
{
    waits && !matches!(report, Report::SelfTestPassed(_))
}

// One byte: the state after it, and its answer. A state that is not well formed comes back as it is, and the byte is not read.
pub fn step(state: PodState, byte: u8) -> PodAnswer
    ensures { AnswersAs state byte result }
{
    if !well_formed(state) {
        return PodAnswer {
            state,
            report: Report::Refused,
        };
    }
    let kind = opened(state.waits, first_of(state, byte));
    if state.count + 1 < length_of(kind) {
        let mut next = state;
        next.bytes[next.count] = byte;
        next.count += 1;
        return PodAnswer {
            state: next,
            report: Report::More,
        };
    }
    let report = judge(kind, state.bytes, byte);
    PodAnswer {
        state: PodState::emptied(waits_after(state.waits, report)),
        report,
    }
}
