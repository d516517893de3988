// Talking to the pod, 02's K13: the ten ikbd commands that the bench uses, written into a lent buffer with the pod's state in hand and read from a
// lent slice. Called by programs and by a host; `write`, `read` and `size_of` are the public functions, none requires anything, and what they
// answer is the model's.
#![tactic(auto)]

mod words;

ghost use Rattle.std.specs.Prelude.{◌≡◌, ◌∷◌, [], ◌≤◌, length};
ghost use Rattle.model.specs.Calls.{room_for};
ghost use Rattle.model.specs.Pod.{word, clock_in};
ghost use Rattle.model.specs.Commands.{buttons, absolute, threshold, scale, load, set_clock, good_command, ticks, command_bytes};
ghost use Rattle.model.specs.Commands.{absolute_kind, load_kind, set_clock_kind, kind_of, length_of, kind_is, size_of, taken, judged, judged_reset, state_after};
ghost use Rattle.records.specs.Seen.{over};
ghost use Rattle.pod.specs.Seen.{seen as pod_seen, held as pod_held, clock_seen, held_clock};
ghost use Rattle.commands.specs.Seen.{seen, kind_seen, held_answer, AnswersAs, Wrote};

use common::Verdict;
use pod::{Clock, PodState};

// Each command carries its own length, its first byte included.
#[derive(Clone, Copy)]
pub struct Reset {}

impl Reset {
    pub const LENGTH: usize = 2;
}

// What the mouse's buttons do, 0 to 4.
#[derive(Clone, Copy)]
pub struct ButtonAction {
    pub action: u8,
}

impl ButtonAction {
    pub const LENGTH: usize = 2;
}

#[derive(Clone, Copy)]
pub struct RelativeMode {}

impl RelativeMode {
    pub const LENGTH: usize = 1;
}

// The largest x and y.
#[derive(Clone, Copy)]
pub struct AbsoluteMode {
    pub x: u16,
    pub y: u16,
}

impl AbsoluteMode {
    pub const LENGTH: usize = 5;
}

#[derive(Clone, Copy)]
pub struct Threshold {
    pub x: u8,
    pub y: u8,
}

impl Threshold {
    pub const LENGTH: usize = 3;
}

#[derive(Clone, Copy)]
pub struct Scale {
    pub x: u8,
    pub y: u8,
}

impl Scale {
    pub const LENGTH: usize = 3;
}

#[derive(Clone, Copy)]
pub struct Interrogate {}

impl Interrogate {
    pub const LENGTH: usize = 1;
}

// The filler before x and y is no number of it.
#[derive(Clone, Copy)]
pub struct LoadPosition {
    pub x: u16,
    pub y: u16,
}

impl LoadPosition {
    pub const LENGTH: usize = 6;
}

#[derive(Clone, Copy)]
pub struct SetClock {
    pub clock: Clock,
}

impl SetClock {
    pub const LENGTH: usize = 7;
}

#[derive(Clone, Copy)]
pub struct AskClock {}

impl AskClock {
    pub const LENGTH: usize = 1;
}

// A first byte that begins none of them; it is here for its length.
#[derive(Clone, Copy)]
struct NoCommand {}

impl NoCommand {
    const LENGTH: usize = 1;
}

#[derive(Clone, Copy)]
pub enum Command {
    Reset(Reset),
    ButtonAction(ButtonAction),
    RelativeMode(RelativeMode),
    AbsoluteMode(AbsoluteMode),
    Threshold(Threshold),
    Scale(Scale),
    Interrogate(Interrogate),
    LoadPosition(LoadPosition),
    SetClock(SetClock),
    AskClock(AskClock),
}

#[derive(Clone, Copy)]
pub enum Answer {
    Command(Command),
    // 0x80 and another byte
    Lost,
    NotForUs,
    // refusal 11, COMMAND
    Refused,
    Unfinished,
    Nothing,
}

#[derive(Clone, Copy)]
pub struct ReadAnswer {
    pub answer: Answer,
    pub next: usize,
}

#[derive(Clone, Copy)]
pub struct Written {
    pub verdict: Verdict,
    pub state: PodState,
    pub need: usize,
}

#[derive(Clone, Copy)]
enum Kind {
    Reset,
    ButtonAction,
    RelativeMode,
    AbsoluteMode,
    Threshold,
    Scale,
    Interrogate,
    LoadPosition,
    SetClock,
    AskClock,
    Other,
}

const RESET: u8 = 0x80;

// What must follow a 0x80: any other byte is lost with it.
const RESET_BYTE: u8 = 0x01;

const BUTTON_ACTION: u8 = 0x07;

const RELATIVE_MODE: u8 = 0x08;

const ABSOLUTE_MODE: u8 = 0x09;

const THRESHOLD: u8 = 0x0b;

const SCALE: u8 = 0x0c;

const INTERROGATE: u8 = 0x0d;

const LOAD_POSITION: u8 = 0x0e;

const FILLER: u8 = 0;

const SET_CLOCK: u8 = 0x1b;

const ASK_CLOCK: u8 = 0x1c;

const MOST_ACTION: u8 = 4;

// The one decision over a first byte.
#[tactic(auto, unfolding(model::specs::Commands::kind_of))]
fn kind_of(first: u8) -> Kind
    ensures { kind_seen result ≡ kind_of first }
{
    match first {
        0x80 => Kind::Reset,
        0x07 => Kind::ButtonAction,
        0x08 => Kind::RelativeMode,
        0x09 => Kind::AbsoluteMode,
        0x0b => Kind::Threshold,
        0x0c => Kind::Scale,
        0x0d => Kind::Interrogate,
        0x0e => Kind::LoadPosition,
        0x1b => Kind::SetClock,
        0x1c => Kind::AskClock,
        _ => Kind::Other,
    }
}

fn length_of(kind: Kind) -> usize
    ensures { result ≡ length_of (kind_seen kind) }
{
    match kind {
        Kind::Reset => Reset::LENGTH,
        Kind::ButtonAction => ButtonAction::LENGTH,
        Kind::RelativeMode => RelativeMode::LENGTH,
        Kind::AbsoluteMode => AbsoluteMode::LENGTH,
        Kind::Threshold => Threshold::LENGTH,
        Kind::Scale => Scale::LENGTH,
        Kind::Interrogate => Interrogate::LENGTH,
        Kind::LoadPosition => LoadPosition::LENGTH,
        Kind::SetClock => SetClock::LENGTH,
        Kind::AskClock => AskClock::LENGTH,
        Kind::Other => NoCommand::LENGTH,
    }
}

fn kind_is(command: Command) -> Kind
    ensures { kind_seen result ≡ kind_is (seen command) }
{
    match command {
        Command::Reset(_) => Kind::Reset,
        Command::ButtonAction(_) => Kind::ButtonAction,
        Command::RelativeMode(_) => Kind::RelativeMode,
        Command::AbsoluteMode(_) => Kind::AbsoluteMode,
        Command::Threshold(_) => Kind::Threshold,
        Command::Scale(_) => Kind::Scale,
        Command::Interrogate(_) => Kind::Interrogate,
        Command::LoadPosition(_) => Kind::LoadPosition,
        Command::SetClock(_) => Kind::SetClock,
        Command::AskClock(_) => Kind::AskClock,
    }
}

// How many bytes a command has.
pub fn size_of(command: Command) -> usize
    ensures { result ≡ size_of (seen command) }
{
    length_of(kind_is(command))
}

// Neither is 0; more than 255 a byte cannot hold.
fn ticks_ok(x: u8, y: u8) -> bool
    ensures { result ≡ ticks x y }
{
    1 <= x && 1 <= y
}

fn command_ok(command: Command) -> bool
    ensures { result ≡ good_command (seen command) }
{
    match command {
        Command::ButtonAction(c) => c.action <= MOST_ACTION,
        Command::Threshold(c) => ticks_ok(c.x, c.y),
        Command::Scale(c) => ticks_ok(c.x, c.y),
        Command::SetClock(c) => pod::clock_ok(c.clock),
        _ => true,
    }
}

// High byte first, as the pod has it.
fn join(high: u8, low: u8) -> u16
    ensures { result ≡ word high low }
{
    u16::from_be_bytes([high, low])
}

// A command that is not good is refused.
fn taken(command: Command) -> Answer
    ensures { result ≡ held_answer (taken (seen command)) }
{
    if !command_ok(command) {
        return Answer::Refused;
    }
    Answer::Command(command)
}

// 0x80 and the byte behind it.
fn reset_of(second: u8) -> Answer
    ensures { result ≡ held_answer (judged_reset second) }
{
    if second != RESET_BYTE {
        return Answer::Lost;
    }
    Answer::Command(Command::Reset(Reset {}))
}

fn absolute_of(bytes: &[u8]) -> Answer
    requires { length_of absolute_kind ≤ length bytes.now }
    ensures { result ≡ held_answer (judged absolute_kind bytes.now) }
{
    Answer::Command(Command::AbsoluteMode(AbsoluteMode {
        x: join(bytes[1], bytes[2]),
        y: join(bytes[3], bytes[4]),
    }))
}

fn load_of(bytes: &[u8]) -> Answer
    requires { length_of load_kind ≤ length bytes.now }
    ensures { result ≡ held_answer (judged load_kind bytes.now) }
{
    if bytes[1] != FILLER {
        return Answer::Refused;
    }
    Answer::Command(Command::LoadPosition(LoadPosition {
        x: join(bytes[2], bytes[3]),
        y: join(bytes[4], bytes[5]),
    }))
}

fn clock_of(bytes: &[u8]) -> Clock
    requires { length_of set_clock_kind ≤ length bytes.now }
    ensures { result ≡ held_clock (clock_in bytes.now) }
{
    Clock {
        year: bytes[1],
        month: bytes[2],
        day: bytes[3],
        hour: bytes[4],
        minute: bytes[5],
        second: bytes[6],
    }
}

// A whole command at the start of `bytes`.
fn judge(kind: Kind, bytes: &[u8]) -> Answer
    requires { length_of (kind_seen kind) ≤ length bytes.now }
    ensures { result ≡ held_answer (judged (kind_seen kind) bytes.now) }
{
    match kind {
        Kind::Reset => reset_of(bytes[1]),
        Kind::ButtonAction => taken(Command::ButtonAction(ButtonAction { action: bytes[1] })),
        Kind::RelativeMode => Answer::Command(Command::RelativeMode(RelativeMode {})),
        Kind::AbsoluteMode => absolute_of(bytes),
        Kind::Threshold => taken(Command::Threshold(Threshold {
            x: bytes[1],
            y: bytes[2],
        })),
        Kind::Scale => taken(Command::Scale(Scale {
            x: bytes[1],
            y: bytes[2],
        })),
        Kind::Interrogate => Answer::Command(Command::Interrogate(Interrogate {})),
        Kind::LoadPosition => load_of(bytes),
        Kind::SetClock => taken(Command::SetClock(SetClock {
            clock: clock_of(bytes),
        })),
        Kind::AskClock => Answer::Command(Command::AskClock(AskClock {})),
        Kind::Other => Answer::NotForUs,
    }
}

fn answered(answer: Answer, next: usize) -> ReadAnswer
    ensures { result ≡ record { answer = answer; next = next } }
{
    ReadAnswer { answer, next }
}

// The command that begins at `at`, and where reading goes on: past it, also where it is refused or lost; at its first byte where it is cut short; at
// the end where there is nothing.
pub fn read(bytes: &[u8], at: usize) -> ReadAnswer
    ensures { AnswersAs bytes.now at result }
{
    if bytes.len() <= at {
        return answered(Answer::Nothing, bytes.len());
    }
    let kind = kind_of(bytes[at]);
    let length = length_of(kind);
    if bytes.len() - at < length {
        return answered(Answer::Unfinished, at);
    }
    let answer = judge(kind, &bytes[at..]);
    answered(answer, at + length)
}

fn put_one(b: &mut [u8], first: u8)
    requires { 1 ≤ length b.old }
    ensures { b.new ≡ over (first ∷ []) b.old }
{
    b[0] = first;
}

#[tactic(auto, unfolding(records::specs::Seen::over))]
fn put_two(b: &mut [u8], first: u8, second: u8)
    requires { 2 ≤ length b.old }
    ensures { b.new ≡ over (first ∷ second ∷ []) b.old }
{
    b[..2].copy_from_slice(&[first, second]);
}

#[tactic(auto, unfolding(records::specs::Seen::over))]
fn put_three(b: &mut [u8], first: u8, x: u8, y: u8)
    requires { 3 ≤ length b.old }
    ensures { b.new ≡ over (first ∷ x ∷ y ∷ []) b.old }
{
    b[..3].copy_from_slice(&[first, x, y]);
}

#[tactic(auto, unfolding(records::specs::Seen::over))]
fn put_absolute(b: &mut [u8], x: u16, y: u16)
    requires { length_of absolute_kind ≤ length b.old }
    ensures { b.new ≡ over (command_bytes (absolute x y)) b.old }
{
    let x = x.to_be_bytes();
    let y = y.to_be_bytes();
    b[..AbsoluteMode::LENGTH].copy_from_slice(&[ABSOLUTE_MODE, x[0], x[1], y[0], y[1]]);
}

#[tactic(auto, unfolding(records::specs::Seen::over))]
fn put_load(b: &mut [u8], x: u16, y: u16)
    requires { length_of load_kind ≤ length b.old }
    ensures { b.new ≡ over (command_bytes (load x y)) b.old }
{
    let x = x.to_be_bytes();
    let y = y.to_be_bytes();
    b[..LoadPosition::LENGTH].copy_from_slice(&[LOAD_POSITION, FILLER, x[0], x[1], y[0], y[1]]);
}

#[tactic(auto, unfolding(records::specs::Seen::over))]
fn put_clock(b: &mut [u8], c: Clock)
    requires { length_of set_clock_kind ≤ length b.old }
    ensures { b.new ≡ over (command_bytes (set_clock (clock_seen c))) b.old }
{
    b[..SetClock::LENGTH].copy_from_slice(&[
        SET_CLOCK, c.year, c.month, c.day, c.hour, c.minute, c.second,
    ]);
}

// A command's bytes at the start of `b`; the other bytes stay.
fn put(b: &mut [u8], command: Command)
    requires { size_of (seen command) ≤ length b.old }
    ensures { b.new ≡ over (command_bytes (seen command)) b.old }
{
    match command {
        Command::Reset(_) => put_two(b, RESET, RESET_BYTE),
        Command::ButtonAction(c) => put_two(b, BUTTON_ACTION, c.action),
        Command::RelativeMode(_) => put_one(b, RELATIVE_MODE),
        Command::AbsoluteMode(c) => put_absolute(b, c.x, c.y),
        Command::Threshold(c) => put_three(b, THRESHOLD, c.x, c.y),
        Command::Scale(c) => put_three(b, SCALE, c.x, c.y),
        Command::Interrogate(_) => put_one(b, INTERROGATE),
        Command::LoadPosition(c) => put_load(b, c.x, c.y),
        Command::SetClock(c) => put_clock(b, c.clock),
        Command::AskClock(_) => put_one(b, ASK_CLOCK),
    }
}

fn has_room(need: usize, at: usize, size: usize) -> bool
    ensures { result ≡ room_for need at size }
{
    at <= size && need <= size - at
}

// A pod that was reset says again that its self-test passed, whatever it was saying before.
fn state_after(command: Command, state: PodState) -> PodState
    ensures { result ≡ pod_held (state_after (seen command) (pod_seen state)) }
{
    match command {
        Command::Reset(_) => PodState::fresh(),
        _ => state,
    }
}

fn refused(verdict: Verdict, state: PodState, need: usize) -> Written
    ensures { result ≡ record { verdict = verdict; state = state; need = need } }
{
    Written {
        verdict,
        state,
        need,
    }
}

// Writes a command into `buf` from the position `at` on, with the pod's state in hand; refusals 2, 5 and 11 in rising number.
pub fn write(state: PodState, command: Command, buf: &mut [u8], at: usize) -> Written
    ensures { Wrote state command at buf.old result buf.new }
{
    if !pod::well_formed(state) {
        return refused(Verdict::State, state, 0);
    }
    let need = size_of(command);
    if !has_room(need, at, buf.len()) {
        return refused(Verdict::NoRoom, state, need);
    }
    if !command_ok(command) {
        return refused(Verdict::Command, state, 0);
    }
    put(&mut buf[at..], command);
    Written {
        verdict: Verdict::Accepted,
        state: state_after(command, state),
        need: 0,
    }
}
