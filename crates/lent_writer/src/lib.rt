// The writer over state bytes that a host lends, changed in place: a fresh state, a frame, and a type A frame of an anonymous panel.
#![tactic(auto)]

ghost use Rattle.std.specs.Prelude.{◌≡◌, ◌&&◌, [], ◌∷◌, ◌+◌, ◌<◌, ◌≤◌, ◌^◌, length};
ghost use Rattle.model.specs.Panel.{base, records};
ghost use Rattle.model.specs.Records.{lay, join16};
ghost use Rattle.model.specs.Calls.{room_for};
ghost use Rattle.model.specs.Pointer.{unmoved, eq_pointer};
ghost use Rattle.model.specs.Pointing.{zeros as all_zeros, good_pointing, pointer_good};
ghost use Rattle.panel.specs.Seen.{table_of, panel_seen};
ghost use Rattle.pointer.specs.Seen.{pointer_of, pointing_of};
ghost use Rattle.pointer.specs.Moved.{Unused};
ghost use Rattle.writer.specs.Seen.{seen, last_of};
ghost use Rattle.lent.specs.Lent.{table_size, table_in};
ghost use Rattle.lent_writer.specs.Layout.{state_size, setup_at, ranks_at};
ghost use Rattle.lent_writer.specs.Seen.{formed as formed_in, told_in, ranks_in, unpacked as unpacked_in, flag as flag_of, head_bytes, number_bytes, packed, Held, Settles, WritesFrame, WritesAnonymous, setup_given, Freshens};
ghost use Rattle.lent_writer.specs.InPlace.{InForm, GoodForm, Loud, MovesOn, MovedOn, ToTell, ToldBy, sent_bytes, Sends, changed_to, Stores, moved_in};

use common::{SlotNumber, TrackingId};
use panel::{PER_SLOT, RECORDS, Setup};
use pointer::{Moved, Pointer};
use tally::Changed;
use writer::{WriterState, Written};

// How many bytes a state has.
pub const SIZE: usize = 848;

const VERSION: u8 = 1;

const KIND: u8 = 1;

// Where each number lies.
const OPTION: usize = 2;

const TOUCH: usize = 3;

const TOOL: usize = 4;

const ZERO: usize = 6;

const SETUP: usize = 8;

const CURRENT: usize = 32;

const COUNTER: usize = 36;

const X: usize = 40;

const Y: usize = 44;

const TABLE: usize = 48;

const RANKS: usize = 816;

// Document 01's numbers of the refusals; 0 for none.
const ACCEPTED: u32 = 0;

const SETUP_REFUSED: u32 = 1;

const STATE: u32 = 2;

const FRAME: u32 = 3;

const VALUE: u32 = 4;

const NO_ROOM: u32 = 5;

// ---- what bytes hold

#[tactic(auto, unfolding(crate::specs::Seen::formed))]
fn formed(b: &[u8]) -> bool
    ensures { result ≡ formed_in b.now }
{
    b.len() == SIZE
        && b[0] == VERSION
        && b[1] == KIND
        && b[OPTION] <= 1
        && b[ZERO] == 0
        && b[ZERO + 1] == 0
}

// Two bytes as a number, the lower first.
fn join(a: u8, b: u8) -> u16
    ensures { result ≡ join16 a b }
{
    (a as u16) + 256 * (b as u16)
}

fn told_at(b: &[u8]) -> Pointer
    requires { length b.now ≡ state_size }
    ensures { result ≡ told_in b.now }
{
    Pointer {
        x: records::word_at(b, X),
        y: records::word_at(b, Y),
        tool: join(b[TOOL], b[TOOL + 1]),
        touch: b[TOUCH],
    }
}

fn ranks_of(b: &[u8]) -> [u8; RECORDS]
    requires { length b.now ≡ records }
    ensures { result ≡ b.now }
{
    let mut r = [0; RECORDS];
    r.copy_from_slice(b);
    r
}

fn wide(v: u32) -> usize
    ensures { result ≡ v }
{
    v as usize
}

fn setup_of(s: &[u32; 6]) -> Setup
    ensures { result ≡ setup_given s.now }
{
    Setup {
        n: wide(s[0]),
        x: s[1],
        y: s[2],
        pressure: s[3],
        major: s[4],
        minor: s[5],
    }
}

fn unpacked(b: &[u8]) -> WriterState
    requires { length b.now ≡ state_size }
    ensures { result ≡ unpacked_in b.now }
{
    let table = lent::table_at(b, TABLE);
    let ranks = ranks_of(&b[RANKS..SIZE]);
    let setup = lent::setup_at(b, SETUP);
    let current = SlotNumber(records::word_at(b, CURRENT) as usize);
    let counter = records::word_at(b, COUNTER);
    let told = told_at(b);
    WriterState {
        table,
        ranks,
        setup,
        current,
        counter,
        told,
        pointer: b[OPTION] == 1,
    }
}

// ---- a state to bytes

fn flag(on: bool) -> u8
    ensures { result ≡ flag_of on }
{
    if on { 1 } else { 0 }
}

fn put_head(b: &mut [u8], on: bool, told: Pointer)
    requires { length b.old ≡ state_size }
    ensures { b.new ≡ lay 0 (head_bytes on told) b.old }
{
    let tool = told.tool;
    b[0] = VERSION;
    b[1] = KIND;
    b[OPTION] = flag(on);
    b[TOUCH] = told.touch;
    b[TOOL] = (tool % 256) as u8;
    b[TOOL + 1] = (tool / 256 % 256) as u8;
    b[ZERO] = 0;
    b[ZERO + 1] = 0;
}

fn put_numbers(b: &mut [u8], s: WriterState)
    requires { (length b.old ≡ state_size) × (s.setup.n < 2 ^ 32) × (s.current.0 < 2 ^ 32) }
    ensures { b.new ≡ lay setup_at (number_bytes s) b.old }
{
    lent::put_setup(b, SETUP, s.setup);
    lent::put_word(b, CURRENT, s.current.0 as u32);
    lent::put_word(b, COUNTER, s.counter);
    lent::put_word(b, X, s.told.x);
    lent::put_word(b, Y, s.told.y);
}

fn put_ranks(b: &mut [u8], ranks: [u8; RECORDS])
    requires { length b.old ≡ state_size }
    ensures { b.new ≡ lay ranks_at ranks b.old }
{
    b[RANKS..SIZE].copy_from_slice(&ranks);
}

fn put_state(b: &mut [u8], s: WriterState)
    requires { (length b.old ≡ state_size) × (s.setup.n < 2 ^ 32) × (s.current.0 < 2 ^ 32) }
    ensures { b.new ≡ packed s }
{
    put_head(b, s.pointer, s.told);
    put_numbers(b, s);
    lent::put_table(b, TABLE, s.table);
    put_ranks(b, s.ranks);
}

// ---- the way by value, by which no call goes now

// The answer of a call by value, told to the host: the number, and the new state's bytes where it was accepted.
fn settle(state: &mut [u8], w: Written, answer: &mut [u64; 3]) -> u32
    requires { (length state.old ≡ state_size) × Held w }
    ensures { Settles state.old w result state.new answer.new }
{
    let number = w.verdict.number();
    *answer = [w.count as u64, w.need as u64, w.changed as u64];
    if number != 0 {
        return number as u32;
    }
    put_state(state, w.state);
    ACCEPTED
}

// ---- a frame, in place

// A call that sends nothing: its number, and the need with NO ROOM.
fn unsent(answer: &mut [u64; 3], number: u32, need: usize) -> u32
    ensures { (result ≡ number) × (answer.new ≡ 0 ∷ need ∷ 0 ∷ []) }
{
    *answer = [0, need as u64, 0];
    number
}

// All are looked at, found or not, as in `plan::absent`.
fn all_zero(ranks: &[u8]) -> bool
    requires { length ranks.now ≡ records }
    ensures { result ≡ all_zeros records ranks.now }
{
    let mut some = false;
    for i in 0..RECORDS {
        some = some | (ranks[i] != 0);
    }
    !some
}

fn untold(b: &[u8]) -> bool
    requires { length b.now ≡ state_size }
    ensures { result ≡ (all_zeros records (ranks_in b.now) && eq_pointer (pointer_of (told_in b.now)) unmoved) }
{
    let t = told_at(b);
    let none = (t.touch == 0) & (t.tool == 0) & (t.x == 0) & (t.y == 0);
    all_zero(&b[RANKS..SIZE]) & none
}

// Ranks and the numbers that were told, beside a table whose records past its slots were never used.
fn pointing_ok(b: &[u8], setup: Setup) -> bool
    requires { (length b.now ≡ state_size) × Unused setup.n (unpacked_in b.now).table }
    ensures { result ≡ good_pointing (unpacked_in b.now).pointer (panel_seen setup) (table_of (unpacked_in b.now).table) (pointing_of (unpacked_in b.now).ranks (unpacked_in b.now).told) }
{
    if b[OPTION] == 1 {
        return lent_pointer::apt(setup, &b[TABLE..RANKS], &b[RANKS..SIZE], told_at(b));
    }
    untold(b)
}

fn judged(b: &[u8]) -> bool
    requires { InForm b.now }
    ensures { result ≡ pointer_good base (seen (unpacked_in b.now)) }
{
    let setup = lent::setup_at(b, SETUP);
    if !panel::setup_ok(setup) {
        return false;
    }
    if !lent_table::table_good(setup, &b[TABLE..RANKS]) {
        return false;
    }
    if setup.n <= wide(records::word_at(b, CURRENT)) {
        return false;
    }
    if TrackingId::COUNT <= records::word_at(b, COUNTER) {
        return false;
    }
    pointing_ok(b, setup)
}

// Whether so many bytes have room in a buffer of a size, from a position on.
fn has_room(size: usize, at: usize, need: usize) -> bool
    ensures { result ≡ room_for need at size }
{
    at <= size && need <= size - at
}

// The ranks, and what the display was told last.
fn last_of(b: &[u8]) -> Moved
    requires { length b.now ≡ state_size }
    ensures { result ≡ last_of (unpacked_in b.now) }
{
    Moved {
        ranks: ranks_of(&b[RANKS..SIZE]),
        told: told_at(b),
    }
}

// The same after a frame that makes the table `new`; with the option off nothing moves.
fn moved_on(b: &[u8], new: &[u8], n: usize, slots: u32) -> Moved
    requires { (length b.now ≡ state_size) × (length new.now ≡ table_size) × MovesOn b.now new.now n slots }
    ensures { MovedOn b.now new.now result }
{
    let last = last_of(b);
    if b[OPTION] == 1 {
        return lent_pointer::moves(n, &b[TABLE..RANKS], new, slots, last);
    }
    last
}

// What a frame sends besides the numbers of its tables: ranks and display after it, what the display was told before it, the current slot, the slots that are opened, and how many events there are.
#[derive(Clone, Copy)]
struct Telling {
    moved: Moved,
    told: Pointer,
    current: SlotNumber,
    others: u32,
    events: usize,
}

fn counted(b: &[u8], new: &[u8], n: usize, c: Changed) -> Telling
    requires { ToTell b.now new.now n c }
    ensures { ToldBy b.now new.now c result }
{
    let moved = moved_on(b, new, n, c.slots);
    let told = told_at(b);
    let tell = moved.told;
    let current = SlotNumber(wide(records::word_at(b, CURRENT)));
    let others = tally::without_current(c.slots, current);
    let shown = pointer::emulated(b[OPTION] == 1, told, tell);
    Telling {
        moved,
        told,
        current,
        others,
        events: tally::event_count(c.numbers, others) + shown,
    }
}

// BTN_TOUCH, the changed slots' events, what else the display is told, and the report; the slot last written.
fn send_all(b: &mut [u8], at: usize, old: &[u8], new: &[u8], s: Telling) -> SlotNumber
    requires { (s.current.0 < records) × (length old.now ≡ table_size) × (length new.now ≡ table_size) × (at + length (sent_bytes (table_in old.now) (table_in new.now) s) ≤ length b.old) }
    ensures { Sends at (table_in old.now) (table_in new.now) s b.old result.0 b.new }
{
    let tell = s.moved.told;
    let start = send::send_touch(b, at, s.told, tell);
    let sent = lent_send::send_slots(b, start, old, new, s.others, s.current);
    send::send_end(b, sent.end, s.told, tell);
    sent.last
}

// The new table, current slot and counter in place of the old ones.
fn store(b: &mut [u8], new: &[u8], slots: u32, last: SlotNumber, counter: u32)
    requires { Stores b.old new.now slots × (last.0 < 2 ^ 32) }
    ensures { b.new ≡ packed (changed_to (unpacked_in b.old) (table_in new.now) last.0 counter) }
{
    lent_send::keep(&mut b[TABLE..RANKS], new, slots);
    lent::put_word(b, CURRENT, last.0 as u32);
    lent::put_word(b, COUNTER, counter);
}

// The ranks, and what the display is told now; with the option off they stay as they are.
fn store_moved(b: &mut [u8], m: Moved)
    requires { length b.old ≡ state_size }
    ensures { b.new ≡ moved_in m b.old }
{
    if b[OPTION] != 1 {
        return;
    }
    put_head(b, true, m.told);
    lent::put_word(b, X, m.told.x);
    lent::put_word(b, Y, m.told.y);
    put_ranks(b, m.ranks);
}

// A frame whose first loud row is that of slot `from`.
fn send_frame(
    state: &mut [u8],
    frame: &[i32],
    from: usize,
    buf: &mut [u8],
    at: usize,
    answer: &mut [u64; 3],
) -> u32
    requires { Loud state.old frame.now from }
    ensures { WritesFrame state.old frame.now at buf.old result state.new answer.new buf.new }
{
    let setup = lent::setup_at(state, SETUP);
    let counter = records::word_at(state, COUNTER);
    let mut new = lent::copy_of(&state[TABLE..RANKS]);
    let p = lent_plan::plan_frame(setup, counter, frame, from, &state[TABLE..RANKS], &mut new);
    if !p.good {
        return unsent(answer, VALUE, 0);
    }
    let c = p.changes;
    let s = counted(state, &new, setup.n, c);
    let events = s.events;
    let need = 8 * events;
    if !has_room(buf.len(), at, need) {
        return unsent(answer, NO_ROOM, need);
    }
    if events == 0 {
        return unsent(answer, ACCEPTED, 0);
    }
    let last = send_all(buf, at, &state[TABLE..RANKS], &new, s);
    store(state, &new, c.slots, last, p.counter);
    store_moved(state, s.moved);
    *answer = [events as u64, 0, c.slots as u64];
    ACCEPTED
}

// A frame, over bytes of a good state.
fn frame_in_place(
    state: &mut [u8],
    frame: &[i32],
    buf: &mut [u8],
    at: usize,
    answer: &mut [u64; 3],
) -> u32
    requires { GoodForm state.old }
    ensures { WritesFrame state.old frame.now at buf.old result state.new answer.new buf.new }
{
    let setup = lent::setup_at(state, SETUP);
    if frame.len() != PER_SLOT * setup.n {
        return unsent(answer, FRAME, 0);
    }
    let from = lent_table::next_loud(setup.n, &state[TABLE..RANKS], frame, 0);
    if from != setup.n {
        return send_frame(state, frame, from, buf, at, answer);
    }
    if !has_room(buf.len(), at, 0) {
        return unsent(answer, NO_ROOM, 0);
    }
    unsent(answer, ACCEPTED, 0)
}

fn in_place(
    state: &mut [u8],
    frame: &[i32],
    buf: &mut [u8],
    at: usize,
    answer: &mut [u64; 3],
) -> u32
    requires { InForm state.old }
    ensures { WritesFrame state.old frame.now at buf.old result state.new answer.new buf.new }
{
    if !judged(state) {
        return unsent(answer, STATE, 0);
    }
    frame_in_place(state, frame, buf, at, answer)
}

// ---- the calls

// Makes the bytes a fresh writer's for a setup of six numbers, with pointer emulation (1) or without (0); refusals 1 and 2.
pub fn fresh(state: &mut [u8], setup: &[u32; 6], pointer: u32) -> u32
    ensures { Freshens state.old setup.now pointer result state.new }
{
    let u = setup_of(setup);
    if !panel::setup_ok(u) {
        return SETUP_REFUSED;
    }
    if state.len() != SIZE {
        return STATE;
    }
    if 1 < pointer {
        return STATE;
    }
    put_state(state, WriterState::fresh(u, pointer == 1).state);
    ACCEPTED
}

// Writes a frame's events into `buf` from the position `at` on; refusals 2 to 5 in rising number. The answer is the count, the need and the changed slots.
pub fn write(
    state: &mut [u8],
    frame: &[i32],
    buf: &mut [u8],
    at: usize,
    answer: &mut [u64; 3],
) -> u32
    ensures { WritesFrame state.old frame.now at buf.old result state.new answer.new buf.new }
{
    if !formed(state) {
        return unsent(answer, STATE, 0);
    }
    in_place(state, frame, buf, at, answer)
}

// Writes what a type A frame changes into `buf` from the position `at` on; refusals 2, 6, 9, 10, 4 and 5, in this order. The answer is as `write`'s.
pub fn write_anonymous(
    state: &mut [u8],
    records: &[u8],
    buf: &mut [u8],
    at: usize,
    answer: &mut [u64; 3],
) -> u32
    ensures { WritesAnonymous state.old records.now at buf.old result state.new answer.new buf.new }
{
    if !formed(state) {
        return unsent(answer, STATE, 0);
    }
    if !judged(state) {
        return unsent(answer, STATE, 0);
    }
    let setup = lent::setup_at(state, SETUP);
    let table = lent::table_at(state, TABLE);
    let f = anonymous::read_frame(setup, table, records);
    let refusal = f.verdict.number();
    if refusal != 0 {
        return unsent(answer, refusal as u32, 0);
    }
    let frame = f.frame;
    frame_in_place(state, &frame[..f.size], buf, at, answer)
}
