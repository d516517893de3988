// The type B writer: a fresh state, and a frame's events into the caller's buffer with the state after it; as an option also what tells an old display (document 02's K6).
#![tactic(auto)]

ghost use Rattle.std.specs.Prelude.{◌≡◌, length};
ghost use Rattle.model.specs.Panel.{base};
ghost use Rattle.model.specs.Calls.{room_for};
ghost use Rattle.model.specs.Pointing.{pointer_good, fresh_pointer_call, pointer_call, pointer_buffer};
ghost use Rattle.panel.specs.Seen.{setup_of};
ghost use Rattle.writer.specs.Seen.{seen, fresh_from, written_from, not_written_by, still_by, unmoved_all, last_of, made_of, own_of, with_last, taken_by};

use common::{SlotNumber, TrackingId, Verdict};
use panel::{PER_SLOT, RECORDS, Setup, Slot};
use pointer::{Moved, Pointer};

// In these structs the table comes first, and then the widest numbers: a table that stands beside a struct's padding is copied once more by the compiler at each call.
#[derive(Clone, Copy)]
pub struct WriterState {
    pub table: [Slot; RECORDS],
    // By beginning, from 0; 0 for an unused record, and always with the option off.
    pub ranks: [u8; RECORDS],
    pub setup: Setup,
    pub current: SlotNumber,
    pub counter: u32,
    // What an old display was told last; zeros with the option off.
    pub told: Pointer,
    pub pointer: bool,
}

#[derive(Clone, Copy)]
pub struct FreshWriter {
    pub state: WriterState,
    pub verdict: Verdict,
}

#[derive(Clone, Copy)]
pub struct Written {
    pub state: WriterState,
    pub count: usize,
    pub need: usize,
    pub changed: u32,
    pub verdict: Verdict,
}

fn untold() -> Moved
    ensures { result ≡ unmoved_all }
{
    Moved {
        ranks: [0; RECORDS],
        told: Pointer {
            x: 0,
            y: 0,
            tool: 0,
            touch: 0,
        },
    }
}

// What a writer is made of besides its table, its ranks and what it told.
#[derive(Clone, Copy)]
struct Own {
    setup: Setup,
    current: SlotNumber,
    counter: u32,
    pointer: bool,
}

impl Own {
    fn with(self, last: SlotNumber) -> Own
        ensures { result ≡ with_last self last }
    {
        Own {
            current: last,
            ..self
        }
    }
}

fn own_of(setup: Setup, current: SlotNumber, counter: u32, pointer: bool) -> Own
    ensures { result ≡ own_of setup current counter pointer }
{
    Own {
        setup,
        current,
        counter,
        pointer,
    }
}

fn state_of(table: [Slot; RECORDS], moved: Moved, own: Own) -> WriterState
    ensures { result ≡ made_of table moved own }
{
    // An array that is a field goes through a variable, here and below: the kit's borrow checker asks for it.
    let ranks = moved.ranks;
    WriterState {
        table,
        ranks,
        setup: own.setup,
        current: own.current,
        counter: own.counter,
        told: moved.told,
        pointer: own.pointer,
    }
}

impl WriterState {
    // A fresh writer for a setup, with pointer emulation or without; refusal 1, and zeros, where a number is out of its range.
    pub fn fresh(setup: Setup, pointer: bool) -> FreshWriter
        ensures { result ≡ fresh_from (fresh_pointer_call base pointer (setup_of setup)) }
    {
        let none = untold();
        if !panel::setup_ok(setup) {
            let nothing = Own {
                setup: Setup {
                    n: 0,
                    x: 0,
                    y: 0,
                    pressure: 0,
                    major: 0,
                    minor: 0,
                },
                current: SlotNumber(0),
                counter: 0,
                pointer: false,
            };
            return FreshWriter {
                state: state_of(panel::zero_table(), none, nothing),
                verdict: Verdict::Setup,
            };
        }
        let own = Own {
            setup,
            current: SlotNumber(0),
            counter: 0,
            pointer,
        };
        FreshWriter {
            state: state_of(panel::unused_table(), none, own),
            verdict: Verdict::Accepted,
        }
    }
}

pub fn state_ok(s: WriterState) -> bool
    ensures { result ≡ pointer_good base (seen s) }
{
    let setup = s.setup;
    let table = s.table;
    if !panel::setup_ok(setup) {
        return false;
    }
    if !panel::table_good(setup, table) {
        return false;
    }
    if setup.n <= s.current.0 {
        return false;
    }
    if TrackingId::COUNT <= s.counter {
        return false;
    }
    pointer::pointing_ok(s.pointer, setup, table, s.ranks, s.told)
}

pub fn refused(verdict: Verdict, state: WriterState, need: usize) -> Written
    ensures { result ≡ not_written_by verdict state need }
{
    Written {
        state,
        count: 0,
        need,
        changed: 0,
        verdict,
    }
}

fn taken(table: [Slot; RECORDS], moved: Moved, own: Own, count: usize, changed: u32) -> Written
    ensures { result ≡ taken_by table moved own count changed }
{
    Written {
        state: state_of(table, moved, own),
        count,
        need: 0,
        changed,
        verdict: Verdict::Accepted,
    }
}

// Whether so many bytes have room in a buffer of a size, from a position on.
fn has_room(size: usize, at: usize, need: usize) -> bool
    ensures { result ≡ room_for need at size }
{
    at <= size && need <= size - at
}

// The answer to a frame that leaves every slot as it is. It needs no bytes, and yet a position past the end is refused.
fn unchanged(state: WriterState, size: usize, at: usize) -> Written
    ensures { result ≡ still_by state (room_for 0 at size) }
{
    if !has_room(size, at, 0) {
        return refused(Verdict::NoRoom, state, 0);
    }
    Written {
        state,
        count: 0,
        need: 0,
        changed: 0,
        verdict: Verdict::Accepted,
    }
}

// What the display was told last, and the ranks.
fn last_of(state: WriterState) -> Moved
    ensures { result ≡ last_of state }
{
    let ranks = state.ranks;
    Moved {
        ranks,
        told: state.told,
    }
}

// Writes a frame's events into `buf` from the position `at` on; refusals 2 to 5 in rising number.
pub fn write(state: WriterState, frame: &[i32], buf: &mut [u8], at: usize) -> Written
    ensures { (result ≡ written_from (pointer_call base (seen state) frame.now at (length buf.old))) × (buf.new ≡ pointer_buffer base (seen state) frame.now at buf.old) }
{
    let setup = state.setup;
    if !state_ok(state) {
        return refused(Verdict::State, state, 0);
    }
    if frame.len() != PER_SLOT * setup.n {
        return refused(Verdict::Frame, state, 0);
    }
    let old = state.table;
    let from = plan::first_loud(setup.n, old, frame);
    if from == setup.n {
        return unchanged(state, buf.len(), at);
    }
    let p = plan::plan_frame(setup, old, state.counter, frame, from);
    if !p.good {
        return refused(Verdict::Value, state, 0);
    }
    let new = p.table;
    let c = p.changes;
    let told = state.told;
    let moved = pointer::move_on(state.pointer, setup.n, old, new, c.slots, last_of(state));
    let tell = moved.told;
    let own = own_of(setup, state.current, p.counter, state.pointer);
    let others = tally::without_current(c.slots, state.current);
    let events = tally::event_count(c.numbers, others)
        + pointer::emulated(state.pointer, told, tell);
    let need = 8 * events;
    if !has_room(buf.len(), at, need) {
        return refused(Verdict::NoRoom, state, need);
    }
    if events == 0 {
        return unchanged(state, buf.len(), at);
    }
    let start = send::send_touch(buf, at, told, tell);
    let was = state.table;
    let sent = send::send_slots(buf, start, was, new, others, state.current);
    send::send_end(buf, sent.end, told, tell);
    taken(new, moved, own.with(sent.last), events, c.slots)
}
