// The type B reader: from event records to a contact table. A host calls ReaderState::fresh, run, read_one, load and ask.
#![tactic(auto)]

ghost use Rattle.std.specs.Prelude.{◌≡◌, true, [], ◌<◌, ◌≤◌, ◌*◌, length, get_or};
ghost use Rattle.model.specs.Panel.{base, per_slot, records};
ghost use Rattle.model.specs.Records.{events_of};
ghost use Rattle.model.specs.Reader.{following, run as run_over};
ghost use Rattle.model.specs.States.{settled, reader_good, good_reader};
ghost use Rattle.model.specs.Calls.{fresh_reader_call, run_call, step_call, is_stale as stale_mode, load_call, ask_call, asked_in};
ghost use Rattle.common.specs.Seen.{mode_of};
ghost use Rattle.panel.specs.Seen.{slot_of, table_of, setup_of, panel_seen, SameFrom};
ghost use Rattle.records.specs.Seen.{event_of};
ghost use Rattle.reader.specs.States.{seen, given, no_state, fresh_from, ran_from, answered, accepted};
ghost use Rattle.reader.specs.Seen.{loaded_from, asked_from, AnswersAs, refused_run, load_taken};

use common::{Counts, Mode, SlotNumber, TrackingId, Verdict};
use follow::Ended;
use panel::{RECORDS, Setup, Slot};

// Tables come first, here and in the answers: one that stands beside a struct's padding is copied once more by the compiler at each call.
#[derive(Clone, Copy)]
pub struct ReaderState {
    pub shown: [Slot; RECORDS],
    pub pending: [Slot; RECORDS],
    pub setup: Setup,
    pub current: SlotNumber,
    pub mode: Mode,
}

#[derive(Clone, Copy)]
pub struct FreshAnswer {
    pub state: ReaderState,
    pub verdict: Verdict,
}

#[derive(Clone, Copy)]
pub struct RunAnswer {
    pub state: ReaderState,
    pub counts: Counts,
    pub verdict: Verdict,
}

#[derive(Clone, Copy)]
pub struct LoadAnswer {
    pub state: ReaderState,
    pub verdict: Verdict,
}

#[derive(Clone, Copy)]
pub enum SlotAnswer {
    Contact(Slot),
    Empty,
    Unknown,
    NoSuchSlot,
    Refused(Verdict),
}

// What stands in a state's place with refusal 1.
fn no_state() -> ReaderState
    ensures { result ≡ no_state }
{
    let t = panel::zero_table();
    ReaderState {
        setup: Setup {
            n: 0,
            x: 0,
            y: 0,
            pressure: 0,
            major: 0,
            minor: 0,
        },
        shown: t,
        pending: t,
        current: SlotNumber(0),
        mode: Mode::Following,
    }
}

impl ReaderState {
    // The fresh state of a panel, for any six numbers: refusal 1.
    pub fn fresh(n: usize, x: u32, y: u32, pressure: u32, major: u32, minor: u32) -> FreshAnswer
        ensures { result ≡ fresh_from (fresh_reader_call base (setup_of (given n x y pressure major minor))) }
    {
        let setup = Setup {
            n,
            x,
            y,
            pressure,
            major,
            minor,
        };
        if !panel::setup_ok(setup) {
            return FreshAnswer {
                verdict: Verdict::Setup,
                state: no_state(),
            };
        }
        let t = panel::unused_table();
        FreshAnswer {
            verdict: Verdict::Accepted,
            state: ReaderState {
                setup,
                shown: t,
                pending: t,
                current: SlotNumber(0),
                mode: Mode::Following,
            },
        }
    }
}

// Whether nothing is pending where the mode says so.
fn settled_ok(
    m: Mode,
    n: usize,
    shown: [Slot; panel::RECORDS],
    pending: [Slot; panel::RECORDS],
) -> bool
    requires { (n ≤ records) × SameFrom n shown pending }
    ensures { result ≡ settled (mode_of m) (table_of shown) (table_of pending) }
{
    match m {
        Mode::Following => true,
        Mode::Dropped | Mode::Stale => panel::tables_same(n, shown, pending),
    }
}

fn tables_ok(s: ReaderState) -> bool
    requires { s.setup.n ≤ records }
    ensures { result ≡ good_reader (panel_seen s.setup) (seen s).reader }
{
    let setup = s.setup;
    let shown = s.shown;
    if !panel::table_ok(setup, shown) {
        return false;
    }
    let pending = s.pending;
    if !panel::table_ok(setup, pending) {
        return false;
    }
    if !panel::ids_differ(setup.n, shown) {
        return false;
    }
    let current = s.current;
    if setup.n <= current.0 {
        return false;
    }
    let mode = s.mode;
    settled_ok(mode, setup.n, shown, pending)
}

pub fn state_ok(s: ReaderState) -> bool
    ensures { result ≡ reader_good base (seen s) }
{
    panel::setup_ok(s.setup) && tables_ok(s)
}

fn run_refused(state: ReaderState, verdict: Verdict) -> RunAnswer
    ensures { result ≡ refused_run verdict state }
{
    RunAnswer {
        verdict,
        state,
        counts: Counts::default(),
    }
}

fn ran(setup: Setup, e: Ended) -> RunAnswer
    ensures { result ≡ accepted setup e }
{
    // By way of variables: an array field made part of a literal straight gets no generated proof.
    let shown = e.shown;
    let pending = e.pending;
    RunAnswer {
        verdict: Verdict::Accepted,
        state: ReaderState {
            setup,
            shown,
            pending,
            current: e.current,
            mode: e.mode,
        },
        counts: e.counts,
    }
}

// The whole records of a slice, any length of it, read by a state that was judged already: for a crate that judges it itself. A host calls `run`.
pub fn run_accepted(state: ReaderState, bytes: &[u8]) -> RunAnswer
    requires { reader_good base (seen state) ≡ true }
    ensures { result ≡ answered state.setup (run_over (panel_seen state.setup) (seen state).reader (events_of bytes.now)) }
{
    let setup = state.setup;
    let shown = state.shown;
    let pending = state.pending;
    let current = state.current;
    let mode = state.mode;
    match mode {
        Mode::Following => ran(setup, follow::follow(setup, shown, pending, current, bytes)),
        Mode::Dropped => ran(
            setup,
            follow::lost(shown, current, Mode::Dropped, bytes, 0, Counts::default()),
        ),
        Mode::Stale => ran(
            setup,
            follow::lost(shown, current, Mode::Stale, bytes, 0, Counts::default()),
        ),
    }
}

// Reads all records of a slice: refusals 2, then 6.
pub fn run(state: ReaderState, bytes: &[u8]) -> RunAnswer
    ensures { result ≡ ran_from (run_call base (seen state) bytes.now) }
{
    if !state_ok(state) {
        return run_refused(state, Verdict::State);
    }
    if bytes.len() % 8 != 0 {
        return run_refused(state, Verdict::Ragged);
    }
    run_accepted(state, bytes)
}

// Reads one record by itself, by the same rules: refusal 2.
pub fn read_one(state: ReaderState, e: records::Event) -> RunAnswer
    ensures { result ≡ ran_from (step_call base (seen state) (event_of e)) }
{
    if !state_ok(state) {
        return run_refused(state, Verdict::State);
    }
    let mut bytes = [0u8; 8];
    records::put(&mut bytes, e.kind, e.code, e.value);
    run_accepted(state, &bytes)
}

fn is_stale(m: Mode) -> bool
    ensures { result ≡ stale_mode (mode_of m) }
{
    matches!(m, Mode::Stale)
}

fn load_accepted(setup: Setup, image: &[i32], current: SlotNumber) -> LoadAnswer
    requires { (setup.n ≤ records) × (length image.now ≡ per_slot * setup.n) }
    ensures { result ≡ load_taken setup image.now current.0 }
{
    let t = image::image_table(setup, image);
    LoadAnswer {
        verdict: Verdict::Accepted,
        state: ReaderState {
            setup,
            shown: t,
            pending: t,
            current,
            mode: Mode::Following,
        },
    }
}

// Loads a full table, any numbers: refusals 2, 7, 8.
pub fn load(state: ReaderState, image: &[i32], current: SlotNumber) -> LoadAnswer
    ensures { result ≡ loaded_from (load_call base (seen state) image.now current.0) }
{
    if !state_ok(state) {
        return LoadAnswer {
            verdict: Verdict::State,
            state,
        };
    }
    if !is_stale(state.mode) {
        return LoadAnswer {
            verdict: Verdict::NotStale,
            state,
        };
    }
    if !image::image_ok(state.setup, image, current) {
        return LoadAnswer {
            verdict: Verdict::Image,
            state,
        };
    }
    load_accepted(state.setup, image, current)
}

fn shown_answer(s: Slot) -> SlotAnswer
    ensures { result ≡ asked_from (asked_in following (slot_of s)) }
{
    if s.id.0 == TrackingId::UNUSED {
        SlotAnswer::Empty
    } else {
        SlotAnswer::Contact(s)
    }
}

// NO EVENT IS NOT NO FINGER: a reader that lost track answers Unknown and never an old table.
fn answer_in(m: Mode, shown: [Slot; panel::RECORDS], k: usize) -> SlotAnswer
    requires { k < records }
    ensures { result ≡ asked_from (asked_in (mode_of m) (get_or (table_of shown) k [])) }
{
    match m {
        Mode::Following => shown_answer(shown[k]),
        Mode::Dropped | Mode::Stale => SlotAnswer::Unknown,
    }
}

// What the reader answers of a slot, any number: refusal 2, then no such slot, then the mode.
pub fn ask(state: ReaderState, slot: SlotNumber) -> SlotAnswer
    ensures { AnswersAs (ask_call base (seen state) slot.0) result }
{
    if !state_ok(state) {
        return SlotAnswer::Refused(Verdict::State);
    }
    if state.setup.n <= slot.0 {
        return SlotAnswer::NoSuchSlot;
    }
    answer_in(state.mode, state.shown, slot.0)
}
