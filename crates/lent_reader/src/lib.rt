// The reader over state bytes that a host lends and that are changed in place: reader_fresh, run, load and ask. Each answers document 01's number of a refusal, 0 for none.
#![tactic(auto)]

ghost use Rattle.std.specs.Prelude.{◌≡◌, true, ◌++◌, ◌<◌, ◌≤◌, ◌^◌, length};
ghost use Rattle.model.specs.Panel.{base, records};
ghost use Rattle.model.specs.Table.{eq_table};
ghost use Rattle.model.specs.Reader.{Lost};
ghost use Rattle.model.specs.States.{good_reader, reader_good};
ghost use Rattle.model.specs.Calls.{contact};
ghost use Rattle.model.specs.Records.{lay};
ghost use Rattle.common.specs.Seen.{mode_of, counts_of};
ghost use Rattle.common.specs.declared.Mode.TheVariants.{Following};
ghost use Rattle.panel.specs.Seen.{slot_of, table_of, panel_seen};
ghost use Rattle.reader.specs.States.{seen};
ghost use Rattle.reader.specs.Seen.{answer_seen, refusal_of};
ghost use Rattle.lent_reader.specs.Layout.{head_size, reader_size, mode_in as mode_of_byte, mode_byte, begun as begins, formed as is_formed, unpacked as state_in, head_bytes, body_bytes};
ghost use Rattle.lent_reader.specs.Seen.{counts_row, asked_row, Told, FreshIn, RunIn, LoadIn, AskIn};
ghost use Rattle.lent_reader.specs.Runs.{EndsIn};

use common::{Counts, Mode, SlotNumber};
use lent::TABLE;
use panel::{Setup, Slot};
use reader::{ReaderState, SlotAnswer};

pub const VERSION: u8 = 1;

pub const KIND: u8 = 2;

// Where each part of a state stands, behind the version and the kind.
const MODE_AT: usize = 2;

const SPARE_AT: usize = 3;

const CURRENT_AT: usize = 4;

const SETUP_AT: usize = 8;

const SHOWN_AT: usize = 32;

const PENDING_AT: usize = 800;

pub const SIZE: usize = 1568;

const LAST_MODE: u8 = 2;

// How many numbers a setup has, a run tells, and a question is answered by.
pub const SETUP_NUMBERS: usize = 6;

pub const RUN_NUMBERS: usize = 8;

pub const ASK_NUMBERS: usize = 7;

// The first number of an answer.
pub const UNKNOWN: i32 = 0;

pub const EMPTY: i32 = 1;

pub const CONTACT: i32 = 2;

pub const NO_SUCH_SLOT: i32 = 3;

// Document 01's number of a state that is not well formed: bytes that are not formed are refused by it too.
pub const REFUSED: u32 = 2;

// And of records that are not whole.
const RAGGED: u32 = 6;

fn mode_of(v: u8) -> Mode
    ensures { result ≡ mode_of_byte v }
{
    match v {
        0 => Mode::Following,
        1 => Mode::Dropped,
        _ => Mode::Stale,
    }
}

fn mode_byte(m: Mode) -> u8
    ensures { result ≡ mode_byte m }
{
    match m {
        Mode::Following => 0,
        Mode::Dropped => 1,
        Mode::Stale => 2,
    }
}

// Whether bytes begin as a state of a kind.
pub fn begun(b: &[u8], kind: u8) -> bool
    requires { head_size ≤ length b.now }
    ensures { result ≡ begins kind b.now }
{
    b[0] == VERSION && b[1] == kind && b[MODE_AT] <= LAST_MODE
}

fn formed(b: &[u8]) -> bool
    ensures { result ≡ is_formed b.now }
{
    b.len() == SIZE && begun(b, KIND) && b[SPARE_AT] == 0
}

pub fn unpacked(b: &[u8]) -> ReaderState
    requires { reader_size ≤ length b.now }
    ensures { result ≡ state_in b.now }
{
    let shown = lent::table_at(b, SHOWN_AT);
    let pending = lent::table_at(b, PENDING_AT);
    let setup = lent::setup_at(b, SETUP_AT);
    let current = SlotNumber(records::word_at(b, CURRENT_AT) as usize);
    let mode = mode_of(b[MODE_AT]);
    ReaderState {
        shown,
        pending,
        setup,
        current,
        mode,
    }
}

// The fourth byte is spare in a reader's state, and counts the bytes held in a line's.
fn put_head(b: &mut [u8], kind: u8, m: Mode, more: u8)
    requires { head_size ≤ length b.old }
    ensures { b.new ≡ lay 0 (head_bytes kind m more) b.old }
{
    let v = mode_byte(m);
    b[0] = VERSION;
    b[1] = kind;
    b[MODE_AT] = v;
    b[SPARE_AT] = more;
}

fn put_body(b: &mut [u8], s: ReaderState)
    requires { (reader_size ≤ length b.old) × (s.setup.n < 2 ^ 32) × (s.current.0 < 2 ^ 32) }
    ensures { b.new ≡ lay head_size (body_bytes s) b.old }
{
    lent::put_word(b, CURRENT_AT, s.current.0 as u32);
    lent::put_setup(b, SETUP_AT, s.setup);
    lent::put_table(b, SHOWN_AT, s.shown);
    lent::put_table(b, PENDING_AT, s.pending);
}

// A state of this kind, whose fourth byte is `more`, in the first bytes.
pub fn put_state(b: &mut [u8], kind: u8, more: u8, s: ReaderState)
    requires { (reader_size ≤ length b.old) × (s.setup.n < 2 ^ 32) × (s.current.0 < 2 ^ 32) }
    ensures { b.new ≡ lay 0 (head_bytes kind s.mode more ++ body_bytes s) b.old }
{
    put_head(b, kind, s.mode, more);
    put_body(b, s);
}

pub fn put_counts(answer: &mut [u64; RUN_NUMBERS], c: Counts)
    ensures { answer.new ≡ counts_row (counts_of c) }
{
    let (named, kind, code) = match c.first {
        None => (0, 0, 0),
        Some((kind, code)) => (1, kind as u64, code as u64),
    };
    *answer = [
        c.shown as u64,
        c.types as u64,
        c.codes as u64,
        c.bad as u64,
        c.ignored as u64,
        named,
        kind,
        code,
    ];
}

fn put_contact(answer: &mut [i32; ASK_NUMBERS], s: Slot)
    requires { (s.x < 2 ^ 31) × (s.y < 2 ^ 31) × (s.pressure < 2 ^ 31) × (s.major < 2 ^ 31) × (s.minor < 2 ^ 31) }
    ensures { answer.new ≡ asked_row (contact (slot_of s)) }
{
    *answer = [
        CONTACT,
        s.id.0,
        s.x as i32,
        s.y as i32,
        s.pressure as i32,
        s.major as i32,
        s.minor as i32,
    ];
}

// An answer in its places, and the number of a refusal.
pub fn put_answer(answer: &mut [i32; ASK_NUMBERS], a: SlotAnswer) -> u32
    requires { Told a }
    ensures { (result ≡ refusal_of a) × (answer.new ≡ asked_row (answer_seen a)) }
{
    match a {
        SlotAnswer::Contact(s) => {
            put_contact(answer, s);
            0
        }
        SlotAnswer::Empty => {
            *answer = [EMPTY, 0, 0, 0, 0, 0, 0];
            0
        }
        SlotAnswer::Unknown => {
            *answer = [UNKNOWN, 0, 0, 0, 0, 0, 0];
            0
        }
        SlotAnswer::NoSuchSlot => {
            *answer = [NO_SUCH_SLOT, 0, 0, 0, 0, 0, 0];
            0
        }
        SlotAnswer::Refused(v) => {
            *answer = [0; ASK_NUMBERS];
            v.number() as u32
        }
    }
}

// A cast of an element by itself would ask that it fits.
pub fn wide(v: u32) -> usize
    ensures { result ≡ v }
{
    v as usize
}

// The fresh state of a panel, for any six numbers: refusals 1, then 2 where the bytes are not as many as a state has.
pub fn reader_fresh(state: &mut [u8], setup: &[u32; SETUP_NUMBERS]) -> u32
    ensures { FreshIn state.old setup.now result state.new }
{
    let made = ReaderState::fresh(
        wide(setup[0]),
        setup[1],
        setup[2],
        setup[3],
        setup[4],
        setup[5],
    );
    let number = made.verdict.number() as u32;
    if number != 0 {
        return number;
    }
    if state.len() != SIZE {
        return REFUSED;
    }
    put_state(state, KIND, 0, made.state);
    0
}

// Whether nothing is pending, byte by byte: without a way out of the loop the compiler takes many at a time.
fn tables_same(b: &[u8]) -> bool
    requires { length b.now ≡ reader_size }
    ensures { result ≡ eq_table (table_of (state_in b.now).shown) (table_of (state_in b.now).pending) }
{
    let mut same = true;
    for i in 0..TABLE {
        same = same & (b[SHOWN_AT + i] == b[PENDING_AT + i]);
    }
    same
}

// Whether all behind the setup is as a state's should be. Most runs begin with nothing pending, and then the pending table is as good as the shown one.
fn tables_ok(setup: Setup, b: &[u8]) -> bool
    requires { (setup.n ≤ records) × (length b.now ≡ reader_size) }
    ensures { result ≡ good_reader (panel_seen setup) (seen (state_in b.now)).reader }
{
    if !lent_table::table_good(setup, &b[SHOWN_AT..PENDING_AT]) {
        return false;
    }
    if setup.n <= wide(records::word_at(b, CURRENT_AT)) {
        return false;
    }
    if tables_same(b) {
        return true;
    }
    if b[MODE_AT] != 0 {
        return false;
    }
    lent_table::table_ok(setup, &b[PENDING_AT..SIZE])
}

fn state_ok(b: &[u8]) -> bool
    requires { length b.now ≡ reader_size }
    ensures { result ≡ reader_good base (seen (state_in b.now)) }
{
    let setup = lent::setup_at(b, SETUP_AT);
    panel::setup_ok(setup) && tables_ok(setup, b)
}

// A run that begins following, on the tables where they lie.
fn run_following(b: &mut [u8], bytes: &[u8]) -> Counts
    requires { (length b.old ≡ reader_size) × (reader_good base (seen (state_in b.old)) ≡ true) × ((state_in b.old).mode ≡ Following) }
    ensures { EndsIn b.old bytes.now result b.new }
{
    let setup = lent::setup_at(b, SETUP_AT);
    let current = SlotNumber(wide(records::word_at(b, CURRENT_AT)));
    let e = lent_follow::follow(setup, &mut b[SHOWN_AT..SIZE], current, bytes);
    lent::put_word(b, CURRENT_AT, e.current.0 as u32);
    put_head(b, KIND, e.mode, 0);
    e.counts
}

// A run that begins without track: every record is ignored, and only the mode moves.
fn run_lost(b: &mut [u8], m: Mode, bytes: &[u8]) -> Counts
    requires { (length b.old ≡ reader_size) × (reader_good base (seen (state_in b.old)) ≡ true) × ((state_in b.old).mode ≡ m) × Lost (mode_of m) }
    ensures { EndsIn b.old bytes.now result b.new }
{
    let last = common::last_mode(m, bytes, 0);
    put_head(b, KIND, last, 0);
    Counts {
        ignored: bytes.len() / 8,
        ..Counts::default()
    }
}

fn run_accepted(b: &mut [u8], bytes: &[u8]) -> Counts
    requires { (length b.old ≡ reader_size) × (reader_good base (seen (state_in b.old)) ≡ true) }
    ensures { EndsIn b.old bytes.now result b.new }
{
    let m = mode_of(b[MODE_AT]);
    match m {
        Mode::Following => run_following(b, bytes),
        Mode::Dropped => run_lost(b, Mode::Dropped, bytes),
        Mode::Stale => run_lost(b, Mode::Stale, bytes),
    }
}

// Reads all records of a slice, on the state where it lies: refusals 2, then 6.
pub fn run(state: &mut [u8], bytes: &[u8], answer: &mut [u64; RUN_NUMBERS]) -> u32
    ensures { RunIn state.old bytes.now result state.new answer.new }
{
    *answer = [0; RUN_NUMBERS];
    if !formed(state) {
        return REFUSED;
    }
    if !state_ok(state) {
        return REFUSED;
    }
    if bytes.len() % 8 != 0 {
        return RAGGED;
    }
    let counts = run_accepted(state, bytes);
    put_counts(answer, counts);
    0
}

// Loads a full table, any numbers: refusals 2, 7, 8.
pub fn load(state: &mut [u8], image: &[i32], current: usize) -> u32
    ensures { LoadIn state.old image.now current result state.new }
{
    if !formed(state) {
        return REFUSED;
    }
    let loaded = reader::load(unpacked(state), image, SlotNumber(current));
    let number = loaded.verdict.number() as u32;
    if number != 0 {
        return number;
    }
    put_state(state, KIND, 0, loaded.state);
    0
}

// What the reader answers of a slot, any number: refusal 2, then no such slot, then the mode.
pub fn ask(state: &[u8], slot: usize, answer: &mut [i32; ASK_NUMBERS]) -> u32
    ensures { AskIn state.now slot result answer.new }
{
    if !formed(state) {
        *answer = [0; ASK_NUMBERS];
        return REFUSED;
    }
    put_answer(answer, reader::ask(unpacked(state), SlotNumber(slot)))
}
