// The panel's types, and the tests of a setup, a slot and a table. The reader and the writer stand on it.
#![tactic(auto)]

mod words;

ghost use Rattle.std.specs.Prelude.{◌≡◌, ◌&&◌, ◌+◌, ◌<◌, ◌≤◌, length, take, drop};
ghost use Rattle.model.specs.Panel.{base, setup_good, per_slot, records};
ghost use Rattle.model.specs.Table.{numbers_of, ids, unheld, good_slot, eq_slot, eq_table, ids_differ as ids_apart, good_records};
ghost use Rattle.model.specs.Frame.{numbers_from};
ghost use Rattle.panel.specs.Seen.{row_of, slot_of, table_of, setup_of, fields_of, axes_of, unused, unused_all, SameFrom, zeros};
ghost use Rattle.panel.specs.Judged.{JudgedBy};

use common::TrackingId;

// How many slot records a table holds.
pub const RECORDS: usize = 32;

// How many numbers a slot has.
pub const PER_SLOT: usize = 6;

// The most events of a frame: one for each number, one to open each slot but one, and the report.
pub const MOST_EVENTS: usize = PER_SLOT * RECORDS + RECORDS;

// The most that a setup may give as the largest x and y, as the largest pressure, and as the largest sizes.
pub const MOST_POSITION: usize = 32767;

pub const MOST_PRESSURE: usize = 255;

pub const MOST_SIZE: usize = 255;

// The least that a frame may give a contact as x and y, as pressure, and as a size. A table may hold less.
pub const LEAST_POSITION: u32 = 0;

pub const LEAST_PRESSURE: u32 = 1;

pub const LEAST_SIZE: u32 = 0;

// The numbers of a slot are unsigned but for the id: only good numbers are ever held, and a test against a largest value is one comparison.
#[derive(Clone, Copy, PartialEq, Eq)]
pub struct Slot {
    pub id: TrackingId,
    pub x: u32,
    pub y: u32,
    pub pressure: u32,
    pub major: u32,
    pub minor: u32,
}

#[derive(Clone, Copy)]
pub struct Setup {
    pub n: usize,
    pub x: u32,
    pub y: u32,
    pub pressure: u32,
    pub major: u32,
    pub minor: u32,
}

// A slot's numbers as they lie in a frame or an image: the kind or the id first, and then the others, any signed number each.
#[derive(Clone, Copy)]
pub struct Row {
    pub first: i32,
    pub x: i32,
    pub y: i32,
    pub pressure: i32,
    pub major: i32,
    pub minor: i32,
}

impl Slot {
    pub fn unused() -> Self
        ensures { result ≡ unused }
    {
        Slot {
            id: TrackingId(TrackingId::UNUSED),
            x: 0,
            y: 0,
            pressure: 0,
            major: 0,
            minor: 0,
        }
    }
}

pub fn unused_table() -> [Slot; RECORDS]
    ensures { result ≡ unused_all }
{
    let u = Slot::unused();
    [u; RECORDS]
}

// The table in the place of a state that is not made: ids are 0 too.
pub fn zero_table() -> [Slot; RECORDS]
    ensures { result ≡ zeros }
{
    let z = Slot {
        id: TrackingId(0),
        x: 0,
        y: 0,
        pressure: 0,
        major: 0,
        minor: 0,
    };
    [z; RECORDS]
}

pub fn setup_ok(s: Setup) -> bool
    ensures { result ≡ setup_good base (setup_of s) }
{
    common::between(s.n, RECORDS)
        && common::between(s.x as usize, MOST_POSITION)
        && common::between(s.y as usize, MOST_POSITION)
        && common::between(s.pressure as usize, MOST_PRESSURE)
        && common::between(s.major as usize, MOST_SIZE)
        && common::between(s.minor as usize, MOST_SIZE)
}

pub fn row_at(l: &[i32], at: usize) -> Row
    requires { at + per_slot ≤ length l.now }
    ensures { row_of result ≡ numbers_from per_slot l.now at }
{
    Row {
        first: l[at],
        x: l[at + 1],
        y: l[at + 2],
        pressure: l[at + 3],
        major: l[at + 4],
        minor: l[at + 5],
    }
}

// By `&` every test is made and none is a branch of its own, as in `slot_ok`. Written flat as there, the goal `returns` does not close.
pub fn numbers_ok(setup: Setup, r: Row) -> bool
    ensures { result ≡ good_slot (axes_of setup) (numbers_of (row_of r)) }
{
    common::within(r.x, setup.x)
        & (common::within(r.y, setup.y)
            & (common::within(r.pressure, setup.pressure)
                & (common::within(r.major, setup.major) & common::within(r.minor, setup.minor))))
}

pub fn slot_ok(setup: Setup, s: Slot) -> bool
    ensures { result ≡ good_slot (fields_of setup) (slot_of s) }
{
    common::id_ok(s.id.0)
        & (s.x <= setup.x)
        & (s.y <= setup.y)
        & (s.pressure <= setup.pressure)
        & (s.major <= setup.major)
        & (s.minor <= setup.minor)
}

fn slots_same(a: Slot, b: Slot) -> bool
    ensures { result ≡ eq_slot (slot_of a) (slot_of b) }
{
    a == b
}

pub fn slot_unused(s: Slot) -> bool
    ensures { result ≡ eq_slot (slot_of s) (slot_of unused) }
{
    slots_same(s, Slot::unused())
}

// Whether the panel's slots are good, whatever stands past them.
#[tactic(auto, using(crate::proofs::Tables::turns))]
fn slots_ok(setup: Setup, t: [Slot; RECORDS]) -> bool
    requires { setup.n ≤ records }
    ensures { result ≡ good_records (fields_of setup) setup.n (table_of (take setup.n t)) }
{
    for i in 0..setup.n {
        if !slot_ok(setup, t[i]) {
            return false;
        }
    }
    true
}

#[tactic(auto, using(crate::proofs::Tables::turns))]
fn rest_unused(n: usize, t: [Slot; RECORDS]) -> bool
    ensures { result ≡ eq_table (table_of (drop n t)) (table_of (drop n unused_all)) }
{
    for i in n..RECORDS {
        if !slot_unused(t[i]) {
            return false;
        }
    }
    true
}

// Whether the first n records are good slots, and the others unused. A panel of all records has no others, and its table is not copied for them.
#[tactic(auto, using(crate::proofs::Tables::good_parts))]
pub fn table_ok(setup: Setup, t: [Slot; RECORDS]) -> bool
    requires { setup.n ≤ records }
    ensures { result ≡ good_records (fields_of setup) setup.n (table_of t) }
{
    slots_ok(setup, t) && (setup.n == RECORDS || rest_unused(setup.n, t))
}

fn unheld_before(t: [Slot; RECORDS], k: usize, v: i32) -> bool
    requires { k ≤ records }
    ensures { result ≡ unheld v (ids (table_of (take k t))) }
{
    for j in 0..k {
        if t[j].id.0 == v {
            return false;
        }
    }
    true
}

// Whether all live ids differ, of which the first n slots alone may have one. An id falls on one of 64 bits: only one that falls on a bit again is compared with those before it.
pub fn ids_differ(n: usize, t: [Slot; RECORDS]) -> bool
    requires { (n ≤ records) × SameFrom n t unused_all }
    ensures { result ≡ ids_apart (table_of t) }
{
    let mut met: u64 = 0;
    for k in 0..n {
        let v = t[k].id.0;
        if v != TrackingId::UNUSED {
            let bit = 1u64 << (common::nat_of(v) % 64);
            if met & bit == 0 {
                met |= bit;
            } else if !unheld_before(t, k, v) {
                return false;
            }
        }
    }
    true
}

// What a walk over a table tells: whether it is good but for its ids, and whether no two live ids fall on one of 64 bits.
#[derive(Clone, Copy)]
struct Judged {
    good: bool,
    apart: bool,
}

// Two loops in one function, and no other is handed the table: it would be copied for each (docs/PERFORMANCE.md).
fn records_judged(setup: Setup, t: [Slot; RECORDS]) -> Judged
    requires { setup.n ≤ records }
    ensures { JudgedBy setup t result }
{
    for past in setup.n..RECORDS {
        if !slot_unused(t[past]) {
            return Judged {
                good: false,
                apart: false,
            };
        }
    }
    let mut held: u64 = 0;
    let mut apart = true;
    for j in 0..setup.n {
        let slot = t[j];
        if !slot_ok(setup, slot) {
            return Judged {
                good: false,
                apart: false,
            };
        }
        let id = slot.id.0;
        if id != TrackingId::UNUSED {
            let mark = 1u64 << (common::nat_of(id) % 64);
            apart = apart & (held & mark == 0);
            held |= mark;
        }
    }
    Judged { good: true, apart }
}

// Whether a table is as a state's should be: good slots with live ids that differ, and unused records past them. Ids are compared only where two fall on one bit.
pub fn table_good(setup: Setup, t: [Slot; RECORDS]) -> bool
    requires { setup.n ≤ records }
    ensures { result ≡ (good_records (fields_of setup) setup.n (table_of t) && ids_apart (table_of t)) }
{
    let told = records_judged(setup, t);
    told.good && (told.apart || ids_differ(setup.n, t))
}

#[tactic(auto, using(crate::proofs::Tables::turns))]
pub fn tables_same(n: usize, a: [Slot; RECORDS], b: [Slot; RECORDS]) -> bool
    requires { (n ≤ records) × SameFrom n a b }
    ensures { result ≡ eq_table (table_of a) (table_of b) }
{
    for s in 0..n {
        if !slots_same(a[s], b[s]) {
            return false;
        }
    }
    true
}
