// The cranes' panel: sixteen slots of four numbers, for good, and the tests of a setup, a slot and a table. The cranes' reader stands on it.
#![tactic(auto)]

ghost use Rattle.std.specs.Prelude.{◌≡◌, ◌∷◌, [], ◌≤◌, take, drop};
ghost use Rattle.model.specs.Panel.{crane, setup_good, crane_records};
ghost use Rattle.model.specs.Table.{ids, unheld, good_slot, eq_slot, eq_table, ids_differ as ids_apart, good_records};
ghost use Rattle.crane_panel.specs.Seen.{slot_of, table_of, setup_of, fields_of, axes_of, unused, unused_all, SameFrom, zeros};

use common::TrackingId;

// How many slot records a table holds.
pub const RECORDS: usize = 16;

// How many numbers a slot has.
pub const PER_SLOT: usize = 4;

// The most that a setup may give as the largest x and y, and as the largest pressure.
pub const MOST_POSITION: usize = 32767;

pub const MOST_PRESSURE: usize = 255;

// The numbers of a slot are unsigned but for the id: only good numbers are ever held, and a test against a largest value is one comparison.
#[derive(Clone, Copy, PartialEq, Eq)]
pub struct Slot {
    pub id: TrackingId,
    pub x: u32,
    pub y: u32,
    pub pressure: u32,
}

#[derive(Clone, Copy)]
pub struct Setup {
    pub n: usize,
    pub x: u32,
    pub y: u32,
    pub pressure: u32,
}

impl Slot {
    pub fn unused() -> Self
        ensures { result ≡ unused }
    {
        Slot {
            id: TrackingId(TrackingId::UNUSED),
            x: 0,
            y: 0,
            pressure: 0,
        }
    }
}

pub fn unused_table() -> [Slot; RECORDS]
    ensures { result ≡ unused_all }
{
    let u = Slot::unused();
    [u; RECORDS]
}

// The table in the place of a state that is not made: ids are 0 too.
pub fn zero_table() -> [Slot; RECORDS]
    ensures { result ≡ zeros }
{
    let z = Slot {
        id: TrackingId(0),
        x: 0,
        y: 0,
        pressure: 0,
    };
    [z; RECORDS]
}

pub fn setup_ok(s: Setup) -> bool
    ensures { result ≡ setup_good crane (setup_of s) }
{
    common::between(s.n, RECORDS)
        && common::between(s.x as usize, MOST_POSITION)
        && common::between(s.y as usize, MOST_POSITION)
        && common::between(s.pressure as usize, MOST_PRESSURE)
}

pub fn numbers_ok(setup: Setup, x: i32, y: i32, pressure: i32) -> bool
    ensures { result ≡ good_slot (axes_of setup) (x ∷ y ∷ pressure ∷ []) }
{
    common::within(x, setup.x)
        && common::within(y, setup.y)
        && common::within(pressure, setup.pressure)
}

fn slot_ok(setup: Setup, s: Slot) -> bool
    ensures { result ≡ good_slot (fields_of setup) (slot_of s) }
{
    common::id_ok(s.id.0) && s.x <= setup.x && s.y <= setup.y && s.pressure <= setup.pressure
}

fn slots_same(a: Slot, b: Slot) -> bool
    ensures { result ≡ eq_slot (slot_of a) (slot_of b) }
{
    a == b
}

fn slot_unused(s: Slot) -> bool
    ensures { result ≡ eq_slot (slot_of s) (slot_of unused) }
{
    slots_same(s, Slot::unused())
}

// Whether the panel's slots are good, whatever stands past them.
#[tactic(auto, using(crate::proofs::Tables::turns))]
fn slots_ok(setup: Setup, t: [Slot; RECORDS]) -> bool
    requires { setup.n ≤ crane_records }
    ensures { result ≡ good_records (fields_of setup) setup.n (table_of (take setup.n t)) }
{
    for i in 0..setup.n {
        if !slot_ok(setup, t[i]) {
            return false;
        }
    }
    true
}

#[tactic(auto, using(crate::proofs::Tables::turns))]
fn rest_unused(n: usize, t: [Slot; RECORDS]) -> bool
    ensures { result ≡ eq_table (table_of (drop n t)) (table_of (drop n unused_all)) }
{
    for i in n..RECORDS {
        if !slot_unused(t[i]) {
            return false;
        }
    }
    true
}

// Whether the first n records are good slots, and the others unused. A panel of all records has no others, and its table is not copied for them.
#[tactic(auto, using(crate::proofs::Tables::good_parts))]
pub fn table_ok(setup: Setup, t: [Slot; RECORDS]) -> bool
    requires { setup.n ≤ crane_records }
    ensures { result ≡ good_records (fields_of setup) setup.n (table_of t) }
{
    slots_ok(setup, t) && (setup.n == RECORDS || rest_unused(setup.n, t))
}

fn unheld_before(t: [Slot; RECORDS], k: usize, v: i32) -> bool
    requires { k ≤ crane_records }
    ensures { result ≡ unheld v (ids (table_of (take k t))) }
{
    for j in 0..k {
        if t[j].id.0 == v {
            return false;
        }
    }
    true
}

// Whether all live ids differ, of which the first n slots alone may have one. An id falls on one of 64 bits: only one that falls on a bit again is compared with those before it.
pub fn ids_differ(n: usize, t: [Slot; RECORDS]) -> bool
    requires { (n ≤ crane_records) × SameFrom n t unused_all }
    ensures { result ≡ ids_apart (table_of t) }
{
    let mut met: u64 = 0;
    for k in 0..n {
        let v = t[k].id.0;
        if v != TrackingId::UNUSED {
            let bit = 1u64 << (common::nat_of(v) % 64);
            if met & bit == 0 {
                met |= bit;
            } else if !unheld_before(t, k, v) {
                return false;
            }
        }
    }
    true
}

#[tactic(auto, using(crate::proofs::Tables::turns))]
pub fn tables_same(n: usize, a: [Slot; RECORDS], b: [Slot; RECORDS]) -> bool
    requires { (n ≤ crane_records) × SameFrom n a b }
    ensures { result ≡ eq_table (table_of a) (table_of b) }
{
    for s in 0..n {
        if !slots_same(a[s], b[s]) {
            return false;
        }
    }
    true
}
