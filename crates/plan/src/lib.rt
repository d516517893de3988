// The table and the counter that a frame makes, and what it changes: one walk judges each row, plans its slot and compares. A row that leaves its slot as it is is passed over. The writer stands on it.
#![tactic(auto)]

ghost use Rattle.std.specs.Prelude.{◌≡◌, ◌*◌, ◌<◌, ◌≤◌, pos, length, take};
ghost use Rattle.model.specs.Panel.{id_count, per_slot, records};
ghost use Rattle.model.specs.Numbers.{eq_z};
ghost use Rattle.model.specs.Table.{ids, unheld};
ghost use Rattle.model.specs.Frame.{fate, free_id, next, framed, rows_from, values_good};
ghost use Rattle.common.specs.Marks.{bit_of, Met};
ghost use Rattle.panel.specs.Seen.{row_of, table_of, panel_seen};
ghost use Rattle.tally.specs.Told.{unchanged};
ghost use Rattle.plan.specs.Row.{begun, contact_of, lifted, stayed};
ghost use Rattle.plan.specs.Quiet.{same_numbers, quiet_row, FirstLoud};
ghost use Rattle.plan.specs.Walk.{Ready, RowsLeft, plan_from, refused_plan, PlansBy, rows_good};

use common::{SlotNumber, TrackingId};
use panel::{PER_SLOT, RECORDS, Row, Setup, Slot};
use tally::Changed;

// The most ids that are taken in a frame: every old one, and one given to each slot.
const TAKEN: usize = 2 * RECORDS;

// Whether v is none of the taken ids. All are compared, found or not: without a way out of the loop the compiler takes four at a time.
fn absent(taken: &[i32], v: TrackingId) -> bool
    ensures { result ≡ unheld v.0 taken.now }
{
    let mut found = false;
    for id in taken {
        found |= common::same(v.0, *id);
    }
    !found
}

pub fn id_of(k: u32) -> TrackingId
    requires { k < id_count }
    ensures { result ≡ record { 0 = pos k } }
{
    TrackingId(k as i32)
}

pub fn after(k: u32) -> u32
    requires { k < id_count }
    ensures { result ≡ next k }
{
    (k + 1) % TrackingId::COUNT
}

// The bit of 64 that an id falls on.
pub fn mark_of(k: u32) -> u64
    requires { k < id_count }
    ensures { result ≡ bit_of (pos k) }
{
    1u64 << (k % 64)
}

// The bits that ids fall on. One that is -1 falls on the last, which does no harm: an id on a bit that is set is compared with all.
pub fn marks_of(ids: &[i32]) -> u64
    ensures { Met result ids.now }
{
    let mut held: u64 = 0;
    for id in ids {
        held |= 1u64 << (common::nat_of(*id) % 64);
    }
    held
}

// Whether k is none of the taken ids. Most often its bit tells it.
fn free(taken: &[i32], held: u64, k: u32) -> bool
    requires { (k < id_count) × Met held taken.now }
    ensures { result ≡ unheld (pos k) taken.now }
{
    held & mark_of(k) == 0 || absent(taken, id_of(k))
}

// The first number from `from` on, wrapping, that is not taken: as many tries as ids can be taken are enough.
pub fn choose(taken: &[i32], held: u64, from: u32) -> u32
    requires { (length taken.now ≤ 2 * records) × (from < id_count) × Met held taken.now }
    ensures { (result < id_count) × (result ≡ free_id taken.now from) }
{
    let mut k = from;
    for _tries in 0..TAKEN {
        if free(taken, held, k) {
            return k;
        }
        k = after(k);
    }
    k
}

// The ids of a table's first n slots, with room for those that a frame gives.
fn ids_of(n: usize, t: [Slot; RECORDS]) -> [i32; TAKEN]
    requires { n ≤ records }
    ensures { take n result ≡ ids (table_of (take n t)) }
{
    let mut l = [0; TAKEN];
    for i in 0..n {
        l[i] = t[i].id.0;
    }
    l
}

pub fn begins(kind: i32, id: TrackingId) -> bool
    ensures { result ≡ begun (fate kind id.0) }
{
    !common::same(kind, 0) && (common::same(kind, 2) || common::same(id.0, TrackingId::UNUSED))
}

// A slot that has a contact: its id and the row's numbers, which are not negative, so that their bits are they themselves.
pub fn contact(id: TrackingId, r: Row) -> Slot
    ensures { result ≡ contact_of id.0 (row_of r) }
{
    Slot {
        id,
        x: records::bits_of(r.x),
        y: records::bits_of(r.y),
        pressure: records::bits_of(r.pressure),
        major: records::bits_of(r.major),
        minor: records::bits_of(r.minor),
    }
}

// A slot without a contact. A lifted contact's numbers stay: the next one may land on them.
pub fn lift(was: Slot) -> Slot
    ensures { result ≡ lifted was }
{
    Slot {
        id: TrackingId(TrackingId::UNUSED),
        ..was
    }
}

pub fn stays(was: Slot, r: Row) -> Slot
    ensures { result ≡ stayed (eq_z r.first (pos 0)) was (row_of r) }
{
    if common::same(r.first, 0) {
        return lift(was);
    }
    contact(was.id, r)
}

// ---- rows that leave their slot as it is

// By `&` and not `&&`: every test is made, and none is a branch of its own.
fn numbers_same(was: Slot, r: Row) -> bool
    ensures { result ≡ same_numbers was (row_of r) }
{
    (was.x == records::bits_of(r.x))
        & ((was.y == records::bits_of(r.y))
            & ((was.pressure == records::bits_of(r.pressure))
                & ((was.major == records::bits_of(r.major))
                    & (was.minor == records::bits_of(r.minor)))))
}

// A slot that holds a pressure of 0 is no contact that a frame may give: its row is judged.
pub fn quiet(was: Slot, r: Row) -> bool
    ensures { result ≡ quiet_row was (row_of r) }
{
    if common::same(was.id.0, TrackingId::UNUSED) {
        return common::same(r.first, 0);
    }
    common::same(r.first, 1) && (was.pressure != 0) & numbers_same(was, r)
}

// The first slot whose row does not leave it as it is, or n. Most frames are quiet, and then nothing else is asked.
pub fn first_loud(n: usize, t: [Slot; RECORDS], frame: &[i32]) -> usize
    requires { (n ≤ records) × (length frame.now ≡ per_slot * n) }
    ensures { FirstLoud n t frame.now result }
{
    for s in 0..n {
        let r = panel::row_at(frame, PER_SLOT * s);
        if !quiet(t[s], r) {
            return s;
        }
    }
    n
}

// ---- the walk: each branch of a turn ends it, so that its proof knows its tests

#[derive(Clone, Copy)]
pub struct Planned {
    pub table: [Slot; RECORDS],
    pub counter: u32,
    pub changes: Changed,
    pub good: bool,
}

// A row is bad: nothing is planned.
fn refused(old: [Slot; RECORDS], counter: u32) -> Planned
    ensures { result ≡ refused_plan old counter }
{
    Planned {
        table: old,
        counter,
        changes: Changed::none(),
        good: false,
    }
}

// How far a walk has come: the slot that is next, and what changed before it.
#[derive(Clone, Copy)]
struct Reached {
    slot: usize,
    changes: Changed,
}

// The walk from a slot on in which a contact begins, or whose row is bad: the first of `made` are made, and the ids of the old table are taken. An ending or replaced contact's id stays taken to the end of the frame.
fn give_ids(
    setup: Setup,
    old: [Slot; RECORDS],
    made: [Slot; RECORDS],
    counter: u32,
    frame: &[i32],
    from: Reached,
) -> Planned
    requires { RowsLeft setup from.slot counter old made from.changes frame.now }
    ensures { PlansBy (rows_good setup frame.now from.slot) setup.n old counter (plan_from (ids (table_of old)) counter setup.n frame.now made from.slot) result }
{
    let n = setup.n;
    let mut taken = ids_of(n, old);
    let mut held = marks_of(&taken[..n]);
    let mut m = n;
    let mut t = made;
    let mut k = counter;
    let mut changes = from.changes;
    for s in from.slot..n {
        let r = panel::row_at(frame, PER_SLOT * s);
        let was = t[s];
        if quiet(was, r) {
            continue;
        }
        if !frame::row_ok(setup, r) {
            return refused(old, counter);
        }
        if begins(r.first, was.id) {
            let j = choose(&taken[..m], held, k);
            let v = id_of(j);
            let w = contact(v, r);
            t[s] = w;
            changes = tally::with_slot(changes, SlotNumber(s), tally::differ(was, w));
            taken[m] = v.0;
            held |= mark_of(j);
            m += 1;
            k = after(j);
            continue;
        }
        let w = stays(was, r);
        t[s] = w;
        changes = tally::with_slot(changes, SlotNumber(s), tally::differ(was, w));
    }
    Planned {
        table: t,
        counter: k,
        changes,
        good: true,
    }
}

// The table and the counter after a frame, and what changed, of a state's table; or that a row is bad. The rows before `from` are quiet.
// Most frames begin no contact: the taken ids are gathered at the first that does.
pub fn plan_frame(
    setup: Setup,
    old: [Slot; RECORDS],
    counter: u32,
    frame: &[i32],
    from: usize,
) -> Planned
    requires { Ready setup old counter frame.now from }
    ensures { PlansBy (values_good (panel_seen setup) frame.now) setup.n old counter (framed counter (rows_from per_slot setup.n frame.now 0) (table_of old)) result }
{
    let n = setup.n;
    let mut t = old;
    let mut changes = Changed::none();
    for s in from..n {
        let r = panel::row_at(frame, PER_SLOT * s);
        let was = t[s];
        if common::same(r.first, 1) & !common::same(was.id.0, TrackingId::UNUSED) {
            let w = contact(was.id, r);
            let d = tally::differ(was, w);
            if (d == 0) & (was.pressure != 0) {
                continue;
            }
            if !frame::row_ok(setup, r) {
                return refused(old, counter);
            }
            t[s] = w;
            changes = tally::with_changed(changes, SlotNumber(s), d);
            continue;
        }
        if !common::same(r.first, 0) {
            let from = Reached { slot: s, changes };
            return give_ids(setup, old, t, counter, frame, from);
        }
        let w = lift(was);
        t[s] = w;
        changes = tally::with_slot(changes, SlotNumber(s), tally::differ(was, w));
    }
    Planned {
        table: t,
        counter,
        changes,
        good: true,
    }
}
