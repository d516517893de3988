// The table and the counter that a frame makes, and what it changes, in bytes that hold a copy of the state's table: from one row that does not leave its slot as it is to the next, with each slot stored where it lies. The lent writer stands on it.
#![tactic(auto)]

ghost use Rattle.std.specs.Prelude.{◌≡◌, ◌*◌, ◌<◌, ◌≤◌, length, take, set};
ghost use Rattle.model.specs.Panel.{per_slot, records};
ghost use Rattle.model.specs.Table.{ids};
ghost use Rattle.model.specs.Frame.{framed, rows_from, values_good};
ghost use Rattle.model.specs.Sending.{changed_in};
ghost use Rattle.panel.specs.Seen.{slot_of, table_of, panel_seen};
ghost use Rattle.tally.specs.Told.{Before, with_slot};
ghost use Rattle.plan.specs.Walk.{plan_from, rows_good};
ghost use Rattle.lent.specs.Lent.{table_size, table_in};
ghost use Rattle.lent_plan.specs.InPlace.{LeftIn, PlansIn, ReadyIn, refusal};

use common::SlotNumber;
use panel::{PER_SLOT, RECORDS, Setup, Slot};
use tally::Changed;

// The most ids that are taken in a frame: every old one, and one given to each slot.
const TAKEN: usize = 2 * RECORDS;

// ---- slots in place

fn put_at(t: &mut [u8], s: usize, w: Slot)
    requires { (s < records) × (length t.old ≡ table_size) }
    ensures { table_in t.new ≡ set (table_in t.old) s w }
{
    lent::put_slot(t, lent::SLOT * s, w);
}

// Slot s, which was `was`, becomes w, and its changed numbers join those before it.
fn make(t: &mut [u8], s: usize, was: Slot, w: Slot, before: Changed) -> Changed
    requires { (s < records) × (length t.old ≡ table_size) × Before s before }
    ensures { (result ≡ with_slot before s (changed_in (slot_of was) (slot_of w))) × (table_in t.new ≡ set (table_in t.old) s w) }
{
    put_at(t, s, w);
    tally::with_slot(before, SlotNumber(s), tally::differ(was, w))
}

// The ids of a table's first n slots, with room for those that a frame gives.
fn ids_of(n: usize, t: &[u8]) -> [i32; TAKEN]
    requires { (n ≤ records) × (length t.now ≡ table_size) }
    ensures { take n result ≡ ids (table_of (take n (table_in t.now))) }
{
    let mut l = [0; TAKEN];
    for i in 0..n {
        l[i] = lent_table::slot_of(t, i).id.0;
    }
    l
}

// ---- the walk

// What a frame makes besides the table in place.
#[derive(Clone, Copy)]
pub struct Plan {
    pub counter: u32,
    pub changes: Changed,
    pub good: bool,
}

// A row is bad: what was made before it is for the caller to throw away.
fn refused(counter: u32) -> Plan
    ensures { result ≡ refusal counter }
{
    Plan {
        counter,
        changes: Changed::none(),
        good: false,
    }
}

// How far a walk has come: the slot that is next, and what changed before it.
#[derive(Clone, Copy)]
struct Reached {
    slot: usize,
    changes: Changed,
}

// The walk from a slot on in which a contact begins, or whose row is bad: the slots before it are made, and the ids of the old table are taken. An ending or replaced contact's id stays taken to the end of the frame, so they are read from the old bytes.
fn give_ids(
    setup: Setup,
    counter: u32,
    frame: &[i32],
    from: Reached,
    old: &[u8],
    t: &mut [u8],
) -> Plan
    requires { LeftIn setup from.slot counter frame.now from.changes old.now t.old }
    ensures { PlansIn (rows_good setup frame.now from.slot) setup.n (table_in old.now) counter (plan_from (ids (table_of (table_in old.now))) counter setup.n frame.now (table_in t.old) from.slot) result (table_in t.new) }
{
    let n = setup.n;
    let mut taken = ids_of(n, old);
    let mut held = plan::marks_of(&taken[..n]);
    let mut m = n;
    let mut k = counter;
    let mut s = from.slot;
    let mut changes = from.changes;
    // A step goes to the next loud row.
    while s < n {
        let r = panel::row_at(frame, PER_SLOT * s);
        let was = lent_table::slot_of(t, s);
        if !frame::row_ok(setup, r) {
            return refused(counter);
        }
        if plan::begins(r.first, was.id) {
            let j = plan::choose(&taken[..m], held, k);
            let v = plan::id_of(j);
            changes = make(t, s, was, plan::contact(v, r), changes);
            taken[m] = v.0;
            held = held | plan::mark_of(j);
            m += 1;
            k = plan::after(j);
            s = lent_table::next_loud(n, t, frame, s + 1);
        } else {
            changes = make(t, s, was, plan::stays(was, r), changes);
            s = lent_table::next_loud(n, t, frame, s + 1);
        }
    }
    Plan {
        counter: k,
        changes,
        good: true,
    }
}

// The counter after a frame and what changed, with the table made in t, which holds a copy of the old one; or that a row is bad. The rows before `from` are quiet.
// Most frames begin no contact: the taken ids are gathered at the first that does.
pub fn plan_frame(
    setup: Setup,
    counter: u32,
    frame: &[i32],
    from: usize,
    old: &[u8],
    t: &mut [u8],
) -> Plan
    requires { ReadyIn setup counter frame.now from old.now t.old }
    ensures { PlansIn (values_good (panel_seen setup) frame.now) setup.n (table_in old.now) counter (framed counter (rows_from per_slot setup.n frame.now 0) (table_of (table_in old.now))) result (table_in t.new) }
{
    let n = setup.n;
    let mut changes = Changed::none();
    let mut s = from;
    // A step goes to the next loud row.
    while s < n {
        let r = panel::row_at(frame, PER_SLOT * s);
        let was = lent_table::slot_of(t, s);
        if common::same(r.first, 0) {
            changes = make(t, s, was, plan::lift(was), changes);
            s = lent_table::next_loud(n, t, frame, s + 1);
        } else {
            let id = was.id;
            if plan::begins(r.first, id) {
                let from = Reached { slot: s, changes };
                return give_ids(setup, counter, frame, from, old, t);
            }
            if !frame::row_ok(setup, r) {
                return refused(counter);
            }
            changes = make(t, s, was, plan::contact(id, r), changes);
            s = lent_table::next_loud(n, t, frame, s + 1);
        }
    }
    Plan {
        counter,
        changes,
        good: true,
    }
}
