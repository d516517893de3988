// A table that lies in lent bytes: whether it is as a state's should be, and which row of a frame is the next that does not leave its slot as it is. The table stays where it lies: a slot is read as it is looked at. The writer over lent bytes stands on it.
#![tactic(auto)]

ghost use Rattle.std.specs.Prelude.{◌≡◌, ◌&&◌, ◌*◌, ◌<◌, ◌≤◌, length, drop, get_or};
ghost use Rattle.model.specs.Panel.{per_slot, records};
ghost use Rattle.model.specs.Table.{eq_table, ids_differ as ids_apart, good_records};
ghost use Rattle.panel.specs.Seen.{table_of, fields_of, unused_all, SameFrom, blank};
ghost use Rattle.plan.specs.Quiet.{NextLoud};
ghost use Rattle.lent.specs.Lent.{table_size, table_in};
ghost use Rattle.lent_table.specs.Judged.{JudgedBy};

use lent::SLOT;
use panel::{PER_SLOT, RECORDS, Setup, Slot};

// The bits of an unused slot's id, which is -1.
const UNUSED: u32 = 0xffff_ffff;

// A table's slot.
pub fn slot_of(t: &[u8], s: usize) -> Slot
    requires { (s < records) × (length t.now ≡ table_size) }
    ensures { result ≡ get_or (table_in t.now) s blank }
{
    lent::slot_at(t, SLOT * s)
}

// What a walk over the panel's slots tells: whether they are good but for their ids, and whether no two live ids fall on one of 64 bits.
#[derive(Clone, Copy)]
struct Judged {
    good: bool,
    apart: bool,
}

// Whether the records past the panel's slots were never used. Each number is gathered over all of them and tested once: without a way out of the loop the compiler takes four at a time.
fn rest_unused(n: usize, t: &[u8]) -> bool
    requires { length t.now ≡ table_size }
    ensures { result ≡ eq_table (table_of (drop n (table_in t.now))) (table_of (drop n unused_all)) }
{
    let mut ids = UNUSED;
    let mut x: u32 = 0;
    let mut y: u32 = 0;
    let mut pressure: u32 = 0;
    let mut major: u32 = 0;
    let mut minor: u32 = 0;
    for i in n..RECORDS {
        let at = SLOT * i;
        ids = ids & records::word_at(t, at);
        x = x | records::word_at(t, at + 4);
        y = y | records::word_at(t, at + 8);
        pressure = pressure | records::word_at(t, at + 12);
        major = major | records::word_at(t, at + 16);
        minor = minor | records::word_at(t, at + 20);
    }
    (ids == UNUSED) & ((x == 0) & ((y == 0) & ((pressure == 0) & ((major == 0) & (minor == 0)))))
}

// The slots of a table whose other records were never used.
fn slots_judged(setup: Setup, t: &[u8]) -> Judged
    requires { (setup.n ≤ records) × (length t.now ≡ table_size) × SameFrom setup.n (table_in t.now) unused_all }
    ensures { JudgedBy setup (table_in t.now) result }
{
    let n = setup.n;
    let mut held: u64 = 0;
    let mut apart = true;
    for j in 0..n {
        let slot = lent::slot_at(t, SLOT * j);
        if !panel::slot_ok(setup, slot) {
            return Judged {
                good: false,
                apart: false,
            };
        }
        let id = slot.id.0;
        if !common::same(id, -1) {
            let mark = 1u64 << (common::nat_of(id) % 64);
            apart = apart & (held & mark == 0);
            held = held | mark;
        }
    }
    Judged { good: true, apart }
}

// Whether a table is good, whatever its ids: a reader's pending table may hold an id twice until a report comes.
pub fn table_ok(setup: Setup, t: &[u8]) -> bool
    requires { (setup.n ≤ records) × (length t.now ≡ table_size) }
    ensures { result ≡ good_records (fields_of setup) setup.n (table_of (table_in t.now)) }
{
    rest_unused(setup.n, t) && slots_judged(setup, t).good
}

// Whether a table is as a state's should be: good slots with live ids that differ, and unused records past them. Only where two ids fall on one bit are they compared, and the table is then copied.
pub fn table_good(setup: Setup, t: &[u8]) -> bool
    requires { (setup.n ≤ records) × (length t.now ≡ table_size) }
    ensures { result ≡ (good_records (fields_of setup) setup.n (table_of (table_in t.now)) && ids_apart (table_of (table_in t.now))) }
{
    if !rest_unused(setup.n, t) {
        return false;
    }
    let told = slots_judged(setup, t);
    told.good && (told.apart || panel::ids_differ(setup.n, lent::table_at(t, 0)))
}

// The first slot from `from` on whose row does not leave it as it is, or n. Most rows leave it so, and then nothing else is asked of them.
pub fn next_loud(n: usize, t: &[u8], frame: &[i32], from: usize) -> usize
    requires { (n ≤ records) × (length t.now ≡ table_size) × (length frame.now ≡ per_slot * n) × (from ≤ n) }
    ensures { NextLoud from n (table_in t.now) frame.now result }
{
    for s in from..n {
        let r = panel::row_at(frame, PER_SLOT * s);
        if !plan::quiet(lent::slot_at(t, SLOT * s), r) {
            return s;
        }
    }
    n
}
