// A run over records on a reader's two tables where they lie in lent bytes, the shown one first and the pending one behind it: `follow` in place. The reader over lent states stands on it.
#![tactic(auto)]

ghost use Rattle.std.specs.Prelude.{◌≡◌, true, ◌<◌, ◌≤◌, ◌+◌, ◌/◌, length, get_or, set};
ghost use Rattle.model.specs.Panel.{base, setup_good, records};
ghost use Rattle.model.specs.Table.{ids_differ};
ghost use Rattle.model.specs.Records.{events_of};
ghost use Rattle.model.specs.Reader.{following, dropped, nothing};
ghost use Rattle.common.specs.Seen.{mode_of, counts_of};
ghost use Rattle.common.specs.Lost.{last_mode};
ghost use Rattle.common.specs.Runs.{onward};
ghost use Rattle.panel.specs.Seen.{setup_of, table_of, panel_seen, blank, unused_all, SameFrom};
ghost use Rattle.follow.specs.Seen.{reader_of};
ghost use Rattle.follow.specs.Runs.{ended_from, lost_at, left_from, so_far, Skips};
ghost use Rattle.lent_follow.specs.InPlace.{both_size, shown_in, pending_in, Holds, TwoEnough, with_tables};

use acts::Act;
use common::{Counts, Mode, SlotNumber};
use follow::SoFar;
use lent::{SLOT, TABLE};
use panel::Setup;

// How a run ends, but for the tables, which are in the lent bytes.
#[derive(Clone, Copy)]
pub struct EndedIn {
    pub current: SlotNumber,
    pub mode: Mode,
    pub counts: Counts,
}

// Where the pending table begins.
const PENDING: usize = TABLE;

// Nothing is pending any more.
fn take_back(t: &mut [u8])
    requires { length t.old ≡ both_size }
    ensures { Holds (shown_in t.old) (shown_in t.old) t.new }
{
    for i in 0..TABLE {
        t[PENDING + i] = t[i];
    }
}

fn show_all(t: &mut [u8])
    requires { length t.old ≡ both_size }
    ensures { Holds (pending_in t.old) (pending_in t.old) t.new }
{
    for i in 0..TABLE {
        t[i] = t[PENDING + i];
    }
}

fn show_slot(t: &mut [u8], s: usize)
    requires { (s < records) × (length t.old ≡ both_size) }
    ensures { Holds (set (shown_in t.old) s (get_or (pending_in t.old) s blank)) (pending_in t.old) t.new }
{
    let w = lent::slot_at(t, PENDING + SLOT * s);
    lent::put_slot(t, SLOT * s, w);
}

// Shows what is pending. `opened` slots were selected since the last report, at which `from` was current.
fn show(t: &mut [u8], from: usize, current: usize, opened: usize)
    requires { (from < records) × (current < records) × (length t.old ≡ both_size) × TwoEnough opened (shown_in t.old) (pending_in t.old) from current }
    ensures { Holds (pending_in t.old) (pending_in t.old) t.new }
{
    if 1 < opened {
        show_all(t);
        return;
    }
    show_slot(t, from);
    show_slot(t, current);
}

// Whether no two live ids of the pending table are the same. They are compared, and the table is copied, only where two of them fall on one of 64 bits.
fn ids_apart(n: usize, t: &[u8]) -> bool
    requires { (n ≤ records) × (length t.now ≡ both_size) × SameFrom n (pending_in t.now) unused_all }
    ensures { result ≡ ids_differ (table_of (pending_in t.now)) }
{
    let mut met: u64 = 0;
    let mut apart = true;
    for k in 0..n {
        let id = records::signed_of(records::word_at(t, PENDING + SLOT * k));
        if !common::same(id, -1) {
            let bit = 1u64 << (common::nat_of(id) % 64);
            apart = apart & (met & bit == 0);
            met = met | bit;
        }
    }
    apart || panel::ids_differ(n, lent::table_at(t, PENDING))
}

// The mode after the records from k on, once the reader lost track; nothing is pending any more. Cold, since a run loses track once at most: inlined, its two
// loops take registers from the loop of `follow`, and a record that is skipped takes up to eight instructions more.
#[cold]
fn mode_lost(t: &mut [u8], m: Mode, bytes: &[u8], k: usize) -> Mode
    requires { (length t.old ≡ both_size) × (k ≤ length bytes.now / 8) }
    ensures { (mode_of result ≡ last_mode (mode_of m) (left_from bytes.now k)) × Holds (shown_in t.old) (shown_in t.old) t.new }
{
    take_back(t);
    common::last_mode(m, bytes, k)
}

// The rest of a run, from record k on, once the reader lost track.
fn lost(
    t: &mut [u8],
    current: SlotNumber,
    m: Mode,
    bytes: &[u8],
    k: usize,
    before: Counts,
) -> EndedIn
    requires { (length t.old ≡ both_size) × (k ≤ length bytes.now / 8) }
    ensures { with_tables result t.new ≡ lost_at (shown_in t.old) current (mode_of m) (counts_of before) (left_from bytes.now k) }
{
    let mode = mode_lost(t, m, bytes, k);
    EndedIn {
        current,
        mode,
        counts: Counts {
            ignored: bytes.len() / 8 - k,
            ..before
        },
    }
}

// The end of a run that drops at record k, with so many bad ones: 1 for a bad value, 0 for a loss.
fn drops(t: &mut [u8], current: usize, bytes: &[u8], k: usize, so: SoFar, bad: usize) -> EndedIn
    requires { (length t.old ≡ both_size) × (k < length bytes.now / 8) × Skips so (length bytes.now) }
    ensures { with_tables result t.new ≡ lost_at (shown_in t.old) (record { 0 = current }) dropped (so_far bytes.now so bad) (left_from bytes.now (k + 1)) }
{
    let c = follow::counted(bytes, so, bad);
    lost(t, SlotNumber(current), Mode::Dropped, bytes, k + 1, c)
}

// A run that begins following. An event changes one number where it lies, by its own four bytes: an id is stored by its bits. When the ids are compared and
// what a report copies is as in `follow::follow`.
pub fn follow(setup: Setup, t: &mut [u8], current0: SlotNumber, bytes: &[u8]) -> EndedIn
    requires { (setup_good base (setup_of setup) ≡ true) × (current0.0 < setup.n) × (length t.old ≡ both_size) × SameFrom setup.n (pending_in t.old) unused_all }
    ensures { with_tables result t.new ≡ ended_from (onward (panel_seen setup) (reader_of (shown_in t.old) (pending_in t.old) current0.0 following) nothing (events_of bytes.now)) }
{
    let count = bytes.len() / 8;
    let mut written = true;
    let mut current = current0.0;
    let mut so = SoFar {
        frames: 0,
        types: 0,
        codes: 0,
        first: 0,
    };
    let mut from = current;
    let mut opened: usize = 2;
    let mut k: usize = 0;
    // Each arm ends its turn: behind the match its proof would no longer have what the arm knows.
    while k < count {
        let act = acts::act_of(records::word_at(bytes, 8 * k));
        let value = records::word_at(bytes, 8 * k + 4);
        match act {
            Act::UnknownType => {
                let f = common::earliest(so.types + so.codes, so.first, k);
                so.first = f;
                so.types += 1;
                k += 1;
            }
            Act::UnknownCode => {
                let f = common::earliest(so.types + so.codes, so.first, k);
                so.first = f;
                so.codes += 1;
                k += 1;
            }
            Act::Report => {
                if written {
                    if !ids_apart(setup.n, t) {
                        let c = follow::counted(bytes, so, 1);
                        return lost(t, SlotNumber(current), Mode::Stale, bytes, k + 1, c);
                    }
                    written = false;
                }
                show(t, from, current, opened);
                from = current;
                opened = 0;
                so.frames += 1;
                k += 1;
            }
            Act::Loss => {
                return drops(t, current, bytes, k, so, 0);
            }
            Act::Select => {
                let slot = value as usize;
                if setup.n <= slot {
                    return drops(t, current, bytes, k, so, 1);
                }
                current = slot;
                opened += 1;
                k += 1;
            }
            Act::Id => {
                let v = records::signed_of(value);
                if !common::id_ok(v) {
                    return drops(t, current, bytes, k, so, 1);
                }
                written = true;
                lent::put_word(t, PENDING + SLOT * current, value);
                k += 1;
            }
            Act::X => {
                if setup.x < value {
                    return drops(t, current, bytes, k, so, 1);
                }
                lent::put_word(t, PENDING + SLOT * current + 4, value);
                k += 1;
            }
            Act::Y => {
                if setup.y < value {
                    return drops(t, current, bytes, k, so, 1);
                }
                lent::put_word(t, PENDING + SLOT * current + 8, value);
                k += 1;
            }
            Act::Pressure => {
                if setup.pressure < value {
                    return drops(t, current, bytes, k, so, 1);
                }
                lent::put_word(t, PENDING + SLOT * current + 12, value);
                k += 1;
            }
            Act::Major => {
                if setup.major < value {
                    return drops(t, current, bytes, k, so, 1);
                }
                lent::put_word(t, PENDING + SLOT * current + 16, value);
                k += 1;
            }
            Act::Minor => {
                if setup.minor < value {
                    return drops(t, current, bytes, k, so, 1);
                }
                lent::put_word(t, PENDING + SLOT * current + 20, value);
                k += 1;
            }
        }
    }
    EndedIn {
        current: SlotNumber(current),
        mode: Mode::Following,
        counts: follow::counted(bytes, so, 0),
    }
}
