// A run over records: the loop of a reader that follows, which changes its tables in place, and the end once track is lost. The reader's calls stand on it.
#![tactic(auto)]

ghost use Rattle.std.specs.Prelude.{◌≡◌, true, ◌<◌, ◌≤◌, ◌+◌, ◌/◌, length};
ghost use Rattle.model.specs.Panel.{base, setup_good};
ghost use Rattle.model.specs.Records.{events_of};
ghost use Rattle.model.specs.Reader.{following, dropped, nothing};
ghost use Rattle.common.specs.Seen.{mode_of, counts_of, counts_from};
ghost use Rattle.panel.specs.Seen.{setup_of, panel_seen, unused_all, SameFrom};
ghost use Rattle.follow.specs.Seen.{reader_of};
ghost use Rattle.common.specs.Runs.{onward};
ghost use Rattle.follow.specs.Runs.{ended_from, lost_at, left_from, so_far, Skips};

use acts::Act;
use common::{Counts, Mode, SlotNumber, TrackingId};
use panel::{RECORDS, Setup, Slot};

#[derive(Clone, Copy)]
pub struct Ended {
    pub shown: [Slot; RECORDS],
    pub pending: [Slot; RECORDS],
    pub current: SlotNumber,
    pub mode: Mode,
    pub counts: Counts,
}

// The rest of a run, from record k on, once the reader lost track: only a load leads back, so every record is ignored and only the mode moves.
pub fn lost(
    shown: [Slot; RECORDS],
    current: SlotNumber,
    m: Mode,
    bytes: &[u8],
    k: usize,
    before: Counts,
) -> Ended
    requires { k ≤ length bytes.now / 8 }
    ensures { result ≡ lost_at shown current (mode_of m) (counts_of before) (left_from bytes.now k) }
{
    Ended {
        shown,
        pending: shown,
        current,
        mode: common::last_mode(m, bytes, k),
        counts: Counts {
            ignored: bytes.len() / 8 - k,
            ..before
        },
    }
}

// What a run that follows has counted, here or in lent bytes; `first` is the number of the first record skipped.
#[derive(Clone, Copy)]
pub struct SoFar {
    pub frames: usize,
    pub types: usize,
    pub codes: usize,
    pub first: usize,
}

pub fn counted(bytes: &[u8], so: SoFar, bad: usize) -> Counts
    requires { Skips so (length bytes.now) }
    ensures { result ≡ counts_from (so_far bytes.now so bad) }
{
    Counts {
        shown: so.frames,
        types: so.types,
        codes: so.codes,
        bad,
        ignored: 0,
        first: common::first_skipped(bytes, so.types + so.codes, so.first),
    }
}

// The end of a run that drops at record k, with so many bad ones: 1 for a bad value, 0 for a loss.
fn drops(
    shown: [Slot; RECORDS],
    current: usize,
    bytes: &[u8],
    k: usize,
    so: SoFar,
    bad: usize,
) -> Ended
    requires { (k < length bytes.now / 8) × Skips so (length bytes.now) }
    ensures { result ≡ lost_at shown (record { 0 = current }) dropped (so_far bytes.now so bad) (left_from bytes.now (k + 1)) }
{
    lost(
        shown,
        SlotNumber(current),
        Mode::Dropped,
        bytes,
        k + 1,
        counted(bytes, so, bad),
    )
}

// A run that begins following. The tables are changed in place: what an event changes is one number.
// Most reports come without a new id, so the pending ids are compared only if one was written since they were last found to differ.
// Most come after one slot or two, so a report copies two slots: `opened` slots were selected since the last report, at which `from` was current, and with
// fewer than two of them only `from` and the current slot can differ from what is shown. A run may begin with anything pending, so `opened` begins at 2.
pub fn follow(
    setup: Setup,
    shown0: [Slot; RECORDS],
    pending0: [Slot; RECORDS],
    current0: SlotNumber,
    bytes: &[u8],
) -> Ended
    requires { (setup_good base (setup_of setup) ≡ true) × (current0.0 < setup.n) × SameFrom setup.n pending0 unused_all }
    ensures { result ≡ ended_from (onward (panel_seen setup) (reader_of shown0 pending0 current0.0 following) nothing (events_of bytes.now)) }
{
    let count = bytes.len() / 8;
    let mut shown = shown0;
    let mut pending = pending0;
    let mut written = true;
    let mut current = current0.0;
    let mut so = SoFar {
        frames: 0,
        types: 0,
        codes: 0,
        first: 0,
    };
    let mut from = current;
    let mut opened: usize = 2;
    for k in 0..count {
        let act = acts::act_of(records::word_at(bytes, 8 * k));
        let value = records::word_at(bytes, 8 * k + 4);
        match act {
            Act::UnknownType => {
                so.first = common::earliest(so.types + so.codes, so.first, k);
                so.types += 1;
            }
            Act::UnknownCode => {
                so.first = common::earliest(so.types + so.codes, so.first, k);
                so.codes += 1;
            }
            Act::Report => {
                if written {
                    if !panel::ids_differ(setup.n, pending) {
                        let c = counted(bytes, so, 1);
                        return lost(shown, SlotNumber(current), Mode::Stale, bytes, k + 1, c);
                    }
                    written = false;
                }
                if opened < 2 {
                    shown[from] = pending[from];
                    shown[current] = pending[current];
                } else {
                    shown = pending;
                }
                from = current;
                opened = 0;
                so.frames += 1;
            }
            Act::Loss => {
                return drops(shown, current, bytes, k, so, 0);
            }
            Act::Select => {
                let slot = value as usize;
                if setup.n <= slot {
                    return drops(shown, current, bytes, k, so, 1);
                }
                current = slot;
                opened += 1;
            }
            Act::Id => {
                let v = records::signed_of(value);
                if !common::id_ok(v) {
                    return drops(shown, current, bytes, k, so, 1);
                }
                written = true;
                pending[current].id = TrackingId(v);
            }
            Act::X => {
                if setup.x < value {
                    return drops(shown, current, bytes, k, so, 1);
                }
                pending[current].x = value;
            }
            Act::Y => {
                if setup.y < value {
                    return drops(shown, current, bytes, k, so, 1);
                }
                pending[current].y = value;
            }
            Act::Pressure => {
                if setup.pressure < value {
                    return drops(shown, current, bytes, k, so, 1);
                }
                pending[current].pressure = value;
            }
            Act::Major => {
                if setup.major < value {
                    return drops(shown, current, bytes, k, so, 1);
                }
                pending[current].major = value;
            }
            Act::Minor => {
                if setup.minor < value {
                    return drops(shown, current, bytes, k, so, 1);
                }
                pending[current].minor = value;
            }
        }
    }
    Ended {
        shown,
        pending,
        current: SlotNumber(current),
        mode: Mode::Following,
        counts: counted(bytes, so, 0),
    }
}
