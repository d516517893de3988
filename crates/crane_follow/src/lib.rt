// A crane's run over records: the loop of a reader that follows, which changes its tables in place, and how a run ends once track is lost. The calls of the cranes' reader stand on it.
#![tactic(auto)]

ghost use Rattle.std.specs.Prelude.{◌≡◌, true, ◌<◌, ◌≤◌, ◌+◌, ◌-◌, ◌*◌, ◌/◌, ◌^◌, length};
ghost use Rattle.model.specs.Panel.{crane, setup_good};
ghost use Rattle.model.specs.Records.{events_from, events_of};
ghost use Rattle.model.specs.Reader.{following, nothing};
ghost use Rattle.common.specs.Seen.{mode_of, counts_of, counts_from};
ghost use Rattle.crane_panel.specs.Seen.{setup_of, panel_seen, unused_all, SameFrom};
ghost use Rattle.crane_follow.specs.Seen.{reader_of};
ghost use Rattle.common.specs.Runs.{onward, counted as counts_so_far, FirstWithin, first_at};
ghost use Rattle.crane_follow.specs.Runs.{ended_from, lost_at};

use common::{Counts, Mode, SlotNumber};
use crane_acts::Act;
use crane_panel::{RECORDS, Setup, Slot};

#[derive(Clone, Copy)]
pub struct Ended {
    pub shown: [Slot; RECORDS],
    pub pending: [Slot; RECORDS],
    pub current: SlotNumber,
    pub mode: Mode,
    pub counts: Counts,
}

// The rest of a run, from record k on, once the reader lost track: only a load leads back, so every record is ignored and only the mode moves.
pub fn lost(
    shown: [Slot; RECORDS],
    current: SlotNumber,
    m: Mode,
    bytes: &[u8],
    k: usize,
    before: Counts,
) -> Ended
    requires { k ≤ length bytes.now / 8 }
    ensures { result ≡ lost_at shown current (mode_of m) (counts_of before) (events_from (length bytes.now / 8 - k) bytes.now (8 * k)) }
{
    Ended {
        shown,
        pending: shown,
        current,
        mode: common::last_mode(m, bytes, k),
        counts: Counts {
            ignored: bytes.len() / 8 - k,
            ..before
        },
    }
}

fn counted(bytes: &[u8], shown: usize, types: usize, codes: usize, bad: usize, at: usize) -> Counts
    requires { (types + codes < 2 ^ 64) × FirstWithin (types + codes) at (length bytes.now) }
    ensures { result ≡ counts_from (counts_so_far shown types codes bad (first_at bytes.now (types + codes) at)) }
{
    Counts {
        shown,
        types,
        codes,
        bad,
        ignored: 0,
        first: common::first_skipped(bytes, types + codes, at),
    }
}

// A run that begins following. The tables are changed in place: a table is copied at a report or a loss, never for another event.
// Most reports come without a new id, so the pending ids are compared only if one was written since they were last found to differ.
pub fn follow(
    setup: Setup,
    shown0: [Slot; RECORDS],
    pending0: [Slot; RECORDS],
    current0: SlotNumber,
    bytes: &[u8],
) -> Ended
    requires { (setup_good crane (setup_of setup) ≡ true) × (current0.0 < setup.n) × SameFrom setup.n pending0 unused_all }
    ensures { result ≡ ended_from (onward (panel_seen setup) (reader_of shown0 pending0 current0.0 following) nothing (events_of bytes.now)) }
{
    let count = bytes.len() / 8;
    let mut shown = shown0;
    let mut pending = pending0;
    let mut written = true;
    let mut current = current0.0;
    let mut frames: usize = 0;
    let mut types: usize = 0;
    let mut codes: usize = 0;
    let mut first: usize = 0;
    for k in 0..count {
        match crane_acts::act_of(setup, records::record_at(bytes, 8 * k)) {
            Act::UnknownType => {
                first = common::earliest(types + codes, first, k);
                types += 1;
            }
            Act::UnknownCode => {
                first = common::earliest(types + codes, first, k);
                codes += 1;
            }
            Act::Bad => {
                let c = counted(bytes, frames, types, codes, 1, first);
                return lost(shown, SlotNumber(current), Mode::Dropped, bytes, k + 1, c);
            }
            Act::Report => {
                if written {
                    if !crane_panel::ids_differ(setup.n, pending) {
                        let c = counted(bytes, frames, types, codes, 1, first);
                        return lost(shown, SlotNumber(current), Mode::Stale, bytes, k + 1, c);
                    }
                    written = false;
                }
                shown = pending;
                frames += 1;
            }
            Act::Loss => {
                let c = counted(bytes, frames, types, codes, 0, first);
                return lost(shown, SlotNumber(current), Mode::Dropped, bytes, k + 1, c);
            }
            Act::Select(s) => {
                current = s.0;
            }
            Act::Id(v) => {
                written = true;
                pending[current].id = v;
            }
            Act::X(v) => {
                pending[current].x = v;
            }
            Act::Y(v) => {
                pending[current].y = v;
            }
            Act::Pressure(v) => {
                pending[current].pressure = v;
            }
        }
    }
    Ended {
        shown,
        pending,
        current: SlotNumber(current),
        mode: Mode::Following,
        counts: counted(bytes, frames, types, codes, 0, first),
    }
}
