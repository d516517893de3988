// Writes the type A frame of an anonymous panel as type B events (document 02's K12): reads its contacts, pairs them with those of the writer's table, and hands the frame that this makes to the writer.
#![tactic(auto)]

ghost use Rattle.std.specs.Prelude.{◌≡◌, ◌++◌, map, ◌≤◌, ◌-◌, ◌*◌, pos, length, take, replicate};
ghost use Rattle.model.specs.Panel.{base, per_slot, records};
ghost use Rattle.model.specs.Shift.{flat};
ghost use Rattle.model.specs.Anonymous.{contact_numbers, row_at, anonymous_call, anonymous_buffer};
ghost use Rattle.common.specs.Seen.{natural};
ghost use Rattle.panel.specs.Seen.{table_of};
ghost use Rattle.pairing.specs.Cells.{Numbers};
ghost use Rattle.writer.specs.Seen.{seen, written_from};
ghost use Rattle.anonymous.specs.Held.{Within, OldsOf, contacts_in, places, Judged};
ghost use Rattle.anonymous.specs.Framed.{Fit, unframed_by, framed_from};

use common::{TrackingId, Verdict};
use packets::{MOST, Packets};
use panel::{PER_SLOT, RECORDS, Setup, Slot};
use writer::{WriterState, Written};

// The numbers of the largest frame.
const NUMBERS: usize = PER_SLOT * RECORDS;

// The contacts of a table, by rising slot: where they are, how many, and which records are live.
#[derive(Clone, Copy)]
struct Olds {
    x: [u32; RECORDS],
    y: [u32; RECORDS],
    live: [bool; RECORDS],
    count: usize,
}

fn olds_of(t: [Slot; RECORDS]) -> Olds
    requires { Within t }
    ensures { OldsOf t result }
{
    let mut x = [0u32; RECORDS];
    let mut y = [0u32; RECORDS];
    let mut live = [false; RECORDS];
    let mut count: usize = 0;
    for s in 0..RECORDS {
        let r = t[s];
        let lives = !common::same(r.id.0, TrackingId::UNUSED);
        live[s] = lives;
        if lives {
            x[count] = r.x;
            y[count] = r.y;
            count += 1;
        }
    }
    Olds { x, y, live, count }
}

// An x or y of each contact; once they are judged, none is negative.
fn plain(a: [i32; MOST]) -> [u32; MOST]
    ensures { result ≡ map natural a }
{
    [
        common::nat_of(a[0]),
        common::nat_of(a[1]),
        common::nat_of(a[2]),
        common::nat_of(a[3]),
        common::nat_of(a[4]),
    ]
}

// The number of each record's contact, or ALONE.
fn numbers_at(t: [Slot; RECORDS], p: Packets) -> [u8; RECORDS]
    requires { Within t × Judged p }
    ensures { result ≡ contact_numbers (table_of t) (contacts_in p) }
{
    let o = olds_of(t);
    let nx = plain(p.x);
    let ny = plain(p.y);
    let ox = o.x;
    let oy = o.y;
    let live = o.live;
    let pairing = pairing::pair_up(&ox, &oy, o.count, &nx, &ny, p.count);
    pairing::place(&live, &pairing, p.count)
}

// A row for each of n slots: kind 1 and its contact's numbers, or zeros.
fn frame_of(n: usize, numbers: [u8; RECORDS], p: Packets) -> [i32; NUMBERS]
    requires { (n ≤ records) × Numbers numbers }
    ensures { result ≡ flat (map (row_at (places p)) (take n numbers)) ++ replicate (per_slot * (records - n)) (pos 0) }
{
    let mut f = [0i32; NUMBERS];
    for s in 0..n {
        let at = PER_SLOT * s;
        let c = numbers[s] as usize;
        if c < MOST {
            f[at] = 1;
            f[at + 1] = p.x[c];
            f[at + 2] = p.y[c];
            f[at + 3] = p.pressure[c];
        }
    }
    f
}

// A frame with zeros behind it, how many numbers it has, and the verdict on its records.
#[derive(Clone, Copy)]
pub struct Framed {
    pub frame: [i32; NUMBERS],
    pub size: usize,
    pub verdict: Verdict,
}

fn unframed(verdict: Verdict) -> Framed
    ensures { result ≡ unframed_by verdict }
{
    Framed {
        frame: [0i32; NUMBERS],
        size: 0,
        verdict,
    }
}

// The frame that a type A frame's records make of a good state's table; refusals 6, 9, 10 and 4, in this order.
pub fn read_frame(setup: Setup, table: [Slot; RECORDS], bytes: &[u8]) -> Framed
    requires { Fit setup table }
    ensures { result ≡ framed_from setup table bytes.now }
{
    if bytes.len() % records::LENGTH != 0 {
        return unframed(Verdict::Ragged);
    }
    let p = packets::read_packets(bytes);
    if MOST < p.count {
        return unframed(Verdict::TooMany);
    }
    if setup.n < p.count {
        return unframed(Verdict::TooMany);
    }
    if !p.sound {
        return unframed(Verdict::Unfinished);
    }
    if !packets::values_ok(setup, p.count, p.x, p.y, p.pressure) {
        return unframed(Verdict::Value);
    }
    let numbers = numbers_at(table, p);
    let n = setup.n;
    let size = PER_SLOT * n;
    Framed {
        frame: frame_of(n, numbers, p),
        size,
        verdict: Verdict::Accepted,
    }
}

// Writes what a type A frame changes into `buf` from the position `at` on; refusals 2, 6, 9, 10, 4 and 5, in this order.
pub fn write(state: WriterState, bytes: &[u8], buf: &mut [u8], at: usize) -> Written
    ensures { (result ≡ written_from (anonymous_call base (seen state) bytes.now at (length buf.old))) × (buf.new ≡ anonymous_buffer base (seen state) bytes.now at buf.old) }
{
    if !writer::state_ok(state) {
        return writer::refused(Verdict::State, state, 0);
    }
    let f = read_frame(state.setup, state.table, bytes);
    let v = f.verdict;
    if v.number() != 0 {
        return writer::refused(v, state, 0);
    }
    let frame = f.frame;
    writer::write(state, &frame[..f.size], buf, at)
}
