// What has no shape, whatever a slot holds and a table counts: the kinds of number, a refusal's name, a reader's mode and how it goes on once track is lost. All other crates stand on it.
#![tactic(auto)]

mod words;

ghost use Rattle.std.specs.Prelude.{◌≡◌, ◌≤◌, ◌-◌, ◌*◌, ◌/◌, pos, length};
ghost use Rattle.model.specs.Numbers.{eq_z, between as between_n, between_z};
ghost use Rattle.model.specs.Panel.{id_field};
ghost use Rattle.model.specs.Table.{fits};
ghost use Rattle.model.specs.Records.{events_from};
ghost use Rattle.records.specs.Seen.{event_of};
ghost use Rattle.common.specs.Seen.{natural, verdict_number, mode_of, skipped_from};
ghost use Rattle.common.specs.Lost.{heard, on_lost, last_mode as mode_after};
ghost use Rattle.common.specs.Runs.{FirstWithin, first_at, first_after};

// A slot number and a tracking id are kinds of number that must not be mixable: a lifted id taken for a slot would move another finger.
#[derive(Clone, Copy)]
pub struct SlotNumber(pub usize);

#[derive(Clone, Copy, PartialEq, Eq)]
pub struct TrackingId(pub i32);

impl TrackingId {
    pub const UNUSED: i32 = -1;

    pub const MOST: i32 = 65535;

    pub const COUNT: u32 = 65536;
}

pub fn same(a: i32, b: i32) -> bool
    ensures { result ≡ eq_z a b }
{
    a == b
}

// A number that is not negative; 0 for any other.
pub fn nat_of(v: i32) -> u32
    ensures { result ≡ natural v }
{
    if v < 0 { 0 } else { v as u32 }
}

pub fn within(v: i32, top: u32) -> bool
    ensures { result ≡ between_z (pos 0) (pos top) v }
{
    0 <= v && nat_of(v) <= top
}

pub fn between(v: usize, top: usize) -> bool
    ensures { result ≡ between_n 1 top v }
{
    (1..=top).contains(&v)
}

pub fn id_ok(v: i32) -> bool
    ensures { result ≡ fits id_field v }
{
    (TrackingId::UNUSED..=TrackingId::MOST).contains(&v)
}

// A call is accepted, or refused by document 01's name.
#[derive(Clone, Copy)]
pub enum Verdict {
    Accepted = 0,
    Setup = 1,
    State = 2,
    Frame = 3,
    Value = 4,
    NoRoom = 5,
    Ragged = 6,
    NotStale = 7,
    Image = 8,
    // document 02's K12: more contacts than five or n; a type A frame that is not whole
    TooMany = 9,
    Unfinished = 10,
    // document 02's K13
    Command = 11,
}

impl Verdict {
    // Document 01's number of a refusal, 9 and 10 of 02's K12, 11 of its K13; 0 where the call was accepted.
    pub fn number(self) -> u8
        ensures { result ≡ verdict_number self }
    {
        self as u8
    }
}

#[derive(Clone, Copy)]
pub enum Mode {
    Following,
    Dropped,
    Stale,
}

// A count is as wide as a slice's length, so it fits whatever comes. Skipped events are counted by what is unknown of them.
// The first that a run skipped stands by its type and code.
#[derive(Clone, Copy, Default)]
pub struct Counts {
    pub shown: usize,
    pub types: usize,
    pub codes: usize,
    pub bad: usize,
    pub ignored: usize,
    pub first: Option<(u16, u16)>,
}

fn lost_step(mode: Mode, e: records::Event) -> Mode
    ensures { mode_of result ≡ on_lost (mode_of mode) (heard (event_of e)) }
{
    if e.kind != records::SYN {
        return mode;
    }
    match (mode, e.code) {
        (Mode::Dropped, records::REPORT) => Mode::Stale,
        (Mode::Stale, records::DROPPED) => Mode::Dropped,
        _ => mode,
    }
}

// The mode after all records from record k on, once track is lost: only a load leads back, so nothing else of a state moves.
pub fn last_mode(m: Mode, bytes: &[u8], k: usize) -> Mode
    requires { k ≤ length bytes.now / 8 }
    ensures { mode_of result ≡ mode_after (mode_of m) (events_from (length bytes.now / 8 - k) bytes.now (8 * k)) }
{
    let count = bytes.len() / 8;
    let mut mode = m;
    for i in k..count {
        mode = lost_step(mode, records::record_at(bytes, 8 * i));
    }
    mode
}

// The first record skipped, where `skipped` records were and record `first` is the first of them.
pub fn first_skipped(bytes: &[u8], skipped: usize, first: usize) -> Option<(u16, u16)>
    requires { FirstWithin skipped first (length bytes.now) }
    ensures { result ≡ skipped_from (first_at bytes.now skipped first) }
{
    if skipped == 0 {
        return None;
    }
    let e = records::record_at(bytes, 8 * first);
    Some((e.kind, e.code))
}

// The number of the first record skipped, where record k is skipped too. A number and no event: what an event has would be kept in memory beside the
// loop's other numbers.
pub fn earliest(skipped: usize, first: usize, k: usize) -> usize
    ensures { result ≡ first_after skipped first k }
{
    if 0 < skipped { first } else { k }
}
