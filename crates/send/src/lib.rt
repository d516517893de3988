// The events of a frame, written into a lent buffer from a position on. The writer stands on it.
#![tactic(auto)]

ghost use Rattle.std.specs.Prelude.{◌≡◌, ◌∷◌, ◌++◌, ◌+◌, ◌<◌, ◌≤◌, length};
ghost use Rattle.model.specs.Panel.{records};
ghost use Rattle.model.specs.Records.{lay};
ghost use Rattle.model.specs.Sending.{send_slot, changes, one_unless};
ghost use Rattle.panel.specs.Seen.{slot_of};
ghost use Rattle.send.specs.Sent.{bytes_sent, change_bytes, contact_bytes, rest_bytes, sent_by, Reaches};
ghost use Rattle.send.specs.Told.{one_if, touch_bytes, tool_bytes, place_bytes, end_bytes};

use common::SlotNumber;
use panel::{RECORDS, Slot};
use pointer::Pointer;

// The changed slots are a number of so many bits, of which each names a slot.
const SLOTS: u32 = RECORDS as u32;

// A number of a slot or of the display by its type and code, as it was and as it is; an id by its bits.
#[derive(Clone, Copy)]
struct Change {
    kind: u16,
    code: u16,
    old: u32,
    new: u32,
}

// A number's record, unless the number is the same; where the next one goes.
// The buffer is lent on whole with a position, here and below: a part lent to each call costs instructions.
fn put_number(b: &mut [u8], at: usize, c: Change) -> usize
    requires { at + length (change_bytes c) ≤ length b.old }
    ensures { (result ≡ at + length (change_bytes c)) × (b.new ≡ lay at (change_bytes c) b.old) }
{
    if c.old == c.new {
        return at;
    }
    records::put(&mut b[at..], c.kind, c.code, c.new);
    at + records::LENGTH
}

fn put_contact(b: &mut [u8], at: usize, old: Slot, new: Slot) -> usize
    requires { at + length (contact_bytes old new) ≤ length b.old }
    ensures { (result ≡ at + length (contact_bytes old new)) × (b.new ≡ lay at (contact_bytes old new) b.old) }
{
    let id = Change {
        kind: records::ABS,
        code: records::TRACKING_ID,
        old: records::bits_of(old.id.0),
        new: records::bits_of(new.id.0),
    };
    let x = Change {
        kind: records::ABS,
        code: records::POSITION_X,
        old: old.x,
        new: new.x,
    };
    let y = Change {
        kind: records::ABS,
        code: records::POSITION_Y,
        old: old.y,
        new: new.y,
    };
    let i = put_number(b, at, id);
    let j = put_number(b, i, x);
    put_number(b, j, y)
}

fn put_rest(b: &mut [u8], at: usize, old: Slot, new: Slot) -> usize
    requires { at + length (rest_bytes old new) ≤ length b.old }
    ensures { (result ≡ at + length (rest_bytes old new)) × (b.new ≡ lay at (rest_bytes old new) b.old) }
{
    let pressure = Change {
        kind: records::ABS,
        code: records::PRESSURE,
        old: old.pressure,
        new: new.pressure,
    };
    let major = Change {
        kind: records::ABS,
        code: records::TOUCH_MAJOR,
        old: old.major,
        new: new.major,
    };
    let minor = Change {
        kind: records::ABS,
        code: records::TOUCH_MINOR,
        old: old.minor,
        new: new.minor,
    };
    let i = put_number(b, at, pressure);
    let j = put_number(b, i, major);
    put_number(b, j, minor)
}

pub fn put_changes(b: &mut [u8], at: usize, old: Slot, new: Slot) -> usize
    requires { at + length (bytes_sent (changes 0 (slot_of old) (slot_of new))) ≤ length b.old }
    ensures { (result ≡ at + length (bytes_sent (changes 0 (slot_of old) (slot_of new)))) × (b.new ≡ lay at (bytes_sent (changes 0 (slot_of old) (slot_of new))) b.old) }
{
    let i = put_contact(b, at, old, new);
    put_rest(b, i, old, new)
}

pub fn put_opened(b: &mut [u8], at: usize, s: SlotNumber, old: Slot, new: Slot) -> usize
    requires { (s.0 < records) × (at + length (bytes_sent (send_slot s.0 ∷ changes 0 (slot_of old) (slot_of new))) ≤ length b.old) }
    ensures { (result ≡ at + length (bytes_sent (send_slot s.0 ∷ changes 0 (slot_of old) (slot_of new)))) × (b.new ≡ lay at (bytes_sent (send_slot s.0 ∷ changes 0 (slot_of old) (slot_of new))) b.old) }
{
    records::put(&mut b[at..], records::ABS, records::SLOT, s.0 as u32);
    put_changes(b, at + records::LENGTH, old, new)
}

// Where a frame's contact events end, and the slot last written.
#[derive(Clone, Copy)]
pub struct Reached {
    pub end: usize,
    pub last: SlotNumber,
}

// A frame's contact events from a position on: the current slot's without its number, and those of the slots that `others` names.
// Trailing zeros find the next slot, so that quiet slots cost nothing.
pub fn send_slots(
    b: &mut [u8],
    at: usize,
    old: [Slot; RECORDS],
    new: [Slot; RECORDS],
    others: u32,
    current: SlotNumber,
) -> Reached
    requires { (current.0 < records) × (at + length (bytes_sent (sent_by old new others current.0)) ≤ length b.old) }
    ensures { Reaches at old new others current.0 b.old result b.new }
{
    let c = current.0;
    let mut end = put_changes(b, at, old[c], new[c]);
    let mut m = others;
    let mut last = c;
    while m != 0 {
        let s = (m.trailing_zeros() % SLOTS) as usize;
        m &= m - 1;
        last = s;
        end = put_opened(b, end, SlotNumber(s), old[s], new[s]);
    }
    Reached {
        end,
        last: SlotNumber(last),
    }
}

// ---- for an old display that was told q and is to be told z (document 02's K6)

// BTN_TOUCH, before every other event of its frame; where the next one goes.
pub fn send_touch(b: &mut [u8], at: usize, q: Pointer, z: Pointer) -> usize
    requires { at + length (touch_bytes q z) ≤ length b.old }
    ensures { (result ≡ at + length (touch_bytes q z)) × (b.new ≡ lay at (touch_bytes q z) b.old) }
{
    let touch = Change {
        kind: records::KEY,
        code: records::TOUCH,
        old: u32::from(q.touch),
        new: u32::from(z.touch),
    };
    put_number(b, at, touch)
}

fn zero_if(same: bool) -> u32
    ensures { result ≡ one_unless same }
{
    u32::from(!same)
}

fn one_if(same: bool) -> u32
    ensures { result ≡ one_if same }
{
    u32::from(same)
}

// The old tool is 0 now, and then the new one is 1; code 0 is no tool.
fn put_tools(b: &mut [u8], at: usize, q: Pointer, z: Pointer) -> usize
    requires { at + length (tool_bytes q z) ≤ length b.old }
    ensures { (result ≡ at + length (tool_bytes q z)) × (b.new ≡ lay at (tool_bytes q z) b.old) }
{
    let same = q.tool == z.tool;
    let off = Change {
        kind: records::KEY,
        code: q.tool,
        old: zero_if(same | (q.tool == 0)),
        new: 0,
    };
    let on = Change {
        kind: records::KEY,
        code: z.tool,
        old: one_if(same | (z.tool == 0)),
        new: 1,
    };
    let i = put_number(b, at, off);
    put_number(b, i, on)
}

fn put_place(b: &mut [u8], at: usize, q: Pointer, z: Pointer) -> usize
    requires { at + length (place_bytes q z) ≤ length b.old }
    ensures { (result ≡ at + length (place_bytes q z)) × (b.new ≡ lay at (place_bytes q z) b.old) }
{
    let x = Change {
        kind: records::ABS,
        code: records::X,
        old: q.x,
        new: z.x,
    };
    let y = Change {
        kind: records::ABS,
        code: records::Y,
        old: q.y,
        new: z.y,
    };
    let i = put_number(b, at, x);
    put_number(b, i, y)
}

fn put_display(b: &mut [u8], at: usize, q: Pointer, z: Pointer) -> usize
    requires { at + length (tool_bytes q z ++ place_bytes q z) ≤ length b.old }
    ensures { (result ≡ at + length (tool_bytes q z ++ place_bytes q z)) × (b.new ≡ lay at (tool_bytes q z ++ place_bytes q z) b.old) }
{
    let i = put_tools(b, at, q, z);
    put_place(b, i, q, z)
}

// The tools, X and Y, and the report, which ends every frame.
pub fn send_end(b: &mut [u8], at: usize, q: Pointer, z: Pointer)
    requires { at + length (end_bytes q z) ≤ length b.old }
    ensures { b.new ≡ lay at (end_bytes q z) b.old }
{
    let end = put_display(b, at, q, z);
    records::put(&mut b[end..], records::SYN, records::REPORT, 0);
}
