// Event records: one read from a lent slice, one written to the start of a lent part. The reader and the writer stand on it.
#![tactic(auto)]

ghost use Rattle.std.specs.Prelude.{◌≡◌, ◌+◌, ◌≤◌, length};
ghost use Rattle.model.specs.Records.{bits_of, signed_of, record_bytes, event_at, join16 as joined16, join32 as joined32};
ghost use Rattle.records.specs.Seen.{event_of, word_at, over};

pub const LENGTH: usize = 8;

// Types and codes that documents 01 and 02 list.
pub const SYN: u16 = 0;

pub const ABS: u16 = 3;

pub const REPORT: u16 = 0;

pub const DROPPED: u16 = 3;

// Closes a contact of an anonymous panel, document 02's K12.
pub const MT_REPORT: u16 = 2;

pub const SLOT: u16 = 0x2f;

pub const TOUCH_MAJOR: u16 = 0x30;

pub const TOUCH_MINOR: u16 = 0x31;

pub const POSITION_X: u16 = 0x35;

pub const POSITION_Y: u16 = 0x36;

pub const TRACKING_ID: u16 = 0x39;

pub const PRESSURE: u16 = 0x3a;

// For an old display, document 02's K6: buttons are of type KEY.
pub const KEY: u16 = 1;

pub const X: u16 = 0;

pub const Y: u16 = 1;

pub const TOUCH: u16 = 0x14a;

pub const FINGER: u16 = 0x145;

pub const DOUBLETAP: u16 = 0x14d;

pub const TRIPLETAP: u16 = 0x14e;

pub const QUADTAP: u16 = 0x14f;

pub const QUINTTAP: u16 = 0x148;

// The value is held as its 32 bits: a reader tests ranges on them, and -1 is the largest number.
#[derive(Clone, Copy)]
pub struct Event {
    pub kind: u16,
    pub code: u16,
    pub value: u32,
}

// Two bytes as a number, the lower first.
fn join16(a: u8, b: u8) -> u16
    ensures { result ≡ joined16 a b }
{
    u16::from_le_bytes([a, b])
}

// Four bytes as a number, the lowest first.
pub fn join32(a: u8, b: u8, c: u8, d: u8) -> u32
    ensures { result ≡ joined32 a b c d }
{
    u32::from_le_bytes([a, b, c, d])
}

pub fn record_at(s: &[u8], at: usize) -> Event
    requires { at + 8 ≤ length s.now }
    ensures { event_of result ≡ event_at s.now at }
{
    let kind = join16(s[at], s[at + 1]);
    let code = join16(s[at + 2], s[at + 3]);
    let value = join32(s[at + 4], s[at + 5], s[at + 6], s[at + 7]);
    Event { kind, code, value }
}

// Four bytes of a record as one number: at its start the head, which is its type and 65,536 times its code, and after it the bits of its value.
pub fn word_at(s: &[u8], at: usize) -> u32
    requires { at + 4 ≤ length s.now }
    ensures { result ≡ word_at s.now at }
{
    join32(s[at], s[at + 1], s[at + 2], s[at + 3])
}

pub fn bits_of(z: i32) -> u32
    ensures { result ≡ bits_of z }
{
    z.cast_unsigned()
}

pub fn signed_of(v: u32) -> i32
    ensures { result ≡ signed_of v }
{
    v.cast_signed()
}

// A record's bytes at the start of `b`; the others stay.
pub fn put(b: &mut [u8], kind: u16, code: u16, value: u32)
    requires { 8 ≤ length b.old }
    ensures { b.new ≡ over (record_bytes kind code value) b.old }
{
    b[..2].copy_from_slice(&kind.to_le_bytes());
    b[2..4].copy_from_slice(&code.to_le_bytes());
    b[4..8].copy_from_slice(&value.to_le_bytes());
}
