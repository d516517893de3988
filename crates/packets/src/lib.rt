// What a type A frame of an anonymous panel tells (document 02's K12): its contacts, whether it is finished, and whether a panel can take their numbers.
#![tactic(auto)]

ghost use Rattle.std.specs.Prelude.{◌≡◌, not, ◌&&◌, [], ◌∷◌, ◌<◌, ◌≤◌, ℤ};
ghost use Rattle.model.specs.Records.{signed_of, events_of};
ghost use Rattle.model.specs.Packets.{said, close, is_blank, is_whole, packets_of, value_of, contact_good, contacts_good};
ghost use Rattle.panel.specs.Seen.{panel_seen};
ghost use Rattle.frame.specs.Fit31.{Fit31};
ghost use Rattle.records.specs.Seen.{headed};
ghost use Rattle.packets.specs.Seen.{said_by, told_by, packet_by, packet_in, most, packets_from, contacts_from};
ghost use Rattle.packets.specs.Walk.{walk_of, step, walks, closes_in, packets_at};

use panel::{Row, Setup};

// The most contacts of a frame.
pub const MOST: usize = 5;

// The first five contacts, by place, with zeros where there is none and for a number that a contact lacks; `count` goes on past five.
#[derive(Clone, Copy)]
pub struct Packets {
    pub count: usize,
    pub x: [i32; MOST],
    pub y: [i32; MOST],
    pub pressure: [i32; MOST],
    pub sound: bool,
}

// What a record says, without the number in it, as `acts::Act`.
#[derive(Clone, Copy)]
enum Said {
    Skipped,
    X,
    Y,
    Pressure,
    Close,
    Report,
    Loss,
}

// A head is a record's type and code as one number: the type in the lower half, the code in the upper. One comparison then tells a record.
const HALF: u32 = 65536;

const ABS: u32 = records::ABS as u32;

const SYN: u32 = records::SYN as u32;

const X: u32 = ABS + HALF * records::POSITION_X as u32;

const Y: u32 = ABS + HALF * records::POSITION_Y as u32;

const PRESSURE: u32 = ABS + HALF * records::PRESSURE as u32;

const CLOSE: u32 = SYN + HALF * records::MT_REPORT as u32;

const REPORT: u32 = SYN + HALF * records::REPORT as u32;

const LOSS: u32 = SYN + HALF * records::DROPPED as u32;

fn said_of(head: u32) -> Said
    ensures { (v : ℤ) → said_by result v ≡ said (headed head v) }
{
    match head {
        X => Said::X,
        Y => Said::Y,
        PRESSURE => Said::Pressure,
        CLOSE => Said::Close,
        REPORT => Said::Report,
        LOSS => Said::Loss,
        _ => Said::Skipped,
    }
}

// A number of the open packet: its bits, and whether it was told.
#[derive(Clone, Copy)]
struct Number {
    bits: u32,
    told: bool,
}

// What the walk over the records knows: the open packet, the contacts closed so far, whether nothing was wrong so far, and whether the SYN_REPORT came.
// No array is in it, so a step of the walk is made in registers.
#[derive(Clone, Copy)]
struct Walk {
    x: Number,
    y: Number,
    pressure: Number,
    count: usize,
    sound: bool,
    ended: bool,
}

fn begun(x: Number, y: Number, pressure: Number) -> bool
    ensures { result ≡ not (is_blank (packet_by x y pressure)) }
{
    x.told | y.told | pressure.told
}

fn whole(x: Number, y: Number, pressure: Number) -> bool
    ensures { result ≡ is_whole (packet_by x y pressure) }
{
    x.told & y.told & pressure.told
}

fn value_of(n: Number) -> i32
    ensures { result ≡ value_of (told_by n) }
{
    if n.told {
        return records::signed_of(n.bits);
    }
    0
}

// SYN_MT_REPORT closes the open packet: one with none of the three numbers is no contact.
fn closed(w: Walk) -> Walk
    requires { w.count < 4611686018427387904 }
    ensures { walk_of result ≡ step (walk_of w) close }
{
    let none = Number {
        bits: 0,
        told: false,
    };
    let mut n = Walk {
        x: none,
        y: none,
        pressure: none,
        sound: w.sound & !w.ended,
        ..w
    };
    if begun(w.x, w.y, w.pressure) {
        n.count = w.count + 1;
        n.sound &= whole(w.x, w.y, w.pressure);
    }
    n
}

// One record more. What is said after the SYN_REPORT leaves the frame unfinished, whatever it is.
fn heard(w: Walk, said: Said, value: u32) -> Walk
    requires { w.count < 4611686018427387904 }
    ensures { walk_of result ≡ walks (walk_of w) (said_by said (signed_of value)) }
{
    let v = Number {
        bits: value,
        told: true,
    };
    let sound = w.sound & !w.ended;
    let n = Walk { sound, ..w };
    match said {
        Said::Skipped => w,
        Said::X => Walk { x: v, ..n },
        Said::Y => Walk { y: v, ..n },
        Said::Pressure => Walk { pressure: v, ..n },
        Said::Close => closed(w),
        Said::Report => Walk { ended: true, ..n },
        Said::Loss => Walk { sound: false, ..n },
    }
}

// Whether a record closes a contact.
fn closes(w: Walk, said: Said) -> bool
    ensures { result ≡ closes_in (packet_in w) said }
{
    matches!(said, Said::Close) && begun(w.x, w.y, w.pressure)
}

fn finished(w: Walk, x: [i32; MOST], y: [i32; MOST], pressure: [i32; MOST]) -> Packets
    ensures { result ≡ packets_at (walk_of w) x y pressure }
{
    let open = begun(w.x, w.y, w.pressure);
    Packets {
        count: w.count,
        x,
        y,
        pressure,
        sound: w.sound & w.ended & !open,
    }
}

// The whole records of `bytes`; what is left over behind them is not read.
pub fn read_packets(bytes: &[u8]) -> Packets
    ensures { result ≡ packets_from (packets_of (events_of bytes.now)) }
{
    let mut x = [0i32; MOST];
    let mut y = [0i32; MOST];
    let mut pressure = [0i32; MOST];
    let none = Number {
        bits: 0,
        told: false,
    };
    let mut w = Walk {
        x: none,
        y: none,
        pressure: none,
        count: 0,
        sound: true,
        ended: false,
    };
    for k in 0..bytes.len() / records::LENGTH {
        let said = said_of(records::word_at(bytes, 8 * k));
        let value = records::word_at(bytes, 8 * k + 4);
        let was = w;
        w = heard(was, said, value);
        if closes(was, said) {
            let at = was.count;
            if at < MOST {
                x[at] = value_of(was.x);
                y[at] = value_of(was.y);
                pressure[at] = value_of(was.pressure);
            }
        }
    }
    finished(w, x, y, pressure)
}

fn contact_ok(setup: Setup, x: i32, y: i32, pressure: i32) -> bool
    requires { Fit31 setup }
    ensures { result ≡ contact_good (panel_seen setup) (x ∷ y ∷ pressure ∷ []) }
{
    let row = Row {
        first: 1,
        x,
        y,
        pressure,
        major: 0,
        minor: 0,
    };
    frame::row_ok(setup, row)
}

// Whether the panel takes the first `count` contacts: a frame may have them.
pub fn values_ok(
    setup: Setup,
    count: usize,
    x: [i32; MOST],
    y: [i32; MOST],
    pressure: [i32; MOST],
) -> bool
    requires { Fit31 setup × (count ≤ most) }
    ensures { result ≡ contacts_good (panel_seen setup) (contacts_from count 0 x y pressure) }
{
    for i in 0..count {
        if !contact_ok(setup, x[i], y[i], pressure[i]) {
            return false;
        }
    }
    true
}
