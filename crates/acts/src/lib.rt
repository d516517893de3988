// What a record asks of a reader, by its type and code: the one place where the code tells them apart. The reader's loop stands on it.
#![tactic(auto)]

ghost use Rattle.std.specs.Prelude.{◌≡◌, ℤ};
ghost use Rattle.model.specs.Events.{classify};
ghost use Rattle.panel.specs.Seen.{panel_seen};
ghost use Rattle.panel.specs.declared.Setup.{Setup};
ghost use Rattle.records.specs.Seen.{headed};
ghost use Rattle.acts.specs.Seen.{act_of, unlisted_act};

// What a record asks, and no number: an act with a number in it is made as a value first and then looked at again. The loop judges a value in the act's arm.
#[derive(Clone, Copy)]
pub enum Act {
    UnknownType,
    UnknownCode,
    Report,
    Loss,
    Select,
    Id,
    X,
    Y,
    Pressure,
    Major,
    Minor,
}

// A head is a record's type and code as one number, that of its first four bytes: the type in the lower half, the code in the upper.
const HALF: u32 = 65536;

// The heads of type 3 lie close together, so one jump tells the seven apart.
const ABS: u32 = records::ABS as u32;

const SLOT: u32 = ABS + HALF * records::SLOT as u32;

const MAJOR: u32 = ABS + HALF * records::TOUCH_MAJOR as u32;

const MINOR: u32 = ABS + HALF * records::TOUCH_MINOR as u32;

const X: u32 = ABS + HALF * records::POSITION_X as u32;

const Y: u32 = ABS + HALF * records::POSITION_Y as u32;

const ID: u32 = ABS + HALF * records::TRACKING_ID as u32;

const PRESSURE: u32 = ABS + HALF * records::PRESSURE as u32;

// What a record asks that is of no slot and no number: on the way that few records take.
fn other_act(kind: u16, code: u16) -> Act
    ensures { (u : Setup) (v : ℤ) → act_of u (record { type = kind; code = code; value = v }) result ≡ unlisted_act kind code }
{
    match (kind, code) {
        (records::SYN, records::REPORT) => Act::Report,
        (records::SYN, records::DROPPED) => Act::Loss,
        (records::SYN | records::ABS, _) => Act::UnknownCode,
        _ => Act::UnknownType,
    }
}

// Whatever the setup and the record's value: the promise is of every event with this head.
pub fn act_of(head: u32) -> Act
    ensures { (u : Setup) (v : ℤ) → act_of u (headed head v) result ≡ classify (panel_seen u) (headed head v) }
{
    match head {
        SLOT => Act::Select,
        MAJOR => Act::Major,
        MINOR => Act::Minor,
        X => Act::X,
        Y => Act::Y,
        ID => Act::Id,
        PRESSURE => Act::Pressure,
        _ => other_act((head % HALF) as u16, (head / HALF) as u16),
    }
}
