// What a number of a line may be, and the states that calls take: which numbers they are.
use panel::{PER_SLOT, RECORDS};

// 0 or 1, 8, 16, 32 or 64 bits, 8, 16 or 32 bits with a sign, a mode, or a buffer's size.
#[derive(Clone, Copy, Debug, PartialEq, Eq)]
pub enum Kind {
    Bit,
    Bits8,
    Bits16,
    Bits32,
    Bits64,
    Signed8,
    Signed16,
    Signed,
    Mode,
    Size,
}

impl Kind {
    // The largest number, and how far below 0 one may lie. -0 is a number of every kind.
    pub fn range(self) -> (u64, u64) {
        match self {
            Kind::Bit => (1, 0),
            Kind::Bits8 => (0xff, 0),
            Kind::Bits16 => (0xffff, 0),
            Kind::Bits32 => (0xffff_ffff, 0),
            Kind::Bits64 => (u64::MAX, 0),
            Kind::Signed8 => (0x7f, 0x80),
            Kind::Signed16 => (0x7fff, 0x8000),
            Kind::Signed => (0x7fff_ffff, 0x8000_0000),
            Kind::Mode => (2, 0),
            Kind::Size => (BUFFER as u64, 0),
        }
    }
}

// How many numbers a setup, a table, a reader, a writer and a pod are. A current slot and one number more stand before a state's tables.
pub const SETUP: usize = 6;

pub const TABLE: usize = PER_SLOT * RECORDS;

pub const READER: usize = SETUP + 2 + 2 * TABLE;

// Behind a writer's table stand the option of pointer emulation, the four numbers told last (touch, tool, X, Y), and a rank for each record.
pub const OPTION: usize = SETUP + 2 + TABLE;

pub const RANKS: usize = OPTION + 5;

pub const WRITER: usize = RANKS + RECORDS;

pub const POD: usize = 2 + pod::PLACES;

// A reader, how many bytes are left over, and a place for each byte of a record but one.
pub const PIECES: usize = READER + records::LENGTH;

// A setup and a reader of the cranes.
pub const CRANE_SETUP: usize = 4;

pub const CRANE_TABLE: usize = crane_panel::PER_SLOT * crane_panel::RECORDS;

pub const CRANE_READER: usize = CRANE_SETUP + 2 + 2 * CRANE_TABLE;

// What stands before the bytes of a recorder's call: a block's number; or a number, a position and a size.
pub const BLOCK_BYTES: usize = 1;

pub const LAY_BYTES: usize = 3;

// A position stands before the bytes that are read.
pub const READ_BYTES: usize = 1;

// A pod, a position, a size and a command's number; its numbers come behind them.
pub const COMMAND_NUMBERS: usize = POD + 3;

// The bytes of the largest buffer.
pub const BUFFER: usize = 4096;

// The state that a call's numbers begin with.
#[derive(Clone, Copy, Debug, PartialEq, Eq)]
pub enum State {
    None,
    Setup,
    Reader,
    Writer,
    Pieces,
    Pod,
    CraneSetup,
    CraneReader,
}

// Number i of a panel's state: a setup, the current slot, one number of another kind, and tables.
fn panel_kind(i: usize, setup: usize, per_slot: usize, other: Kind) -> Kind {
    match i.checked_sub(setup) {
        None if i > 0 => Kind::Bits32,
        None | Some(0) => Kind::Bits64,
        Some(1) => other,
        Some(k) if (k - 2).is_multiple_of(per_slot) => Kind::Signed,
        Some(_) => Kind::Bits32,
    }
}

impl State {
    // How many numbers it is.
    pub fn len(self) -> usize {
        match self {
            State::None => 0,
            State::Setup => SETUP,
            State::Reader => READER,
            State::Writer => WRITER,
            State::Pieces => PIECES,
            State::Pod => POD,
            State::CraneSetup => CRANE_SETUP,
            State::CraneReader => CRANE_READER,
        }
    }

    // The kind of its number i. No state has none, so what is answered for it is never asked.
    pub fn kind_at(self, i: usize) -> Kind {
        match self {
            State::None => Kind::Bit,
            State::Setup | State::Reader => panel_kind(i, SETUP, PER_SLOT, Kind::Mode),
            State::CraneSetup | State::CraneReader => {
                panel_kind(i, CRANE_SETUP, crane_panel::PER_SLOT, Kind::Mode)
            }
            State::Pieces if i < READER => panel_kind(i, SETUP, PER_SLOT, Kind::Mode),
            State::Pieces if i == READER => Kind::Bits64,
            State::Pieces => Kind::Bits8,
            State::Writer if i < OPTION => panel_kind(i, SETUP, PER_SLOT, Kind::Bits32),
            State::Writer => pointer_kind(i - OPTION),
            State::Pod => pod_kind(i),
        }
    }
}

// Number i of those from a writer's option on.
fn pointer_kind(i: usize) -> Kind {
    match i {
        0 => Kind::Bit,
        1 => Kind::Bits8,
        2 => Kind::Bits16,
        3..=4 => Kind::Bits32,
        _ => Kind::Bits8,
    }
}

fn pod_kind(i: usize) -> Kind {
    match i {
        0 => Kind::Bit,
        1 => Kind::Bits64,
        _ => Kind::Bits8,
    }
}
