// The calls of a script and the kind of each of their numbers: docs/DRIVE.md as a table.
use crate::kinds::Kind::{Bit, Bits8, Bits16, Bits32, Bits64, Signed, Signed8, Signed16, Size};
use crate::kinds::{Kind, State};

#[derive(Clone, Copy, Debug, PartialEq, Eq)]
pub enum Call {
    Fresh,
    New,
    Run,
    One,
    Load,
    Ask,
    Good,
    Write,
    Anonymous,
    Start,
    Pod,
    CraneFresh,
    CraneRun,
    CraneOne,
    CraneLoad,
    CraneAsk,
    CraneGood,
    PiecesFresh,
    PiecesTake,
    PiecesLoad,
    PiecesAsk,
    RecorderBlock,
    RecorderLay,
    RecorderRead,
    ForceRead,
    ForceWrite,
    CommandsRead,
    CommandsWrite,
}

// What stands behind a state: one number of each of these kinds, and then as many as come of the last one, if there is one.
#[derive(Clone, Copy)]
struct Tail(&'static [Kind], Option<Kind>);

const NOTHING: Tail = Tail(&[], None);

const OPTION: Tail = Tail(&[Bit], None);

const BYTES: Tail = Tail(&[], Some(Bits8));

// At least one.
const BYTE: Tail = Tail(&[Bits8], Some(Bits8));

const RECORD: Tail = Tail(&[Bits16, Bits16, Signed], None);

const SLOT: Tail = Tail(&[Bits64], None);

// A current slot stands first.
const IMAGE: Tail = Tail(&[Bits64], Some(Signed));

// A position and a size, here and in the next one.
const FRAME: Tail = Tail(&[Bits64, Size], Some(Signed));

const EVENTS: Tail = Tail(&[Bits64, Size], Some(Bits8));

// How many pieces there are, their lengths and their bytes. Lengths and bytes stand in one run, so the bytes are held to eight bits when the lengths are known.
const CUT: Tail = Tail(&[Bits64, Bits64], Some(Bits64));

// A block's number.
const BLOCK: Tail = Tail(&[Bits32], Some(Bits8));

// A block's number, a position and a size.
const BLOCKS: Tail = Tail(&[Bits32, Bits64, Size], Some(Bits8));

// A position.
const PLACED: Tail = Tail(&[Bits64], Some(Bits8));

// x, y, throttle, buttons, hat and rudder, then a position and a size.
const REPORT: Tail = Tail(
    &[
        Signed16, Signed16, Bits8, Bits16, Bits8, Signed8, Bits64, Size,
    ],
    None,
);

// A position, a size and a command. How wide its numbers are goes by the command, so they are held to it when that is known.
const COMMAND: Tail = Tail(&[Bits64, Size, Bits8], Some(Bits16));

// A call's name, the call, and its numbers: a state and what stands behind it.
#[derive(Clone, Copy)]
pub struct Row(&'static str, pub Call, State, Tail);

static CALLS: [Row; 28] = [
    Row("fresh", Call::Fresh, State::Setup, NOTHING),
    Row("new", Call::New, State::Setup, OPTION),
    Row("run", Call::Run, State::Reader, BYTES),
    Row("one", Call::One, State::Reader, RECORD),
    Row("load", Call::Load, State::Reader, IMAGE),
    Row("ask", Call::Ask, State::Reader, SLOT),
    Row("good", Call::Good, State::Reader, NOTHING),
    Row("write", Call::Write, State::Writer, FRAME),
    Row("anonymous", Call::Anonymous, State::Writer, EVENTS),
    Row("start", Call::Start, State::None, NOTHING),
    Row("pod", Call::Pod, State::Pod, BYTE),
    Row("crane_fresh", Call::CraneFresh, State::CraneSetup, NOTHING),
    Row("crane_run", Call::CraneRun, State::CraneReader, BYTES),
    Row("crane_one", Call::CraneOne, State::CraneReader, RECORD),
    Row("crane_load", Call::CraneLoad, State::CraneReader, IMAGE),
    Row("crane_ask", Call::CraneAsk, State::CraneReader, SLOT),
    Row("crane_good", Call::CraneGood, State::CraneReader, NOTHING),
    Row("pieces_fresh", Call::PiecesFresh, State::Setup, NOTHING),
    Row("pieces_take", Call::PiecesTake, State::Pieces, CUT),
    Row("pieces_load", Call::PiecesLoad, State::Pieces, IMAGE),
    Row("pieces_ask", Call::PiecesAsk, State::Pieces, SLOT),
    Row("recorder_block", Call::RecorderBlock, State::None, BLOCK),
    Row("recorder_lay", Call::RecorderLay, State::None, BLOCKS),
    Row("recorder_read", Call::RecorderRead, State::None, BLOCK),
    Row("force_read", Call::ForceRead, State::None, PLACED),
    Row("force_write", Call::ForceWrite, State::None, REPORT),
    Row("commands_read", Call::CommandsRead, State::None, PLACED),
    Row("commands_write", Call::CommandsWrite, State::Pod, COMMAND),
];

impl Row {
    // The call that a line's first word names.
    pub fn named(word: &[u8]) -> Option<Row> {
        CALLS.iter().find(|row| row.0.as_bytes() == word).copied()
    }

    // The kind of number i; none where the call takes no more.
    pub fn kind_at(&self, i: usize) -> Option<Kind> {
        let Row(_, _, state, Tail(own, rest)) = *self;
        match i.checked_sub(state.len()) {
            None => Some(state.kind_at(i)),
            Some(k) => own.get(k).copied().or(rest),
        }
    }

    // Whether so many numbers are enough.
    pub fn is_whole(&self, count: usize) -> bool {
        let Row(_, _, state, Tail(own, _)) = *self;
        count
            .checked_sub(state.len())
            .is_some_and(|k| k >= own.len())
    }
}
