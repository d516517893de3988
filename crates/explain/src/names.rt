// A record's name in evtest's words, with its value; and what a contact's code sets, as the lines call it.
use records::Event;
use std::fmt;
use std::fmt::{Display, Formatter, Write};

// A listed record's name.
fn name_of(e: Event) -> Option<&'static str> {
    match (e.kind, e.code) {
        (records::SYN, records::REPORT) => Some("SYN_REPORT"),
        (records::SYN, records::DROPPED) => Some("SYN_DROPPED"),
        (records::ABS, records::SLOT) => Some("ABS_MT_SLOT"),
        (records::ABS, records::TRACKING_ID) => Some("ABS_MT_TRACKING_ID"),
        (records::ABS, records::POSITION_X) => Some("ABS_MT_POSITION_X"),
        (records::ABS, records::POSITION_Y) => Some("ABS_MT_POSITION_Y"),
        (records::ABS, records::PRESSURE) => Some("ABS_MT_PRESSURE"),
        (records::ABS, records::TOUCH_MAJOR) => Some("ABS_MT_TOUCH_MAJOR"),
        (records::ABS, records::TOUCH_MINOR) => Some("ABS_MT_TOUCH_MINOR"),
        (records::ABS, records::X) => Some("ABS_X"),
        (records::ABS, records::Y) => Some("ABS_Y"),
        (records::KEY, records::TOUCH) => Some("BTN_TOUCH"),
        (records::KEY, records::FINGER) => Some("BTN_TOOL_FINGER"),
        (records::KEY, records::DOUBLETAP) => Some("BTN_TOOL_DOUBLETAP"),
        (records::KEY, records::TRIPLETAP) => Some("BTN_TOOL_TRIPLETAP"),
        (records::KEY, records::QUADTAP) => Some("BTN_TOOL_QUADTAP"),
        (records::KEY, records::QUINTTAP) => Some("BTN_TOOL_QUINTTAP"),
        _ => None,
    }
}

// A record as a line begins with it.
#[derive(Clone, Copy)]
pub struct Named(pub Event);

impl Display for Named {
    fn fmt<W: Write>(&self, f: &mut Formatter<W>) -> fmt::Result {
        let e = self.0;
        let value = records::signed_of(e.value);
        match name_of(e) {
            Some(name) => write!(f, "{name} {value}"),
            None => write!(f, "type {} code {} value {value}", e.kind, e.code),
        }
    }
}

// Whether a record is pointer emulation's.
pub fn is_emulated(e: Event) -> bool {
    match (e.kind, e.code) {
        (records::ABS, records::X | records::Y) => true,
        (records::KEY, _) => name_of(e).is_some(),
        _ => false,
    }
}

// What a code of a contact sets.
pub fn word_of(code: u16) -> &'static str {
    match code {
        records::SLOT => "slot",
        records::TRACKING_ID => "id",
        records::POSITION_X => "x",
        records::POSITION_Y => "y",
        records::PRESSURE => "pressure",
        records::TOUCH_MAJOR => "major",
        _ => "minor",
    }
}
