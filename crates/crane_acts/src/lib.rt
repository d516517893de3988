// What a record asks of a crane's reader: the one place where its code knows event codes and ranges. A size's code, 0x30 or 0x31, is unknown here. The cranes' loop stands on it.
#![tactic(auto)]

ghost use Rattle.std.specs.Prelude.{◌≡◌, true, cond, ◌≤◌};
ghost use Rattle.model.specs.Panel.{crane, setup_good, id_field, crane_records, slot_code};
ghost use Rattle.model.specs.Table.{fits};
ghost use Rattle.model.specs.Events.{bad, number, slot_act, syn_act, abs_act, classify};
ghost use Rattle.model.specs.Records.{signed_of};
ghost use Rattle.crane_panel.specs.Seen.{setup_of, panel_seen};
ghost use Rattle.records.specs.Seen.{event_of};
ghost use Rattle.crane_acts.specs.Seen.{act_of};

// A record that is unknown says only why: its type and code are at hand, and numbers beside those of the other acts cost the reader's loop dear. A good number comes as what is stored: a slot number, an id, or an unsigned number.
#[derive(Clone, Copy)]
pub enum Act {
    UnknownType,
    UnknownCode,
    Bad,
    Report,
    Loss,
    Select(common::SlotNumber),
    Id(common::TrackingId),
    X(u32),
    Y(u32),
    Pressure(u32),
}

// The bits of -1, an unused slot's id.
const UNUSED: u32 = 0xffff_ffff;

fn syn_act(code: u16) -> Act
    ensures { act_of 0 code result ≡ syn_act code }
{
    match code {
        records::REPORT => Act::Report,
        records::DROPPED => Act::Loss,
        _ => Act::UnknownCode,
    }
}

// A negative value has the bits of a number far above every n, so one comparison judges it.
#[tactic(auto, using(common::proofs::Values::by_bits))]
fn slot_act(n: usize, value: u32) -> Act
    requires { n ≤ crane_records }
    ensures { act_of 3 slot_code result ≡ slot_act n (signed_of value) }
{
    let k = value as usize;
    if k < n {
        Act::Select(common::SlotNumber(k))
    } else {
        Act::Bad
    }
}

#[tactic(auto, using(common::proofs::Values::by_bits))]
fn id_act(value: u32) -> Act
    ensures { act_of 3 id_field.code result ≡ cond (fits id_field (signed_of value)) (number 0 (signed_of value)) bad }
{
    if value == UNUSED || value < common::TrackingId::COUNT {
        Act::Id(common::TrackingId(value.cast_signed()))
    } else {
        Act::Bad
    }
}

#[tactic(auto, using(common::proofs::Values::by_bits, crane_panel::proofs::Setups::small))]
fn abs_act(setup: crane_panel::Setup, code: u16, value: u32) -> Act
    requires { setup_good crane (setup_of setup) ≡ true }
    ensures { act_of 3 code result ≡ abs_act (panel_seen setup) code (signed_of value) }
{
    match code {
        records::SLOT => slot_act(setup.n, value),
        records::TRACKING_ID => id_act(value),
        records::POSITION_X if value <= setup.x => Act::X(value),
        records::POSITION_Y if value <= setup.y => Act::Y(value),
        records::PRESSURE if value <= setup.pressure => Act::Pressure(value),
        records::POSITION_X | records::POSITION_Y | records::PRESSURE => Act::Bad,
        _ => Act::UnknownCode,
    }
}

pub fn act_of(setup: crane_panel::Setup, e: records::Event) -> Act
    requires { setup_good crane (setup_of setup) ≡ true }
    ensures { act_of e.kind e.code result ≡ classify (panel_seen setup) (event_of e) }
{
    match e.kind {
        records::SYN => syn_act(e.code),
        records::ABS => abs_act(setup, e.code, e.value),
        _ => Act::UnknownType,
    }
}
