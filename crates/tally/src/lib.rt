// What changes from slot to slot of a frame: the changed slots as one number, how many numbers, and how many events tell it. The plan and the writer stand on it.
#![tactic(auto)]

ghost use Rattle.std.specs.Prelude.{◌≡◌, cond, ◌+◌, ◌-◌, ◌^◌, ◌<◌, ◌≤◌, ◌*◌, eqb};
ghost use Rattle.std.specs.Int.Bits.{bit_and};
ghost use Rattle.std.specs.Int.Count.{ones as ones_of};
ghost use Rattle.model.specs.Panel.{per_slot, records};
ghost use Rattle.model.specs.Numbers.{eq_z};
ghost use Rattle.model.specs.Sending.{one_unless, changed_in};
ghost use Rattle.panel.specs.Seen.{slot_of};
ghost use Rattle.tally.specs.Told.{unchanged, with_slot, Before};

use common::{SlotNumber, TrackingId};
use panel::Slot;

fn unlike(a: u32, b: u32) -> u32
    ensures { (result ≤ 1) × (result ≡ one_unless (eqb a b)) }
{
    u32::from(a != b)
}

fn unlike_id(a: TrackingId, b: TrackingId) -> u32
    ensures { (result ≤ 1) × (result ≡ one_unless (eq_z a.0 b.0)) }
{
    u32::from(!common::same(a.0, b.0))
}

pub fn differ(a: Slot, b: Slot) -> u32
    ensures { (result ≤ per_slot) × (result ≡ changed_in (slot_of a) (slot_of b)) }
{
    unlike_id(a.id, b.id)
        + unlike(a.x, b.x)
        + unlike(a.y, b.y)
        + unlike(a.pressure, b.pressure)
        + unlike(a.major, b.major)
        + unlike(a.minor, b.minor)
}

fn some(d: u32) -> u32
    ensures { (result ≤ 1) × (result ≡ one_unless (eqb d 0)) }
{
    unlike(d, 0)
}

// What changed so far: the slots as one number, bit s for slot s, and how many numbers.
#[derive(Clone, Copy)]
pub struct Changed {
    pub slots: u32,
    pub numbers: u32,
}

impl Changed {
    pub fn none() -> Self
        ensures { result ≡ unchanged }
    {
        Changed {
            slots: 0,
            numbers: 0,
        }
    }
}

// Slot s and its d changed numbers, added to what changed before it.
pub fn with_slot(c: Changed, s: SlotNumber, d: u32) -> Changed
    requires { (s.0 < records) × (d ≤ per_slot) × Before s.0 c }
    ensures { result ≡ with_slot c s.0 d }
{
    let bit = some(d) << s.0;
    let slots = c.slots + bit;
    let numbers = c.numbers + d;
    Changed { slots, numbers }
}

// The same where a number is known to change.
pub fn with_changed(c: Changed, s: SlotNumber, d: u32) -> Changed
    requires { (s.0 < records) × (d ≤ per_slot) × (0 < d) × Before s.0 c }
    ensures { result ≡ with_slot c s.0 d }
{
    let slots = c.slots + (1u32 << s.0);
    let all = c.numbers + d;
    Changed {
        slots,
        numbers: all,
    }
}

// The changed slots without the current one, which is sent first and not opened.
pub fn without_current(mask: u32, current: SlotNumber) -> u32
    requires { current.0 < records }
    ensures { result ≡ mask - bit_and mask (2 ^ current.0) }
{
    mask - (mask & (1u32 << current.0))
}

fn ones(mask: u32) -> u32
    ensures { (result ≤ records) × (result ≡ ones_of mask) }
{
    mask.count_ones()
}

// The number of events: one for each changed number and each slot that is opened, and the report.
pub fn event_count(numbers: u32, others: u32) -> usize
    requires { numbers ≤ per_slot * records }
    ensures { (result ≡ cond (eqb numbers 0) 0 (1 + numbers + ones_of others)) × (result ≤ 1 + per_slot * records + records) }
{
    if numbers == 0 {
        return 0;
    }
    let slots = ones(others) as usize;
    1 + (numbers as usize) + slots
}
