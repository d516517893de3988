// A frame's contact events from two tables that lie in lent bytes, and the changed slots kept. The writer over lent states stands on it.
#![tactic(auto)]

ghost use Rattle.std.specs.Prelude.{◌≡◌, ◌+◌, ◌<◌, ◌≤◌, length};
ghost use Rattle.model.specs.Panel.{records};
ghost use Rattle.model.specs.Sending.{changed_mask};
ghost use Rattle.panel.specs.Seen.{table_of};
ghost use Rattle.send.specs.Sent.{bytes_sent, sent_by, Reaches};
ghost use Rattle.lent.specs.Lent.{table_size, table_in};

use common::SlotNumber;
use panel::RECORDS;
use send::Reached;

// The changed slots are a number of so many bits, of which each names a slot.
const SLOTS: u32 = RECORDS as u32;

// `send::send_slots` of tables in bytes: each changed slot is read where it lies, and no table is unpacked.
pub fn send_slots(
    b: &mut [u8],
    at: usize,
    old: &[u8],
    new: &[u8],
    others: u32,
    current: SlotNumber,
) -> Reached
    requires { (current.0 < records) × (length old.now ≡ table_size) × (length new.now ≡ table_size) × (at + length (bytes_sent (sent_by (table_in old.now) (table_in new.now) others current.0)) ≤ length b.old) }
    ensures { Reaches at (table_in old.now) (table_in new.now) others current.0 b.old result b.new }
{
    let c = current.0;
    let o = lent::slot_at(old, lent::SLOT * c);
    let v = lent::slot_at(new, lent::SLOT * c);
    let mut end = send::put_changes(b, at, o, v);
    let mut m = others;
    let mut last = c;
    while m != 0 {
        let z = u32::trailing_zeros(m);
        let s = (z % SLOTS) as usize;
        m = m & (m - 1);
        last = s;
        let was = lent::slot_at(old, lent::SLOT * s);
        let is = lent::slot_at(new, lent::SLOT * s);
        end = send::put_opened(b, end, SlotNumber(s), was, is);
    }
    Reached {
        end,
        last: SlotNumber(last),
    }
}

// Stores the slots of `new` that changed, which makes t `new`, byte for byte: the others are the same already.
pub fn keep(t: &mut [u8], new: &[u8], slots: u32)
    requires { (length t.old ≡ table_size) × (length new.now ≡ table_size) × (slots ≡ changed_mask (table_of (table_in t.old)) (table_of (table_in new.now))) }
    ensures { t.new ≡ new.now }
{
    let mut left = slots;
    while left != 0 {
        let z = u32::trailing_zeros(left);
        let s = (z % SLOTS) as usize;
        left = left & (left - 1);
        let w = lent::slot_at(new, lent::SLOT * s);
        lent::put_slot(t, lent::SLOT * s, w);
    }
}
