// A load's image: a slot's numbers for each slot, signed, judged and made a table. The reader's `load` stands on it.
#![tactic(auto)]

ghost use Rattle.std.specs.Prelude.{◌≡◌, ◌≤◌, ◌*◌, length};
ghost use Rattle.model.specs.Panel.{per_slot, records};
ghost use Rattle.model.specs.Table.{good_slot, good_records};
ghost use Rattle.model.specs.Frame.{rows_from};
ghost use Rattle.model.specs.Calls.{image_table, image_good};
ghost use Rattle.panel.specs.Seen.{row_of, slot_from, table_from, fields_of, panel_seen};

// The numbers must be good: a negative one would become 0.
fn slot_of(r: panel::Row) -> panel::Slot
    ensures { result ≡ slot_from (row_of r) }
{
    panel::Slot {
        id: common::TrackingId(r.first),
        x: common::nat_of(r.x),
        y: common::nat_of(r.y),
        pressure: common::nat_of(r.pressure),
        major: common::nat_of(r.major),
        minor: common::nat_of(r.minor),
    }
}

fn row_ok(setup: panel::Setup, r: panel::Row) -> bool
    ensures { result ≡ good_slot (fields_of setup) (row_of r) }
{
    common::id_ok(r.first) && panel::numbers_ok(setup, r)
}

#[tactic(auto, using(crate::proofs::Images::turns))]
fn rows_ok(setup: panel::Setup, image: &[i32]) -> bool
    requires { (setup.n ≤ records) × (length image.now ≡ per_slot * setup.n) }
    ensures { result ≡ good_records (fields_of setup) setup.n (rows_from per_slot setup.n image.now 0) }
{
    for i in 0..setup.n {
        if !row_ok(setup, panel::row_at(image, panel::PER_SLOT * i)) {
            return false;
        }
    }
    true
}

// The image's slots, and unused records from n up.
#[tactic(auto, using(crate::proofs::Images::fills))]
pub fn image_table(setup: panel::Setup, image: &[i32]) -> [panel::Slot; panel::RECORDS]
    requires { (setup.n ≤ records) × (length image.now ≡ per_slot * setup.n) }
    ensures { result ≡ table_from (image_table (panel_seen setup) image.now) }
{
    let mut t = panel::unused_table();
    for i in 0..setup.n {
        t[i] = slot_of(panel::row_at(image, panel::PER_SLOT * i));
    }
    t
}

#[tactic(auto, using(crate::proofs::Images::tests))]
pub fn image_ok(setup: panel::Setup, image: &[i32], current: common::SlotNumber) -> bool
    requires { setup.n ≤ records }
    ensures { result ≡ image_good (panel_seen setup) image.now current.0 }
{
    image.len() == panel::PER_SLOT * setup.n
        && rows_ok(setup, image)
        && panel::ids_differ(setup.n, image_table(setup, image))
        && current.0 < setup.n
}
