// The image of a crane's load: four signed numbers for each slot, judged and made a table. The cranes' `load` stands on it.
#![tactic(auto)]

ghost use Rattle.std.specs.Prelude.{◌≡◌, ◌∷◌, [], ◌≤◌, ◌*◌, length};
ghost use Rattle.model.specs.Panel.{crane_per_slot, crane_records};
ghost use Rattle.model.specs.Table.{good_slot, good_records};
ghost use Rattle.model.specs.Frame.{rows_from};
ghost use Rattle.model.specs.Calls.{image_table, image_good};
ghost use Rattle.crane_panel.specs.Seen.{slot_from, table_from, fields_of, panel_seen};

// The numbers must be good: a negative one would become 0.
fn slot_of(id: i32, x: i32, y: i32, pressure: i32) -> crane_panel::Slot
    ensures { result ≡ slot_from (id ∷ x ∷ y ∷ pressure ∷ []) }
{
    crane_panel::Slot {
        id: common::TrackingId(id),
        x: common::nat_of(x),
        y: common::nat_of(y),
        pressure: common::nat_of(pressure),
    }
}

fn row_ok(setup: crane_panel::Setup, id: i32, x: i32, y: i32, pressure: i32) -> bool
    ensures { result ≡ good_slot (fields_of setup) (id ∷ x ∷ y ∷ pressure ∷ []) }
{
    common::id_ok(id) && crane_panel::numbers_ok(setup, x, y, pressure)
}

#[tactic(auto, using(crate::proofs::Images::turns))]
fn rows_ok(setup: crane_panel::Setup, image: &[i32]) -> bool
    requires { (setup.n ≤ crane_records) × (length image.now ≡ crane_per_slot * setup.n) }
    ensures { result ≡ good_records (fields_of setup) setup.n (rows_from crane_per_slot setup.n image.now 0) }
{
    for i in 0..setup.n {
        let at = crane_panel::PER_SLOT * i;
        if !row_ok(
            setup,
            image[at],
            image[at + 1],
            image[at + 2],
            image[at + 3],
        ) {
            return false;
        }
    }
    true
}

// The image's slots, and unused records from n up.
#[tactic(auto, using(crate::proofs::Images::fills))]
pub fn image_table(
    setup: crane_panel::Setup,
    image: &[i32],
) -> [crane_panel::Slot; crane_panel::RECORDS]
    requires { (setup.n ≤ crane_records) × (length image.now ≡ crane_per_slot * setup.n) }
    ensures { result ≡ table_from (image_table (panel_seen setup) image.now) }
{
    let mut t = crane_panel::unused_table();
    for i in 0..setup.n {
        let at = crane_panel::PER_SLOT * i;
        t[i] = slot_of(image[at], image[at + 1], image[at + 2], image[at + 3]);
    }
    t
}

#[tactic(auto, using(crate::proofs::Images::tests))]
pub fn image_ok(setup: crane_panel::Setup, image: &[i32], current: common::SlotNumber) -> bool
    requires { setup.n ≤ crane_records }
    ensures { result ≡ image_good (panel_seen setup) image.now current.0 }
{
    image.len() == crane_panel::PER_SLOT * setup.n
        && rows_ok(setup, image)
        && crane_panel::ids_differ(setup.n, image_table(setup, image))
        && current.0 < setup.n
}
