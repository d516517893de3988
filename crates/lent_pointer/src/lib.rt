// What an old display is told of tables that lie in lent bytes (document 02's K6): `pointer`'s tests and ranks, over ids that are read where they lie. The writer over lent bytes stands on it.
#![tactic(auto)]

ghost use Rattle.std.specs.Prelude.{◌≡◌, true, length};
ghost use Rattle.model.specs.Panel.{records};
ghost use Rattle.model.specs.Table.{ids as ids_in};
ghost use Rattle.model.specs.Pointing.{good_pointing};
ghost use Rattle.panel.specs.Seen.{table_of, panel_seen};
ghost use Rattle.pointer.specs.Seen.{pointing_of};
ghost use Rattle.pointer.specs.Moved.{Unused, Idle, Moving, MovesTo};
ghost use Rattle.lent.specs.Lent.{table_size, table_in};

use common::TrackingId;
use panel::{RECORDS, Setup};
use pointer::{Moved, Pointer};

// The ids of a table, of which the first n slots alone may be used.
fn ids_in(n: usize, t: &[u8]) -> [i32; RECORDS]
    requires { Unused n (table_in t.now) × (length t.now ≡ table_size) }
    ensures { (result ≡ ids_in (table_of (table_in t.now))) × Idle n result }
{
    let mut l = [TrackingId::UNUSED; RECORDS];
    for i in 0..n {
        l[i] = lent_table::slot_of(t, i).id.0;
    }
    l
}

// With the option on: good ranks, the numbers that they and the table give, and X and Y in range also while no contact is live.
pub fn apt(setup: Setup, t: &[u8], ranks: &[u8], told: Pointer) -> bool
    requires { Unused setup.n (table_in t.now) × (length t.now ≡ table_size) × (length ranks.now ≡ records) }
    ensures { result ≡ good_pointing true (panel_seen setup) (table_of (table_in t.now)) (pointing_of ranks.now told) }
{
    let n = setup.n;
    let ids = ids_in(n, t);
    if !pointer::ranks_good(n, &ids, ranks) {
        return false;
    }
    let k = pointer::oldest_slot(n, &ids, ranks);
    let p = pointer::pointed(
        pointer::live_count(n, &ids),
        lent_table::slot_of(t, k),
        told,
    );
    if !pointer::pointers_same(told, p) {
        return false;
    }
    (told.x <= setup.x) & (told.y <= setup.y)
}

// Ranks after a frame, and what the display is to be told then; most frames begin and lift nothing, and then only its X and Y may move.
pub fn moves(n: usize, old: &[u8], new: &[u8], slots: u32, last: Moved) -> Moved
    requires { Moving n (table_in old.now) (table_in new.now) slots last × (length old.now ≡ table_size) × (length new.now ≡ table_size) }
    ensures { MovesTo (table_in old.now) (table_in new.now) last.ranks last.told result }
{
    let was = ids_in(n, old);
    let is = ids_in(n, new);
    let ranks = last.ranks;
    let told = last.told;
    if pointer::ids_stay(&was, &is, slots) {
        let k = pointer::oldest_slot(n, &is, &ranks);
        return Moved {
            ranks,
            told: pointer::placed(lent_table::slot_of(new, k), told),
        };
    }
    let after = pointer::ranks_after(n, &was, &is, &ranks);
    let k = pointer::oldest_slot(n, &is, &after);
    let told = pointer::pointed(
        pointer::live_count(n, &is),
        lent_table::slot_of(new, k),
        told,
    );
    Moved { ranks: after, told }
}
