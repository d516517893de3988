// Slots, setups and tables in bytes that a host lends: read from a position on, or stored there. The states of `export` are made of them.
#![tactic(auto)]

ghost use Rattle.std.specs.Prelude.{◌≡◌, ◌+◌, ◌<◌, ◌≤◌, ◌^◌, length};
ghost use Rattle.model.specs.Panel.{records};
ghost use Rattle.model.specs.Records.{low_bytes, lay};
ghost use Rattle.lent.specs.Lent.{word_size, slot_size, setup_size, table_size, slot_in, slots_from, setup_in, slot_bytes, table_bytes, setup_bytes};

use common::TrackingId;
use panel::{RECORDS, Setup, Slot};

pub const WORD: usize = 4;

pub const SLOT: usize = 24;

pub const SETUP: usize = 24;

pub const TABLE: usize = 768;

// A number's four bytes, the lowest first.
pub fn put_word(b: &mut [u8], at: usize, v: u32)
    requires { at + word_size ≤ length b.old }
    ensures { b.new ≡ lay at (low_bytes 4 v) b.old }
{
    b[at..at + 4].copy_from_slice(&v.to_le_bytes());
}

pub fn slot_at(b: &[u8], at: usize) -> Slot
    requires { at + slot_size ≤ length b.now }
    ensures { result ≡ slot_in b.now at }
{
    Slot {
        id: TrackingId(records::signed_of(records::word_at(b, at))),
        x: records::word_at(b, at + 4),
        y: records::word_at(b, at + 8),
        pressure: records::word_at(b, at + 12),
        major: records::word_at(b, at + 16),
        minor: records::word_at(b, at + 20),
    }
}

pub fn put_slot(b: &mut [u8], at: usize, s: Slot)
    requires { at + slot_size ≤ length b.old }
    ensures { b.new ≡ lay at (slot_bytes s) b.old }
{
    put_word(b, at, records::bits_of(s.id.0));
    put_word(b, at + 4, s.x);
    put_word(b, at + 8, s.y);
    put_word(b, at + 12, s.pressure);
    put_word(b, at + 16, s.major);
    put_word(b, at + 20, s.minor);
}

pub fn setup_at(b: &[u8], at: usize) -> Setup
    requires { at + setup_size ≤ length b.now }
    ensures { result ≡ setup_in b.now at }
{
    Setup {
        n: records::word_at(b, at) as usize,
        x: records::word_at(b, at + 4),
        y: records::word_at(b, at + 8),
        pressure: records::word_at(b, at + 12),
        major: records::word_at(b, at + 16),
        minor: records::word_at(b, at + 20),
    }
}

pub fn put_setup(b: &mut [u8], at: usize, u: Setup)
    requires { (at + setup_size ≤ length b.old) × (u.n < 2 ^ 32) }
    ensures { b.new ≡ lay at (setup_bytes u) b.old }
{
    put_word(b, at, u.n as u32);
    put_word(b, at + 4, u.x);
    put_word(b, at + 8, u.y);
    put_word(b, at + 12, u.pressure);
    put_word(b, at + 16, u.major);
    put_word(b, at + 20, u.minor);
}

pub fn table_at(b: &[u8], at: usize) -> [Slot; RECORDS]
    requires { at + table_size ≤ length b.now }
    ensures { result ≡ slots_from records b.now at }
{
    let mut t = panel::zero_table();
    for i in 0..RECORDS {
        t[i] = slot_at(b, at + SLOT * i);
    }
    t
}

pub fn put_table(b: &mut [u8], at: usize, t: [Slot; RECORDS])
    requires { at + table_size ≤ length b.old }
    ensures { b.new ≡ lay at (table_bytes t) b.old }
{
    for i in 0..RECORDS {
        put_slot(b, at + SLOT * i, t[i]);
    }
}

// A copy of a table's bytes, to plan a frame in.
pub fn copy_of(t: &[u8]) -> [u8; TABLE]
    requires { length t.now ≡ table_size }
    ensures { result ≡ t.now }
{
    let mut r = [0; TABLE];
    r.copy_from_slice(t);
    r
}
