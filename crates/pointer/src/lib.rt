// What an old display is told of a table (document 02's K6): ranks by beginning, the numbers of the display, and the events that tell them. The writer stands on it.
#![tactic(auto)]

ghost use Rattle.std.specs.Prelude.{◌≡◌, true, false, ◌&&◌, ◌||◌, cond, [], ◌++◌, ◌≤◌, ◌<◌, ◌-◌, suc, T, eqb, ltb, pos, length, drop, get_or};
ghost use Rattle.model.specs.Panel.{records};
ghost use Rattle.model.specs.Numbers.{eq_z};
ghost use Rattle.model.specs.Table.{ids as ids_in, live, eq_slot};
ghost use Rattle.model.specs.Frame.{goes_on};
ghost use Rattle.model.specs.Ranks.{one_more_if, live_count, good_ranks, ages, ranks_after};
ghost use Rattle.model.specs.Sending.{one_unless};
ghost use Rattle.model.specs.Pointer.{unmoved, touch_of, tool_of, eq_pointer, emulated as told_by};
ghost use Rattle.model.specs.Pointing.{good_pointing, zeros as all_zeros};
ghost use Rattle.panel.specs.Seen.{table_of, panel_seen};
ghost use Rattle.pointer.specs.Seen.{pointer_of, pointing_of, fate_by, fates_by};
ghost use Rattle.pointer.specs.Marks.{Marks, marked, Sums, Told, age_by};
ghost use Rattle.pointer.specs.Moved.{Unused, Idle, Covers, oldest_or0, shown_of, placed_at, Moving, MovesTo, MovingIf, MovesBy, StillIf};

use common::TrackingId;
use panel::{RECORDS, Setup, Slot};

// What a display was told last: ABS_X and ABS_Y, the code of the tool that is 1 (0 for none), and BTN_TOUCH.
#[derive(Clone, Copy)]
pub struct Pointer {
    pub x: u32,
    pub y: u32,
    pub tool: u16,
    pub touch: u8,
}

// The age of a contact that begins: past every rank.
const BEGINNING: usize = RECORDS;

// How many ages there are.
const SUMS: usize = BEGINNING + 1;

// The changed slots are a number of so many bits, of which each names a slot.
const SLOTS: u32 = RECORDS as u32;

// ---- ids

fn lives(id: i32) -> bool
    ensures { result ≡ live id }
{
    !common::same(id, TrackingId::UNUSED)
}

// Past the first n none is live, here and below.
pub fn live_count(n: usize, ids: &[i32]) -> usize
    requires { Idle n ids.now }
    ensures { (result ≡ live_count ids.now) × (result ≤ records) }
{
    let mut count: usize = 0;
    for i in 0..n {
        if lives(ids[i]) {
            count += 1;
        }
    }
    count
}

// ---- ranks

// The least number above both `top` and a rank: one more than the rank where that is not below it.
fn higher(top: usize, r: usize) -> usize
    requires { (top ≤ records) × (r < records) }
    ensures { (result ≡ cond (ltb r top) top (suc r)) × (result ≤ records) }
{
    if r < top {
        return top;
    }
    r + 1
}

fn all_marked(m: &[u8], top: usize) -> bool
    requires { (length m.now ≡ records) × (top ≤ records) }
    ensures { result ≡ marked top m.now }
{
    for j in 0..top {
        if m[j] != 1 {
            return false;
        }
    }
    true
}

// All from n on are looked at, found or not, as in `plan::absent`.
fn zero_from(n: usize, ranks: &[u8]) -> bool
    requires { (n ≤ records) × (length ranks.now ≡ records) }
    ensures { result ≡ all_zeros (records - n) (drop n ranks.now) }
{
    let mut some = false;
    for i in n..RECORDS {
        some |= ranks[i] != 0;
    }
    !some
}

// Whether ranks are as they should be beside these ids: from 0 without gaps where a contact is live, 0 elsewhere.
pub fn ranks_good(n: usize, ids: &[i32], ranks: &[u8]) -> bool
    requires { Idle n ids.now × (length ranks.now ≡ records) }
    ensures { result ≡ good_ranks ids.now ranks.now }
{
    if !zero_from(n, ranks) {
        return false;
    }
    let mut held = [0u8; RECORDS];
    let mut top: usize = 0;
    for i in 0..n {
        let r = usize::from(ranks[i]);
        if lives(ids[i]) {
            if RECORDS <= r {
                return false;
            }
            held[r] = 1;
            top = higher(top, r);
        } else if r != 0 {
            return false;
        }
    }
    all_marked(&held, top)
}

// The slot whose contact began first, the lowest of several; 0 where none is live.
pub fn oldest_slot(n: usize, ids: &[i32], ranks: &[u8]) -> usize
    requires { Idle n ids.now × (length ranks.now ≡ records) }
    ensures { (result < records) × (result ≡ oldest_or0 ids.now ranks.now) }
{
    for i in 0..n {
        if lives(ids[i]) & (ranks[i] == 0) {
            return i;
        }
    }
    0
}

fn goes_on(was: i32, is: i32) -> bool
    ensures { result ≡ (live is && eq_z was is) }
{
    lives(is) & common::same(was, is)
}

// Flags for the ranks of the contacts that go on.
fn marks_of(n: usize, old: &[i32], new: &[i32], ranks: &[u8]) -> [u8; RECORDS]
    requires { Told old.now new.now ranks.now × Idle n new.now }
    ensures { Marks result (ages records (fates_by old.now new.now) ranks.now) }
{
    let mut m = [0u8; RECORDS];
    for i in 0..n {
        if goes_on(old[i], new[i]) {
            m[usize::from(ranks[i])] = 1;
        }
    }
    m
}

fn one_more(flag: u8, n: u8) -> u8
    requires { n < 255 }
    ensures { result ≡ one_more_if (eqb flag 1) n }
{
    n + u8::from(flag == 1)
}

// Below each number up to RECORDS, how many flags are set.
fn sums_of(m: &[u8]) -> [u8; SUMS]
    requires { length m.now ≡ records }
    ensures { Sums m.now result }
{
    let mut s = [0u8; SUMS];
    for j in 0..RECORDS {
        s[j + 1] = one_more(m[j], s[j]);
    }
    s
}

// The age by which a record's new rank is counted.
fn age(was: i32, is: i32, rank: u8) -> usize
    ensures { result ≡ age_by (fate_by was is) rank }
{
    if !lives(is) {
        return 0;
    }
    if common::same(was, is) {
        return usize::from(rank);
    }
    BEGINNING
}

// The ranks after a frame, by the ids before it and after it: those that go on close their gaps, and all that begin come after them.
pub fn ranks_after(n: usize, old: &[i32], new: &[i32], ranks: &[u8]) -> [u8; RECORDS]
    requires { Told old.now new.now ranks.now × T (good_ranks old.now ranks.now) × Idle n new.now }
    ensures { result ≡ ranks_after (fates_by old.now new.now) ranks.now }
{
    let m = marks_of(n, old, new, ranks);
    let below = sums_of(&m);
    let mut l = [0u8; RECORDS];
    for i in 0..n {
        l[i] = below[age(old[i], new[i], ranks[i])];
    }
    l
}

// Whether every id stays, where `slots` tells the slots that may have changed: from one of them to the next, for a frame changes few.
pub fn ids_stay(old: &[i32], new: &[i32], slots: u32) -> bool
    requires { (length old.now ≡ records) × (length new.now ≡ records) × Covers slots old.now new.now }
    ensures { result ≡ eq_slot old.now new.now }
{
    let mut left = slots;
    while left != 0 {
        let s = (left.trailing_zeros() % SLOTS) as usize;
        left &= left - 1;
        if !common::same(old[s], new[s]) {
            return false;
        }
    }
    true
}

// ---- the display's numbers

fn touch_of(live: usize) -> u8
    ensures { result ≡ touch_of live }
{
    u8::from(live != 0)
}

// The tool's code by how many contacts are live: one for each number up to four, and one for five or more.
fn tool_of(live: usize) -> u16
    ensures { result ≡ tool_of live }
{
    match live {
        0 => 0,
        1 => records::FINGER,
        2 => records::DOUBLETAP,
        3 => records::TRIPLETAP,
        4 => records::QUADTAP,
        _ => records::QUINTTAP,
    }
}

// What a display should see of so many live contacts, of which this is the oldest. While no contact is live X and Y keep still.
pub fn pointed(live: usize, oldest: Slot, told: Pointer) -> Pointer
    ensures { pointer_of result ≡ shown_of live oldest (pointer_of told) }
{
    if live == 0 {
        return Pointer {
            tool: 0,
            touch: 0,
            ..told
        };
    }
    Pointer {
        x: oldest.x,
        y: oldest.y,
        tool: tool_of(live),
        touch: touch_of(live),
    }
}

// The same where no id changes: touch and tool stay as they were told, and X and Y follow the oldest contact.
pub fn placed(oldest: Slot, told: Pointer) -> Pointer
    ensures { pointer_of result ≡ placed_at oldest (pointer_of told) }
{
    if told.touch == 0 {
        return told;
    }
    Pointer {
        x: oldest.x,
        y: oldest.y,
        ..told
    }
}

pub fn pointers_same(a: Pointer, b: Pointer) -> bool
    ensures { result ≡ eq_pointer (pointer_of a) (pointer_of b) }
{
    (a.touch == b.touch) & (a.tool == b.tool) & (a.x == b.x) & (a.y == b.y)
}

// ---- what the writer calls

// With the option off nothing is ranked, and nothing was told.
fn clear(ranks: [u8; RECORDS], told: Pointer) -> bool
    ensures { result ≡ (all_zeros records ranks && eq_pointer (pointer_of told) unmoved) }
{
    let nothing = Pointer {
        x: 0,
        y: 0,
        tool: 0,
        touch: 0,
    };
    zero_from(0, &ranks) & pointers_same(told, nothing)
}

// With the option on: good ranks, the numbers that they and the table give, and X and Y in range also while no contact is live.
// The ids are taken out here and not by a function of its own, for a table that is handed on is copied; up to n, for the compiler lays out a walk to a known end, and then copies every table slot by slot.
fn apt(setup: Setup, t: [Slot; RECORDS], ranks: [u8; RECORDS], told: Pointer) -> bool
    requires { Unused setup.n t }
    ensures { result ≡ good_pointing true (panel_seen setup) (table_of t) (pointing_of ranks told) }
{
    let n = setup.n;
    let mut ids = [TrackingId::UNUSED; RECORDS];
    for i in 0..n {
        ids[i] = t[i].id.0;
    }
    if !ranks_good(n, &ids, &ranks) {
        return false;
    }
    let k = oldest_slot(n, &ids, &ranks);
    let p = pointed(live_count(n, &ids), t[k], told);
    pointers_same(told, p) && (told.x <= setup.x) & (told.y <= setup.y)
}

// Whether ranks and the numbers that were told are well formed beside a table.
pub fn pointing_ok(
    on: bool,
    setup: Setup,
    t: [Slot; RECORDS],
    ranks: [u8; RECORDS],
    told: Pointer,
) -> bool
    requires { Unused setup.n t }
    ensures { result ≡ good_pointing on (panel_seen setup) (table_of t) (pointing_of ranks told) }
{
    if on {
        return apt(setup, t, ranks, told);
    }
    clear(ranks, told)
}

#[derive(Clone, Copy)]
pub struct Moved {
    pub ranks: [u8; RECORDS],
    pub told: Pointer,
}

// Ranks after a frame, and what the display is to be told then; most frames begin and lift nothing, and then only its X and Y may move. The ids are taken out as in `apt`.
fn moves(n: usize, old: [Slot; RECORDS], new: [Slot; RECORDS], slots: u32, last: Moved) -> Moved
    requires { Moving n old new slots last }
    ensures { MovesTo old new last.ranks last.told result }
{
    let mut was = [TrackingId::UNUSED; RECORDS];
    let mut is = [TrackingId::UNUSED; RECORDS];
    for i in 0..n {
        was[i] = old[i].id.0;
        is[i] = new[i].id.0;
    }
    let ranks = last.ranks;
    let told = last.told;
    if ids_stay(&was, &is, slots) {
        let k = oldest_slot(n, &is, &ranks);
        return Moved {
            ranks,
            told: placed(new[k], told),
        };
    }
    let after = ranks_after(n, &was, &is, &ranks);
    let k = oldest_slot(n, &is, &after);
    let told = pointed(live_count(n, &is), new[k], told);
    Moved { ranks: after, told }
}

// The same by the option: off, nothing moves.
pub fn move_on(
    on: bool,
    n: usize,
    old: [Slot; RECORDS],
    new: [Slot; RECORDS],
    slots: u32,
    last: Moved,
) -> Moved
    requires { MovingIf on n old new slots last }
    ensures { MovesBy on old new last.ranks last.told result }
{
    if on {
        return moves(n, old, new, slots, last);
    }
    last
}

fn unlike(same: bool) -> usize
    ensures { (result ≤ 1) × (result ≡ one_unless same) }
{
    usize::from(!same)
}

// How many events tell a display that was told q that it is z now.
fn tells(q: Pointer, z: Pointer) -> usize
    ensures { (result ≡ length (told_by (pointer_of q) (pointer_of z))) × (result ≤ 5) }
{
    let same = q.tool == z.tool;
    unlike(q.touch == z.touch)
        + unlike(same | (q.tool == 0))
        + unlike(same | (z.tool == 0))
        + unlike(q.x == z.x)
        + unlike(q.y == z.y)
}

// The same by the option: off, nothing moved, and nothing is compared.
pub fn emulated(on: bool, q: Pointer, z: Pointer) -> usize
    requires { StillIf on (pointer_of q) (pointer_of z) }
    ensures { (result ≡ length (told_by (pointer_of q) (pointer_of z))) × (result ≤ 5) }
{
    if !on {
        return 0;
    }
    tells(q, z)
}
