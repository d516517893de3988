// Which old contact goes on as which new one of an anonymous panel, and which contact each slot then has: 02's K12. Called by the writer of such
// frames, which has judged the numbers: `pair_up` and `place` are the calls. The sets of free new contacts are the bits of a number, and the old
// contacts are gone through from the last: a choice is known before those that lead to it, and no pairing is looked at twice.
#![tactic(auto)]

ghost use Rattle.std.specs.Prelude.{◌≡◌, true, ◌++◌, ◌+◌, ◌-◌, ◌*◌, ◌^◌, ◌<◌, ◌≤◌, get_or, length, replicate};
ghost use Rattle.model.specs.Pairing.{point, points, largest, gap, distance, alone, best_pairing, left_over, placed};
ghost use Rattle.pairing.specs.Cells.{choosable, without, value, packed, Offers, Short, Low, Turned, Chosen, Near, Numbers, marks};

// The number of an old contact that has no new one.
pub const ALONE: u8 = 5;

// An offer is so many times a cost, and the number of a choice: of two offers the smaller is cheaper, or as dear and comes first.
const CHOICES: u64 = 8;

// For being alone, which costs more than 32 squared distances.
const ALONE_OFFER: u64 = 0x100_0000_0005;

// The most new contacts, and the sets of them.
const NEWS: usize = 5;

const SETS: usize = 32;

// The slots, and the most old contacts.
const SLOTS: usize = 32;

fn gap_of(a: u32, b: u32) -> u32
    ensures { result ≡ gap a b }
{
    if a < b {
        return b - a;
    }
    a - b
}

fn square(a: u32) -> u32
    requires { a ≤ largest }
    ensures { (result ≡ a * a) × (result ≤ 1073676289) }
{
    a * a
}

fn distance_of(ax: u32, ay: u32, bx: u32, by: u32) -> u32
    requires { (ax ≤ largest) × (ay ≤ largest) × (bx ≤ largest) × (by ≤ largest) }
    ensures { (result ≡ distance (point ax ay) (point bx by)) × (result ≤ 2147352578) }
{
    let across = gap_of(ax, bx);
    let down = gap_of(ay, by);
    square(across) + square(down)
}

// Of the old contact at x, y to the new contact c.
fn offer(x: u32, y: u32, nx: &[u32; 5], ny: &[u32; 5], c: usize) -> u64
    requires { (x ≤ largest) × (y ≤ largest) × Near nx.now × Near ny.now × (c < 5) }
    ensures { (result ≡ 8 * distance (point x y) (point (get_or nx.now c 0) (get_or ny.now c 0)) + c) × (result ≤ 0x8_0000_0000) }
{
    let far = distance_of(x, y, nx[c], ny[c]);
    CHOICES * u64::from(far) + c as u64
}

fn offers(x: u32, y: u32, nx: &[u32; 5], ny: &[u32; 5]) -> [u64; 5]
    requires { (x ≤ largest) × (y ≤ largest) × Near nx.now × Near ny.now }
    ensures { Offers result nx.now ny.now x y × Short result }
{
    [
        offer(x, y, nx, ny, 0),
        offer(x, y, nx, ny, 1),
        offer(x, y, nx, ny, 2),
        offer(x, y, nx, ny, 3),
        offer(x, y, nx, ny, 4),
    ]
}

// The least offer with these contacts free, those behind counted in.
fn cell(row: &[u64; 32], offers: &[u64; 5], free: usize) -> u64
    requires { (free < 32) × Low row.now free 31 × Short offers.now }
    ensures { result ≡ packed (choosable free) (value offers.now row.now free) }
{
    let later = row[free];
    let mut best = ALONE_OFFER + later;
    for c in (0..NEWS).rev() {
        if (free >> c) % 2 == 1 {
            let rest: usize = free - (1 << c);
            let own = offers[c];
            let behind = row[rest];
            let v = own + behind;
            if v < best {
                best = v;
            }
        }
    }
    best
}

// In place from the largest set down, since a cell asks only for its own set's cost and for those of smaller ones.
fn turn(row: &mut [u64; 32], made: &mut [u8; 1024], offers: &[u64; 5], i: usize, all: usize)
    requires { (i < 32) × (all < 32) × Low row.old all 31 × Short offers.now × (length row.old ≡ 32) × (length made.old ≡ 1024) }
    ensures { Turned offers.now row.old row.new made.old made.new i all }
{
    for free in (0..all + 1).rev() {
        let v = cell(row, offers, free);
        let c = v % CHOICES;
        row[free] = v - c;
        made[SETS * i + free] = c as u8;
    }
}

// The set of n contacts.
fn all_of(n: usize) -> usize
    requires { n ≤ 5 }
    ensures { (result ≡ 2 ^ n - 1) × (result < 32) }
{
    (1 << n) - 1
}

// The choice of each old contact at each set of free new ones.
fn fill(
    ox: &[u32; 32],
    oy: &[u32; 32],
    olds: usize,
    nx: &[u32; 5],
    ny: &[u32; 5],
    news: usize,
) -> [u8; 1024]
    requires { (olds ≤ 32) × (news ≤ 5) × Near ox.now × Near oy.now × Near nx.now × Near ny.now }
    ensures { Chosen (points news 0 nx.now ny.now) ox.now oy.now olds news 0 result }
{
    let all = all_of(news);
    let mut row: [u64; 32] = [0; 32];
    let mut made: [u8; 1024] = [ALONE; 1024];
    for i in (0..olds).rev() {
        let d = offers(ox[i], oy[i], nx, ny);
        turn(&mut row, &mut made, &d, i, all);
    }
    made
}

// The set without a choice.
fn less(free: usize, c: usize) -> usize
    requires { (free < 32) × (c ≤ 5) × (choosable free c ≡ true) }
    ensures { result ≡ without free c }
{
    if c == NEWS {
        return free;
    }
    free - (1 << c)
}

// For each old contact, by rising slot, the number of its new contact, or ALONE, which stands in the rest of the array too.
pub fn pair_up(
    ox: &[u32; 32],
    oy: &[u32; 32],
    olds: usize,
    nx: &[u32; 5],
    ny: &[u32; 5],
    news: usize,
) -> [u8; 32]
    requires { (olds ≤ 32) × (news ≤ 5) × Near ox.now × Near oy.now × Near nx.now × Near ny.now }
    ensures { result ≡ best_pairing (points news 0 nx.now ny.now) (points olds 0 ox.now oy.now) ++ replicate (32 - olds) alone }
{
    let made = fill(ox, oy, olds, nx, ny, news);
    let mut out: [u8; 32] = [ALONE; 32];
    let mut free = all_of(news);
    for i in 0..olds {
        let c = made[SETS * i + free];
        out[i] = c;
        free = less(free, c as usize);
    }
    out
}

// Which new contacts are paired; the last mark is for ALONE.
fn marks_of(pairing: &[u8; 32]) -> [bool; 6]
    requires { Numbers pairing.now × (length pairing.now ≡ 32) }
    ensures { result ≡ marks pairing.now }
{
    let mut marks: [bool; 6] = [false; 6];
    for c in pairing {
        marks[*c as usize] = true;
    }
    marks
}

// The new contacts that are left over, rising, and then ALONE.
fn left_of(pairing: &[u8; 32], news: usize) -> [u8; 32]
    requires { Numbers pairing.now × (length pairing.now ≡ 32) × (news ≤ 5) }
    ensures { result ≡ left_over news pairing.now ++ replicate (32 - length (left_over news pairing.now)) alone }
{
    let marks = marks_of(pairing);
    let mut left: [u8; 32] = [ALONE; 32];
    let mut count: usize = 0;
    for c in 0..news {
        if !marks[c] {
            left[count] = c as u8;
            count += 1;
        }
    }
    left
}

// The contact of each slot, or ALONE, by which slots are live.
pub fn place(live: &[bool; 32], pairing: &[u8; 32], news: usize) -> [u8; 32]
    requires { (length live.now ≡ 32) × (length pairing.now ≡ 32) × Numbers pairing.now × (news ≤ 5) }
    ensures { result ≡ placed live.now pairing.now news }
{
    let left = left_of(pairing, news);
    let mut out: [u8; 32] = [ALONE; 32];
    let mut paired: usize = 0;
    let mut fresh: usize = 0;
    for slot in 0..SLOTS {
        if live[slot] {
            out[slot] = pairing[paired];
            paired += 1;
        } else {
            out[slot] = left[fresh];
            fresh += 1;
        }
    }
    out
}
