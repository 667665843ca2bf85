#![tactic(auto)]

// One table of words, main or annex, read only: what is in the run of an address.
ghost use Rattle.std.specs.Prelude.{◌≡◌, suc, ◌≤◌, ◌<◌, leb, length, slice_get, IfSome, IfNone};
ghost use Rattle.slots.specs.Payload.{matches};
ghost use Rattle.layout.specs.Decode.{turn, run_at, reading};
ghost use Rattle.layout.specs.Reading.{run_from, index};
ghost use Rattle.lists.specs.Runs.{count};
ghost use Rattle.lookup.specs.Spots.{Spotted, Missing, LastSpotted, LastMissing, First};

mod runs;

pub use runs::{Entries, entries_of};
use walks::{Run, Words};

// Entry t of a run, where it has t entries or more.
fn entry_at(ws: &[u32], run: Run, t: usize) -> Option<u32>
    requires { (run.home < length ws.now) × (length ws.now ≤ 1048576) × (run.from ≤ length ws.now) × (t ≤ length (run_from ws.now run.home run.from)) }
    ensures { result ≡ slice_get (run_from ws.now run.home run.from) t }
{
    let n = ws.len();
    let place = run.from + t;
    if n <= place {
        return None;
    }
    let w = ws[walks::around(run.home, place, n)];
    // Each entry of a run but its first continues it.
    if 0 < t && w / 2 % 2 == 0 {
        None
    } else {
        Some(w / 8)
    }
}

// How many entries of a run come before the first that is x or larger.
fn rank_from(ws: &[u32], run: Run, x: u32) -> usize
    requires { (run.home < length ws.now) × (length ws.now ≤ 1048576) × (run.from ≤ length ws.now) }
    ensures { (result ≡ index (leb x) (run_from ws.now run.home run.from)) × (result ≤ length (run_from ws.now run.home run.from)) }
{
    // No chain: with `take_while` the proof did not close.
    let mut rank = 0;
    for payload in runs::entries_from(ws, run) {
        if x <= payload {
            break;
        }
        rank += 1;
    }
    rank
}

// The same in the run of c, which is at `run` if it has an entry.
pub fn rank(ws: &[u32], c: usize, run: Run, x: u32) -> usize
    requires { (c < length ws.now) × (run.home < length ws.now) × (length ws.now ≤ 1048576) × (run.from ≤ length ws.now)
        × (run_from ws.now run.home run.from ≡ reading (turn (suc c) ws.now)) }
    ensures { (result ≡ index (leb x) (run_at ws.now c)) × (result ≤ length ws.now) }
{
    if ws[c] % 2 == 0 {
        0
    } else {
        rank_from(ws, run, x)
    }
}

// Where an entry is. `rest` is a number, 1 where others come behind it in the run, as the layout's `remove_at` takes it.
#[derive(Clone, Copy)]
pub struct Spot {
    pub slot: usize,
    pub rank: usize,
    pub rest: usize,
}

// The first entry with payload x in the run of c.
pub fn find(ws: &[u32], c: usize, x: u32) -> Option<Spot>
    requires { (c < length ws.now) × (length ws.now ≤ 1048576) × (1 < length ws.now) }
    ensures some { IfSome result (λ spot. Spotted ws.now c x spot.slot spot.rank spot.rest × (spot.slot ≤ 2097152)) }
    ensures none { IfNone result (Missing ws.now c x) }
{
    if ws[c] % 2 == 0 {
        return None;
    }
    let run = walks::locate(ws, c);
    let rank = rank_from(ws, run, x);
    if entry_at(ws, run, rank)? != x {
        return None;
    }
    let more = entry_at(ws, run, rank + 1).is_some();
    Some(Spot {
        slot: run.carry + rank,
        rank,
        rest: usize::from(more),
    })
}

// How many slots on from c the last entry with payload x is, of those in the run of c.
pub fn last_below(ws: &[u32], c: usize, x: u32) -> Option<usize>
    requires { (c < length ws.now) × (length ws.now ≤ 1048576) × (1 < length ws.now) × (x < 536870911) }
    ensures some { IfSome result (λ slot. LastSpotted ws.now c x slot × (slot ≤ 2097152)) }
    ensures none { IfNone result (LastMissing ws.now c x) }
{
    if ws[c] % 2 == 0 {
        return None;
    }
    let run = walks::locate(ws, c);
    let last = rank_from(ws, run, x + 1).checked_sub(1)?;
    if entry_at(ws, run, last) == Some(x) {
        Some(run.carry + last)
    } else {
        None
    }
}

// How many entries of the run of c have payload x.
pub fn count_in_run(ws: &[u32], c: usize, x: u32) -> usize
    requires { (c < length ws.now) × (length ws.now ≤ 1048576) × (1 < length ws.now) }
    ensures { result ≡ count x (run_at ws.now c) }
{
    // No chain: with `filter` the proof did not close.
    let mut count = 0;
    for payload in entries_of(ws, c) {
        count += usize::from(x == payload);
    }
    count
}

// The first payload of a run that matches: main has 2^k slots, and payloads have width w.
fn first_from<W: Words>(table: W, run: Run, w: u32, k: u32, hash: u64) -> Option<u32>
    requires { (run.home < length (W.words table)) × (length (W.words table) ≤ 1048576) × (1 < length (W.words table)) × (run.from ≤ length (W.words table))
        × (w ≤ 26) × (k ≤ 20) }
    ensures { First (matches w k hash) (run_from (W.words table) run.home run.from) result }
{
    let n = table.size();
    if n <= run.from {
        return None;
    }
    // A loop of its own: `find` over the entries takes some three percent more instructions, and a slot computed anew in each turn ten.
    let mut slot = walks::around(run.home, run.from, n);
    let mut payload = table.word(slot) / 8;
    for _ in run.from..n {
        if slots::matches(payload, w, k, hash) {
            return Some(payload);
        }
        slot = walks::after(slot, n);
        let word = table.word(slot);
        // Each entry of a run but its first continues it.
        if word / 2 % 2 == 0 {
            break;
        }
        payload = word / 8;
    }
    None
}

// Where a query finds the run of c. Apart from `locate`, so that the walk has two callers: then the compiler leaves the walk alone and puts the test before it into them.
fn query_place<W: Words>(table: W, c: usize) -> Run
    requires { (c < length (W.words table)) × (length (W.words table) ≤ 1048576) × (1 < length (W.words table)) }
    ensures { (result.home < length (W.words table)) × (result.from ≤ length (W.words table))
        × (run_from (W.words table) result.home result.from ≡ reading (turn (suc c) (W.words table))) }
{
    if table.word(c) / 2 % 4 == 0 {
        Run {
            home: c,
            from: 0,
            carry: 0,
        }
    } else {
        walks::walk_to_run(table, c)
    }
}

// The first payload of the run of c that matches the hash.
pub fn first_match<W: Words>(table: W, c: usize, w: u32, k: u32, hash: u64) -> Option<u32>
    requires { (c < length (W.words table)) × (length (W.words table) ≤ 1048576) × (1 < length (W.words table)) × (w ≤ 26) × (k ≤ 20) }
    ensures { First (matches w k hash) (run_at (W.words table) c) result }
{
    if table.word(c) % 2 == 0 {
        None
    } else {
        first_from(table, query_place(table, c), w, k, hash)
    }
}
