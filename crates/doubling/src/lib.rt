#![tactic(auto)]

// Double, on plain numbers and slices: the second main, and the annex table of the new mother hashes.
ghost use Rattle.std.specs.Prelude.{◌≡◌, ◌==◌, ◌||◌, List, ℕ, ◌+◌, ◌*◌, ◌%◌, ◌^◌, ◌≤◌, ◌<◌, leb, eqb, length};
ghost use Rattle.lists.specs.Runs.{total};
ghost use Rattle.slots.specs.Payload.{rest_of};
ghost use Rattle.layout.specs.Machine.{layout};
ghost use Rattle.layout.specs.Decode.{decode, run_at};
ghost use Rattle.rules.specs.Record.{Filter};
ghost use Rattle.rules.specs.Doubling.{new_hashes, size_for, table_of};
ghost use Rattle.arriving.specs.Arrivals.{Arrived, Narrow, Size, of_run};
ghost use Rattle.doubling.specs.NewHashes.{new_hash, stored};
ghost use Rattle.doubling.specs.Accepted.{Numbers, Accepted, Done};

use directory::Place;
use places::Left;

// Whether an entry becomes void: it has one fingerprint bit.
fn becomes_void(p: u32, w: u32) -> bool
    requires { (w ≤ 26) × (p < 2 ^ w) }
    ensures { result ≡ rest_of w p == 2 }
{
    slots::rest_of(p, w) == 2
}

// How many entries of the run of c become void.
fn count_in(main: &[u32], c: usize, w: u32) -> u32
    requires { (c < length main.now) × Size main.now × (w ≤ 26) × Narrow w main.now }
    ensures { (k : ℕ) → result ≡ length (of_run (new_hash w k c) (run_at main.now c)) }
{
    lookup::entries_of(main, c)
        .filter(|p| becomes_void(*p, w))
        .count() as u32
}

// How many entries become void.
pub fn count_new(main: &[u32], w: u32) -> u32
    requires { Size main.now × (w ≤ 26) × Narrow w main.now × (total (decode main.now) ≤ 1048576) }
    ensures { (k : ℕ) → result ≡ length (new_hashes w k 0 (decode main.now)) }
{
    let mut count = 0;
    for c in 0..main.len() {
        count += count_in(main, c, w);
    }
    count
}

// The size power of a table of n mother hashes.
pub fn size_for(n: u32) -> u32
    ensures { (result ≡ size_for n) × (result ≤ 23) }
{
    (3..23).find(|s| n <= slots::limit_of(*s)).unwrap_or(23)
}

// Whether a table of n mother hashes fits in the annex behind the words that are taken; none is made of none.
pub fn room_for(annex: &[u32], taken: usize, n: u32) -> bool
    requires { taken ≤ length annex.now }
    ensures { result ≡ (eqb n 0 || leb (taken + 2 ^ size_for n) (length annex.now)) }
{
    n == 0 || slots::pow2(size_for(n)) as usize <= annex.len() - taken
}

// The new address of an entry of the run of c that becomes void: its one bit is the top bit.
fn new_address(c: usize, p: u32, k: u32) -> u32
    requires { (c < 2 ^ k) × (c < 1048576) × (k ≤ 19) }
    ensures { (result ≡ c + 2 ^ k * (p % 2)) × (result < 2 ^ (k + 1)) }
{
    let low = c as u32;
    if p % 2 == 0 {
        low
    } else {
        low + slots::pow2(k)
    }
}

// An entry of the run of c that becomes void stores its new address, of k+1 bits, in a table of 2^s slots.
fn store(part: &mut [u32], k: u32, c: usize, p: u32, w: u32, s: u32)
    requires { (c < 2 ^ k) × (c < 1048576) × (k ≤ 19) × (3 ≤ s) × (s ≤ k) × (length part.old ≡ 2 ^ s) × (p < 2 ^ w) × (w ≤ 26) × Size part.old }
    ensures { Arrived part.old part.new (stored w k s c p) }
{
    if becomes_void(p, w) {
        let hash = new_address(c, p, k);
        let slot = annex::hash_slot(s, hash);
        let entry = annex::hash_entry(k + 1, s, hash);
        table::insert(part, slot, entry);
    }
}

// The same of all entries of the run of c.
fn store_run(main: &[u32], part: &mut [u32], k: u32, c: usize, w: u32, s: u32)
    requires { (c < 2 ^ k) × (length main.now ≡ 2 ^ k) × (k ≤ 19) × (3 ≤ s) × (s ≤ k) × (length part.old ≡ 2 ^ s) × Size main.now × Size part.old × Narrow w main.now × (w ≤ 26) }
    ensures { Arrived part.old part.new (of_run (stored w k s c) (run_at main.now c)) }
{
    for p in lookup::entries_of(main, c) {
        store(part, k, c, p, w, s);
    }
}

// The annex table of the new mother hashes.
pub fn write_table(main: &[u32], part: &mut [u32], k: u32, w: u32, s: u32)
    requires { (length main.now ≡ 2 ^ k) × (k ≤ 19) × (3 ≤ s) × (s ≤ k) × (length part.old ≡ 2 ^ s) × Size main.now × Size part.old × Narrow w main.now × (w ≤ 26)
        × (length (new_hashes w k 0 (decode main.now)) < 2 ^ s) }
    ensures { part.new ≡ layout (table_of (k + 1) s (new_hashes w k 0 (decode main.now))) }
{
    table::clear(part);
    for c in 0..main.len() {
        store_run(main, part, k, c, w, s);
    }
}

// The accepted Double: n entries become void, and the annex has `taken` words in use.
// The record's numbers come one by one: its type stands with its calls, in a crate above.
pub fn double(
    main: &[u32],
    second: &mut [u32],
    annex: &mut [u32],
    k: u32,
    w: u32,
    v: u32,
    taken: usize,
    n: u32,
    places: [Place; 15],
) -> Left
    requires { Accepted main.now second.old annex.old k w v taken n places }
    ensures { (r : Filter) (queue : List ℕ) → Numbers r main.now queue annex.old k w v taken n places
        → Done r main.now queue annex.old second.new annex.new result.used result.places }
{
    let used = arriving::write_second(main, second, w, v);
    if n == 0 {
        return Left { used, places };
    }
    let s = size_for(n);
    let end = taken + directory::table_words(s);
    write_table(main, &mut annex[taken..end], k, w, s);
    let place = Place {
        b: k + 1,
        s,
        count: n,
    };
    Left {
        used,
        places: places::with_place(places, place),
    }
}
