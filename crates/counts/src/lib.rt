#![tactic(auto)]

// The audit of the counts: tombstones and voids of every address against queue words and mother hashes.
ghost use Rattle.std.specs.Prelude.{◌≡◌, ◌&&◌, ◌==◌, List, ℕ, ◌+◌, ◌-◌, ◌%◌, ◌≤◌, ◌<◌, T, length, is_some, IfSome};
ghost use Rattle.lists.specs.Runs.{count};
ghost use Rattle.slots.specs.Payload.{tombstone, void};
ghost use Rattle.layout.specs.Decode.{decode};
ghost use Rattle.layout.specs.Document.{carry};
ghost use Rattle.directory.specs.Places.{places_in_use, directory_right, words_taken};
ghost use Rattle.rules.specs.Tables.{Table};
ghost use Rattle.rules.specs.Sound.{annex_right, address_right};
ghost use Rattle.sound.specs.Reading.{Laid, read_at};
ghost use Rattle.tallies.specs.Tally.{block_size, Tallied, Stored};
ghost use Rattle.tallies.specs.Namings.{words_of, evens_of};
ghost use Rattle.counts.specs.Blocks.{address_test, right_from, Block};

// If address c has the tombstones and voids that it must have, how many entries wait on arrival at the next: k wait here, queue words name c as the counters say,
// and `mothers` mother hashes match c.
fn address_right(
    words: &[u32],
    w: u32,
    c: usize,
    k: usize,
    queued: tallies::Naming,
    mothers: u32,
) -> Option<usize>
    requires { (c < length words.now) × (k < length words.now) × (length words.now ≤ 1048576) × (1 ≤ w) × (w ≤ 26) }
    ensures right { is_some result ≡ ((count (tombstone w) (read_at words.now c k) == queued.evens)
        && (count (void w) (read_at words.now c k) == mothers - queued.words)) }
    ensures onward { IfSome result (λ next. next ≡ k + length (read_at words.now c k) - 1) }
{
    let run = sound::read_run(words, c, k, slots::tombstone_of(w), slots::void_of(w));
    let right = run.tombstones == queued.evens && run.voids == mothers.saturating_sub(queued.words);
    right.then_some(tallies::onward(k, run.len))
}

// How many addresses of a table of `len` slots are in the block from base on.
fn addresses(len: usize, base: usize) -> usize
    requires { base < len }
    ensures { (result ≤ block_size) × (base + result ≤ len) × (result < block_size → base + result ≡ len) }
{
    (len - base).min(tallies::BLOCK)
}

// If the n addresses of the block from base on have the tombstones and voids that the counters ask for, how many entries wait on arrival at the next block, where
// `waiting` wait on arrival at this one.
fn addresses_right(
    words: &[u32],
    w: u32,
    base: usize,
    n: usize,
    waiting: usize,
    queued: &[tallies::Naming],
    mothers: &[u32],
) -> Option<usize>
    requires { Laid words.now × (length words.now ≤ 1048576) × (1 ≤ w) × (w ≤ 26) × (n ≤ block_size) × (base + n ≤ length words.now) × (n < block_size → base + n ≡ length words.now)
        × (length queued.now ≡ block_size) × (length mothers.now ≡ block_size) × (waiting ≡ carry (decode words.now) base) }
    ensures { (ts : List Table) → (ws : List ℕ) → Tallied base ws (words_of queued.now) (evens_of queued.now) → Stored base n ts mothers.now
        → Block (address_right w ts ws) (decode words.now) base result }
{
    let mut k = waiting;
    for (i, (named, matched)) in queued[..n].iter().zip(&mothers[..n]).enumerate() {
        k = address_right(words, w, base + i, k, *named, *matched)?;
    }
    Some(k)
}

// The same of the addresses of one block, by the queue and the annex.
fn block_right(
    words: &[u32],
    w: u32,
    queue: &[u32],
    places: [directory::Place; 15],
    annex: &[u32],
    base: usize,
    waiting: usize,
) -> Option<usize>
    requires { Laid words.now × (base % block_size ≡ 0) × (base < length words.now) × (length words.now ≤ 1048576) × (1 ≤ w) × (w ≤ 26) × (length queue.now ≤ 1048576)
        × T (directory_right 20 places) × (words_taken (places_in_use places) ≤ length annex.now) × T (annex_right (places_in_use places) annex.now)
        × (waiting ≡ carry (decode words.now) base) }
    ensures { Block (address_test w places annex.now queue.now) (decode words.now) base result }
{
    // Two arrays, since two walks fill them.
    let mut queued = [tallies::Naming::default(); tallies::BLOCK];
    let mut mothers = [0u32; tallies::BLOCK];
    let n = addresses(words.len(), base);
    tallies::tally_block(queue, base as u32, &mut queued);
    tallies::tally_mothers(places, annex, base as u32, n, &mut mothers);
    addresses_right(words, w, base, n, waiting, &queued, &mothers)
}

// Whether every address has the tombstones and voids that it must have.
pub fn counts_right(
    words: &[u32],
    w: u32,
    queue: &[u32],
    places: [directory::Place; 15],
    annex: &[u32],
) -> bool
    requires { Laid words.now × (1 < length words.now) × (length words.now ≤ 1048576) × (1 ≤ w) × (w ≤ 26) × (length queue.now ≤ 1048576)
        × T (directory_right 20 places) × (words_taken (places_in_use places) ≤ length annex.now) × T (annex_right (places_in_use places) annex.now) }
    ensures { result ≡ right_from (address_test w places annex.now queue.now) 0 (decode words.now) }
{
    let mut k = walks::locate(words, 0).carry;
    for base in (0..words.len()).step_by(tallies::BLOCK) {
        match block_right(words, w, queue, places, annex, base, k) {
            Some(next) => k = next,
            None => return false,
        }
    }
    true
}
