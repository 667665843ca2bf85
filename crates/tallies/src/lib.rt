#![tactic(auto)]

// The counters of a block of addresses: queue words that name each address, and mother hashes that match it.
ghost use Rattle.std.specs.Prelude.{◌≡◌, false, [], ◌+◌, ◌-◌, ◌*◌, ◌/◌, ◌%◌, ◌^◌, ◌≤◌, ◌<◌, T, length};
ghost use Rattle.directory.specs.Places.{places_in_use, directory_right, words_taken};
ghost use Rattle.rules.specs.Tables.{matching, tables};
ghost use Rattle.rules.specs.Sound.{annex_right};
ghost use Rattle.annex.specs.Stored.{table_of};
ghost use Rattle.sound.specs.Reading.{Laid};
ghost use Rattle.tallies.specs.Tally.{block_size, Tallied, Others, AtMost, Raised, Stored};
ghost use Rattle.tallies.specs.Namings.{words_of, evens_of, Named};

// How many addresses a block has. One pass over the queue counts the words of one block, in counters on the stack.
pub const BLOCK: usize = 8192;

// How many queue words name an address, and how many of them are even.
#[derive(Clone, Copy, Default)]
pub struct Naming {
    pub words: u32,
    pub evens: u32,
}

// The number of the block of address a.
fn block_of(a: u32) -> u32
    ensures { result ≡ a / block_size }
{
    a / BLOCK as u32
}

// The place of address a in its block.
fn place_of(a: u32) -> usize
    ensures { (result ≡ a % block_size) × (result < block_size) }
{
    (a % BLOCK as u32) as usize
}

fn even(w: u32) -> u32
    ensures { (result ≡ 1 - w % 2) × (result ≤ 1) }
{
    1 - w % 2
}

// Whether one of the words names an address of the block.
fn names_block(words: &[u32], base: u32) -> bool
    ensures { result ≡ false → Others base words.now 0 (length words.now) }
{
    let block = block_of(base);
    let mut found = false;
    // No `any`, which stops at the first: without a branch the compiler can test several words at once.
    for word in words {
        found |= block_of(*word / 2) == block;
    }
    found
}

// Adds the words to the counters of the block.
fn tally_words(words: &[u32], base: u32, counters: &mut [Naming])
    requires { (length words.now ≤ 1048576) × (base % block_size ≡ 0) × (length counters.old ≡ block_size)
        × AtMost 1048576 (words_of counters.old) × AtMost 1048576 (evens_of counters.old) }
    ensures { Named base words.now counters.old counters.new }
{
    let block = block_of(base);
    for word in words {
        let address = *word / 2;
        if block_of(address) == block {
            let counter = &mut counters[place_of(address)];
            counter.words += 1;
            counter.evens += even(*word);
        }
    }
}

// How many queue words name each address of the block, and how many of them are even. Most words are of other blocks, and are passed over 16 at a time.
pub fn tally_block(queue: &[u32], base: u32, counters: &mut [Naming])
    requires { (length queue.now ≤ 1048576) × (base % block_size ≡ 0) × Tallied base [] (words_of counters.old) (evens_of counters.old) }
    ensures { Tallied base queue.now (words_of counters.new) (evens_of counters.new) }
{
    let groups = queue.chunks_exact(16);
    let rest = groups.remainder();
    for words in groups {
        if names_block(words, base) {
            tally_words(words, base, counters);
        }
    }
    tally_words(rest, base, counters);
}

// How many entries wait on arrival at the next address, where k wait here and the run has len.
pub fn onward(k: usize, len: usize) -> usize
    requires { (k ≤ 1048576) × (len ≤ 1048576) }
    ensures { result ≡ k + len - 1 }
{
    (k + len).saturating_sub(1)
}

// Adds to the counters of the block's first n addresses how many mother hashes of one annex table match each. The runs are read in the order of the addresses,
// each from where the one before ends; the payload changes where the table begins anew.
fn tally_table(part: &[u32], b: u32, s: u32, base: u32, n: usize, mothers: &mut [u32])
    requires { (3 ≤ s) × (s < b) × (b ≤ 20) × (length part.now ≡ 2 ^ s) × Laid part.now × (base ≤ 1048576) × (n ≤ block_size) × (length mothers.old ≡ block_size)
        × AtMost 15728640 mothers.old }
    ensures { Raised (λ c. matching c (table_of b s part.now)) base n mothers.old mothers.new }
{
    // By index: the slot, the payload and the counter go on together, and only the first n counters are the block's.
    let mut a = annex::hash_slot(s, base);
    let mut p = annex::hash_entry(b, s, base);
    let mut k = walks::locate(part, a).carry;
    for i in 0..n {
        // A run is read for two payloads, which here are the same.
        let run = sound::read_run(part, a, k, p, p);
        mothers[i] += run.voids;
        k = onward(k, run.len);
        a = walks::after(a, part.len());
        if a == 0 {
            let next = base + i as u32 + 1;
            p = annex::hash_entry(b, s, next);
        }
    }
}

// How many mother hashes match each of the block's first n addresses, in counters that are 0 before.
pub fn tally_mothers(
    places: [directory::Place; 15],
    annex: &[u32],
    base: u32,
    n: usize,
    mothers: &mut [u32],
)
    requires { T (directory_right 20 places) × (words_taken (places_in_use places) ≤ length annex.now) × T (annex_right (places_in_use places) annex.now)
        × (base ≤ 1048576) × (n ≤ block_size) × (length mothers.old ≡ block_size) × AtMost 0 mothers.old }
    ensures { Stored base n (tables (places_in_use places) annex.now) mothers.new }
{
    // The directory comes by value beside the annex words, as the document has it; its tables follow one another, so the offset goes along.
    let mut at: usize = 0;
    for place in places {
        if place.b == 0 {
            return;
        }
        let end = at + directory::table_words(place.s);
        tally_table(&annex[at..end], place.b, place.s, base, n, mothers);
        at = end;
    }
}
