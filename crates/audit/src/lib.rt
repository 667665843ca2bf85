#![tactic(auto)]

// The audit: the parts of soundness together.
ghost use Rattle.std.specs.Prelude.{◌≡◌, ◌-◌, ◌^◌, ◌≤◌, ◌<◌, T, length};
ghost use Rattle.slots.specs.Numbers.{limit};
ghost use Rattle.directory.specs.Places.{places_in_use, directory_right, words_taken};
ghost use Rattle.rules.specs.Record.{Filter, width};
ghost use Rattle.rules.specs.Sound.{table_right, annex_entry, annex_right, sound};
ghost use Rattle.audit.specs.Queue.{addresses_below};

// Whether the queue words name addresses below 2^k.
fn queue_right(queue: &[u32], k: u32) -> bool
    requires { k ≤ 20 }
    ensures { result ≡ addresses_below k queue.now }
{
    let end = slots::pow2(k);
    queue.iter().all(|word| *word / 2 < end)
}

// Whether one annex table is the layout of `count` mother hashes of length b.
fn table_right(part: &[u32], b: u32, s: u32, count: u32) -> bool
    requires { (3 ≤ s) × (s < b) × (b ≤ 20) × (length part.now ≡ 2 ^ s) × (count < length part.now) }
    ensures { result ≡ table_right (annex_entry (b - s)) count part.now }
{
    sound::is_table(part, count, sound::annex_spans(b - s))
}

// Whether every annex table in use is.
fn annex_right(places: [directory::Place; 15], annex: &[u32]) -> bool
    requires { T (directory_right 20 places) × (words_taken (places_in_use places) ≤ length annex.now) }
    ensures { result ≡ annex_right (places_in_use places) annex.now }
{
    // The tables follow one another, so the offset goes along.
    let mut at: usize = 0;
    for place in places {
        if place.b == 0 {
            return true;
        }
        let end = at + directory::table_words(place.s);
        if !table_right(&annex[at..end], place.b, place.s, place.count) {
            return false;
        }
        at = end;
    }
    true
}

// Whether the state of a filter with these numbers is sound: main has 2^k slots, `used` of them used, and payloads of width w; `queued` queue words are in use.
// The record's numbers come one by one: its type stands with its calls, in a crate above.
pub fn state_right(
    main: &[u32],
    used: u32,
    k: u32,
    w: u32,
    queue: &[u32],
    queued: usize,
    places: [directory::Place; 15],
    annex: &[u32],
) -> bool
    requires { (3 ≤ k) × (k ≤ 20) × (4 ≤ w) × (w ≤ 26) × (length main.now ≡ 2 ^ k) × (used ≤ limit k) × T (directory_right k places)
        × (words_taken (places_in_use places) ≤ length annex.now) × (queued ≤ length queue.now) × (queued ≤ 2 ^ 20) }
    ensures { (r : Filter) → r.k ≡ k → width r ≡ w → r.used ≡ used → r.queued ≡ queued → r.dir ≡ places
        → result ≡ sound r main.now queue.now annex.now }
{
    let words = &queue[..queued];
    sound::is_table(main, used, sound::main_spans(k, w))
        && annex_right(places, annex)
        && queue_right(words, k)
        && counts::counts_right(main, w, words, places, annex)
}
