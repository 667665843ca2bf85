#![tactic(auto)]

// The stored mother hashes: the longest that matches an address, and its removal.
ghost use Rattle.std.specs.Prelude.{◌≡◌, ◌-◌, ◌%◌, ◌^◌, ◌≤◌, ◌<◌, length};
ghost use Rattle.rules.specs.Tables.{hash_entry, matching};
ghost use Rattle.annex.specs.Stored.{table_of, stored, Placed, LongestAt, FoundAt, TakenAt};

use directory::Place;

// The payload of the mother hash that the low b bits of c are, in a table of 2^s slots.
pub fn hash_entry(b: u32, s: u32, c: u32) -> u32
    requires { (s < b) × (b - s < 18) × (b ≤ 20) }
    ensures { result ≡ hash_entry b s (c % 2 ^ b) }
{
    let hash = c % slots::pow2(b);
    slots::encode(18, b - s, hash / slots::pow2(s))
}

// Its canonical slot there.
pub fn hash_slot(s: u32, c: u32) -> usize
    requires { s ≤ 20 }
    ensures { (result ≡ c % 2 ^ s) × (result < 2 ^ s) }
{
    (c % slots::pow2(s)) as usize
}

// How many mother hashes of b bits in a table of 2^s slots match c.
fn matching(words: &[u32], b: u32, s: u32, c: u32) -> usize
    requires { (3 ≤ s) × (s < b) × (b ≤ 20) × (length words.now ≡ 2 ^ s) }
    ensures { result ≡ matching c (table_of b s words.now) }
{
    let slot = hash_slot(s, c);
    let entry = hash_entry(b, s, c);
    lookup::count_in_run(words, slot, entry)
}

// The place of the longest stored mother hash that matches c: lengths rise, so the search goes from the last table down.
pub fn longest_place(annex: &[u32], places: [Place; 15], c: u32) -> Option<usize>
    requires { Placed places annex.now }
    ensures { LongestAt c (stored places annex.now) result }
{
    let n = directory::places_in_use(places);
    // The tables follow one another, so the offset goes along, from the last down.
    let mut end = directory::words_taken(places, n);
    for i in (0..n).rev() {
        let place = places[i];
        let at = end - directory::table_words(place.s);
        if 0 < matching(&annex[at..end], place.b, place.s, c) {
            return Some(i);
        }
        end = at;
    }
    None
}

// The mother hash at place i that matches c goes.
pub fn take_hash(annex: &mut [u32], places: [Place; 15], i: usize, c: u32) -> [Place; 15]
    requires { FoundAt places annex.old i c }
    ensures { TakenAt places annex.old i c annex.new result }
{
    let place = places[i];
    let at = directory::words_taken(places, i);
    let end = at + directory::table_words(place.s);
    let slot = hash_slot(place.s, c);
    let entry = hash_entry(place.b, place.s, c);
    table::remove(&mut annex[at..end], slot, entry);
    places::with_count(places, i, place.count - 1)
}
