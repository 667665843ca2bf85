#![tactic(auto)]

// Single places of the annex directory: the place of a length and its part of the annex, one table more, empty tables dropped, a count replaced.
ghost use Rattle.std.specs.Prelude.{◌≡◌, ◌==◌, ◌∷◌, [], ◌++◌, ℕ, ◌+◌, ◌*◌, ◌≤◌, ◌<◌, T, length, get_or, set, position};
ghost use Rattle.lists.specs.Lists.{every};
ghost use Rattle.directory.specs.Places.{no_place, places_in_use, places_not_in_use, zero_place, words_taken, part_in, offset_in, trim, fifteen};

use directory::Place;

// What Settle or Double leaves of a record: the used count and the directory.
#[derive(Clone, Copy)]
pub struct Left {
    pub used: u32,
    pub places: [Place; 15],
}

// The place of the table of length b.
pub fn place_of(places: [Place; 15], b: u32) -> Option<usize>
    ensures { result ≡ position (λ p. p.b == b) (places_in_use places) }
{
    let n = directory::places_in_use(places);
    places[..n].iter().position(|place| place.b == b)
}

// The words of the table of length b, a part of the annex itself; an empty part if there is no such table. An offset counts bytes, four to a word.
pub fn part<'a>(annex: &'a [u32], places: [Place; 15], b: u32) -> &'a [u32]
    requires { (words_taken (places_in_use places) ≤ length annex.now) × ((j : ℕ) → (get_or places j no_place).s ≤ 20) }
    ensures words { result.now ≡ part_in b (places_in_use places) annex.now }
    ensures itself { result.ref_ptr.0 ≡ annex.entry.ref_ptr.0 }
    ensures there { 0 < length result.now → result.ref_ptr.1 ≡ annex.entry.ref_ptr.1 + 4 * offset_in b (places_in_use places) }
{
    match place_of(places, b) {
        Some(i) => {
            let at = directory::words_taken(places, i);
            &annex[at..at + directory::table_words(places[i].s)]
        }
        None => &annex[..0],
    }
}

// One more table. There must be room for it.
pub fn with_place(mut places: [Place; 15], q: Place) -> [Place; 15]
    requires { (length (places_in_use places) < 15) × T (every zero_place (places_not_in_use places)) }
    ensures { result ≡ fifteen (places_in_use places ++ (q ∷ [])) }
{
    let n = directory::places_in_use(places);
    places[n] = q;
    places
}

// Without the empty tables at the end.
pub fn trimmed(mut places: [Place; 15]) -> [Place; 15]
    requires { T (every zero_place (places_not_in_use places)) }
    ensures { result ≡ fifteen (trim (places_in_use places)) }
{
    let n = directory::places_in_use(places);
    // By index: a place is read, and then written.
    for i in (0..n).rev() {
        if places[i].count != 0 {
            break;
        }
        places[i] = Place::default();
    }
    places
}

// Place i's count replaced.
pub fn with_count(mut places: [Place; 15], i: usize, count: u32) -> [Place; 15]
    requires { i < 15 }
    ensures { result ≡ set places i (record { b = (get_or places i no_place).b; s = (get_or places i no_place).s; count = count }) }
{
    places[i].count = count;
    places
}
