#![tactic(auto)]

// The annex directory: an array of fifteen small structs, passed by value.
ghost use Rattle.std.specs.Prelude.{◌≡◌, ◌∷◌, [], ℕ, ◌*◌, ◌≤◌, ◌^◌, IsTrue, SomeIff, length, get_or, take};
ghost use Rattle.directory.specs.Places.{no_place, places_in_use, places_right, directory_right, words_taken};

#[repr(C)]
#[derive(Clone, Copy, Default, PartialEq, Eq)]
pub struct Place {
    pub b: u32,
    pub s: u32,
    pub count: u32,
}

// How many places are in use.
pub fn places_in_use(places: [Place; 15]) -> usize
    ensures { (result ≡ length (places_in_use places)) × (result ≤ 15) }
{
    places.iter().take_while(|place| place.b != 0).count()
}

// Whether a place in use may follow one of length `last`.
fn place_right(k: u32, last: u32, place: Place) -> bool
    requires { k ≤ 20 }
    ensures { result ≡ places_right k last (place ∷ []) }
{
    last < place.b
        && place.b <= k
        && 3 <= place.s
        && place.s < place.b
        && place.count <= slots::limit_of(place.s)
}

// The words of a table.
pub fn table_words(s: u32) -> usize
    requires { s ≤ 20 }
    ensures { (result ≡ 2 ^ s) × (result ≤ 1048576) }
{
    slots::pow2(s) as usize
}

// The words of the tables of a directory, where it is right. Behind a place that is not in use no length is above `last` and at most k.
pub fn read(k: u32, places: [Place; 15]) -> Option<usize>
    requires { k ≤ 20 }
    ensures { SomeIff result (IsTrue (directory_right k places)) (words_taken (places_in_use places)) }
{
    let mut last = 5;
    let mut words = 0;
    for place in places {
        if place.b == 0 {
            if place != Place::default() {
                return None;
            }
            last = k;
        } else {
            if !place_right(k, last, place) {
                return None;
            }
            words += table_words(place.s);
            last = place.b;
        }
    }
    Some(words)
}

// The words of the first n tables: the offset of the table at place n.
pub fn words_taken(places: [Place; 15], n: usize) -> usize
    requires { (n ≤ length (places_in_use places)) × ((j : ℕ) → (get_or places j no_place).s ≤ 20) }
    ensures { (result ≡ words_taken (take n (places_in_use places))) × (result ≤ 15 * 1048576) }
{
    places[..n].iter().map(|place| table_words(place.s)).sum()
}
