#![tactic(auto)]

// Settle on a right state: the queue words first to last, and then the tombstones.
ghost use Rattle.std.specs.Prelude.{◌≡◌, ◌/◌, ◌^◌, ◌≤◌, ◌<◌, T, ltb, length, drop};
ghost use Rattle.lists.specs.Lists.{every};
ghost use Rattle.lists.specs.Runs.{erase, at};
ghost use Rattle.directory.specs.Places.{places_in_use, words_taken};
ghost use Rattle.rules.specs.Record.{Filter};
ghost use Rattle.rules.specs.Settling.{take_voids, settle_word, settle_all};
ghost use Rattle.rules.specs.Slow.{held_after, settled};
ghost use Rattle.settling.specs.State.{held_in, Right, Holding, Lost, take_tombstones};
ghost use Rattle.settling.specs.Ready.{Numbers, Ready, Leaves};

use directory::Place;
use places::Left;

// One entry with payload x goes from the run of c, if there is one: how many went.
fn take_one(main: &mut [u32], c: usize, x: u32) -> u32
    requires { (c < length main.old) × (length main.old ≤ 1048576) × (1 < length main.old) }
    ensures { (result ≤ 1) × Lost (at c (erase x)) main.old main.new result }
{
    u32::from(table::remove(main, c, x))
}

// At each address but c with the low b bits of c one void goes, if there is one: how many went. No other address is visited.
fn take_voids(main: &mut [u32], k: u32, w: u32, c: u32, b: u32) -> u32
    requires { (3 ≤ k) × (k ≤ 20) × (1 ≤ w) × (w ≤ 26) × (b ≤ k) × (length main.old ≡ 2 ^ k) }
    ensures { Lost (take_voids w c b) main.old main.new result }
{
    let size = slots::pow2(k);
    let step = slots::pow2(b);
    let void = slots::void_of(w);
    let mut gone = 0;
    for d in (c % step..size).step_by(step as usize) {
        if d != c {
            gone += take_one(main, d as usize, void);
        }
    }
    gone
}

// A queue word that names c.
fn settle_word(
    main: &mut [u32],
    annex: &mut [u32],
    k: u32,
    w: u32,
    c: u32,
    used: u32,
    places: [Place; 15],
) -> Left
    requires { Right k w used main.old annex.old places }
    ensures { Holding (settle_word w c (held_in main.old annex.old places)) (drop (words_taken (places_in_use places)) annex.old)
        k w result.used main.new annex.new result.places }
{
    match annex::longest_place(annex, places, c) {
        Some(i) => Left {
            used: used - take_voids(main, k, w, c, places[i].b),
            places: annex::take_hash(annex, places, i, c),
        },
        None => Left { used, places },
    }
}

// The queue words, first to last.
fn settle_words(
    main: &mut [u32],
    queue: &[u32],
    annex: &mut [u32],
    k: u32,
    w: u32,
    used: u32,
    places: [Place; 15],
) -> Left
    requires { Right k w used main.old annex.old places }
    ensures { Holding (settle_all w queue.now (held_in main.old annex.old places))
        (drop (words_taken (places_in_use places)) annex.old) k w result.used main.new annex.new result.places }
{
    let mut settled = Left { used, places };
    for word in queue {
        settled = settle_word(main, annex, k, w, word / 2, settled.used, settled.places);
    }
    settled
}

// One tombstone goes for each even queue word: how many went.
fn take_tombstones(main: &mut [u32], queue: &[u32], w: u32) -> u32
    requires { (w ≤ 26) × (1 < length main.old) × (length main.old ≤ 1048576) × (length queue.now ≤ 1048576)
        × T (every (λ q. ltb (q / 2) (length main.old)) queue.now) }
    ensures { Lost (take_tombstones w queue.now) main.old main.new result }
{
    let tombstone = slots::tombstone_of(w);
    let mut gone = 0;
    for word in queue {
        if word % 2 == 0 {
            gone += take_one(main, (word / 2) as usize, tombstone);
        }
    }
    gone
}

// The record's numbers one by one, since its type stands in a crate above.
pub fn settle(
    main: &mut [u32],
    queue: &[u32],
    annex: &mut [u32],
    k: u32,
    w: u32,
    used: u32,
    queued: usize,
    places: [Place; 15],
) -> Left
    requires { Ready k w used queued places main.old queue.now annex.old }
    ensures { (r : Filter) → Numbers r k w used queued places
        → Leaves (settled r main.old queue.now annex.old (held_after r main.old queue.now annex.old))
        main.new annex.new result.used result.places }
{
    let words = &queue[..queued];
    let settled = settle_words(main, words, annex, k, w, used, places);
    Left {
        used: settled.used - take_tombstones(main, words, w),
        places: places::trimmed(settled.places),
    }
}
