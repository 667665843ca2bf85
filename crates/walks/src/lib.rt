#![tactic(auto)]

// One table of words, main or annex, read only: the slots of its circle, and where the run of an address is.
ghost use Rattle.std.specs.Prelude.{◌≡◌, List, ℕ, map, reverse, suc, ◌+◌, ◌-◌, ◌/◌, ◌%◌, ◌≤◌, ◌<◌, length, slice_index};
ghost use Rattle.lists.specs.Lists.{sum};
ghost use Rattle.layout.specs.Decode.{turn, entry, steps, passed, first_mark, skip, place_of, reading};
ghost use Rattle.layout.specs.Moves.{wrap, back, lefts, rights, is_start};
ghost use Rattle.layout.specs.Reading.{run_from, home_of};
ghost use Rattle.walks.specs.Stretch.{stretch};

// A lent table, however its words are kept. That it has 2 to 2^20 slots stands in the contracts and in no type: it is known of the caller's slice, and a type for
// reading and another for writing would be made anew in each call.
pub trait Words: Copy {
    ghost words: { Self → List ℕ };

    fn size(self) -> usize
        ensures { result ≡ length (words self) };

    fn word(self, slot: usize) -> u32
        requires { slot < length (words self) }
        ensures { result ≡ slice_index (words self) slot };
}

impl Words for &[u32] {
    ghost words = { λ table. table.now };

    fn size(self) -> usize {
        self.len()
    }

    fn word(self, slot: usize) -> u32 {
        self[slot]
    }
}

// k slots to the right of p, in a circle of n.
#[tactic(auto, unfolding(layout::specs::Moves::wrap))]
pub fn around(p: usize, k: usize, n: usize) -> usize
    requires { (p < n) × (k < n) × (n ≤ 1048576) }
    ensures { (result ≡ wrap n p k) × (result < n) }
{
    if p + k < n { p + k } else { p + k - n }
}

// The slot after i, in a circle of n.
#[tactic(auto, unfolding(layout::specs::Moves::wrap))]
pub fn after(i: usize, n: usize) -> usize
    requires { (i < n) × (n ≤ 1048576) }
    ensures { (result ≡ wrap n i 1) × (result < n) }
{
    if i + 1 < n { i + 1 } else { 0 }
}

// k slots to the left of c, in a circle of n.
#[tactic(auto, unfolding(layout::specs::Moves::back))]
fn behind(c: usize, k: usize, n: usize) -> usize
    requires { (c < n) × (k < n) × (n ≤ 1048576) }
    ensures { (result ≡ back n c k) × (result < n) }
{
    if k <= c { c - k } else { c + n - k }
}

// The occupied bit of a word.
pub fn mark(w: u32) -> usize
    ensures { (result ≡ w % 2) × (result ≤ 1) }
{
    (w % 2) as usize
}

// 1 where the word's entry begins a run, 0 where it continues one.
pub fn begins(w: u32) -> usize
    ensures { (result ≡ 1 - w / 2 % 2) × (result ≤ 1) }
{
    (1 - w / 2 % 2) as usize
}

// How far a walk to the left came, the whole part where it met no slot at home, and the runs that it passed.
#[derive(Clone, Copy)]
pub struct Home {
    pub steps: usize,
    pub runs: usize,
}

// From `end` to the left as far as `from`, to a slot that is not shifted: the slots passed, and the occupied bits of all that were come to.
fn walk_left<W: Words>(table: W, from: usize, end: usize) -> Home
    requires { (from ≤ end) × (end ≤ length (W.words table)) }
    ensures { (steps (reverse (stretch from end (W.words table))) ≡ result.steps)
        × (first_mark (reverse (stretch from end (W.words table))) + passed (reverse (stretch from end (W.words table))) ≡ result.runs)
        × (result.steps ≤ end - from) × (result.runs ≤ end - from) }
{
    let mut runs = 0;
    for i in (from..end).rev() {
        let w = table.word(i);
        runs += mark(w);
        if w / 4 % 2 == 0 {
            return Home {
                steps: end - 1 - i,
                runs,
            };
        }
    }
    Home {
        steps: end - from,
        runs,
    }
}

// From c to the left, to the start of its cluster: the slots passed, and the runs that have their address there.
fn walk_home<W: Words>(table: W, c: usize) -> Home
    requires { (c < length (W.words table)) × (length (W.words table) ≤ 1048576) }
    ensures { (steps (lefts (W.words table) c) ≡ result.steps) × (passed (lefts (W.words table) c) ≡ result.runs) }
{
    let own = mark(table.word(c));
    let e = c + 1;
    let near = walk_left(table, 0, e);
    if near.steps <= c {
        return Home {
            steps: near.steps,
            runs: near.runs - own,
        };
    }
    let far = walk_left(table, e, table.size());
    Home {
        steps: e + far.steps,
        runs: near.runs + far.runs - own,
    }
}

// How far a walk to the right came, the whole part where runs are still to go.
#[derive(Clone, Copy)]
pub struct Skipped {
    pub steps: usize,
    pub togo: usize,
}

// From `from` to the right as far as `end`, to the start of run m of those that begin there: the slots passed, and the runs that are still to be skipped.
fn skip_runs<W: Words>(table: W, from: usize, end: usize, m: usize) -> Skipped
    requires { (from ≤ end) × (end ≤ length (W.words table)) }
    ensures { (skip m (map entry (stretch from end (W.words table))) ≡ result.steps)
        × (result.togo ≡ m - sum is_start (map entry (stretch from end (W.words table))))
        × (result.steps ≤ end - from) }
{
    let mut togo = m;
    for i in from..end {
        let s = begins(table.word(i));
        if togo < s {
            return Skipped {
                steps: i - from,
                togo: 0,
            };
        }
        togo -= s;
    }
    Skipped {
        steps: end - from,
        togo,
    }
}

// From b to the right, the slots to the start of run m of those that begin there.
fn seek<W: Words>(table: W, b: usize, m: usize) -> usize
    requires { (b < length (W.words table)) × (length (W.words table) ≤ 1048576) }
    ensures { (skip m (rights (W.words table) b) ≡ result) × (result ≤ length (W.words table)) }
{
    let n = table.size();
    let near = skip_runs(table, b, n, m);
    if near.steps < n - b {
        return near.steps;
    }
    let far = skip_runs(table, 0, b, near.togo);
    n - b + far.steps
}

// The slot where the walk of k slots to the left of c ends, or the one after c where no slot is at home.
#[tactic(auto, unfolding(layout::specs::Reading::home_of))]
pub fn home_slot(c: usize, k: usize, n: usize) -> usize
    requires { (c < n) × (n ≤ 1048576) × (1 < n) }
    ensures { (result ≡ home_of n c k) × (result < n) }
{
    if k < n { behind(c, k, n) } else { after(c, n) }
}

#[derive(Clone, Copy)]
pub struct Run {
    pub home: usize,
    pub from: usize,
    pub carry: usize,
}

// Where the run of c is: its cluster begins at home, the run begins `from` slots on from there, and `carry` slots on from c. By the walk left and then right.
pub fn walk_to_run<W: Words>(table: W, c: usize) -> Run
    requires { (c < length (W.words table)) × (length (W.words table) ≤ 1048576) × (1 < length (W.words table)) }
    ensures { (result.home < length (W.words table)) × (result.from ≤ length (W.words table)) × (result.carry ≤ length (W.words table))
        × (run_from (W.words table) result.home result.from ≡ reading (turn (suc c) (W.words table))) × (result.carry ≡ place_of (W.words table) c) }
{
    let left = walk_home(table, c);
    let home = home_slot(c, left.steps, table.size());
    let from = seek(table, home, left.runs);
    Run {
        home,
        from,
        carry: from.saturating_sub(left.steps),
    }
}

// The same, and no walk where the entry in c is at home.
pub fn locate(ws: &[u32], c: usize) -> Run
    requires { (c < length ws.now) × (length ws.now ≤ 1048576) × (1 < length ws.now) }
    ensures { (result.home < length ws.now) × (result.from ≤ length ws.now) × (result.carry ≤ length ws.now)
        × (run_from ws.now result.home result.from ≡ reading (turn (suc c) ws.now)) × (result.carry ≡ place_of ws.now c) }
{
    // An entry at home begins its run there.
    if ws[c] / 2 % 4 == 0 {
        return Run {
            home: c,
            from: 0,
            carry: 0,
        };
    }
    walk_to_run(ws, c)
}
