#![tactic(auto)]

// The audit of one table: is it the layout of what it decodes to, and what a run holds.
ghost use Rattle.std.specs.Prelude.{◌≡◌, ◌≢◌, ◌&&◌, ℕ, ◌/◌, ◌≤◌, ◌<◌, ◌==◌, nat_le, nat_lt, Some, length, slice_index, slice_get, IfSome, IfNone};
ghost use Rattle.lists.specs.Lists.{bit};
ghost use Rattle.layout.specs.Decode.{turn};
ghost use Rattle.rules.specs.Sound.{table_right, main_entry, annex_entry};
ghost use Rattle.sound.specs.Spans.{allowed};
ghost use Rattle.sound.specs.Lap.{no_entry, an_entry, goes_on, step, fits, start};
ghost use Rattle.sound.specs.Reading.{Read};

// The payloads from `start` on, below `end`. No `Range`: that is an iterator, and so not copied.
#[derive(Clone, Copy)]
pub struct Span {
    pub start: u32,
    pub end: u32,
}

impl Span {
    fn contains(self, payload: u32) -> bool
        ensures { result ≡ (nat_le self.start payload && nat_lt payload self.end) }
    {
        self.start <= payload && payload < self.end
    }
}

// The payloads that a table may hold: those that keep bits, and those that have lost all.
#[derive(Clone, Copy)]
pub struct Spans {
    pub kept: Span,
    pub lost: Span,
}

impl Spans {
    #[tactic(auto, unfolding(crate::specs::Spans::allowed))]
    fn allow(&self, payload: u32) -> bool
        ensures { result ≡ allowed self.now payload }
    {
        self.kept.contains(payload) || self.lost.contains(payload)
    }
}

// What a main table of 2^k slots may hold at width w.
pub fn main_spans(k: u32, w: u32) -> Spans
    requires { (3 ≤ k) × (4 ≤ w) × (w ≤ 26) }
    ensures { allowed result ≡ main_entry w k }
{
    let end = slots::pow2(w);
    let short = slots::pow2(6u32.saturating_sub(k));
    Spans {
        kept: Span {
            start: 0,
            end: end - short,
        },
        lost: Span {
            start: end - 2,
            end,
        },
    }
}

// What an annex table of fingerprint length l may hold.
pub fn annex_spans(l: u32) -> Spans
    requires { (1 ≤ l) × (l ≤ 17) }
    ensures { allowed result ≡ annex_entry l }
{
    let end = slots::pow2(18);
    Spans {
        kept: Span {
            start: end - slots::pow2(l + 1),
            end: end - slots::pow2(l),
        },
        lost: Span { start: 0, end: 0 },
    }
}

// Where the audit stands on its lap: `opened` occupied addresses are passed, `begun` runs have begun, `count` entries are passed; `last` is the payload
// of the entry in the slot before, if that holds one.
#[derive(Clone, Copy, Default)]
pub struct Lap {
    pub opened: u32,
    pub begun: u32,
    pub last: Option<u32>,
    pub count: u32,
}

impl Lap {
    // The lap after a slot with no entry.
    fn no_entry(self) -> Lap
        ensures { result ≡ no_entry self }
    {
        Lap { last: None, ..self }
    }

    // The lap after a slot with this payload: `occupied` addresses more are passed, and `begins` runs more have begun.
    fn an_entry(self, payload: u32, occupied: u32, begins: u32) -> Lap
        requires { (self.opened ≤ 1048576) × (self.begun ≤ 1048576) × (self.count ≤ 1048576) × (occupied ≤ 1) × (begins ≤ 1) }
        ensures { result ≡ an_entry self payload occupied begins }
    {
        Lap {
            opened: self.opened + occupied,
            begun: self.begun + begins,
            last: Some(payload),
            count: self.count + 1,
        }
    }

    // Whether an entry with this payload may go on the run of the slot before.
    fn goes_on(self, payload: u32) -> bool
        ensures { result ≡ goes_on self.last payload }
    {
        self.last.is_some_and(|last| last <= payload)
    }

    // One slot further, or None where this word may not stand there. The arms are those of the three low bits.
    fn step(self, word: u32, spans: &Spans) -> Option<Lap>
        requires { (self.opened ≤ 1048576) × (self.begun ≤ 1048576) × (self.count ≤ 1048576) }
        ensures { result ≡ step (allowed spans.now) self word }
    {
        let payload = word / 8;
        let occupied = word % 2;
        let allowed = spans.allow(payload);
        let waits = self.begun < self.opened;
        match word % 8 {
            0 => (word == 0 && self.begun == self.opened).then_some(self.no_entry()),
            1 => (self.begun == self.opened && allowed).then_some(self.an_entry(payload, 1, 1)),
            2..=3 => None,
            4..=5 => (waits && allowed).then_some(self.an_entry(payload, occupied, 1)),
            _ => (self.goes_on(payload) && allowed).then_some(self.an_entry(payload, occupied, 0)),
        }
    }
}

// The first empty slot.
fn first_empty(words: &[u32]) -> Option<usize>
    ensures some { IfSome result (λ z. slice_get words.now z ≡ Some 0) }
    ensures none { IfNone result ((k : ℕ) → k < length words.now → slice_index words.now k ≢ 0) }
{
    words.iter().position(|word| *word == 0)
}

// Once round from z: the words are those of a layout of `count` entries.
fn lap_from(words: &[u32], z: usize, count: u32, spans: &Spans) -> bool
    requires { (z < length words.now) × (1 < length words.now) × (length words.now ≤ 1048576) }
    ensures { result ≡ fits (allowed spans.now) count start (turn z words.now) }
{
    let mut lap = Lap::default();
    for word in words[z..].iter().chain(&words[..z]) {
        match lap.step(*word, spans) {
            Some(next) => lap = next,
            None => return false,
        }
    }
    lap.begun == lap.opened && lap.count == count
}

// Whether the words are the layout of `count` entries of what they decode to, all allowed.
pub fn is_table(words: &[u32], count: u32, t: Spans) -> bool
    requires { (count < length words.now) × (1 < length words.now) × (length words.now ≤ 1048576) }
    ensures { result ≡ table_right (allowed t) count words.now }
{
    match first_empty(words) {
        Some(z) => lap_from(words, z, count, &t),
        None => false,
    }
}

// 1 if the word's payload is p, 0 if not.
fn one_if(word: u32, p: u32) -> u32
    ensures { (result ≡ bit (p == word / 8)) × (result ≤ 1) }
{
    u32::from(p == word / 8)
}

// The length of a run, and how many tombstones and voids it has.
#[derive(Clone, Copy)]
pub struct Found {
    pub len: usize,
    pub tombstones: u32,
    pub voids: u32,
}

// The run of address c, where k entries wait on arrival: t and v are the payloads of a tombstone and a void.
pub fn read_run(words: &[u32], c: usize, k: usize, t: u32, v: u32) -> Found
    requires { (c < length words.now) × (k < length words.now) × (length words.now ≤ 1048576) }
    ensures { Read words.now c k t v result.len result.tombstones result.voids }
{
    let n = words.len();
    if words[c] % 2 == 0 {
        return Found {
            len: 0,
            tombstones: 0,
            voids: 0,
        };
    }
    let first = words[walks::around(c, k, n)];
    let mut tombstones = one_if(first, t);
    let mut voids = one_if(first, v);
    // By index: the run may go over the seam.
    for j in k + 1..n {
        let word = words[walks::around(c, j, n)];
        if word / 2 % 2 == 0 {
            return Found {
                len: j - k,
                tombstones,
                voids,
            };
        }
        tombstones += one_if(word, t);
        voids += one_if(word, v);
    }
    Found {
        len: n - k,
        tombstones,
        voids,
    }
}
