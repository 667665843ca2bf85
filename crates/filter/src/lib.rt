#![tactic(auto)]

// The record of a filter, by value, and its calls.
ghost use Rattle.std.specs.Prelude.{◌≡◌, List, ℕ, ◌+◌, ◌*◌, ◌≤◌, ◌<◌, T, IsTrue, SomeIff, length, set};
ghost use Rattle.directory.specs.Places.{offset_in};
ghost use Rattle.rules.specs.Record.{fresh, width, width_at, in_use, annex_used};
ghost use Rattle.rules.specs.Refusals.{settings_right, record_right, slices_right};
ghost use Rattle.rules.specs.Quick.{home, fresh_entry, queue_full, query};
ghost use Rattle.rules.specs.Slow.{audit};
ghost use Rattle.rules.specs.Lookups.{part};
ghost use Rattle.filter.specs.Numbers.{number_of, outcome_number, answer_number};
ghost use Rattle.filter.specs.Plain.{plain};
ghost use Rattle.filter.specs.Restart.{restart};
ghost use Rattle.filter.specs.Promises.{first_number, Starts, Inserts, Deletes, Rejuvenates, Audits, Settles, Doubles, Sought, BeforeRoom, Leaves};

use directory::Place;

// Why a call is refused: section 9 of docs/RULES.md says when.
#[derive(Clone, Copy, PartialEq, Eq)]
pub enum Refusal {
    Record,
    Lengths,
    NotSound,
    Full,
    NothingThere,
    QueueFull,
    QueueInUse,
    LargestSize,
    AnnexTooShort,
    Settings,
}

// The numbers of the C interface.
impl From<Refusal> for u32 {
    ghost from_gives = { λ refusal number. number ≡ number_of refusal };

    fn from(refusal: Refusal) -> u32 {
        match refusal {
            Refusal::Record => 2,
            Refusal::Lengths => 3,
            Refusal::NotSound => 4,
            Refusal::Full => 5,
            Refusal::NothingThere => 6,
            Refusal::QueueFull => 7,
            Refusal::QueueInUse => 8,
            Refusal::LargestSize => 9,
            Refusal::AnnexTooShort => 10,
            Refusal::Settings => 11,
        }
    }
}

#[repr(C)]
#[derive(Clone, Copy, Default)]
pub struct Record {
    pub k: u32,
    pub start: u32,
    pub f: u32,
    pub regime: u32,
    pub used: u32,
    pub queued: u32,
    pub dir: [Place; 15],
}

// How a call ended, and the record after it. A call is lent main, queue and annex one by one, as C lends them: each promises something of each.
#[derive(Clone, Copy)]
pub struct Answer {
    pub outcome: Result<(), Refusal>,
    pub rec: Record,
}

// The number of how a call ended: 0, or that of the refusal.
pub fn outcome_number(outcome: Result<(), Refusal>) -> u32
    ensures { result ≡ outcome_number outcome }
{
    match outcome {
        Ok(()) => 0,
        Err(refusal) => u32::from(refusal),
    }
}

// The number of Query's answer: 0 is no, 1 is yes.
pub fn answer_number(answer: Result<bool, Refusal>) -> u32
    ensures { result ≡ answer_number answer }
{
    match answer {
        Ok(found) => u32::from(found),
        Err(refusal) => refusal.into(),
    }
}

fn settings_right(power: u32, f: u32, regime: u32) -> bool
    ensures { result ≡ settings_right power f regime }
{
    3 <= power && power <= 10 && 3 <= f && f <= 15 && regime <= 1
}

impl Record {
    // The words of the annex tables in use, unless the record is out of range.
    fn in_range(self) -> Option<usize>
        ensures { SomeIff result (IsTrue (record_right (plain self))) (annex_used (plain self)) }
    {
        if !settings_right(self.start, self.f, self.regime) {
            return None;
        }
        if self.k < self.start || self.k > 20 {
            return None;
        }
        if self.used > slots::limit_of(self.k) || self.queued > 1048576 {
            return None;
        }
        directory::read(self.k, self.dir)
    }

    // Whether the lengths are right, where the annex tables take so many words.
    fn lent_right(self, taken: usize, main: usize, queue: usize, annex: usize) -> bool
        requires { T (record_right (plain self)) × (taken ≡ annex_used (plain self)) }
        ensures { result ≡ slices_right (plain self) main queue annex }
    {
        main == slots::pow2(self.k) as usize && self.queued as usize <= queue && taken <= annex
    }

    // The first tests of every call but Start, on the record and then on the lengths.
    pub fn first_refusal(self, main: usize, queue: usize, annex: usize) -> Result<(), Refusal>
        ensures { outcome_number result ≡ first_number (plain self) main queue annex }
    {
        let taken = self.in_range().ok_or(Refusal::Record)?;
        if self.lent_right(taken, main, queue, annex) {
            Ok(()) // as the record asks
        } else {
            Err(Refusal::Lengths) // of main, queue or annex
        }
    }

    // The length of fresh fingerprints.
    pub fn fresh_length(self) -> u32
        requires { T (record_right (plain self)) }
        ensures { (result ≡ fresh (plain self)) × ((3 ≤ result) × (result ≤ 25)) }
    {
        self.f + slots::extra_bits(self.regime, self.k - self.start)
    }

    // The width of payloads.
    pub fn width(self) -> u32
        requires { T (record_right (plain self)) }
        ensures { (result ≡ width (plain self)) × ((4 ≤ result) × (result ≤ 26)) }
    {
        self.fresh_length() + 1
    }

    // The width of payloads, unless the record is out of range.
    pub fn payload_width(self) -> Option<u32>
        ensures { SomeIff result (IsTrue (record_right (plain self))) (width (plain self)) }
    {
        self.in_range()?;
        Some(self.width())
    }

    // The canonical slot of a hash.
    fn home(&self, hash: u64) -> usize
        requires { T (record_right (plain self.now)) }
        ensures { result ≡ home (plain self.now) hash }
    {
        slots::canonical(hash, self.k) as usize
    }

    // The payload of a hash as it is inserted.
    fn fresh_entry(&self, hash: u64) -> u32
        requires { T (record_right (plain self.now)) }
        ensures { (result ≡ fresh_entry (plain self.now) hash) × (result < 536870912) }
    {
        slots::fresh(hash, self.k, self.width(), self.fresh_length())
    }

    // The longest match of a hash, after the first tests. A call that is not inlined would cost Delete a seventh.
    #[inline(always)]
    fn longest_match(
        &self,
        main: &[u32],
        queue: &[u32],
        annex: &[u32],
        hash: u64,
    ) -> Result<Option<u32>, Refusal>
        ensures { Sought (plain self.now) main.now queue.now annex.now hash result }
    {
        self.first_refusal(main.len(), queue.len(), annex.len())?;
        Ok(lookup::first_match(main, self.home(hash), self.width(), self.k, hash))
    }

    pub fn query(
        self,
        main: &[u32],
        queue: &[u32],
        annex: &[u32],
        hash: u64,
    ) -> Result<bool, Refusal>
        ensures { answer_number result ≡ query (plain self) main.now queue.now annex.now hash }
    {
        let found = self.longest_match(main, queue, annex, hash)?;
        Ok(found.is_some())
    }

    // A call that changes anything is a function over the record in place, and one around it that takes and hands back the record by value.
    fn insert_into(
        &mut self,
        main: &mut [u32],
        queue: &[u32],
        annex: &[u32],
        hash: u64,
    ) -> Result<(), Refusal>
        ensures { Inserts (plain self.old) main.old queue.now annex.now hash
            (outcome_number result) (plain self.new) main.new queue.now annex.now }
    {
        self.first_refusal(main.len(), queue.len(), annex.len())?;
        if self.used == slots::limit_of(self.k) {
            return Err(Refusal::Full);
        }
        table::insert(main, self.home(hash), self.fresh_entry(hash));
        self.used += 1;
        Ok(())
    }

    pub fn insert(
        mut self,
        main: &mut [u32],
        queue: &mut [u32],
        annex: &mut [u32],
        hash: u64,
    ) -> Answer
        ensures { Inserts (plain self) main.old queue.old annex.old hash
            (outcome_number result.outcome) (plain result.rec) main.new queue.new annex.new }
    {
        let outcome = self.insert_into(main, queue, annex, hash);
        Answer { outcome, rec: self }
    }

    // Whether the queue has no room for another word.
    fn queue_full(&self, queue: &[u32]) -> bool
        ensures { result ≡ queue_full (plain self.now) queue.now }
    {
        self.queued == 1048576 || self.queued as usize == queue.len()
    }

    // The queue gains a word.
    fn push(&mut self, queue: &mut [u32], word: u32)
        requires { (self.old.queued < length queue.old) × (self.old.queued < 1048576) }
        ensures { (self.new ≡ record self.old { queued = self.old.queued + 1 }) × (queue.new ≡ set queue.old self.old.queued word) }
    {
        queue[self.queued as usize] = word;
        self.queued += 1;
    }

    // The longest match goes: an entry with bits is removed, and a void becomes a tombstone.
    fn delete_from(
        &mut self,
        main: &mut [u32],
        queue: &mut [u32],
        annex: &[u32],
        hash: u64,
    ) -> Result<(), Refusal>
        ensures { Deletes (plain self.old) main.old queue.old annex.now hash
            (outcome_number result) (plain self.new) main.new queue.new annex.now }
    {
        let payload = self
            .longest_match(main, queue, annex, hash)?
            .ok_or(Refusal::NothingThere)?; // nothing to delete
        let home = self.home(hash);
        if payload == slots::void_of(self.width()) {
            if self.queue_full(queue) {
                return Err(Refusal::QueueFull);
            }
            if !table::raise_last(main, home, payload) {
                return Err(Refusal::NothingThere); // memory is not sound
            }
            self.push(queue, home as u32 * 2);
            return Ok(());
        }
        if self.used == 0 {
            return Err(Refusal::NothingThere); // memory is not sound
        }
        if !table::remove(main, home, payload) {
            return Err(Refusal::NothingThere); // memory is not sound
        }
        self.used -= 1;
        Ok(())
    }

    pub fn delete(
        mut self,
        main: &mut [u32],
        queue: &mut [u32],
        annex: &mut [u32],
        hash: u64,
    ) -> Answer
        ensures { Deletes (plain self) main.old queue.old annex.old hash
            (outcome_number result.outcome) (plain result.rec) main.new queue.new annex.new }
    {
        let outcome = self.delete_from(main, queue, annex, hash);
        Answer { outcome, rec: self }
    }

    // The longest match, if it is shorter than fresh entries, becomes one.
    fn rejuvenate_in(
        &mut self,
        main: &mut [u32],
        queue: &mut [u32],
        annex: &[u32],
        hash: u64,
    ) -> Result<(), Refusal>
        ensures { Rejuvenates (plain self.old) main.old queue.old annex.now hash
            (outcome_number result) (plain self.new) main.new queue.new annex.now }
    {
        let payload = self
            .longest_match(main, queue, annex, hash)?
            .ok_or(Refusal::NothingThere)?; // nothing to rejuvenate
        let home = self.home(hash);
        let width = self.width();
        if self.fresh_length() <= slots::length_of(payload, width) {
            return Ok(());
        }
        let fresh = self.fresh_entry(hash);
        let is_void = payload == slots::void_of(width);
        if is_void && self.queue_full(queue) {
            return Err(Refusal::QueueFull);
        }
        if !table::exchange(main, home, payload, fresh) {
            return Err(Refusal::NothingThere); // memory is not sound
        }
        if is_void {
            self.push(queue, home as u32 * 2 + 1);
        }
        Ok(())
    }

    pub fn rejuvenate(
        mut self,
        main: &mut [u32],
        queue: &mut [u32],
        annex: &mut [u32],
        hash: u64,
    ) -> Answer
        ensures { Rejuvenates (plain self) main.old queue.old annex.old hash
            (outcome_number result.outcome) (plain result.rec) main.new queue.new annex.new }
    {
        let outcome = self.rejuvenate_in(main, queue, annex, hash);
        Answer { outcome, rec: self }
    }

    pub fn audit(self, main: &[u32], queue: &[u32], annex: &[u32]) -> Result<(), Refusal>
        ensures { outcome_number result ≡ audit (plain self) main.now queue.now annex.now }
    {
        self.first_refusal(main.len(), queue.len(), annex.len())?;
        let width = self.width();
        let queued = self.queued as usize;
        if audit::state_right(
            main, self.used, self.k, width, queue, queued, self.dir, annex,
        ) {
            Ok(())
        } else {
            Err(Refusal::NotSound)
        }
    }

    // Audit as a call that answers the record: it is the one handed in.
    pub fn audited(self, main: &mut [u32], queue: &mut [u32], annex: &mut [u32]) -> Answer
        ensures { Audits (plain self) main.old queue.old annex.old
            (outcome_number result.outcome) (plain result.rec) main.new queue.new annex.new }
    {
        Answer {
            outcome: self.audit(main, queue, annex),
            rec: self,
        }
    }

    fn settle_in(
        &mut self,
        main: &mut [u32],
        queue: &[u32],
        annex: &mut [u32],
    ) -> Result<(), Refusal>
        ensures { Settles (plain self.old) main.old queue.now annex.old
            (outcome_number result) (plain self.new) main.new queue.now annex.new }
    {
        self.audit(main, queue, annex)?;
        let width = self.width();
        let queued = self.queued as usize;
        let left = settling::settle(
            main, queue, annex, self.k, width, self.used, queued, self.dir,
        );
        // The check stores an array in a field only from a variable.
        let places = left.places;
        self.used = left.used;
        self.queued = 0;
        self.dir = places;
        Ok(())
    }

    pub fn settle(mut self, main: &mut [u32], queue: &mut [u32], annex: &mut [u32]) -> Answer
        ensures { Settles (plain self) main.old queue.old annex.old
            (outcome_number result.outcome) (plain result.rec) main.new queue.new annex.new }
    {
        let outcome = self.settle_in(main, queue, annex);
        Answer { outcome, rec: self }
    }

    // The words of the annex tables in use.
    fn annex_used(self) -> usize
        requires { T (record_right (plain self)) }
        ensures { (result ≡ annex_used (plain self)) × (result ≤ 1048576) }
    {
        directory::words_taken(self.dir, directory::places_in_use(self.dir))
    }

    // The width of payloads after the next doubling.
    fn next_width(self) -> u32
        requires { T (record_right (plain self)) × (self.k < 20) }
        ensures { result ≡ width_at (plain self) (self.k + 1) }
    {
        self.f + slots::extra_bits(self.regime, self.k + 1 - self.start) + 1
    }

    // The tests of Double, which is lent a second main of `second` words, before the annex is asked for room.
    fn double_refusal(
        self,
        main: &[u32],
        queue: &[u32],
        annex: &[u32],
        second: usize,
    ) -> Result<(), Refusal>
        ensures { BeforeRoom (plain self) main.now queue.now annex.now second (outcome_number result) }
    {
        self.in_range().ok_or(Refusal::Record)?;
        if self.k == 20 {
            return Err(Refusal::LargestSize);
        }
        if second != slots::pow2(self.k + 1) as usize {
            return Err(Refusal::Lengths); // the second main
        }
        self.audit(main, queue, annex)?;
        if self.queued == 0 {
            Ok(())
        } else {
            Err(Refusal::QueueInUse)
        }
    }

    fn double_into(
        &mut self,
        main: &[u32],
        queue: &[u32],
        annex: &mut [u32],
        second: &mut [u32],
    ) -> Result<(), Refusal>
        ensures { Doubles (plain self.old) main.now queue.now annex.old second.old
            (outcome_number result) (plain self.new) main.now queue.now annex.new second.new }
    {
        self.double_refusal(main, queue, annex, second.len())?;
        let width = self.width();
        let next = self.next_width();
        let taken = self.annex_used();
        let new = doubling::count_new(main, width);
        if !doubling::room_for(annex, taken, new) {
            return Err(Refusal::AnnexTooShort);
        }
        let made = doubling::double(
            main, second, annex, self.k, width, next, taken, new, self.dir,
        );
        // As above: from a variable.
        let places = made.places;
        self.k += 1;
        self.used = made.used;
        self.queued = 0;
        self.dir = places;
        Ok(())
    }

    pub fn double(
        mut self,
        main: &mut [u32],
        queue: &mut [u32],
        annex: &mut [u32],
        second: &mut [u32],
    ) -> Answer
        ensures { Doubles (plain self) main.old queue.old annex.old second.old
            (outcome_number result.outcome) (plain result.rec) main.new queue.new annex.new second.new }
    {
        let outcome = self.double_into(main, queue, annex, second);
        Answer { outcome, rec: self }
    }

    // The words of the annex table of length b, a part of the annex itself, or an empty part. An offset counts bytes, four to a word.
    pub fn part<'a>(self, annex: &'a [u32], b: u32) -> &'a [u32]
        ensures words { result.now ≡ part (plain self) annex.now b }
        ensures itself { result.ref_ptr.0 ≡ annex.entry.ref_ptr.0 }
        ensures there { 0 < length result.now → result.ref_ptr.1 ≡ annex.entry.ref_ptr.1 + 4 * offset_in b (in_use (plain self)) }
    {
        match self.in_range() {
            Some(taken) if taken <= annex.len() => places::part(annex, self.dir, b),
            _ => &annex[0..0],
        }
    }

    // An empty filter over main, which needs neither queue nor annex.
    fn start_in(&mut self, main: &mut [u32], power: u32, f: u32, regime: u32) -> Result<(), Refusal>
        ensures { (queue annex : List ℕ) → Leaves
            (restart (plain self.old) power f regime main.old queue annex)
            (outcome_number result) (plain self.new) main.new queue annex }
    {
        if !settings_right(power, f, regime) {
            return Err(Refusal::Settings);
        }
        if main.len() != slots::pow2(power) as usize {
            return Err(Refusal::Lengths);
        }
        table::clear(main);
        *self = Record {
            k: power,
            start: power,
            f,
            regime,
            ..Record::default()
        };
        Ok(())
    }

    // Start over this record, which is answered where Start is refused.
    pub fn restart(
        mut self,
        main: &mut [u32],
        queue: &mut [u32],
        annex: &mut [u32],
        power: u32,
        f: u32,
        regime: u32,
    ) -> Answer
        ensures { Leaves
            (restart (plain self) power f regime main.old queue.old annex.old)
            (outcome_number result.outcome) (plain result.rec) main.new queue.new annex.new }
    {
        let outcome = self.start_in(main, power, f, regime);
        Answer { outcome, rec: self }
    }

    pub fn start(
        main: &mut [u32],
        queue: &mut [u32],
        annex: &mut [u32],
        power: u32,
        f: u32,
        regime: u32,
    ) -> Answer
        ensures { Starts power f regime main.old queue.old annex.old
            (outcome_number result.outcome) (plain result.rec) main.new queue.new annex.new }
    {
        Record::default().restart(main, queue, annex, power, f, regime)
    }
}
