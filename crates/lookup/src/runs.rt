// The payloads of a run, one after the other.
ghost use Rattle.std.specs.Prelude.{◌≡◌, List, ℕ, ◌<◌, ◌≤◌, length, drop};
ghost use Rattle.std.specs.Iterator.{YieldsFirst, item_count};
ghost use Rattle.layout.specs.Decode.{run_at};
ghost use Rattle.layout.specs.Moves.{rights};
ghost use Rattle.layout.specs.Reading.{run_from};
ghost use Rattle.lookup.specs.Rest.{rest_of};

use std::marker::Model;
use walks::{Run, Words};

#[derive(Drop)]
pub struct Entries<W: Words> {
    table: W,
    home: usize,
    place: usize,
    begun: bool,
}

impl<W: Words> Model for Entries<W> {
    ghost Value = { List ℕ };

    ghost view = { λ entries. rest_of entries.begun (drop entries.place (rights (W.words entries.table) entries.home)) };

    ghost invariant = { λ entries. (entries.home < length (W.words entries.table)) × (length (W.words entries.table) ≤ 1048576)
        × (entries.place ≤ length (W.words entries.table)) };
}

impl<W: Words> Iterator for Entries<W> {
    type Item = u32;

    ghost next_gives = { YieldsFirst (λ rest. rest) };

    ghost remaining = { item_count (λ rest. rest) };

    fn next(&mut self) -> Option<u32> {
        let n = self.table.size();
        if self.place == n {
            return None;
        }
        let word = self.table.word(walks::around(self.home, self.place, n));
        // Each entry of a run but its first continues it.
        if self.begun && word / 2 % 2 == 0 {
            return None;
        }
        self.begun = true;
        self.place += 1;
        Some(word / 8)
    }
}

// The entries of a run.
#[tactic(auto, using(layout::proofs::RunLaws::run_length), unfolding(layout::specs::Reading::run_from))]
pub(crate) fn entries_from<W: Words>(table: W, run: Run) -> Entries<W>
    requires { (run.home < length (W.words table)) × (length (W.words table) ≤ 1048576) × (run.from ≤ length (W.words table)) }
    ensures { (result ≡ run_from (W.words table) run.home run.from) × (length result ≤ length (W.words table)) }
{
    Entries {
        table,
        home: run.home,
        place: run.from,
        begun: false,
    }
}

// The entries of the run of c.
pub fn entries_of<W: Words>(table: W, c: usize) -> Entries<W>
    requires { (c < length (W.words table)) × (length (W.words table) ≤ 1048576) × (1 < length (W.words table)) }
    ensures { (result ≡ run_at (W.words table) c) × (length result ≤ length (W.words table)) }
{
    if table.word(c) % 2 == 0 {
        Entries {
            table,
            home: c,
            place: table.size(),
            begun: true,
        }
    } else {
        entries_from(table, crate::query_place(table, c))
    }
}
