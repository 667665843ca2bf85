// What a call leaves, as a line of decimal numbers: words are printed by their digest.
ghost use Rattle.std.specs.Prelude.{◌≡◌, ◌+◌, ◌*◌, ◌%◌, ◌^◌};

use directory::Place;
use filter::Record;
use std::fmt;

/// A filter, as the lines show it: its record and the words lent.
#[derive(Clone, Copy)]
pub struct State<'a> {
    pub record: &'a Record,
    pub main: &'a [u32],
    pub queue: &'a [u32],
    pub annex: &'a [u32],
}

// One word more in a digest: times 16777619 plus the word plus 1, modulo 2^32.
fn digested(digest: u32, word: u32) -> u32
    ensures { result ≡ (digest * 16777619 + word + 1) % 2 ^ 32 }
{
    digest
        .wrapping_mul(16777619)
        .wrapping_add(word)
        .wrapping_add(1)
}

fn digest(words: &[u32]) -> u32 {
    words.iter().copied().fold(0, digested)
}

fn digest_of_places(places: &[Place; 15]) -> u32 {
    places.iter().fold(0, |digest, place| {
        digested(digested(digested(digest, place.b), place.s), place.count)
    })
}

// The six numbers of a record.
#[derive(Clone, Copy)]
struct Numbers<'a>(&'a Record);

impl fmt::Display for Numbers<'_> {
    fn fmt<W: fmt::Write>(&self, f: &mut fmt::Formatter<W>) -> fmt::Result {
        let record = self.0;
        write!(f, "{} {} {}", record.k, record.start, record.f)?;
        write!(f, " {} {} {}", record.regime, record.used, record.queued)
    }
}

/// The record, and the digests of its directory and of the words lent.
#[derive(Clone, Copy)]
pub struct Short<'a>(pub State<'a>);

impl fmt::Display for Short<'_> {
    fn fmt<W: fmt::Write>(&self, f: &mut fmt::Formatter<W>) -> fmt::Result {
        let State {
            record,
            main,
            queue,
            annex,
        } = self.0;
        write!(f, "{} {}", Numbers(record), digest_of_places(&record.dir))?;
        write!(f, " {} {} {}", digest(main), digest(queue), digest(annex))
    }
}

/// How many words a part has, and their digest.
#[derive(Clone, Copy)]
pub struct Part<'a>(pub &'a [u32]);

impl fmt::Display for Part<'_> {
    fn fmt<W: fmt::Write>(&self, f: &mut fmt::Formatter<W>) -> fmt::Result {
        write!(f, "{} {}", self.0.len(), digest(self.0))
    }
}

// Words in full, each behind a space.
#[derive(Clone, Copy)]
struct Words<'a>(&'a [u32]);

impl fmt::Display for Words<'_> {
    fn fmt<W: fmt::Write>(&self, f: &mut fmt::Formatter<W>) -> fmt::Result {
        for word in self.0 {
            write!(f, " {word}")?;
        }
        Ok(())
    }
}

/// Everything in full.
#[derive(Clone, Copy)]
pub struct Whole<'a>(pub State<'a>);

impl fmt::Display for Whole<'_> {
    fn fmt<W: fmt::Write>(&self, f: &mut fmt::Formatter<W>) -> fmt::Result {
        let State {
            record,
            main,
            queue,
            annex,
        } = self.0;
        write!(f, "{}", Numbers(record))?;
        for place in &record.dir {
            write!(f, "{}", Words(&[place.b, place.s, place.count]))?;
        }
        write!(f, "{}{}{}", Words(main), Words(queue), Words(annex))
    }
}
