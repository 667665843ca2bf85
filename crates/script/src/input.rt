// The numbers of a script, read by way of a buffer.
ghost use Rattle.std.specs.Prelude.{◌≡◌, ◌+◌, ◌-◌, ◌*◌, ◌^◌, ◌≤◌, ◌<◌, ◌↔◌, length, IsSome, IfSome, IfOk};
ghost use Rattle.script.specs.Passed.{passed};
ghost use Rattle.script.specs.declared.input.ScriptError.TheVariants.{Io};

use directory::Place;
use filter::Record;
use std::error::Error;
use std::fmt;
use std::io::{self, Read};

/// What ends a script.
#[derive(Debug, Drop)]
pub enum ScriptError {
    /// What was asked for is not there.
    Wrong,
    /// The reading or the writing failed.
    Io(io::Error),
}

impl fmt::Display for ScriptError {
    fn fmt<W: fmt::Write>(&self, f: &mut fmt::Formatter<W>) -> fmt::Result {
        match self {
            ScriptError::Wrong => write!(f, "the script is wrong"),
            ScriptError::Io(error) => write!(f, "{error}"),
        }
    }
}

impl Error for ScriptError {}

impl From<io::Error> for ScriptError {
    ghost from_gives = { λ error result. result ≡ Io error };

    fn from(error: io::Error) -> ScriptError {
        ScriptError::Io(error)
    }
}

/// Where the numbers of a script are read from, and the bytes that were read last.
// Not `BufReader`, which needs an allocator; std's own reader takes a byte at a time from a pipe.
#[derive(Drop)]
pub struct Source<R> {
    from: R,
    bytes: [u8; 65536],
    at: usize,
    filled: usize,
    ghost within: { (at ≤ filled) × (filled ≤ 65536) },
}

impl<R: Read> Source<R> {
    pub fn new(from: R) -> Source<R> {
        Source {
            from,
            bytes: [0; 65536],
            at: 0,
            filled: 0,
        }
    }

    fn byte(&mut self) -> Result<u8, ScriptError> {
        if self.at == self.filled {
            self.filled = self.from.read(&mut self.bytes)?;
            self.at = 0;
        }
        if self.filled == 0 {
            return Err(ScriptError::Wrong);
        }
        let byte = self.bytes[self.at];
        self.at += 1;
        Ok(byte)
    }

    // The first byte past spaces and line ends, of which there are at most 1,000 in a row.
    fn past_blanks(&mut self) -> Result<u8, ScriptError> {
        for _ in 0..=1000 {
            let byte = self.byte()?;
            if !is_blank(byte) {
                return Ok(byte);
            }
        }
        Err(ScriptError::Wrong)
    }

    /// A number below 2^64, of at most 20 digits, and the byte behind it, which has to be a blank.
    pub fn number(&mut self) -> Result<u64, ScriptError> {
        let first = longer(0, self.past_blanks()?).ok_or(ScriptError::Wrong)?;
        let mut value = Some(first);
        for _ in 0..20 {
            let byte = self.byte()?;
            if is_blank(byte) {
                return value.ok_or(ScriptError::Wrong);
            }
            if !byte.is_ascii_digit() {
                return Err(ScriptError::Wrong);
            }
            value = value.and_then(|value| longer(value, byte));
        }
        Err(ScriptError::Wrong)
    }

    /// A number below 2^32.
    pub fn word(&mut self) -> Result<u32, ScriptError> {
        u32::try_from(self.number()?).map_err(|_| ScriptError::Wrong)
    }

    /// Three numbers below 2^32.
    pub fn three(&mut self) -> Result<[u32; 3], ScriptError> {
        let a = passed(self.word())?;
        let b = passed(self.word())?;
        let c = self.word()?;
        Ok([
            a.ok_or(ScriptError::Wrong)?,
            b.ok_or(ScriptError::Wrong)?,
            c,
        ])
    }

    /// A number of words and then the words, as many as the memory has at most.
    pub fn words(&mut self, memory: &mut [u32]) -> Result<usize, ScriptError>
        ensures { IfOk result (λ count. count ≤ length memory.new) }
    {
        let count = usize::try_from(self.number()?).map_err(|_| ScriptError::Wrong)?;
        if memory.len() < count {
            return Err(ScriptError::Wrong);
        }
        let mut right = true;
        for word in &mut memory[..count] {
            match passed(self.word())? {
                Some(value) => *word = value,
                None => right = false,
            }
        }
        right.then_some(count).ok_or(ScriptError::Wrong)
    }

    fn places(&mut self) -> Result<[Place; 15], ScriptError> {
        let mut places = [Place::default(); 15];
        let mut right = true;
        for place in &mut places {
            match passed(self.three())? {
                Some(three) => {
                    let [b, s, count] = three;
                    *place = Place { b, s, count };
                }
                None => right = false,
            }
        }
        right.then_some(places).ok_or(ScriptError::Wrong)
    }

    /// The six numbers of a record and its directory.
    pub fn record(&mut self) -> Result<Record, ScriptError> {
        let first = passed(self.three())?;
        let second = passed(self.three())?;
        let dir = self.places()?;
        let [k, start, f] = first.ok_or(ScriptError::Wrong)?;
        let [regime, used, queued] = second.ok_or(ScriptError::Wrong)?;
        Ok(Record {
            k,
            start,
            f,
            regime,
            used,
            queued,
            dir,
        })
    }
}

/// None for what is wrong: a call is read to its end also behind a wrong number, and then a read that fails still ends the script.
pub fn passed<T>(answer: Result<T, ScriptError>) -> Result<Option<T>, ScriptError>
    ensures { result ≡ passed answer }
{
    match answer {
        Ok(value) => Ok(Some(value)),
        Err(ScriptError::Wrong) => Ok(None),
        Err(error) => Err(error),
    }
}

fn is_blank(byte: u8) -> bool {
    matches!(byte, b' ' | b'\n')
}

// The value with one digit more, if the byte is a digit and that is below 2^64.
fn longer(value: u64, byte: u8) -> Option<u64>
    ensures digit { IsSome result ↔ ((48 ≤ byte) × (byte ≤ 57) × (value * 10 + (byte - 48) < 2 ^ 64)) }
    ensures value { IfSome result (λ more. more ≡ value * 10 + (byte - 48)) }
{
    if !byte.is_ascii_digit() {
        return None;
    }
    value.checked_mul(10)?.checked_add(u64::from(byte - b'0'))
}
