#![tactic(auto)]

// Replays a script of calls on a filter and prints what each call leaves: its number, the record and the digests of the words.
ghost use Rattle.std.specs.Prelude.{◌≤◌};

use filter::{Answer, Record};
use script::input::{ScriptError, Source, passed};
use script::output::{Part, Short, State, Whole};
use std::io::{self, Read, Write};

// What a script calls for, by the number that comes first.
#[derive(Clone, Copy)]
enum Call {
    Load,
    Start,
    Query,
    Insert,
    Delete,
    Rejuvenate,
    Audit,
    Settle,
    Double,
    Part,
    Bytes,
    Show,
}

impl TryFrom<u64> for Call {
    type Error = ScriptError;

    fn try_from(number: u64) -> Result<Call, ScriptError> {
        match number {
            0 => Ok(Call::Load),
            1 => Ok(Call::Start),
            2 => Ok(Call::Query),
            3 => Ok(Call::Insert),
            4 => Ok(Call::Delete),
            5 => Ok(Call::Rejuvenate),
            6 => Ok(Call::Audit),
            7 => Ok(Call::Settle),
            8 => Ok(Call::Double),
            9 => Ok(Call::Part),
            10 => Ok(Call::Bytes),
            11 => Ok(Call::Show),
            _ => Err(ScriptError::Wrong),
        }
    }
}

// Memory for N words, the first of which are lent.
#[derive(Drop)]
struct Memory<const N: usize> {
    words: [u32; N],
    lent: usize,
    ghost within: { lent ≤ N },
}

impl<const N: usize> Memory<N> {
    fn new() -> Memory<N> {
        Memory {
            words: [0; N],
            lent: 0,
        }
    }

    fn load<R: Read>(&mut self, source: &mut Source<R>) -> Result<(), ScriptError> {
        self.lent = source.words(&mut self.words)?;
        Ok(())
    }

    fn lent(&self) -> &[u32] {
        &self.words[..self.lent]
    }

    fn lent_mut(&mut self) -> &mut [u32] {
        // In steps, since the check covers no index into the field itself: its length is a parameter.
        let lent = self.lent;
        let words = &mut self.words;
        &mut words[..lent]
    }
}

#[derive(Drop)]
struct Filter {
    record: Record,
    main: Memory<16384>,
    queue: Memory<4096>,
    annex: Memory<16384>,
}

impl Filter {
    fn new() -> Filter {
        Filter {
            record: Record::default(),
            main: Memory::new(),
            queue: Memory::new(),
            annex: Memory::new(),
        }
    }

    fn state(&self) -> State<'_> {
        State {
            record: &self.record,
            main: self.main.lent(),
            queue: self.queue.lent(),
            annex: self.annex.lent(),
        }
    }

    fn lent_mut(&mut self) -> (&mut [u32], &mut [u32], &mut [u32]) {
        (
            self.main.lent_mut(),
            self.queue.lent_mut(),
            self.annex.lent_mut(),
        )
    }

    fn load<R: Read>(&mut self, source: &mut Source<R>) -> Result<(), ScriptError> {
        let record = passed(source.record())?;
        let main = passed(self.main.load(source))?;
        let queue = passed(self.queue.load(source))?;
        self.annex.load(source)?;
        self.record = record.ok_or(ScriptError::Wrong)?;
        main.and(queue).ok_or(ScriptError::Wrong)
    }
}

// Four bytes a word, lowest first; the bytes past the words stay.
fn put_words(bytes: &mut [u8], words: &[u32]) {
    let values = words.iter().flat_map(|word| word.to_le_bytes());
    for (byte, value) in bytes.iter_mut().zip(values) {
        *byte = value;
    }
}

#[derive(Drop)]
struct Replay<R, W> {
    source: Source<R>,
    out: W,
    filter: Filter,
}

impl<R: Read, W: Write> Replay<R, W> {
    // The line of a call that answered a number.
    fn line(&mut self, number: u32) -> Result<(), ScriptError> {
        writeln!(self.out, "{number} {}", Short(self.filter.state()))?;
        Ok(())
    }

    fn answered(&mut self, answer: Answer) -> Result<(), ScriptError> {
        self.filter.record = answer.rec;
        self.line(filter::outcome_number(answer.outcome))
    }

    fn start(&mut self) -> Result<(), ScriptError> {
        let [power, f, regime] = self.source.three()?;
        let (main, queue, annex) = self.filter.lent_mut();
        let answer = Record::start(main, queue, annex, power, f, regime);
        self.answered(answer)
    }

    fn query(&mut self) -> Result<(), ScriptError> {
        let hash = self.source.number()?;
        let State {
            record,
            main,
            queue,
            annex,
        } = self.filter.state();
        let answer = record.query(main, queue, annex, hash);
        self.line(filter::answer_number(answer))
    }

    // Insert, Delete or Rejuvenate.
    fn quick<F: FnOnce(Record, &mut [u32], &mut [u32], &mut [u32], u64) -> Answer>(
        &mut self,
        call: F,
    ) -> Result<(), ScriptError>
        requires { F.IsAlwaysCallable call }
    {
        let hash = self.source.number()?;
        let record = self.filter.record;
        let (main, queue, annex) = self.filter.lent_mut();
        let answer = call(record, main, queue, annex, hash);
        self.answered(answer)
    }

    fn part(&mut self) -> Result<(), ScriptError> {
        let b = self.source.word()?;
        let part = self.filter.record.part(self.filter.annex.lent(), b);
        writeln!(self.out, "{}", Part(part))?;
        Ok(())
    }

    // The exported Query, on the first bytes of the words lent, as many as are asked for.
    fn query_bytes(&mut self, k: u32, w: u32, hash: u64, count: u32) -> Result<(), ScriptError> {
        let mut memory = [0u8; 65540];
        let bytes = memory.get_mut(..count as usize).ok_or(ScriptError::Wrong)?;
        put_words(bytes, self.filter.main.lent());
        let answer = thin::query_bytes(k, w, hash, bytes);
        writeln!(self.out, "{}", filter::answer_number(answer))?;
        Ok(())
    }

    fn bytes(&mut self) -> Result<(), ScriptError> {
        let k = passed(self.source.word())?;
        let w = passed(self.source.word())?;
        let hash = passed(self.source.number())?;
        let count = self.source.word()?;
        self.query_bytes(
            k.ok_or(ScriptError::Wrong)?,
            w.ok_or(ScriptError::Wrong)?,
            hash.ok_or(ScriptError::Wrong)?,
            count,
        )
    }

    fn step(&mut self, call: Call) -> Result<(), ScriptError> {
        match call {
            Call::Load => self.filter.load(&mut self.source),
            Call::Start => self.start(),
            Call::Query => self.query(),
            Call::Insert => self.quick(Record::insert),
            Call::Delete => self.quick(Record::delete),
            Call::Rejuvenate => self.quick(Record::rejuvenate),
            // The slow calls are not made. Double has a number of words.
            Call::Audit | Call::Settle => Ok(()),
            Call::Double => self.source.word().map(|_| ()),
            Call::Part => self.part(),
            Call::Bytes => self.bytes(),
            Call::Show => {
                writeln!(self.out, "{}", Whole(self.filter.state()))?;
                Ok(())
            }
        }
    }

    fn turn(&mut self) -> Result<(), ScriptError> {
        let call = Call::try_from(self.source.number()?)?;
        self.step(call)
    }

    // Nothing says that a script ends, so the calls are counted, up to a number that no script comes to.
    fn run(&mut self) -> io::Result<()> {
        for _ in 0..u64::MAX {
            match self.turn() {
                Ok(()) => {}
                Err(ScriptError::Wrong) => break,
                Err(ScriptError::Io(error)) => return Err(error),
            }
        }
        Ok(())
    }
}

fn main(rt: HostRuntime) -> io::Result<()> {
    let mut replay = Replay {
        source: Source::new(rt.reader()),
        out: io::writer(&rt),
        filter: Filter::new(),
    };
    replay.run()
}
