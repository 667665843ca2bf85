#![tactic(auto)]

// Every exported function: Query on bytes for the front page, and the calls on a record that the host lends and that is updated in place. C takes numbers, so each
// outcome becomes one here, and it lends main, queue and annex one by one.
ghost use Rattle.std.specs.Prelude.{◌≡◌};
ghost use Rattle.rules.specs.Quick.{query};
ghost use Rattle.rules.specs.Lookups.{query_bytes};
ghost use Rattle.filter.specs.Plain.{plain};
ghost use Rattle.filter.specs.Promises.{Leaves, Inserts, Deletes, Rejuvenates, Audits, Settles, Doubles};
ghost use Rattle.filter.specs.Restart.{restart};
ghost use Rattle.filter.specs.Widths.{width_asked};

use filter::Record;

#[unsafe(no_mangle)]
pub extern "C" fn kj_query_bytes(k: u32, w: u32, hash: u64, main: &[u8]) -> u32
    ensures { result ≡ query_bytes k w main.now hash }
{
    filter::answer_number(thin::query_bytes(k, w, hash, main))
}

// THE LENT RECORD. Each function is that of crate `thin`, under its name for C.

#[unsafe(no_mangle)]
pub extern "C" fn kj_start(
    r: &mut Record,
    main: &mut [u32],
    queue: &mut [u32],
    annex: &mut [u32],
    power: u32,
    f: u32,
    regime: u32,
) -> u32
    ensures { Leaves
        (restart (plain r.old) power f regime main.old queue.old annex.old)
        result (plain r.new) main.new queue.new annex.new }
{
    filter::outcome_number(thin::start(r, main, queue, annex, power, f, regime))
}

// What kj_query_bytes takes besides k.
#[unsafe(no_mangle)]
pub extern "C" fn kj_width(r: &Record) -> u32
    ensures { result ≡ width_asked (plain r.now) }
{
    thin::width(r).unwrap_or(0)
}

#[unsafe(no_mangle)]
pub extern "C" fn kj_query(r: &Record, main: &[u32], queue: &[u32], annex: &[u32], hash: u64) -> u32
    ensures { result ≡ query (plain r.now) main.now queue.now annex.now hash }
{
    filter::answer_number(thin::query(r, main, queue, annex, hash))
}

#[unsafe(no_mangle)]
pub extern "C" fn kj_insert(
    r: &mut Record,
    main: &mut [u32],
    queue: &mut [u32],
    annex: &mut [u32],
    hash: u64,
) -> u32
    ensures { Inserts (plain r.old) main.old queue.old annex.old hash
        result (plain r.new) main.new queue.new annex.new }
{
    filter::outcome_number(thin::insert(r, main, queue, annex, hash))
}

#[unsafe(no_mangle)]
pub extern "C" fn kj_delete(
    r: &mut Record,
    main: &mut [u32],
    queue: &mut [u32],
    annex: &mut [u32],
    hash: u64,
) -> u32
    ensures { Deletes (plain r.old) main.old queue.old annex.old hash
        result (plain r.new) main.new queue.new annex.new }
{
    filter::outcome_number(thin::delete(r, main, queue, annex, hash))
}

#[unsafe(no_mangle)]
pub extern "C" fn kj_rejuvenate(
    r: &mut Record,
    main: &mut [u32],
    queue: &mut [u32],
    annex: &mut [u32],
    hash: u64,
) -> u32
    ensures { Rejuvenates (plain r.old) main.old queue.old annex.old hash
        result (plain r.new) main.new queue.new annex.new }
{
    filter::outcome_number(thin::rejuvenate(r, main, queue, annex, hash))
}

#[unsafe(no_mangle)]
pub extern "C" fn kj_audit(
    r: &mut Record,
    main: &mut [u32],
    queue: &mut [u32],
    annex: &mut [u32],
) -> u32
    ensures { Audits (plain r.old) main.old queue.old annex.old
        result (plain r.new) main.new queue.new annex.new }
{
    filter::outcome_number(thin::audit(r, main, queue, annex))
}

#[unsafe(no_mangle)]
pub extern "C" fn kj_settle(
    r: &mut Record,
    main: &mut [u32],
    queue: &mut [u32],
    annex: &mut [u32],
) -> u32
    ensures { Settles (plain r.old) main.old queue.old annex.old
        result (plain r.new) main.new queue.new annex.new }
{
    filter::outcome_number(thin::settle(r, main, queue, annex))
}

#[unsafe(no_mangle)]
pub extern "C" fn kj_double(
    r: &mut Record,
    main: &mut [u32],
    queue: &mut [u32],
    annex: &mut [u32],
    second: &mut [u32],
) -> u32
    ensures { Doubles (plain r.old) main.old queue.old annex.old second.old
        result (plain r.new) main.new queue.new annex.new second.new }
{
    filter::outcome_number(thin::double(r, main, queue, annex, second))
}
