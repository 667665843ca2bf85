#![tactic(auto)]

// The second main of Double: what each entry gives arrives at one address or at both.
ghost use Rattle.std.specs.Prelude.{◌≡◌, ◌+◌, ◌-◌, ◌/◌, ◌%◌, ◌^◌, ◌≤◌, ◌<◌, T, length};
ghost use Rattle.lists.specs.Runs.{rising, total};
ghost use Rattle.lists.specs.Lists.{every};
ghost use Rattle.slots.specs.Payload.{pay, void};
ghost use Rattle.layout.specs.Machine.{layout};
ghost use Rattle.layout.specs.Decode.{decode, run_at};
ghost use Rattle.rules.specs.Doubling.{doubled};
ghost use Rattle.arriving.specs.Arrivals.{Arrived, Narrow, Size, Sent, of_run, halves};

// The fingerprint of a payload that has m bits from its first zero bit on.
fn fingerprint(p: u32, m: u32) -> u32
    requires { (1 ≤ m) × (m ≤ 26) }
    ensures { (result ≡ p % 2 ^ (m - 1)) × (result < 2 ^ (m - 1)) }
{
    p % slots::pow2(m - 1)
}

// The entry without its lowest bit, at width v.
fn shorter(f: u32, m: u32, v: u32) -> u32
    requires { (2 ≤ m) × (m ≤ v) × (v ≤ 26) × (f < 2 ^ (m - 1)) }
    ensures { (result ≡ pay v (m - 2) (f / 2)) × (result < 536870912) }
{
    slots::encode(v, m - 2, f / 2)
}

// What an entry of the run of c gives goes to the second main, which has twice n slots: how many entries that is.
fn send(second: &mut [u32], n: usize, c: usize, p: u32, w: u32, v: u32) -> u32
    requires { (c < n) × (length second.old ≡ n + n) × (n + n ≤ 1048576) × (p < 2 ^ w) × (1 ≤ w) × (w ≤ v) × (v ≤ 26) }
    ensures { Sent w v n c p second.old second.new result }
{
    match slots::rest_of(p, w) {
        0 => 0,
        1 => {
            let void = slots::void_of(v);
            table::insert(second, c, void);
            table::insert(second, c + n, void);
            2
        }
        m => {
            let f = fingerprint(p, m);
            let address = if f % 2 == 0 { c } else { c + n };
            table::insert(second, address, shorter(f, m, v));
            1
        }
    }
}

// The same of all entries of the run of c.
fn send_run(main: &[u32], second: &mut [u32], c: usize, w: u32, v: u32) -> u32
    requires { (c < length main.now) × Size main.now × Size second.old × (length second.old ≡ length main.now + length main.now)
        × Narrow w main.now × (1 ≤ w) × (w ≤ v) × (v ≤ 26) }
    ensures { Arrived second.old second.new (of_run (halves w v (length main.now) c) (run_at main.now c))
        × (result ≡ length (of_run (halves w v (length main.now) c) (run_at main.now c))) }
{
    let mut used = 0;
    for p in lookup::entries_of(main, c) {
        used += send(second, main.len(), c, p, w, v);
    }
    used
}

// The second main, at width v: its used count.
pub fn write_second(main: &[u32], second: &mut [u32], w: u32, v: u32) -> u32
    requires { Size main.now × Size second.old × (length second.old ≡ length main.now + length main.now)
        × Narrow w main.now × (1 ≤ w) × (w ≤ v) × (v ≤ 26) × T (every rising (decode main.now)) × (total (doubled w v (decode main.now)) < length second.old) }
    ensures { (second.new ≡ layout (doubled w v (decode main.now))) × (result ≡ total (doubled w v (decode main.now))) }
{
    table::clear(second);
    let mut used = 0;
    for c in 0..main.len() {
        used += send_run(main, second, c, w, v);
    }
    used
}
