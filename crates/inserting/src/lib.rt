#![tactic(auto)]

// An entry goes into a table of words, and each from there to the next empty slot moves one slot on. On any words the loop goes over the circle at most once.
ghost use Rattle.std.specs.Prelude.{◌≡◌, ◌+◌, ◌*◌, ◌/◌, ◌%◌, ◌≤◌, ◌<◌, length};
ghost use Rattle.layout.specs.Decode.{turn};
ghost use Rattle.layout.specs.Moves.{going, insert_at};

// The word of an entry that has moved to the slot of word w.
fn moved(hand: u32, w: u32) -> u32
    requires { (hand % 8 ≤ 2) × (hand % 2 ≡ 0) }
    ensures { result ≡ hand + 4 + w % 2 }
{
    hand + 4 + w % 2
}

// The entry of a word, with neither of the bits shifted and occupied.
fn stripped(w: u32) -> u32
    ensures { result ≡ w / 8 * 8 + w / 2 % 2 * 2 }
{
    w / 8 * 8 + w / 2 % 2 * 2
}

// The entry in hand goes to the slot `from` slots on from c, and each entry from there moves one slot on, up to the first empty slot.
fn shove(ws: &mut [u32], c: usize, from: usize, e: u32)
    requires { (c < length ws.old) × (length ws.old ≤ 1048576) × (from ≤ length ws.old) × (e % 8 ≤ 2) × (e % 2 ≡ 0) }
    ensures { turn c ws.new ≡ going (turn c ws.old) e from }
{
    let n = ws.len();
    if n <= from {
        return;
    }
    let mut hand = e;
    let mut i = walks::around(c, from, n);
    // By index: a circle is gone round, and each word goes on to the slot after it.
    for _k in from..n {
        let w = ws[i];
        ws[i] = moved(hand, w);
        if w == 0 {
            return;
        }
        hand = stripped(w);
        i = walks::after(i, n);
    }
}

// The entry of a word as one that is not the first of its run.
fn later(w: u32) -> u32
    ensures { (result ≡ w / 8 * 8 + 2) × (result % 8 ≤ 2) × (result % 2 ≡ 0) }
{
    w / 8 * 8 + 2
}

// The word with its occupied bit set.
fn marked(w: u32) -> u32
    ensures { result ≡ w / 2 * 2 + 1 }
{
    w / 2 * 2 + 1
}

// x goes into the run of c, k slots on from c, behind u entries of the run: o is 1 where the run has an entry, or else 0,
// a number as the layout's `insert_at` takes it.
pub fn put(ws: &mut [u32], c: usize, k: usize, u: usize, o: u32, x: u32)
    requires { (c < length ws.old) × (length ws.old ≤ 1048576) × (k < length ws.old) × (x < 536870912) }
    ensures { turn c ws.new ≡ insert_at u o k x (turn c ws.old) }
{
    let w = ws[c];
    if k == 0 {
        ws[c] = x * 8 + 1;
        if w != 0 {
            shove(ws, c, 1, later(w));
        }
        return;
    }
    ws[c] = marked(w);
    if u > 0 {
        shove(ws, c, k, x * 8 + 2);
    } else if o == 0 {
        shove(ws, c, k, x * 8);
    } else {
        let i = walks::around(c, k, ws.len());
        let v = ws[i];
        ws[i] = moved(x * 8, v);
        shove(ws, c, k + 1, later(v));
    }
}
