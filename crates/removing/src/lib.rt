#![tactic(auto)]

// An entry goes from a table of words, and each behind it that is not at home moves one slot to the left. On any words the loops go over the circle at most once.
ghost use Rattle.std.specs.Prelude.{◌≡◌, ◌+◌, ◌-◌, ◌*◌, ◌/◌, ◌%◌, ◌≤◌, ◌<◌, length, take, drop};
ghost use Rattle.layout.specs.Decode.{turn, entry};
ghost use Rattle.layout.specs.Moves.{drawing, closer, is_start, remove_at, occs};

// The word of t's entry as the first of a run, at home.
fn home_word(t: u32) -> u32
    ensures { result ≡ t / 8 * 8 + 1 }
{
    t / 8 * 8 + 1
}

// The word of t's entry as the first of a run, in the slot of word w.
fn head_word(t: u32, w: u32) -> u32
    ensures { result ≡ t / 8 * 8 + 4 + w % 2 }
{
    t / 8 * 8 + 4 + w % 2
}

// The word of v's entry where it moves one slot to the left, to the slot of word w, where m runs wait on arrival.
fn closer_word(v: u32, m: usize, w: u32) -> u32
    requires { m ≤ 4194304 }
    ensures { result ≡ closer (entry v) m w }
{
    let b = v / 2 % 2;
    // One test, which is seldom true.
    if b as usize + m == 0 {
        return home_word(v);
    }
    head_word(v, w) + b * 2
}

// How many runs wait on arrival at the next slot.
fn still_waiting(m: usize, w: u32, v: u32) -> usize
    requires { m ≤ 4194304 }
    ensures { (result ≡ m + w % 2 - is_start (entry v)) × (result ≤ m + 1) }
{
    (m + walks::mark(w)).saturating_sub(walks::begins(v))
}

// The entry `from` slots on from c goes, and each behind it that is not at home moves one slot to the left. m runs wait on arrival there, without it.
fn draw(ws: &mut [u32], c: usize, from: usize, m: usize)
    requires { (c < length ws.old) × (length ws.old ≤ 1048576) × (from < length ws.old) × (m ≤ 1048576) }
    ensures { turn c ws.new ≡ drawing (turn c ws.old) m from }
{
    let n = ws.len();
    let mut waiting = m;
    let mut i = walks::around(c, from, n);
    let mut w = ws[i];
    // By index: a circle is gone round, and each slot gets the word of the one after it.
    for _k in from..n - 1 {
        let next = walks::after(i, n);
        let v = ws[next];
        if v / 4 % 2 == 0 {
            break;
        }
        ws[i] = closer_word(v, waiting, w);
        waiting = still_waiting(waiting, w, v);
        w = v;
        i = next;
    }
    ws[i] = 0;
}

// The occupied bits of the slots from the one after c to the one before k slots on.
fn marks_between(ws: &[u32], c: usize, k: usize) -> usize
    requires { (c < length ws.now) × (length ws.now ≤ 1048576) × (1 ≤ k) × (k < length ws.now) }
    ensures { (result ≡ occs (take (k - 1) (drop 1 (turn c ws.now)))) × (result < k) }
{
    let n = ws.len();
    let mut marks = 0;
    let mut i = walks::after(c, n);
    // By index: the slots may go over the seam.
    for _j in 1..k {
        marks += walks::mark(ws[i]);
        i = walks::after(i, n);
    }
    marks
}

// The word with its occupied bit cleared.
fn unmarked(w: u32) -> u32
    ensures { result ≡ w / 2 * 2 }
{
    w - w % 2
}

// The entry k slots on from c goes: u of its run come before it, and v is 0 where none comes behind it, a
// number as the layout's `remove_at` takes it.
pub fn pluck(ws: &mut [u32], c: usize, k: usize, u: usize, v: usize)
    requires { (c < length ws.old) × (length ws.old ≤ 1048576) × (k + 1 < length ws.old) }
    ensures { turn c ws.new ≡ remove_at u v k (turn c ws.old) }
{
    let n = ws.len();
    if k == 0 {
        if v == 0 {
            ws[c] = 0;
        } else {
            ws[c] = home_word(ws[walks::after(c, n)]);
            draw(ws, c, 1, 0);
        }
        return;
    }
    let m = marks_between(ws, c, k);
    if u > 0 {
        draw(ws, c, k, m);
    } else if v == 0 {
        ws[c] = unmarked(ws[c]);
        draw(ws, c, k, m);
    } else {
        let i = walks::around(c, k, n);
        let w = ws[i];
        ws[i] = head_word(ws[walks::after(i, n)], w);
        draw(ws, c, k + 1, m + walks::mark(w));
    }
}
