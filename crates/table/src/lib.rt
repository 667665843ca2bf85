#![tactic(auto)]

// One table of words, main or annex: its runs are changed by one entry.
ghost use Rattle.std.specs.Prelude.{◌≡◌, true, false, List, [], ℕ, suc, ◌+◌, ◌*◌, ◌%◌, ◌≤◌, ◌<◌, T, length, get_or, set, replicate};
ghost use Rattle.layout.specs.Machine.{layout};
ghost use Rattle.lists.specs.Runs.{add, erase, has, rising, total};

// The payload goes into the run of c.
pub fn insert(ws: &mut [u32], c: usize, x: u32)
    requires { (c < length ws.old) × (length ws.old ≤ 1048576) × (1 < length ws.old) × (x < 536870912) }
    ensures { (runs : List (List ℕ)) → ws.old ≡ layout runs → suc (total runs) < length runs
        → ws.new ≡ layout (set runs c (add x (get_or runs c []))) }
{
    let run = walks::locate(ws, c);
    let rank = lookup::rank(ws, c, run, x);
    let k = run.carry + rank;
    if k < ws.len() {
        let occupied = ws[c] % 2;
        inserting::put(ws, c, k, rank, occupied, x);
    }
}

// One entry with payload x goes from the run of c: false where there is none.
pub fn remove(ws: &mut [u32], c: usize, x: u32) -> bool
    requires { (c < length ws.old) × (length ws.old ≤ 1048576) × (1 < length ws.old) }
    ensures { (result ≡ false → ws.new ≡ ws.old)
        × ((runs : List (List ℕ)) → ws.old ≡ layout runs → total runs < length runs → T (rising (get_or runs c []))
        → (result ≡ has x (get_or runs c [])) × (ws.new ≡ layout (set runs c (erase x (get_or runs c []))))) }
{
    match lookup::find(ws, c, x) {
        Some(spot) if spot.slot + 1 < ws.len() => {
            removing::pluck(ws, c, spot.slot, spot.rank, spot.rest);
            true
        }
        _ => false,
    }
}

// The word with another payload.
fn paid(y: u32, w: u32) -> u32
    requires { y < 536870912 }
    ensures { result ≡ y * 8 + w % 8 }
{
    y * 8 + w % 8
}

// The last entry with payload x in the run of c gets the payload x + 1, in its place: false where there is none.
pub fn raise_last(ws: &mut [u32], c: usize, x: u32) -> bool
    requires { (c < length ws.old) × (length ws.old ≤ 1048576) × (1 < length ws.old) × (x < 536870911) }
    ensures { (result ≡ false → ws.new ≡ ws.old)
        × ((runs : List (List ℕ)) → ws.old ≡ layout runs → total runs < length runs → T (rising (get_or runs c []))
        → (result ≡ has x (get_or runs c [])) × (result ≡ true → ws.new ≡ layout (set runs c (add (suc x) (erase x (get_or runs c [])))))) }
{
    match lookup::last_below(ws, c, x) {
        Some(k) if k < ws.len() => {
            let slot = walks::around(c, k, ws.len());
            ws[slot] = paid(x + 1, ws[slot]);
            true
        }
        _ => false,
    }
}

// One entry with payload x goes from the run of c, and one with payload y comes: false where there is no x.
pub fn exchange(ws: &mut [u32], c: usize, x: u32, y: u32) -> bool
    requires { (c < length ws.old) × (length ws.old ≤ 1048576) × (1 < length ws.old) × (y < 536870912) }
    ensures { (result ≡ false → ws.new ≡ ws.old)
        × ((runs : List (List ℕ)) → ws.old ≡ layout runs → total runs < length runs → T (rising (get_or runs c []))
        → (result ≡ has x (get_or runs c [])) × (result ≡ true → ws.new ≡ layout (set runs c (add y (erase x (get_or runs c [])))))) }
{
    let gone = remove(ws, c, x);
    if gone {
        insert(ws, c, y);
    }
    gone
}

// Every word becomes 0.
pub fn clear(ws: &mut [u32])
    ensures { ws.new ≡ replicate (length ws.old) 0 }
{
    ws.fill(0);
}
