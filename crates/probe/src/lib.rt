#![tactic(auto)]

// The functions of one table, for a host that tests and measures them: each tests its arguments, and calls.
use lookup_bytes::Bytes;

// The changes answer 1 for true, 0 for false, and 9 where they refuse the call.
#[unsafe(no_mangle)]
pub extern "C" fn probe_insert(ws: &mut [u32], c: usize, x: u32) -> u32 {
    let n = ws.len();
    if 1 < n && n <= 1048576 && c < n && x < 536870912 {
        table::insert(ws, c, x);
        return 1;
    }
    9
}

#[unsafe(no_mangle)]
pub extern "C" fn probe_remove(ws: &mut [u32], c: usize, x: u32) -> u32 {
    let n = ws.len();
    if 1 < n && n <= 1048576 && c < n {
        return u32::from(table::remove(ws, c, x));
    }
    9
}

#[unsafe(no_mangle)]
pub extern "C" fn probe_raise_last(ws: &mut [u32], c: usize, x: u32) -> u32 {
    let n = ws.len();
    if 1 < n && n <= 1048576 && c < n && x < 536870911 {
        return u32::from(table::raise_last(ws, c, x));
    }
    9
}

#[unsafe(no_mangle)]
pub extern "C" fn probe_exchange(ws: &mut [u32], c: usize, x: u32, y: u32) -> u32 {
    let n = ws.len();
    if 1 < n && n <= 1048576 && c < n && y < 536870912 {
        return u32::from(table::exchange(ws, c, x, y));
    }
    9
}

// The walks of a query answer the first payload of the hash's run that matches, 2^32 - 1 where there is none, and 2^32 - 2 where they refuse the call.
#[unsafe(no_mangle)]
pub extern "C" fn probe_first(ws: &[u32], k: u32, w: u32, hash: u64) -> u32 {
    let n = ws.len();
    if 1 < n && n <= 1048576 && w <= 26 && k <= 20 {
        let c = slots::canonical(hash, k) as usize;
        if c < n {
            return lookup::first_match(ws, c, w, k, hash).unwrap_or(4294967295);
        }
    }
    4294967294
}

// Apart from the one on words: one for both would take three more lengths of bytes.
#[unsafe(no_mangle)]
#[tactic(auto, using(lookup_bytes::proofs::Words::words_length))]
pub extern "C" fn probe_first_bytes(bytes: &[u8], k: u32, w: u32, hash: u64) -> u32 {
    let n = bytes.len();
    if 7 < n && n <= 4194304 && w <= 26 && k <= 20 {
        let c = slots::canonical(hash, k) as usize;
        if c < n / 4 {
            return lookup::first_match(Bytes(bytes), c, w, k, hash).unwrap_or(4294967295);
        }
    }
    4294967294
}
