#![tactic(auto)]

// One payload and one slot word.
ghost use Rattle.std.specs.Prelude.{◌≡◌, ◌%◌, ◌^◌, ◌<◌, ◌≤◌};
ghost use Rattle.slots.specs.Numbers.{limit, extra};
ghost use Rattle.slots.specs.Payload.{pay, void, tombstone, rest_of, length_of, canonical_slot, hash_bits, matches, fresh_payload};
ghost use Rattle.slots.specs.Kinds.{kind_of};

// The extra bits of the widening regime, by generation.
const EXTRA: [u32; 18] = [0, 2, 4, 4, 6, 6, 6, 6, 8, 8, 8, 8, 8, 8, 8, 8, 10, 10];

// What the three low bits of a slot word say.
#[derive(Clone, Copy)]
pub enum Kind {
    Empty,
    StartAtHome,
    StartMoved,
    Continuation,
    NeverAllowed,
}

pub fn pow2(n: u32) -> u32
    requires { n ≤ 26 }
    ensures { (result ≡ 2 ^ n) × ((0 < result) × (result ≤ 67108864)) }
{
    1u32 << n
}

// The load limit of a table of 2^n slots.
pub fn limit_of(n: u32) -> u32
    requires { (3 ≤ n) × (n ≤ 26) }
    ensures { (result ≡ limit n) × (result < 2 ^ n) }
{
    pow2(n) - pow2(n - 3)
}

// The regime is a number, 0 or 1, as it is in the record that C lends.
pub fn extra_bits(regime: u32, generation: u32) -> u32
    requires { generation < 18 }
    ensures { (result ≡ extra regime generation) × (result ≤ 10) }
{
    if regime == 0 {
        0
    } else {
        EXTRA[generation as usize]
    }
}

// The word modulo 8 by ranges, as the document has the eight cases.
pub fn kind_of(word: u32) -> Kind
    ensures { result ≡ kind_of (word % 8) }
{
    match word % 8 {
        0 => Kind::Empty,
        1 => Kind::StartAtHome,
        2..=3 => Kind::NeverAllowed,
        4..=5 => Kind::StartMoved,
        _ => Kind::Continuation,
    }
}

// The bits of the payload from its first zero bit on, 0 for a tombstone.
pub fn rest_of(payload: u32, w: u32) -> u32
    requires { (w ≤ 26) × (payload < 2 ^ w) }
    ensures { result ≡ rest_of w payload }
{
    // what is lacking to all ones begins with the same bit
    let lack = pow2(w) - payload - 1;
    32 - lack.leading_zeros()
}

pub fn length_of(payload: u32, w: u32) -> u32
    requires { (w ≤ 26) × (payload < tombstone w) }
    ensures { result ≡ length_of w payload }
{
    rest_of(payload, w) - 1
}

pub fn encode(w: u32, l: u32, f: u32) -> u32
    requires { (w ≤ 26) × ((l < w) × (f < 2 ^ l)) }
    ensures { result ≡ pay w l f }
{
    pow2(w) - pow2(l + 1) + f
}

pub fn void_of(w: u32) -> u32
    requires { (1 ≤ w) × (w ≤ 26) }
    ensures { result ≡ void w }
{
    encode(w, 0, 0)
}

pub fn tombstone_of(w: u32) -> u32
    requires { w ≤ 26 }
    ensures { result ≡ tombstone w }
{
    pow2(w) - 1
}

// The l bits of the hash from bit k on.
pub fn hash_bits(hash: u64, k: u32, l: u32) -> u32
    requires { (k ≤ 20) × (l ≤ 26) }
    ensures { (result ≡ hash_bits hash k l) × (result < 2 ^ l) }
{
    ((hash >> k) % (1u64 << l)) as u32
}

pub fn canonical(hash: u64, k: u32) -> u32
    requires { k ≤ 20 }
    ensures { (result ≡ canonical_slot k hash) × (result < 2 ^ k) }
{
    (hash & ((1u64 << k) - 1)) as u32
}

// Whether an entry with this payload matches the hash; a number too large for the width matches none.
pub fn matches(payload: u32, w: u32, k: u32, hash: u64) -> bool
    requires { (w ≤ 26) × (k ≤ 20) }
    ensures { result ≡ matches w k hash payload }
{
    if pow2(w) <= payload {
        return false;
    }
    match rest_of(payload, w) {
        0 => false, // a tombstone
        rest => payload % pow2(rest - 1) == hash_bits(hash, k, rest - 1),
    }
}

// The entry of a hash with l fingerprint bits.
pub fn fresh(hash: u64, k: u32, w: u32, l: u32) -> u32
    requires { (l < w) × ((w ≤ 26) × (k ≤ 20)) }
    ensures { result ≡ fresh_payload w l k hash }
{
    encode(w, l, hash_bits(hash, k, l))
}
