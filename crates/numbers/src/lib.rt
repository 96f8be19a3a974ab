// Big-endian numbers on slices of bytes, one reader and one writer for every width; and rows of them, by a list of
// widths.
#![tactic(auto)]

ghost use Rattle.std.specs.Prelude.{◌≡◌, ◌+◌, ◌^◌, ◌≤◌, ◌<◌, ltb, T, leb, length};
ghost use Rattle.lists.specs.Part.{mid, patch};
ghost use Rattle.numbers.specs.Number.{number_of, bytes_of};
ghost use Rattle.lists.specs.Tests.{every};
ghost use Rattle.stamp.specs.Stamp.{total};
ghost use Rattle.numbers.specs.Fields.{read_fields, fields_fit, put_fields};

// How many values a byte has.
const BASE: u64 = 256;

// The number that the whole slice holds.
#[tactic(auto, using(crate::proofs::Step::bytes_read), unfolding(crate::specs::Number::number_from))]
fn number_of(s: &[u8]) -> u64
    requires { length s.now ≤ 8 }
    ensures { (result ≡ number_of s.now) × (result < 256 ^ length s.now) }
{
    let mut n: u64 = 0;
    for x in s {
        n = n * BASE + u64::from(*x);
    }
    n
}

// The number of w bytes at a place.
#[tactic(auto, using(crate::proofs::Step::part_at), unfolding(lists::specs::Part::mid))]
pub fn number_at(s: &[u8], at: usize, w: usize) -> u64
    requires { (at + w ≤ length s.now) × (w ≤ 8) }
    ensures { (result ≡ number_of (mid at w s.now)) × (result < 256 ^ w) }
{
    number_of(&s[at..at + w])
}

// The last bytes of n over the whole slice.
#[tactic(auto, using(crate::proofs::Step::put_more), unfolding(crate::specs::Number::bytes_of))]
fn put_number(s: &mut [u8], n: u64)
    ensures { s.new ≡ bytes_of (length s.old) n }
{
    let mut m = n;
    for i in (0..s.len()).rev() {
        s[i] = (m % BASE) as u8;
        m /= BASE;
    }
}

// The last w bytes of n at a place; what stands before and after stays.
#[tactic(auto, using(crate::proofs::Step::part_at), unfolding(lists::specs::Part::mid, lists::specs::Part::patch))]
pub fn put_number_at(s: &mut [u8], at: usize, w: usize, n: u64)
    requires { at + w ≤ length s.old }
    ensures { s.new ≡ patch at w s.old (bytes_of w n) }
{
    put_number(&mut s[at..at + w], n);
}

// Whether w bytes hold n: so many divisions leave nothing. It ends with what is left of n, however many w is.
#[tactic(auto, using(crate::proofs::Step::width_more))]
pub fn fits_width(n: u64, w: usize) -> bool
    ensures { result ≡ ltb n (256 ^ w) }
{
    let mut m = n;
    for _ in 0..w {
        if m == 0 {
            return true;
        }
        m /= BASE;
    }
    m == 0
}

// The numbers that the bytes hold, over the whole of v.
#[tactic(auto, using(crate::proofs::Turn::fields_read))]
pub fn read_fields(v: &mut [u64], ws: &[usize], bytes: &[u8])
    requires v_len { length v.old ≡ length ws.now }
    requires ws_in_bounds { total ws.now ≤ length bytes.now }
    requires t { T (every (λ w. leb w 8) ws.now) }
    ensures { v.new ≡ read_fields ws.now bytes.now }
{
    let mut at = 0;
    for (i, &w) in ws.iter().enumerate() {
        v[i] = number_at(bytes, at, w);
        at += w;
    }
}

// The numbers of v at the front of out; what stands past them stays.
#[tactic(auto, using(crate::proofs::Turn::fields_put))]
pub fn put_fields(out: &mut [u8], ws: &[usize], v: &[u64])
    requires v_len { length v.now ≡ length ws.now }
    requires ws_in_bounds { total ws.now ≤ length out.old }
    ensures { out.new ≡ put_fields ws.now v.now out.old }
{
    let mut at = 0;
    for (i, &w) in ws.iter().enumerate() {
        put_number_at(out, at, w, v[i]);
        at += w;
    }
}

// Whether there is a number for each width, and each fits.
#[tactic(auto, using(crate::proofs::Turn::fit_short))]
pub fn fields_fit(ws: &[usize], v: &[u64]) -> bool
    ensures { result ≡ fields_fit ws.now v.now }
{
    ws.len() == v.len() && ws.iter().zip(v).all(|(w, n)| fits_width(*n, *w))
}
