#![tactic(auto)]

// Byte fields, copies and comparisons in byte slices, and the words of specs/ that every other crate cites.
// An inner crate: no user calls it, so its functions may have a `requires`, which each caller meets.
ghost use Rattle.std.specs.Prelude.{◌≡◌, ℕ, Bool, true, ◌+◌, ◌≤◌, length, replicate};
ghost use Rattle.std.specs.Fn.{FnReturnsAtPair};
ghost use Rattle.octets.specs.Tests.{pairs};
ghost use Rattle.octets.specs.Bytes.{le, unle, field, put, is_zero, same as same_bytes};

// An unsigned number that is stored in WIDTH bytes.
pub trait Stored<const WIDTH: usize>: Sized {
    ghost value: { Self → ℕ };

    fn from_bytes(bytes: &[u8; WIDTH]) -> Self
        ensures { value result ≡ unle bytes.now };

    fn to_bytes(self) -> [u8; WIDTH]
        ensures { result ≡ le WIDTH (value self) };
}

impl Stored<2> for u16 {
    ghost value = { λ x. x };

    fn from_bytes(bytes: &[u8; 2]) -> u16 {
        u16::from_le_bytes(*bytes)
    }

    fn to_bytes(self) -> [u8; 2] {
        self.to_le_bytes()
    }
}

impl Stored<4> for u32 {
    ghost value = { λ x. x };

    fn from_bytes(bytes: &[u8; 4]) -> u32 {
        u32::from_le_bytes(*bytes)
    }

    fn to_bytes(self) -> [u8; 4] {
        self.to_le_bytes()
    }
}

impl Stored<8> for u64 {
    ghost value = { λ x. x };

    fn from_bytes(bytes: &[u8; 8]) -> u64 {
        u64::from_le_bytes(*bytes)
    }

    fn to_bytes(self) -> [u8; 8] {
        self.to_le_bytes()
    }
}

pub fn load<N: Stored<WIDTH>, const WIDTH: usize>(s: &[u8], at: usize) -> N
    requires { at + WIDTH ≤ length s.now }
    ensures { N.value result ≡ field at WIDTH s.now }
{
    N::from_bytes(s[at..].first_chunk().unwrap())
}

pub fn store<N: Stored<WIDTH>, const WIDTH: usize>(s: &mut [u8], at: usize, v: N)
    requires { at + WIDTH ≤ length s.old }
    ensures { s.new ≡ put at (le WIDTH (N.value v)) s.old }
{
    copy(s, at, &v.to_bytes());
}

// The bytes of a block joined: many are tested a step, where `all` tests one by one and takes eight times as long.
fn joins_to_zero(s: &[u8]) -> bool
    ensures { result ≡ is_zero s.now }
{
    s.iter().fold(0, |any, b| any | *b) == 0
}

// Every byte is 0. The first block that has another byte ends it.
pub fn is_zero(s: &[u8]) -> bool
    ensures { result ≡ is_zero s.now }
{
    let (blocks, rest) = s.as_chunks::<64>();
    blocks.iter().all(|block| joins_to_zero(block)) && joins_to_zero(rest)
}

// The first eight bytes of both, as one number, are the same; of fewer nothing is told.
fn begins_alike(a: &[u8], b: &[u8]) -> bool
    ensures { same_bytes a.now b.now ≡ true → result ≡ true }
{
    match (a.first_chunk(), b.first_chunk()) {
        (Some(x), Some(y)) => u64::from_bytes(x) == u64::from_bytes(y),
        _ => true,
    }
}

fn is_equal(a: &[u8], b: &[u8]) -> bool
    ensures { result ≡ same_bytes a.now b.now }
{
    a == b
}

// The two are of one length and hold the same bytes. Most that differ do so in the first eight, where `==` is a call.
pub fn same(a: &[u8], b: &[u8]) -> bool
    ensures { result ≡ same_bytes a.now b.now }
{
    begins_alike(a, b) && is_equal(a, b)
}

// Writes all of src into dst from at on.
pub fn copy(dst: &mut [u8], at: usize, src: &[u8])
    requires { at + length src.now ≤ length dst.old }
    ensures { dst.new ≡ put at src.now dst.old }
{
    dst[at..at + src.len()].copy_from_slice(src);
}

// Sets every byte to v.
pub fn fill(s: &mut [u8], v: u8)
    ensures { s.new ≡ replicate (length s.old) v }
{
    s.fill(v);
}

// Each two elements pass, the earlier first; r is any test that the closure computes.
pub fn pairs<T, F: Fn(&T, &T) -> bool>(xs: &[T], passes: F) -> bool
    requires { F.IsAlwaysCallable passes }
    ensures { (r : T → T → Bool) → ((x y : T) (b : Bool) → FnReturnsAtPair F.Fn passes x y b → b ≡ r x y)
        → result ≡ pairs r xs.now }
{
    let mut left = xs;
    while let Some((x, later)) = left.split_first() {
        for y in later {
            if !passes(x, y) {
                return false;
            }
        }
        left = later;
    }
    true
}
