#![tactic(auto)]

// The byte functions of `octets`, exported for the benchmark alone: each guards what its callee requires, and answers 0 where that fails.
// No user calls it.
#[unsafe(no_mangle)]
pub extern "C" fn usi_bench_load64(s: &[u8], at: u64) -> u64 {
    let i = at as usize;
    if s.len() < 8 {
        return 0;
    }
    if s.len() - 8 < i {
        return 0;
    }
    octets::load(s, i)
}

#[unsafe(no_mangle)]
pub extern "C" fn usi_bench_store64(s: &mut [u8], at: u64, v: u64) -> u32 {
    let i = at as usize;
    if s.len() < 8 {
        return 0;
    }
    if s.len() - 8 < i {
        return 0;
    }
    octets::store(s, i, v);
    1
}

#[unsafe(no_mangle)]
pub extern "C" fn usi_bench_is_zero(s: &[u8]) -> u32 {
    u32::from(octets::is_zero(s))
}

#[unsafe(no_mangle)]
pub extern "C" fn usi_bench_same(a: &[u8], b: &[u8]) -> u32 {
    u32::from(octets::same(a, b))
}

#[unsafe(no_mangle)]
pub extern "C" fn usi_bench_copy(dst: &mut [u8], src: &[u8]) -> u32 {
    if dst.len() < src.len() {
        return 0;
    }
    octets::copy(dst, 0, src);
    1
}

#[unsafe(no_mangle)]
pub extern "C" fn usi_bench_fill(s: &mut [u8], v: u8) -> u32 {
    octets::fill(s, v);
    1
}
