#![tactic(auto)]

// The bytes of a flash map, written into an image.
// An inner crate: no user calls it, so its functions may have a `requires`, which each caller meets.
ghost use Rattle.std.specs.Prelude.{List, ◌≡◌, ◌+◌, ◌≤◌, length};
ghost use Rattle.octets.specs.Bytes.{part, put};
ghost use Rattle.fmap_rules.specs.Written.{area_bytes, map_bytes};

use fmap_rules::Area;

// An area's 42 bytes, at a place of the slice, as `octets::copy` and `octets::store` take it.
pub fn put_area(to: &mut [u8], at: usize, a: Area)
    requires { at + 42 ≤ length to.old }
    ensures { (to.new ≡ put at (area_bytes a) to.old) × (length (area_bytes a) ≡ 42) }
{
    let name = a.name;
    octets::store(to, at, a.place.start.0);
    octets::store(to, at + 4, a.place.size);
    octets::copy(to, at + 8, &name);
    octets::store(to, at + 40, a.flags);
}

// The first 56 bytes of a map with that many areas, for version 1.minor and an image of size bytes.
pub fn put_header(
    to: &mut [u8],
    at: usize,
    size: u32,
    name: [u8; 32],
    base: u64,
    minor: u8,
    count: u16,
)
    requires { at + 56 ≤ length to.old }
    ensures { (areas : List Area) → count ≡ length areas
        → to.new ≡ put at (part 0 56 (map_bytes size name base minor areas)) to.old }
{
    let start = [b'_', b'_', b'F', b'M', b'A', b'P', b'_', b'_', 1, minor];
    octets::copy(to, at, &start);
    octets::store(to, at + 10, base);
    octets::store(to, at + 18, size);
    octets::copy(to, at + 22, &name);
    octets::store(to, at + 54, count);
}
