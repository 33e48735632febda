#![tactic(auto)]

// What a good flash map at a position of an image is.
// An inner crate: no user calls it, so its functions may have a `requires`, which each caller meets.
ghost use Rattle.std.specs.Prelude.{◌≡◌, true, ◌+◌, ◌*◌, ◌≤◌, ◌<◌, length, map, position};
ghost use Rattle.octets.specs.Tests.{any, pairs};
ghost use Rattle.octets.specs.Bytes.{rest};
ghost use Rattle.octets.specs.Rows.{refusal};
ghost use Rattle.fmap_rules.specs.Map.{signed, name_length, legal_name, area_of, areas_of, named, end_of, disjoint, inside};
ghost use Rattle.fmap_rules.specs.Map.{disjoint_or_nested, map_size, count_of, holds_map, header_rows, area_rows, map_rows, good_map};
ghost use Rattle.fmap_rules.specs.Map.{empty, ends_past, misnamed, other_name, good_places};
ghost use Rattle.fmap_rules.specs.Rules.{rule_number, broken};

// A byte's position in a flash image.
#[derive(Clone, Copy, PartialEq, Eq, Default)]
pub struct ImagePosition(pub u32);

// A run of bytes in a flash image.
#[derive(Clone, Copy, Default)]
pub struct Extent {
    pub start: ImagePosition,
    pub size: u32,
}

// An area of a map.
#[derive(Clone, Copy)]
pub struct Area {
    pub place: Extent,
    pub name: [u8; 32],
    pub flags: u16,
}

// An area as a map holds it.
pub type AreaBytes = [u8; 42];

// "FMAP" as a map holds it.
pub const FMAP_NAME: &[u8; 32] = b"FMAP\0\0\0\0\0\0\0\0\0\0\0\0\0\0\0\0\0\0\0\0\0\0\0\0\0\0\0\0";

// The rules of a map in the order of their numbers, which begin at 1.
#[derive(Clone, Copy, PartialEq, Eq)]
pub enum MapRule {
    Signature = 1,
    HeaderEnd,
    Major,
    Minor,
    ImageSize,
    NoArea,
    TooManyAreas,
    MapEnd,
    Name,
    AreaSize,
    AreaEnd,
    AreaName,
    MapArea,
    SameName,
    Crossing,
}

impl MapRule {
    pub fn number(self) -> u32
        ensures { result ≡ rule_number self }
    {
        self as u32
    }
}

impl Extent {
    // One past the last byte.
    pub fn end(self) -> u64
        ensures { result ≡ end_of self }
    {
        u64::from(self.start.0) + u64::from(self.size)
    }

    pub fn is_disjoint(self, other: Extent) -> bool
        ensures { result ≡ disjoint self other }
    {
        self.end() <= u64::from(other.start.0) || other.end() <= u64::from(self.start.0)
    }

    fn is_inside(self, other: Extent) -> bool
        ensures { result ≡ inside self other }
    {
        other.start.0 <= self.start.0 && self.end() <= other.end()
    }

    fn is_disjoint_or_nested(self, other: Extent) -> bool
        ensures { result ≡ disjoint_or_nested self other }
    {
        self.is_disjoint(other) || self.is_inside(other) || other.is_inside(self)
    }
}

pub fn extent_of(a: &AreaBytes) -> Extent
    ensures { result ≡ (area_of a.now).place }
{
    Extent {
        start: ImagePosition(octets::load(a, 0)),
        size: octets::load(a, 4),
    }
}

pub fn name_of(a: &AreaBytes) -> &[u8; 32]
    ensures { result.now ≡ (area_of a.now).name }
{
    a[8..40].first_chunk().unwrap()
}

// How many of the first bytes are a name's.
pub fn name_length(n: &[u8]) -> usize
    ensures { (result ≡ name_length n.now) × (result ≤ length n.now) }
{
    n.iter()
        .position(|b| !b.is_ascii_graphic())
        .unwrap_or(n.len())
}

pub fn is_legal_name(n: &[u8]) -> bool
    ensures { result ≡ legal_name n.now }
{
    let k = name_length(n);
    1 <= k && k <= 31 && octets::is_zero(&n[k..])
}

// A map's own area: it starts where the map does and holds all of its bytes.
fn is_holder(a: &AreaBytes, at: ImagePosition, count: usize) -> bool
    requires { count ≤ 128 }
    ensures { result ≡ holds_map at.0 count (area_of a.now) }
{
    octets::same(FMAP_NAME, name_of(a))
        && extent_of(a).start == at
        && 56 + 42 * (count as u64) <= u64::from(extent_of(a).size)
}

fn some_empty(areas: &[AreaBytes]) -> bool
    ensures { result ≡ any empty (map area_of areas.now) }
{
    areas.iter().any(|a| extent_of(a).size == 0)
}

fn some_past(areas: &[AreaBytes], len: usize) -> bool
    ensures { result ≡ any (ends_past len) (map area_of areas.now) }
{
    areas.iter().any(|a| (len as u64) < extent_of(a).end())
}

fn some_misnamed(areas: &[AreaBytes]) -> bool
    ensures { result ≡ any misnamed (map area_of areas.now) }
{
    areas.iter().any(|a| !is_legal_name(name_of(a)))
}

fn some_holder(areas: &[AreaBytes], at: ImagePosition) -> bool
    requires { length areas.now ≤ 128 }
    ensures { result ≡ any (holds_map at.0 (length areas.now)) (map area_of areas.now) }
{
    areas.iter().any(|a| is_holder(a, at, areas.len()))
}

fn names_differ(areas: &[AreaBytes]) -> bool
    ensures { result ≡ pairs other_name (map area_of areas.now) }
{
    octets::pairs(areas, |a, b| name_of(b) != name_of(a))
}

fn none_cross(areas: &[AreaBytes]) -> bool
    ensures { result ≡ pairs good_places (map area_of areas.now) }
{
    octets::pairs(areas, |a, b| {
        extent_of(a).is_disjoint_or_nested(extent_of(b))
    })
}

// The first rule that the areas break. Each area, the area FMAP, then each two: what costs least comes first.
fn judge_areas(areas: &[AreaBytes], len: usize, at: ImagePosition) -> Result<(), MapRule>
    requires { length areas.now ≤ 128 }
    ensures { broken result ≡ refusal (area_rows len at.0 (map area_of areas.now)) }
{
    if some_empty(areas) {
        return Err(MapRule::AreaSize);
    }
    if some_past(areas, len) {
        return Err(MapRule::AreaEnd);
    }
    if some_misnamed(areas) {
        return Err(MapRule::AreaName);
    }
    if !some_holder(areas, at) {
        return Err(MapRule::MapArea);
    }
    if !names_differ(areas) {
        return Err(MapRule::SameName);
    }
    if !none_cross(areas) {
        return Err(MapRule::Crossing);
    }
    Ok(())
}

// The number of the first area with a name.
pub fn find_named(areas: &[AreaBytes], name: &[u8]) -> Option<usize>
    ensures { result ≡ position (named name.now) (map area_of areas.now) }
{
    areas.iter().position(|a| octets::same(name, name_of(a)))
}

fn count_of(m: &[u8]) -> usize
    requires { 56 ≤ length m.now }
    ensures { result ≡ count_of m.now }
{
    usize::from(octets::load::<u16, _>(m, 54))
}

// All areas.
fn areas_part(m: &[u8]) -> &[AreaBytes]
    requires { map_size (count_of m.now) ≤ length m.now }
    ensures { (map area_of result.now ≡ areas_of m.now) × (length result.now ≡ count_of m.now) }
{
    let (areas, _) = m[56..56 + 42 * count_of(m)].as_chunks();
    areas
}

// The bytes begin with the signature.
pub fn is_signed(m: &[u8]) -> bool
    ensures { result ≡ signed m.now }
{
    m.starts_with(b"__FMAP__")
}

// The first rule that the header breaks. The fields that are compared with a number come before the name.
fn judge_header(m: &[u8], len: usize) -> Result<(), MapRule>
    ensures { broken result ≡ refusal (header_rows len m.now) }
{
    if !is_signed(m) {
        return Err(MapRule::Signature);
    }
    if m.len() < 56 {
        return Err(MapRule::HeaderEnd);
    }
    if m[8] != 1 {
        return Err(MapRule::Major);
    }
    if 1 < m[9] {
        return Err(MapRule::Minor);
    }
    if u64::from(octets::load::<u32, _>(m, 18)) != len as u64 {
        return Err(MapRule::ImageSize);
    }
    let n = count_of(m);
    if n == 0 {
        return Err(MapRule::NoArea);
    }
    if 128 < n {
        return Err(MapRule::TooManyAreas);
    }
    if m.len() < 56 + 42 * n {
        return Err(MapRule::MapEnd);
    }
    if !is_legal_name(&m[22..54]) {
        return Err(MapRule::Name);
    }
    Ok(())
}

// The first rule that a map at a position breaks.
pub fn judge(image: &[u8], at: ImagePosition) -> Result<(), MapRule>
    ensures { broken result ≡ refusal (map_rows image.now at.0) }
{
    let Some(m) = image.get(at.0 as usize..) else {
        return Err(MapRule::Signature);
    };
    judge_header(m, image.len())?;
    judge_areas(areas_part(m), image.len(), at)
}

// A good map stands at a position.
pub fn good_at(image: &[u8], at: ImagePosition) -> bool
    ensures { result ≡ good_map image.now at.0 }
{
    judge(image, at).is_ok()
}

// The areas of a good map.
pub fn areas_at(image: &[u8], at: ImagePosition) -> &[AreaBytes]
    requires { good_map image.now at.0 ≡ true }
    ensures { (map area_of result.now ≡ areas_of (rest at.0 image.now)) × (length result.now ≤ 128) }
{
    areas_part(&image[at.0 as usize..])
}
