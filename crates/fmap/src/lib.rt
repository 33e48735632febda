#![tactic(auto)]

// The flash map of an image: finding it, reading its areas, carrying preserved areas to another image.
ghost use Rattle.std.specs.Prelude.{◌≡◌, ◌-◌, ◌≤◌, ◌<◌, length, map, position, eqb, MatchResult, IfSome};
ghost use Rattle.std.specs.Option.{option_map_or};
ghost use Rattle.octets.specs.Tests.{any, find_ix};
ghost use Rattle.octets.specs.Rows.{refusal};
ghost use Rattle.octets.specs.Bytes.{rest};
ghost use Rattle.fmap_rules.specs.Map.{signature, area_of, areas_of};
ghost use Rattle.fmap_rules.specs.declared.ImagePosition.{ImagePosition};
ghost use Rattle.fmap.specs.declared.MapFault.TheVariants.{Breaks};
ghost use Rattle.fmap.specs.declared.CarryRefusal.TheVariants.{Map, Areas};
ghost use Rattle.fmap.specs.Lowest.{first_from};
ghost use Rattle.fmap.specs.Find.{accepted, refused, number_of, found_reply, out_of_range, signed_at, find_map};
ghost use Rattle.fmap.specs.Faults.{fault_reply, fault_at};
ghost use Rattle.fmap.specs.Carry.{carried_number, standing_number, place_rows, carry_at, carry_images};
ghost use Rattle.fmap.specs.Areas.{count_reply, index_reply, looked, count_areas, area_in, area_numbered, area_named, called, index_in, index_named};

use fmap_carry::Conflict;
use fmap_rules::{Area, AreaBytes, ImagePosition, MapRule};

// Why no map is found, or none stands at a position.
#[derive(Clone, Copy, PartialEq, Eq)]
pub enum NoMap {
    WrongLength,
    NoSignature,
    NoGoodMap,
}

// Why a map at a position is not good.
#[derive(Clone, Copy, PartialEq, Eq)]
pub enum MapFault {
    Breaks(MapRule),
    WrongLength,
}

// Why a carry is refused. What is wrong with a map is of the old image, or else of the new one.
#[derive(Clone, Copy, PartialEq, Eq)]
pub enum CarryRefusal {
    Map(NoMap),
    Areas(Conflict),
}

impl From<MapRule> for MapFault {
    ghost from_gives = { λ e r. r ≡ Breaks e };

    fn from(rule: MapRule) -> MapFault {
        MapFault::Breaks(rule)
    }
}

impl From<NoMap> for CarryRefusal {
    ghost from_gives = { λ e r. r ≡ Map e };

    fn from(e: NoMap) -> CarryRefusal {
        CarryRefusal::Map(e)
    }
}

impl From<Conflict> for CarryRefusal {
    ghost from_gives = { λ e r. r ≡ Areas e };

    fn from(e: Conflict) -> CarryRefusal {
        CarryRefusal::Areas(e)
    }
}

fn is_out_of_range(image: &[u8]) -> bool
    ensures { result ≡ out_of_range (length image.now) }
{
    image.len() < 98 || 16777216 < image.len()
}

// One of the signature's bytes 41, 46, 4D, 50, 5F hex: bits 1, 6, 13, 16 and 31 of the number, for the bytes 40 to 7F hex.
// One number is compared, since a branch that depends on the image's bytes is often predicted wrongly.
fn is_letter(b: u8) -> bool
    ensures { result ≡ any (eqb b) signature }
{
    let low = (b % 64) as u64;
    let high = (b / 64) as u64;
    (0x80012042u64 >> low) % 2 + (2u64 >> high) % 2 == 2
}

// The lowest position from `from` on where the signature stands. Eight bytes whose last is no byte of the
// signature hold no start of one: the loop counts by eight or by one, which no iterator does.
fn next_signed(image: &[u8], from: ImagePosition) -> Option<ImagePosition>
    requires { (from.0 ≤ length image.now) × (length image.now ≤ 16777216) }
    ensures next { option_map_or (λ p. p.0) result (length image.now)
        ≡ first_from (length image.now - from.0) from.0 (signed_at image.now) }
    ensures within { IfSome result (λ p. p.0 < length image.now) }
{
    let mut i = from.0 as usize;
    while i + 8 <= image.len() {
        if is_letter(image[i + 7]) {
            if fmap_rules::is_signed(&image[i..]) {
                return Some(ImagePosition(i as u32));
            }
            i += 1;
        } else {
            i += 8;
        }
    }
    None
}

// Finds the lowest good map. Two signatures share two bytes at most, so the next one starts six bytes on or later.
pub fn find(image: &[u8]) -> Result<ImagePosition, NoMap>
    ensures { found_reply result ≡ find_map image.now }
{
    if is_out_of_range(image) {
        return Err(NoMap::WrongLength);
    }
    let mut at = next_signed(image, ImagePosition(0)).ok_or(NoMap::NoSignature)?;
    while !fmap_rules::good_at(image, at) {
        at = next_signed(image, ImagePosition(at.0 + 6)).ok_or(NoMap::NoGoodMap)?;
    }
    Ok(at)
}

// The first rule that a map at a position breaks. Any position may be asked for.
pub fn fault_at(image: &[u8], at: ImagePosition) -> Result<(), MapFault>
    ensures { fault_reply result ≡ fault_at image.now at.0 }
{
    if is_out_of_range(image) {
        return Err(MapFault::WrongLength);
    }
    fmap_rules::judge(image, at)?;
    Ok(())
}

// The areas of the map that is found.
fn found_areas(image: &[u8]) -> Result<&[AreaBytes], NoMap>
    ensures { MatchResult result
        (λ areas. (p : ImagePosition) × (find_map image.now ≡ accepted p)
        × (map area_of areas.now ≡ areas_of (rest p.0 image.now)) × (length areas.now ≤ 128))
        (λ e. find_map image.now ≡ refused (number_of e)) }
{
    let at = find(image)?;
    Ok(fmap_rules::areas_at(image, at))
}

// How many areas the map has.
pub fn area_count(image: &[u8]) -> Result<u32, NoMap>
    ensures { count_reply result ≡ count_areas image.now }
{
    Ok(found_areas(image)?.len() as u32)
}

// An area's 42 bytes as a value. No `From`: the type is of another crate, and the edit area_flags_from_name changes a line here.
fn read_area(a: &AreaBytes) -> Area
    ensures { result ≡ area_of a.now }
{
    Area {
        place: fmap_rules::extent_of(a),
        name: *fmap_rules::name_of(a),
        flags: octets::load(a, 40),
    }
}

fn area_in(areas: &[AreaBytes], k: usize) -> Option<Area>
    ensures { looked (Ok result) ≡ area_in (map area_of areas.now) k }
{
    Some(read_area(areas.get(k)?))
}

// Area k of the map, from 0.
pub fn area(image: &[u8], k: u64) -> Result<Option<Area>, NoMap>
    ensures { looked result ≡ area_numbered image.now k }
{
    Ok(area_in(found_areas(image)?, k as usize))
}

fn is_called(a: &AreaBytes, name: &[u8]) -> bool
    ensures { result ≡ called name.now (area_of a.now) }
{
    let n = fmap_rules::name_of(a);
    octets::same(&n[..fmap_rules::name_length(n)], name)
}

// The number of the first area with a name.
fn find_called(areas: &[AreaBytes], name: &[u8]) -> Option<usize>
    ensures { result ≡ position (called name.now) (map area_of areas.now) }
{
    areas.iter().position(|a| is_called(a, name))
}

fn area_called(areas: &[AreaBytes], name: &[u8]) -> Option<Area>
    ensures { looked (Ok result) ≡ area_in (map area_of areas.now) (find_ix (called name.now) (map area_of areas.now)) }
{
    area_in(areas, find_called(areas, name)?)
}

// The area of the map with a name, given without the zeros that follow it there.
pub fn area_named(image: &[u8], name: &[u8]) -> Result<Option<Area>, NoMap>
    ensures { looked result ≡ area_named image.now name.now }
{
    Ok(area_called(found_areas(image)?, name))
}

fn index_called(areas: &[AreaBytes], name: &[u8]) -> Option<u32>
    requires { length areas.now ≤ 128 }
    ensures { index_reply (Ok result)
        ≡ accepted (index_in (map area_of areas.now) (find_ix (called name.now) (map area_of areas.now))) }
{
    Some(find_called(areas, name)? as u32)
}

// The number, from 0, of the area of the map with a name, given without the zeros that follow it there.
pub fn area_index(image: &[u8], name: &[u8]) -> Result<Option<u32>, NoMap>
    ensures { index_reply result ≡ index_named image.now name.now }
{
    Ok(index_called(found_areas(image)?, name))
}

// The signature stands at a position.
fn is_signed_at(image: &[u8], at: ImagePosition) -> bool
    ensures { result ≡ signed_at image.now at.0 }
{
    let at = at.0 as usize;
    at <= image.len() && fmap_rules::is_signed(&image[at..])
}

// What keeps a good map from standing at a position.
fn stands_at(image: &[u8], at: ImagePosition) -> Result<(), NoMap>
    ensures { standing_number result ≡ refusal (place_rows image.now at.0) }
{
    if is_out_of_range(image) {
        return Err(NoMap::WrongLength);
    }
    if !is_signed_at(image, at) {
        return Err(NoMap::NoSignature);
    }
    if !fmap_rules::good_at(image, at) {
        return Err(NoMap::NoGoodMap);
    }
    Ok(())
}

// Carries the preserved areas of the old image to the new one, by the maps at two positions.
pub fn carry_at(
    old: &[u8],
    at: ImagePosition,
    new: &mut [u8],
    bt: ImagePosition,
) -> Result<(), CarryRefusal>
    ensures { record { answer = carried_number result; image = new.new } ≡ carry_at old.now at.0 new.old bt.0 }
{
    stands_at(old, at)?;
    stands_at(new, bt)?;
    fmap_carry::carry_by(old, at, new, bt)?;
    Ok(())
}

// Carries the preserved areas of the old image to the new one, by the maps that are found.
pub fn carry(old: &[u8], new: &mut [u8]) -> Result<(), CarryRefusal>
    ensures { record { answer = carried_number result; image = new.new } ≡ carry_images old.now new.old }
{
    let at = find(old)?;
    let bt = find(new)?;
    carry_at(old, at, new, bt)
}
