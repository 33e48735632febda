#![tactic(auto)]

// The flash map calls for C.
ghost use Rattle.std.specs.Prelude.{◌≡◌, length};
ghost use Rattle.octets.specs.Rows.{code_of};
ghost use Rattle.fmap.specs.Find.{number_of, find_map};
ghost use Rattle.fmap.specs.Faults.{fault_at};
ghost use Rattle.fmap.specs.Areas.{looked, area_numbered, index_named};
ghost use Rattle.fmap.specs.Carry.{carried_number, carry_images};
ghost use Rattle.c_flash.specs.Effects.{find_effect, position_of, fault_effect, area_effect, looked_effect, named_effect, carry_effect};

use fmap::{CarryRefusal, MapFault, NoMap};
use fmap_carry::Conflict;
use fmap_rules::{Area, ImagePosition};

fn number_of(e: NoMap) -> u32
    ensures { result ≡ number_of e }
{
    match e {
        NoMap::WrongLength => 40,
        NoMap::NoSignature => 41,
        NoMap::NoGoodMap => 42,
    }
}

#[unsafe(no_mangle)]
pub extern "C" fn usi_fmap_find(image: &[u8], position: &mut u64) -> u32
    ensures { record { result = result; value = position.new } ≡ find_effect position.old (find_map image.now) }
{
    match fmap::find(image) {
        Ok(p) => {
            *position = u64::from(p.0);
            0
        }
        Err(e) => number_of(e),
    }
}

// The position that a number stands for; 2^32 - 1 and all above it lie behind every image.
fn position_of(n: u64) -> ImagePosition
    ensures { result.0 ≡ position_of n }
{
    ImagePosition(u32::try_from(n).unwrap_or(u32::MAX))
}

#[unsafe(no_mangle)]
pub extern "C" fn usi_fmap_fault(image: &[u8], position: u64, rule: &mut u64) -> u32
    ensures { record { result = result; value = rule.new } ≡ fault_effect rule.old (fault_at image.now position) }
{
    match fmap::fault_at(image, position_of(position)) {
        Ok(()) => {
            *rule = 0;
            0
        }
        Err(MapFault::Breaks(broken)) => {
            *rule = u64::from(broken.number());
            0
        }
        Err(MapFault::WrongLength) => 40,
    }
}

// Writes the area that was found. A slice of 42 bytes: the length is judged by the export, whose line an edit changes (fmap_area_other_length).
fn area_found(found: Result<Option<Area>, NoMap>, area: &mut [u8]) -> u32
    requires { length area.old ≡ 42 }
    ensures { record { result = result; buffer = area.new } ≡ looked_effect area.old (looked found) }
{
    match found {
        Ok(Some(a)) => {
            fmap_write::put_area(area, 0, a);
            0
        }
        Ok(None) => 255, // no such area
        Err(e) => number_of(e),
    }
}

#[unsafe(no_mangle)]
pub extern "C" fn usi_fmap_area(image: &[u8], k: u64, area: &mut [u8]) -> u32
    ensures { record { result = result; buffer = area.new } ≡ area_effect area.old (area_numbered image.now k) }
{
    if area.len() != 42 {
        return 1;
    }
    area_found(fmap::area(image, k), area)
}

#[unsafe(no_mangle)]
pub extern "C" fn usi_fmap_named(image: &[u8], name: &[u8], k: &mut u64) -> u32
    ensures { record { result = result; value = k.new } ≡ named_effect k.old (index_named image.now name.now) }
{
    match fmap::area_index(image, name) {
        Ok(Some(i)) => {
            *k = u64::from(i);
            0
        }
        Ok(None) => 255, // no area has the name
        Err(e) => number_of(e),
    }
}

fn carried(c: Result<(), CarryRefusal>) -> u32
    ensures { result ≡ code_of (carried_number c) }
{
    match c {
        Ok(()) => 0,
        Err(CarryRefusal::Map(e)) => number_of(e),
        Err(CarryRefusal::Areas(Conflict::Missing)) => 60,
        Err(CarryRefusal::Areas(Conflict::OtherSize)) => 61,
        Err(CarryRefusal::Areas(Conflict::Shared)) => 62,
        Err(CarryRefusal::Areas(Conflict::OnMap)) => 63,
    }
}

#[unsafe(no_mangle)]
pub extern "C" fn usi_fmap_carry(old: &[u8], image: &mut [u8]) -> u32
    ensures { record { result = result; buffer = image.new } ≡ carry_effect (carry_images old.now image.old) }
{
    carried(fmap::carry(old, image))
}
