#![tactic(auto)]

// The layout language: a layout text read, listed as sections, and written as a map into an image.
ghost use Rattle.std.specs.Prelude.{map, ◌≡◌, ◌≢◌, ◌+◌, ◌≤◌, length, MatchResult};
ghost use Rattle.octets.specs.Rows.{code_of};
ghost use Rattle.fmd.specs.Calls.{number_of, image_of, reading, read_text, list_record, filled, list_of, list_text, recorded, record_text, written, write_text};
ghost use Rattle.fmd.specs.declared.Refusal.TheVariants.{OfText};

use fmap_rules::{Area, ImagePosition};
use fmap_write::put_header;
use fmd_check::areas::{Areas, stored_name};
use fmd_check::{GoodLayout, LayoutFault};
use fmd_head::Refusal as TextRefusal;
use fmd_table::{NO_PLACE, NO_ROW, ROWS, SPOTS};

// Why a call is refused.
#[derive(Clone, Copy)]
pub enum Refusal {
    WrongLength,
    OfText(TextRefusal),
}

impl From<LayoutFault> for Refusal {
    ghost from_gives = { λ f r. r ≡ OfText f.refusal };

    fn from(f: LayoutFault) -> Refusal {
        Refusal::OfText(f.refusal)
    }
}

// The image that a layout text describes: its name as a map holds it, its size, its address or 0, and how many sections it has.
// The address is no Option: the map stores 0 for none (L17, address_of), and read_text says so.
#[derive(Clone, Copy)]
pub struct Image {
    pub name: [u8; 32],
    pub size: u32,
    pub address: u32,
    pub count: u32,
}

// A section of the image.
#[derive(Clone, Copy)]
pub struct SectionRecord {
    pub position: ImagePosition,
    pub size: u32,
    pub flags: u16,
    pub name: [u8; 32],
}

impl From<Area> for SectionRecord {
    ghost from_gives = { λ a r. r ≡ list_record a };

    fn from(a: Area) -> SectionRecord {
        let name = a.name;
        SectionRecord {
            position: a.place.start,
            size: a.place.size,
            flags: a.flags,
            name,
        }
    }
}

// The number of what a call answers; 0 where the call is accepted.
pub fn number<T>(answer: &Result<T, Refusal>) -> u32
    ensures { result ≡ code_of (number_of answer.now) }
{
    // No From of a refusal: C is handed the number of an accepted call too (ZeroIsAccepted).
    match answer {
        Ok(_) => 0,
        Err(Refusal::WrongLength) => 1,
        Err(Refusal::OfText(r)) => fmd_head::number(*r),
    }
}

fn image_of(text: &[u8], l: GoodLayout) -> Image
    requires { (l.image.place + l.image.length ≤ length text.now) × (l.image.length ≤ 32) × (l.count ≤ 128) }
    ensures { result ≡ image_of text.now l.image l.count }
{
    Image {
        name: stored_name(text, l.image.place as u32, l.image.length as u32),
        size: l.image.size,
        address: l.image.address.unwrap_or(0),
        count: l.count as u32,
    }
}

// Refuses what is lent where it has another length.
fn need_length(length: usize, needed: usize) -> Result<(), Refusal>
    ensures { MatchResult result (λ _. length ≡ needed) (λ r. (r ≡ Refusal.WrongLength) × (length ≢ needed)) }
{
    if length != needed {
        return Err(Refusal::WrongLength);
    }
    Ok(())
}

// Reads a layout text. The tables' three lines stand in each call: a helper over a closure has to hold tables, captures and result, and is no plainer.
pub fn read(text: &[u8]) -> Result<Image, Refusal>
    ensures { reading result ≡ read_text text.now }
{
    let mut rows = [NO_ROW; ROWS];
    let mut spots = [NO_PLACE; SPOTS];
    let l = fmd_check::check(text, &mut rows, &mut spots)?;
    Ok(image_of(text, l))
}

// The sections, one at a time, from the start of the list on.
fn fill(sections: &mut [SectionRecord], areas: &Areas)
    requires { length areas.now ≤ length sections.old }
    ensures { sections.new ≡ filled (map list_record areas.now) sections.old }
{
    for k in 0..areas.count() {
        sections[k] = SectionRecord::from(areas.at(k));
    }
}

// Reads a layout text into the list of sections that the caller lends.
pub fn list(text: &[u8], sections: &mut [SectionRecord]) -> Result<Image, Refusal>
    ensures { list_of result sections.new ≡ list_text text.now sections.old }
{
    need_length(sections.len(), 128)?;
    let mut rows = [NO_ROW; ROWS];
    let mut spots = [NO_PLACE; SPOTS];
    let l = fmd_check::check(text, &mut rows, &mut spots)?;
    fill(sections, &Areas::new(text, &rows, &spots, l.count));
    Ok(image_of(text, l))
}

// Reads a layout text into the bytes that the caller lends: 128 records of 42 bytes, each as an area of a map.
pub fn put_records(text: &[u8], records: &mut [u8]) -> Result<Image, Refusal>
    ensures { recorded result records.new ≡ record_text text.now records.old }
{
    need_length(records.len(), 5376)?;
    let mut rows = [NO_ROW; ROWS];
    let mut spots = [NO_PLACE; SPOTS];
    let l = fmd_check::check(text, &mut rows, &mut spots)?;
    Areas::new(text, &rows, &spots, l.count).put(records, 0);
    Ok(image_of(text, l))
}

// Writes the map of a layout text into an image, and answers where the map stands.
pub fn write_map(text: &[u8], image: &mut [u8]) -> Result<ImagePosition, Refusal>
    ensures { written result image.new ≡ write_text text.now image.old }
{
    let mut rows = [NO_ROW; ROWS];
    let mut spots = [NO_PLACE; SPOTS];
    let l = fmd_check::check(text, &mut rows, &mut spots)?;
    need_length(image.len(), l.image.size as usize)?;
    let areas = Areas::new(text, &rows, &spots, l.count);
    let at = areas.at(l.map).place.start;
    let start = at.0 as usize;
    let x = image_of(text, l);
    put_header(
        image,
        start,
        x.size,
        x.name,
        x.address as u64,
        1,
        l.count as u16,
    );
    areas.put(image, start + 56);
    Ok(at)
}
