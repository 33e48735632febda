#![tactic(auto)]

// The calls of the layout language for C.
ghost use Rattle.std.specs.Prelude.{◌≡◌, [], ◌∷◌, length};
ghost use Rattle.fmd.specs.Calls.{reading, read_text, record_text, write_text};
ghost use Rattle.c_layout.specs.Effects.{image_effect, read_effect, records_effect, write_effect};

use fmd::{Image, Refusal};

// Hands an accepted image out.
fn hand_out(
    answer: &Result<Image, Refusal>,
    name: &mut [u8],
    size: &mut u64,
    address: &mut u64,
    count: &mut u64,
) -> u32
    requires { length name.old ≡ 32 }
    ensures { record { result = result; name = name.new; values = size.new ∷ address.new ∷ count.new ∷ [] }
        ≡ image_effect name.old (size.old ∷ address.old ∷ count.old ∷ []) (reading answer.now) }
{
    if let Ok(i) = answer {
        name.copy_from_slice(&i.name);
        *size = i.size as u64;
        *address = i.address as u64;
        *count = i.count as u64;
    }
    fmd::number(answer)
}

#[tactic(auto, unfolding(crate::specs::Effects::read_effect))]
#[unsafe(no_mangle)]
pub extern "C" fn usi_fmd_read(
    text: &[u8],
    name: &mut [u8],
    size: &mut u64,
    address: &mut u64,
    count: &mut u64,
) -> u32
    ensures { record { result = result; name = name.new; values = size.new ∷ address.new ∷ count.new ∷ [] }
        ≡ read_effect name.old (size.old ∷ address.old ∷ count.old ∷ []) (read_text text.now) }
{
    if name.len() != 32 {
        return 1;
    }
    let answer = fmd::read(text);
    hand_out(&answer, name, size, address, count)
}

#[unsafe(no_mangle)]
pub extern "C" fn usi_fmd_records(text: &[u8], records: &mut [u8], count: &mut u64) -> u32
    ensures { record { result = result; records = records.new; count = count.new }
        ≡ records_effect count.old (record_text text.now records.old) }
{
    let answer = fmd::put_records(text, records);
    if let Ok(image) = &answer {
        *count = image.count as u64;
    }
    fmd::number(&answer)
}

#[unsafe(no_mangle)]
pub extern "C" fn usi_fmd_write(text: &[u8], image: &mut [u8]) -> u32
    ensures { record { result = result; image = image.new } ≡ write_effect (write_text text.now image.old) }
{
    let answer = fmd::write_map(text, image);
    fmd::number(&answer)
}
