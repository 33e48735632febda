#![tactic(auto)]

// CRC and GUID text for C (include/usigrambal.h): numbers, slices, and 0 or the refusal's number.
ghost use Rattle.std.specs.Prelude.{◌≡◌};
ghost use Rattle.octets.specs.Rows.{code_of};
ghost use Rattle.crc_lanes.specs.Crc.{crc32 as crc_of};
ghost use Rattle.guid.specs.Calls.{number_of, read_of, read_type_of, write_of};
ghost use Rattle.c_text.specs.Effects.{effect};

use guid::Refusal;

#[unsafe(no_mangle)]
pub extern "C" fn usi_crc32(bytes: &[u8]) -> u32
    ensures { result ≡ crc_of bytes.now }
{
    crc32::crc32(bytes)
}

// For C a number: 0 where the call is accepted, else its refusal's.
fn code(answer: Result<(), Refusal>) -> u32
    ensures { result ≡ code_of (number_of answer) }
{
    match answer {
        Ok(()) => 0,
        Err(Refusal::WrongLength) => 1,
        Err(Refusal::NotGuidText) => 30,
    }
}

#[unsafe(no_mangle)]
pub extern "C" fn usi_guid_read(text: &[u8], guid: &mut [u8]) -> u32
    ensures { record { result = result; buffer = guid.new } ≡ effect (read_of text.now guid.old) }
{
    code(guid::read(text, guid))
}

#[unsafe(no_mangle)]
pub extern "C" fn usi_type_read(text: &[u8], guid: &mut [u8]) -> u32
    ensures { record { result = result; buffer = guid.new } ≡ effect (read_type_of text.now guid.old) }
{
    code(guid::read_type(text, guid))
}

#[unsafe(no_mangle)]
pub extern "C" fn usi_guid_write(guid: &[u8], text: &mut [u8]) -> u32
    ensures { record { result = result; buffer = text.new } ≡ effect (write_of guid.now text.old) }
{
    code(guid::write(guid, text))
}
