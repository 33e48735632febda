#![tactic(auto)]

// Runs samples of the rules and the published CRC-32 vectors (values and sources: host/vectors/crc32.txt), and prints a line for each:
//
//     crc32 LABEL CRC     the CRC-32 of the input of that label
//     guid TEXT BYTES     a GUID text and its stored bytes, or "refused" and the number
//     type TEXT BYTES     the same of a type
//     text BYTES TEXT     stored bytes and the text written for them
//
// The lines of `disk` follow. A second program that shares no code with this one prints the same lines (host/second).
use guid::Refusal;
use std::io;

fn crc(rt: &impl Print, label: &[u8], input: &[u8]) -> io::Result<()> {
    print_out::bytes(rt, b"crc32 ")?;
    print_out::bytes(rt, label)?;
    print_out::bytes(rt, b" ")?;
    print_out::hex32(rt, crc32::crc32(input))?;
    print_out::bytes(rt, b"\n")
}

fn crc_samples(rt: &impl Print) -> io::Result<()> {
    crc(rt, b"check", b"123456789")?;
    crc(rt, b"empty", b"")?;
    crc(rt, b"a", b"a")?;
    crc(rt, b"abc", b"abc")?;
    crc(rt, b"digest", b"message digest")?;
    crc(rt, b"lower", b"abcdefghijklmnopqrstuvwxyz")
}

fn more_crc_samples(rt: &impl Print) -> io::Result<()> {
    crc(
        rt,
        b"alnum",
        b"ABCDEFGHIJKLMNOPQRSTUVWXYZabcdefghijklmnopqrstuvwxyz0123456789",
    )?;
    crc(
        rt,
        b"digits",
        b"12345678901234567890123456789012345678901234567890123456789012345678901234567890",
    )?;
    crc(rt, b"fox", b"The quick brown fox jumps over the lazy dog")?;
    crc(rt, b"zeros32", &[0u8; 32])?;
    crc(rt, b"ones32", &[255u8; 32])?;
    crc(
        rt,
        b"count32",
        b"\x00\x01\x02\x03\x04\x05\x06\x07\x08\x09\x0a\x0b\x0c\x0d\x0e\x0f\x10\x11\x12\x13\x14\x15\x16\x17\x18\x19\x1a\x1b\x1c\x1d\x1e\x1f",
    )
}

// A text that was read: the stored bytes, or the refusal.
fn read_line(
    rt: &impl Print,
    word: &[u8],
    text: &[u8],
    answer: Result<(), Refusal>,
    stored: &[u8],
) -> io::Result<()> {
    print_out::bytes(rt, word)?;
    print_out::bytes(rt, text)?;
    print_out::bytes(rt, b" ")?;
    match answer {
        Ok(()) => print_out::hex(rt, stored)?,
        Err(Refusal::WrongLength) => print_out::bytes(rt, b"refused 1")?,
        Err(Refusal::NotGuidText) => print_out::bytes(rt, b"refused 30")?,
    }
    print_out::bytes(rt, b"\n")
}

fn guid_line(rt: &impl Print, text: &[u8]) -> io::Result<()> {
    let mut stored = [0u8; 16];
    let answer = guid::read(text, &mut stored);
    read_line(rt, b"guid ", text, answer, &stored)
}

fn type_line(rt: &impl Print, text: &[u8]) -> io::Result<()> {
    let mut stored = [0u8; 16];
    let answer = guid::read_type(text, &mut stored);
    read_line(rt, b"type ", text, answer, &stored)
}

fn text_line(rt: &impl Print, stored: &[u8]) -> io::Result<()> {
    print_out::bytes(rt, b"text ")?;
    print_out::hex(rt, stored)?;
    print_out::bytes(rt, b" ")?;
    let mut text = [0u8; 36];
    let _ = guid::write(stored, &mut text);
    print_out::bytes(rt, &text)?;
    print_out::bytes(rt, b"\n")
}

fn guid_samples(rt: &impl Print) -> io::Result<()> {
    guid_line(rt, b"C12A7328-F81F-11D2-BA4B-00A0C93EC93B")?;
    guid_line(rt, b"E3C9E316-0B5C-4DB8-817D-F92DF00215AE")?;
    guid_line(rt, b"EBD0A0A2-B9E5-4433-87C0-68B6B72699C7")?;
    guid_line(rt, b"0FC63DAF-8483-4772-8E79-3D69D8477DE4")?;
    guid_line(rt, b"0657FD6D-A4AB-43C4-84E5-0933C84B4F4F")?;
    guid_line(rt, b"ebd0a0a2-b9e5-4433-87c0-68b6b72699c7")?;
    guid_line(rt, b"0fC63dAf-8483-4772-8e79-3D69d8477dE4")
}

// Of 35 and 37 bytes, with a dash misplaced, with a G, and a short name where a GUID text is due: refused.
fn more_guid_samples(rt: &impl Print) -> io::Result<()> {
    guid_line(rt, b"00000000-0000-0000-0000-000000000000")?;
    guid_line(rt, b"EBD0A0A2-B9E5-4433-87C0-68B6B72699C")?;
    guid_line(rt, b"EBD0A0A2-B9E5-4433-87C0-68B6B72699C70")?;
    guid_line(rt, b"EBD0A0A-2B9E5-4433-87C0-68B6B72699C7")?;
    guid_line(rt, b"EBD0A0A2-B9E5-4433-87C0-68B6B72699CG")?;
    guid_line(rt, b"system")
}

fn type_samples(rt: &impl Print) -> io::Result<()> {
    type_line(rt, b"system")?;
    type_line(rt, b"msft")?;
    type_line(rt, b"data")?;
    type_line(rt, b"linux")?;
    type_line(rt, b"swap")
}

fn more_type_samples(rt: &impl Print) -> io::Result<()> {
    type_line(rt, b"EBD0A0A2-B9E5-4433-87C0-68B6B72699C7")?;
    type_line(rt, b"Data")?;
    type_line(rt, b"esp")?;
    type_line(rt, b"linu")?;
    type_line(rt, b"linuxx")
}

fn text_samples(rt: &impl Print) -> io::Result<()> {
    text_line(
        rt,
        b"\x28\x73\x2a\xc1\x1f\xf8\xd2\x11\xba\x4b\x00\xa0\xc9\x3e\xc9\x3b",
    )?;
    text_line(
        rt,
        b"\x16\xe3\xc9\xe3\x5c\x0b\xb8\x4d\x81\x7d\xf9\x2d\xf0\x02\x15\xae",
    )?;
    text_line(
        rt,
        b"\xa2\xa0\xd0\xeb\xe5\xb9\x33\x44\x87\xc0\x68\xb6\xb7\x26\x99\xc7",
    )?;
    text_line(
        rt,
        b"\xaf\x3d\xc6\x0f\x83\x84\x72\x47\x8e\x79\x3d\x69\xd8\x47\x7d\xe4",
    )?;
    text_line(
        rt,
        b"\x6d\xfd\x57\x06\xab\xa4\xc4\x43\x84\xe5\x09\x33\xc8\x4b\x4f\x4f",
    )?;
    text_line(
        rt,
        b"\x00\x01\x02\x03\x04\x05\x06\x07\x08\x09\x0a\x0b\x0c\x0d\x0e\x0f",
    )?;
    text_line(rt, &[255u8; 16])
}

fn main(rt: HostRuntime) -> io::Result<()> {
    crc_samples(&rt)?;
    more_crc_samples(&rt)?;
    guid_samples(&rt)?;
    more_guid_samples(&rt)?;
    type_samples(&rt)?;
    more_type_samples(&rt)?;
    text_samples(&rt)
}
