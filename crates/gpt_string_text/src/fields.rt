// The fields of a partition.
ghost use Rattle.std.specs.Prelude.{◌≡◌, false, [], ◌&&◌, is_some, is_none, OnSome, None};
ghost use Rattle.gpt_string_model.specs.Text.{key_of, field_value, fields_of};
ghost use Rattle.gpt_string_text.specs.Invariants.{fields_in, Takes, all_read, wanted_from};

use gpt_string_model::WantedPartition;
use gpt_string_values::{byte_count, guid_in, name_in, type_in};

// What the fields read so far say: each value, where its field was there.
#[derive(Clone, Copy)]
pub struct Fields {
    name: Option<[u16; 36]>,
    size: Option<u64>,
    unique: Option<[u8; 16]>,
    start: Option<u64>,
    kind: Option<[u8; 16]>,
    attributes: Option<u64>,
}

// A field's key, with its `=`, and its value.
pub fn keyed(f: &[u8]) -> (&[u8], &[u8])
    ensures key { result.0.now ≡ key_of f.now }
    ensures value { result.1.now ≡ field_value f.now }
{
    match f.iter().position(|b| *b == b'=') {
        Some(at) => f.split_at(at + 1),
        None => (f, &[]),
    }
}

// The slot gets the value, where there is one and the slot has none yet.
fn set_once<T: Copy>(slot: &mut Option<T>, value: Option<T>) -> Option<()>
    ensures given { is_some result ≡ (is_none slot.old && is_some value) }
    ensures set { OnSome result (slot.new ≡ value) }
{
    if slot.is_some() {
        return None;
    }
    *slot = Some(value?);
    Some(())
}

impl Fields {
    // No field is read yet.
    fn none() -> Fields
        ensures { result ≡ fields_in [] }
    {
        Fields {
            name: None,
            size: None,
            unique: None,
            start: None,
            kind: None,
            attributes: None,
        }
    }

    // One field more. b4: fields come in any order, each once. (A `match` on the key's bytes is not proved: its arms know nothing of the text.)
    fn take(&mut self, field: &[u8]) -> Option<()>
        ensures { Takes field.now self.old result self.new }
    {
        let (key, value) = keyed(field);
        if octets::same(key, b"name=") {
            set_once(&mut self.name, name_in(value))
        } else if octets::same(key, b"size=") {
            set_once(&mut self.size, byte_count(value))
        } else if octets::same(key, b"uuid=") {
            set_once(&mut self.unique, guid_in(value))
        } else if octets::same(key, b"start=") {
            set_once(&mut self.start, byte_count(value))
        } else if octets::same(key, b"type=") {
            set_once(&mut self.kind, type_in(value))
        } else if octets::same(key, b"bootable") {
            set_once(&mut self.attributes, Some(4))
        } else {
            None
        }
    }

    // What the fields ask for, where those that must be there are. b2: name, size and uuid must be present; type (GUID or short name, else data) and
    // bootable (attribute bit 2)
    pub fn wanted(self) -> Option<WantedPartition>
        ensures { result ≡ wanted_from self }
    {
        Some(WantedPartition {
            name: self.name?,
            size: self.size?,
            unique: self.unique?,
            start: self.start,
            kind: self.kind.or_else(|| type_in(b"data"))?,
            attributes: self.attributes.unwrap_or(0),
        })
    }
}

// All fields of the partition p. What stands behind the last comma is a field too, also where nothing does.
pub fn all_fields(p: &[u8]) -> Option<Fields>
    ensures { result ≡ all_read (fields_of p.now) }
{
    let mut fields = Fields::none();
    for field in p.split(|b| *b == b',') {
        fields.take(field)?;
    }
    Some(fields)
}
