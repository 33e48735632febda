#![tactic(auto)]

// Reads layout strings: the disk GUID of a text that is one, and each partition that it asks for.
// An inner crate: no user calls it, so its functions may have a `requires`, which each caller meets.
ghost use Rattle.std.specs.Prelude.{◌≡◌, cond, None, Some};
ghost use Rattle.octets.specs.Ascii.{ascii};
ghost use Rattle.octets.specs.Tests.{◌and◌, all};
ghost use Rattle.guid.specs.Text.{is_guid_text, stored_of};
ghost use Rattle.gpt_string_model.specs.Text.{field_value, has_key, is_partition, wanted_of, parts_of, is_layout, disk_guid_of};

use fields::keyed;
use gpt_string_model::WantedPartition;
use gpt_string_values::cut;

mod fields; // fields.rt: the fields of a partition, one after the other

// The partition p of a layout string.
pub fn partition(p: &[u8]) -> Option<WantedPartition>
    ensures { result ≡ cond (is_partition p.now) (Some (wanted_of p.now)) None }
{
    fields::all_fields(p)?.wanted()
}

// Every part is a partition. b4: a last semicolon may. No `split`: it gives an empty part behind a last semicolon, which does not count.
fn all_partitions(parts: &[u8]) -> bool
    ensures { result ≡ all is_partition (parts_of parts.now) }
{
    let mut rest = parts;
    while !rest.is_empty() {
        let (part, behind) = cut(rest, b';');
        if partition(part).is_none() {
            return false;
        }
        rest = behind;
    }
    true
}

// The disk GUID that the part d gives.
fn disk_in(d: &[u8]) -> Option<[u8; 16]>
    ensures { result ≡ cond (has_key (ascii "uuid_disk=") d.now and is_guid_text (field_value d.now))
        (Some (stored_of (field_value d.now))) None }
{
    let (key, value) = keyed(d);
    if octets::same(key, b"uuid_disk=") {
        gpt_string_values::guid_in(value)
    } else {
        None
    }
}

// The disk GUID of a layout string, as it is stored. b1: "uuid_disk=" first, then one or more partitions parted by semicolons, .. at most 8,192 bytes
pub fn disk_of(text: &[u8]) -> Option<[u8; 16]>
    ensures { result ≡ cond (is_layout text.now) (Some (disk_guid_of text.now)) None }
{
    if 8192 < text.len() {
        return None;
    }
    let (disk, partitions) = cut(text, b';');
    if partitions.is_empty() {
        return None;
    }
    let guid = disk_in(disk)?;
    if all_partitions(partitions) {
        Some(guid)
    } else {
        None
    }
}
