// A partition to be placed.
ghost use Rattle.std.specs.Prelude.{◌≤◌};
ghost use Rattle.gpt_model.specs.Disk.{most_blocks};

use gpt_places::Disk;
use gpt_string_model::WantedPartition;

// What a layout string asks for, the disk that it is to stand on, and the alignment of a start that is not given. `last`: no other partition follows.
#[derive(Clone, Copy)]
pub struct Request {
    pub disk: Disk,
    pub alignment: u64,
    pub wanted: WantedPartition,
    pub last: bool,
    pub ghost few: { disk.n ≤ most_blocks },
}
