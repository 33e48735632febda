// What the calls on a disk granted and gave back, by calls and replies alone (D22).

// The sums, and the size last accepted for each slot, by its number; the samples use no slot above 7.
#[derive(Clone, Copy, Default)]
pub struct Sums {
    pub granted: u64,
    pub back: u64,
    sizes: [u64; 8],
}

// The size that a slot has after a step, 0 where it was deleted.
#[derive(Clone, Copy)]
pub struct SlotSize {
    pub slot: u64,
    pub size: u64,
}

impl Sums {
    pub fn book(&mut self, new: SlotSize) {
        let at = (new.slot % 8) as usize;
        let last = self.sizes[at];
        self.sizes[at] = new.size;
        self.granted = self.granted.wrapping_add(new.size.saturating_sub(last));
        self.back = self.back.wrapping_add(last.saturating_sub(new.size));
    }
}
