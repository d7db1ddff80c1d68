// Header and guard of a block, on the part of the arena that its slot owns.
//
// The owned bytes of a slot of class c: 16d bytes before the header, 4 of header, n requested, and the reserved ones, which begin with
// a zero and end in the guard.
#![tactic(auto)]

ghost use Rattle.std.specs.Prelude.{◌≡◌, ◌∷◌, ◌++◌, ◌+◌, ◌*◌, ◌-◌, ◌≤◌, ◌<◌, length};
ghost use Rattle.mem.specs.Bytes.{zeros, put, part};
ghost use Rattle.classes.specs.Classes.{slot_bytes};
ghost use Rattle.model.specs.Blocks.{reserved, header, guard, spare, frame, guard_right, damage_in};

use model::Refusal;

// A block as it is framed: its slot's class and number, the displacement of its start there, and its size.
#[derive(Clone, Copy)]
pub struct Framed {
    pub class: usize,
    pub slot: usize,
    pub disp: usize,
    pub size: usize,
    pub ghost class_bound: { class < 48 },
    pub ghost slot_bound: { slot < 32 },
    pub ghost fits: { 16 * disp + size + 4 ≤ slot_bytes class },
}

// The guard of five reserved bytes or more.
fn guard(r: usize) -> [u8; 5]
    requires { (5 ≤ r) × (r < 131072) }
    ensures { result ≡ guard r }
{
    let [a, b, c, d] = (r as u32).to_le_bytes();
    [0, a, b, c, d]
}

// Where a method takes the slot's bytes, its caller has them from the slot's length.
impl Framed {
    // The bytes that the slot owns.
    pub fn bytes(self) -> usize
        ensures value { result ≡ slot_bytes self.class }
        ensures small { result < 131072 }
    {
        16 * classes::units(self.class)
    }

    // The bytes between the requested ones and the slot's end.
    fn reserved(self, bytes: usize) -> usize
        requires { bytes ≡ slot_bytes self.class }
        ensures value { result ≡ reserved self.class self.disp self.size }
        ensures small { result < 131072 }
    {
        bytes - 4 - 16 * self.disp - self.size
    }

    // The header: the slot number beside the reserved count up to 5, and the units from the group's first slot to the header.
    fn header(self, bytes: usize) -> [u8; 4]
        requires { bytes ≡ slot_bytes self.class }
        ensures { result ≡ header self.class self.slot self.disp self.size }
    {
        let second = self.slot + 32 * self.reserved(bytes).min(5);
        let place = self.slot * (bytes / 16) + self.disp;
        let [low, high, ..] = (place as u32).to_le_bytes();
        [0, second as u8, low, high]
    }

    // Writes the header, byte by byte.
    fn write_header(self, slot: &mut [u8])
        requires { length slot.old ≡ slot_bytes self.class }
        ensures { slot.new ≡ put (16 * self.disp) (header self.class self.slot self.disp self.size) slot.old }
    {
        let [a, b, c, d] = self.header(slot.len());
        let at = 16 * self.disp;
        slot[at] = a;
        slot[at + 1] = b;
        slot[at + 2] = c;
        slot[at + 3] = d;
    }

    // Writes the reserved bytes, which stand last in the slot.
    fn write_spare(self, slot: &mut [u8])
        requires { length slot.old ≡ slot_bytes self.class }
        ensures { slot.new
            ≡ put (16 * self.disp + 4 + self.size) (spare (reserved self.class self.disp self.size)) slot.old }
    {
        let end = slot.len();
        let r = self.reserved(end);
        mem::clear(slot, end - r, end);
        if r < 5 {
            return;
        }
        let g = guard(r);
        mem::copy_in(slot, end - 5, &g);
    }

    // Whether the byte right after the requested ones is 0, where it is a reserved one, and the guard is that due.
    fn guard_right(self, slot: &[u8]) -> bool
        requires { length slot.now ≡ slot_bytes self.class }
        ensures { result ≡ guard_right self.class self.disp self.size slot.now }
    {
        let end = slot.len();
        let r = self.reserved(end);
        if r == 0 {
            return true;
        }
        if slot[end - r] != 0 {
            return false;
        }
        if r < 5 {
            return true;
        }
        let g = guard(r);
        mem::same_bytes(&slot[end - 5..end], &g)
    }

    // Whether the header and the guard are those due.
    fn inspect(self, slot: &[u8]) -> Result<(), Refusal>
        requires { length slot.now ≡ slot_bytes self.class }
        ensures { result ≡ damage_in self.class self.slot self.disp self.size slot.now }
    {
        let at = 16 * self.disp;
        let h = self.header(slot.len());
        if !mem::same_bytes(&slot[at..at + 4], &h) {
            return Err(Refusal::HeaderDamaged);
        }
        if !self.guard_right(slot) {
            return Err(Refusal::Overrun);
        }
        Ok(())
    }

    // Lays the block out in its slot: zeros, then header and guard (mallocng's enframe).
    fn enframe(self, slot: &mut [u8])
        requires { length slot.old ≡ slot_bytes self.class }
        ensures { slot.new ≡ frame self.class self.slot self.disp self.size }
    {
        mem::fill_zero(slot);
        self.write_header(slot);
        self.write_spare(slot);
    }

    // Lays the block out where one of another size stands at the same start: the first bytes stay, as many as the lesser of both sizes.
    fn reframe(self, slot: &mut [u8], kept: usize)
        requires slot_len { length slot.old ≡ slot_bytes self.class }
        requires kept_le_size { kept ≤ self.size }
        ensures { slot.new
            ≡ put (16 * self.disp + 4 + kept) (zeros (self.size - kept) ++ spare (reserved self.class self.disp self.size))
            (put (16 * self.disp) (header self.class self.slot self.disp self.size) slot.old) }
    {
        let start = 16 * self.disp + 4;
        self.write_header(slot);
        mem::clear(slot, start + kept, start + self.size);
        self.write_spare(slot);
    }

    // The same over the whole arena, with the place of the slot's first owned byte: the slot's part is handed on.
    pub fn inspect_at(self, arena: &[u8], at: usize) -> Result<(), Refusal>
        requires { at + slot_bytes self.class ≤ length arena.now }
        ensures { result ≡ damage_in self.class self.slot self.disp self.size (part at (slot_bytes self.class) arena.now) }
    {
        self.inspect(&arena[at..at + self.bytes()])
    }

    // The slot's end is told too, by a caller that has it.
    pub fn enframe_at(self, arena: &mut [u8], at: usize, end: usize)
        requires { (end ≤ length arena.old) × (end ≡ at + slot_bytes self.class) }
        ensures { arena.new ≡ put at (frame self.class self.slot self.disp self.size) arena.old }
    {
        self.enframe(&mut arena[at..end]);
    }

    pub fn reframe_at(self, arena: &mut [u8], at: usize, kept: usize)
        requires at_bound { at + slot_bytes self.class ≤ length arena.old }
        requires kept_le_size { kept ≤ self.size }
        ensures { arena.new
            ≡ put (at + (16 * self.disp + 4 + kept)) (zeros (self.size - kept) ++ spare (reserved self.class self.disp self.size))
            (put (at + 16 * self.disp) (header self.class self.slot self.disp self.size) arena.old) }
    {
        self.reframe(&mut arena[at..at + self.bytes()], kept);
    }
}
