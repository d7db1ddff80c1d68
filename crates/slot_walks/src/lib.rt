// The slots of a group, walked by their records: whether they are sound, and the sum of their requested sizes. Quick loops for groups of ordinary
// blocks and of one alignment, an exact one for others.
#![tactic(auto)]

ghost use Rattle.std.specs.Prelude.{◌≡◌, true, Bool, ◌&&◌, ◌+◌, ◌*◌, ◌/◌, ◌%◌, ◌^◌, ◌≤◌, ◌<◌, length, drop, eqb, Ok, Err, MatchResult};
ghost use Rattle.mem.specs.Lists.{choose};
ghost use Rattle.mem.specs.Bytes.{number, part};
ghost use Rattle.model.specs.Tables.{most_slots, slot_record_bytes, sizes_in};
ghost use Rattle.slot_walks.specs.Slots.{slots_checked, slots_exactly};

use masks::Masks;
use slot_rules::{Alignment, Bounds, Record};

// The slots of a group: where their records stand in the room, how many they are, their bits of the two masks, and the byte of the arena at
// which the first begins.
#[derive(Clone, Copy)]
pub struct Slots {
    pub at: usize,
    pub n: usize,
    pub masks: Masks,
    pub begin: usize,
    pub ghost few: { n ≤ most_slots },
    pub ghost on_unit: { (begin < 8388608) × (begin % 16 ≡ 0) },
}

// Whether bit i of a mask is set.
fn has(m: u32, i: usize) -> bool
    requires { i < 32 }
    ensures { result ≡ eqb (m / 2 ^ i % 2) 1 }
{
    (m >> i as u32) % 2 == 1
}

impl Slots {
    // The record of slot i.
    fn record_at(self, s: &[u8], i: usize) -> Record
        requires { (i < self.n) × (self.at + slot_record_bytes * self.n ≤ length s.now) }
        ensures lo { result.lo ≡ number (part (self.at + slot_record_bytes * i) 4 s.now) }
        ensures hi { result.hi ≡ number (part (self.at + slot_record_bytes * i + 4) 4 s.now) }
    {
        let at = self.at + model::SLOT_RECORD * i;
        Record {
            lo: mem::quad(s, at),
            hi: mem::quad(s, at + model::SIZE),
        }
    }

    // Whether slot i is ready, and whether it waits.
    fn ready(self, i: usize) -> bool
        requires { i < self.n }
        ensures { result ≡ eqb (self.masks.ready / 2 ^ i % 2) 1 }
    {
        has(self.masks.ready, i)
    }

    fn waiting(self, i: usize) -> bool
        requires { i < self.n }
        ensures { result ≡ eqb (self.masks.waiting / 2 ^ i % 2) 1 }
    {
        has(self.masks.waiting, i)
    }

    // Whether the masks have no bits past the slots.
    fn none_past(self) -> bool
        ensures { result ≡ (eqb (self.masks.ready / 2 ^ self.n) 0 && eqb (self.masks.waiting / 2 ^ self.n) 0) }
    {
        (self.masks.ready >> self.n as u32 == 0) & (self.masks.waiting >> self.n as u32 == 0)
    }

    // The same, with its masks as the caller has tested them: where those are constants, their tests fall away from the walk.
    fn with_masks(self, m: Masks) -> Slots
        requires { (m.ready ≡ self.masks.ready) × (m.waiting ≡ self.masks.waiting) }
        ensures { result ≡ self }
    {
        Slots {
            at: self.at,
            n: self.n,
            masks: m,
            begin: self.begin,
        }
    }
}

// What the quick walk finds: whether the slots are sound and their blocks ordinary, and the sum of their requested sizes in any case. Where the quick
// rules fail and the exact ones pass, the sum is used all the same.
#[derive(Clone, Copy)]
struct Found {
    sound: bool,
    bytes: u32,
}

fn slots_walk(s: &[u8], g: Slots, b: Bounds) -> Found
    requires { g.at + slot_record_bytes * g.n ≤ length s.now }
    ensures sound_value { result.sound ≡ slots_checked b.most b.least g.n g.masks.ready g.masks.waiting (drop g.at s.now) }
    ensures bytes_value { result.bytes ≡ sizes_in g.n (drop g.at s.now) }
    ensures small { result.bytes ≤ 16777216 * g.n }
{
    let mut sound = true;
    let mut bytes = 0;
    for i in 0..g.n {
        let r = g.record_at(s, i);
        sound = sound & slot_rules::record_sound(r, g.ready(i), g.waiting(i), b.most, b.least);
        bytes += r.hi % 16777216;
    }
    Found {
        sound: sound & g.none_past(),
        bytes: bytes,
    }
}

// The same, with loops of their own where all slots are live and where some wait and none is ready: without the latter such groups took a
// fifth more instructions.
fn slots_found(s: &[u8], g: Slots, b: Bounds) -> Found
    requires { g.at + slot_record_bytes * g.n ≤ length s.now }
    ensures sound_value { result.sound ≡ slots_checked b.most b.least g.n g.masks.ready g.masks.waiting (drop g.at s.now) }
    ensures bytes_value { result.bytes ≡ sizes_in g.n (drop g.at s.now) }
    ensures small { result.bytes ≤ 16777216 * g.n }
{
    if g.masks.ready == 0 {
        if g.masks.waiting == 0 {
            return slots_walk(
                s,
                g.with_masks(Masks {
                    ready: 0,
                    waiting: 0,
                }),
                b,
            );
        }
        return slots_walk(
            s,
            g.with_masks(Masks {
                ready: 0,
                ..g.masks
            }),
            b,
        );
    }
    slots_walk(s, g, b)
}

// Every rule, one slot after the other.
#[inline(never)]
fn slots_sound(s: &[u8], g: Slots, b: Bounds) -> bool
    requires { g.at + slot_record_bytes * g.n ≤ length s.now }
    ensures { result ≡ slots_exactly b.class g.begin g.n g.masks.ready g.masks.waiting (drop g.at s.now) }
{
    let bytes = b.most as usize + 4;
    for i in 0..g.n {
        if !slot_rules::slot_sound(
            g.record_at(s, i),
            g.ready(i),
            g.waiting(i),
            b.most,
            b.least,
            g.begin + i * bytes,
        ) {
            return false;
        }
    }
    g.none_past()
}

// The slots of a group whose live blocks all have one alignment.
fn slots_aligned(s: &[u8], g: Slots, b: Bounds, align: Alignment) -> bool
    requires { g.at + slot_record_bytes * g.n ≤ length s.now }
    ensures { result ≡ true → slots_exactly b.class g.begin g.n g.masks.ready g.masks.waiting (drop g.at s.now) ≡ true }
{
    let bytes = b.most + 4;
    let mut place = g.begin as u32;
    let mut sound = true;
    for i in 0..g.n {
        sound = sound
            & slot_rules::record_alike(
                g.record_at(s, i),
                g.ready(i),
                g.waiting(i),
                b,
                place,
                align,
            );
        place += bytes;
    }
    sound & g.none_past()
}

// Whether the slots of a group are sound because its live blocks all have the alignment of the first: most aligned blocks of a class do.
fn slots_alike(s: &[u8], g: Slots, b: Bounds) -> bool
    requires { g.at + slot_record_bytes * g.n ≤ length s.now }
    ensures { result ≡ true → slots_exactly b.class g.begin g.n g.masks.ready g.masks.waiting (drop g.at s.now) ≡ true }
{
    let i = u32::trailing_zeros(!(g.masks.ready | g.masks.waiting)) as usize;
    if g.n <= i {
        return false;
    }
    let code = s[g.at + model::SLOT_RECORD * i + model::KIND];
    if code < 2 {
        return false;
    }
    if 9 < code {
        return false;
    }
    slots_aligned(s, g, b, Alignment::of(code))
}

// Whatever the blocks: the quick way for one alignment, and every rule slot by slot for several. It stays a function of its own: compiled into
// the check, it would slow it where no block is aligned.
#[inline(never)]
fn slots_tested(s: &[u8], g: Slots, b: Bounds) -> bool
    requires { g.at + slot_record_bytes * g.n ≤ length s.now }
    ensures { result ≡ slots_exactly b.class g.begin g.n g.masks.ready g.masks.waiting (drop g.at s.now) }
{
    if slots_alike(s, g, b) {
        return true;
    }
    slots_sound(s, g, b)
}

// The sum of the requested sizes of the slots of a group of class c, of slots that are not sound as the error. A group of ordinary blocks takes
// the quickest way; only where that finds anything else are alignments looked at.
pub fn slots_right(s: &[u8], g: Slots, c: usize) -> Result<u32, u32>
    requires { (c < 48) × (g.at + slot_record_bytes * g.n ≤ length s.now) }
    ensures value { result ≡ choose (slots_exactly c g.begin g.n g.masks.ready g.masks.waiting (drop g.at s.now))
        (Ok (sizes_in g.n (drop g.at s.now))) (Err (sizes_in g.n (drop g.at s.now))) }
    ensures small { MatchResult result (λ bytes. bytes ≤ 16777216 * g.n) (λ bytes. bytes ≤ 16777216 * g.n) }
{
    let b = Bounds::of(c);
    let found = slots_found(s, g, b);
    if found.sound {
        return Ok(found.bytes);
    }
    // A copy, so that it is laid down in memory for this call alone.
    if slots_tested(s, g.with_masks(g.masks), b) {
        return Ok(found.bytes);
    }
    Err(found.bytes)
}
