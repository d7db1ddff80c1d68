// Whether the record of a slot is sound, rule by rule: each rule is one test. Read next: plain_tables.
#![tactic(auto)]

ghost use Rattle.std.specs.Prelude.{◌≡◌, ◌&&◌, ◌+◌, ◌*◌, ◌≤◌, ◌<◌, length, drop};
ghost use Rattle.mem.specs.Lists.{starts};
ghost use Rattle.classes.specs.Classes.{size_limit, own_class};
ghost use Rattle.model.specs.declared.Slot.TheVariants.{Live};
ghost use Rattle.model.specs.State.{slot_sound, aligned_slot};
ghost use Rattle.model.specs.Tables.{row_record_bytes, slots_at, slot_record_bytes, most_slots, row_at, most_rows};
ghost use Rattle.model.specs.Plain.{plain_record};
ghost use Rattle.plain_slots.specs.Slots.{Small};

use model::{Alloc, Slot};

// "One state of the tables has one byte form over the whole room, with zero wherever nothing is to be said; other bytes are unsound."
// The record of slot j, which was read as x, must be that of x.
pub fn record_sound(room: &[u8], i: usize, j: usize, c: usize, begin: usize, x: Slot) -> bool
    requires i_lt_most_rows { (i < most_rows) × (row_at i + row_record_bytes ≤ length room.now) × (j < most_slots) }
    requires c_bound { (c < 48) × (begin < 16777216) × Small x }
    ensures { result ≡ starts (drop (row_at i + (slots_at + slot_record_bytes * j)) room.now) (plain_record x)
        && (slot_sound c x && aligned_slot begin x) }
{
    let at = plain_slots::slot_place(i, j);
    let record = plain_slots::slot_record(x);
    if !mem::same_bytes(&room[at..at + model::SLOT_RECORD], &record) {
        return false;
    }
    slot_sound(c, begin, x)
}

// "a slot granted but not live has 16d at most s − 4"; "a slot never granted is ready with count 0", which its record says.
fn slot_sound(c: usize, begin: usize, x: Slot) -> bool
    requires { (c < 48) × (begin < 16777216) × Small x }
    ensures { result ≡ slot_sound c x && aligned_slot begin x }
{
    match x {
        Slot::Fresh => true,
        Slot::Idle { disp, .. } => 16 * disp <= 16 * classes::units(c) - 4,
        Slot::Live(a) => live_sound(c, begin, a),
    }
}

// The rules of a live slot of class c that begins at a byte of the arena.
fn live_sound(c: usize, begin: usize, a: Alloc) -> bool
    requires { (c < 48) × (begin < 16777216) × (a.disp < 65536) × (a.size < 16777216) }
    ensures { result ≡ slot_sound c (Live a) && aligned_slot begin (Live a) }
{
    // "a live slot was granted, has 16d + n at most s − 4"
    if 16 * classes::units(c) - 4 < 16 * a.disp + a.size {
        return false;
    }
    // 02 §6: "The tables keep the alignment": 1 for an ordinary block, up to 9 for 4,096.
    if a.align < classes::ORDINARY {
        return false;
    }
    if 9 < a.align {
        return false;
    }
    // "a live n is below 131,052". 02 §6: "soundness reads the enlarged size where it speaks of a live block's class"
    if classes::too_large(a.align, a.size) {
        return false;
    }
    if !own_class(c, classes::enlarged(a.align, a.size)) {
        return false;
    }
    // 02 §6: "and demands the boundary"
    (begin + 16 * a.disp) % classes::align_of(a.align) == 0
}

// "its class is that of n or the next one up"
fn own_class(c: usize, n: usize) -> bool
    requires { n < size_limit }
    ensures { result ≡ own_class c n }
{
    let own = classes::class_of(n);
    (c == own) | (c == own + 1)
}
