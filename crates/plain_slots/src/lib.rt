// The second engine, 02 §8: "with a plain record per slot, walked one by one, without masks or stored totals". Here: that record, read and written.
// It has eight bytes: the slot's condition, its use count, the displacement in two bytes, the requested size in three, 0.
// In each crate a function stands above those that it calls. Read next: plain_rules.
#![tactic(auto)]

ghost use Rattle.std.specs.Prelude.{◌≡◌, ◌+◌, ◌*◌, ◌≤◌, ◌<◌, length, drop};
ghost use Rattle.mem.specs.Lists.{choose};
ghost use Rattle.mem.specs.Bytes.{bit};
ghost use Rattle.model.specs.State.{is_live};
ghost use Rattle.model.specs.Tables.{row_at, row_record_bytes, slots_at, slot_record_bytes, most_slots, most_rows};
ghost use Rattle.model.specs.Plain.{plain_record, plain_slot, plain_group, condition};
ghost use Rattle.plain_slots.specs.Slots.{slot_in, stored, live_in, Small};

use model::{Alloc, Slot};

// How many slots are live in the group of class c whose first row is row i.
pub fn live_in(room: &[u8], i: usize, c: usize) -> usize
    requires i_lt_most_rows { (i < most_rows) × (row_at i + row_record_bytes ≤ length room.now) }
    requires c_bound { c < 48 }
    ensures { result ≡ live_in (plain_group c (drop (row_at i) room.now)) }
{
    let n = classes::slots(c);
    let mut live = 0;
    for j in 0..n {
        live += one_if_live(slot_at(room, i, j));
    }
    live
}

fn one_if_live(x: Slot) -> usize
    ensures value { result ≡ bit (is_live x) }
    ensures small { result ≤ 1 }
{
    usize::from(matches!(x, Slot::Live(_)))
}

// "For each group: its class, its first row, and of each slot whether it is ready, waiting or live."
// Slot j of the group whose first row is row i.
pub fn slot_at(room: &[u8], i: usize, j: usize) -> Slot
    requires i_lt_most_rows { (i < most_rows) × (row_at i + row_record_bytes ≤ length room.now) }
    requires j_lt_most_slots { j < most_slots }
    ensures value { result ≡ slot_in j (drop (row_at i) room.now) }
    ensures small { Small result }
{
    let at = slot_place(i, j);
    slot_of(
        room[at + model::KIND],
        room[at + model::COUNT],
        mem::get2(room, at + model::DISP),
        mem::get3(room, at + model::SIZE),
    )
}

// Where the record of slot j stands, in the group whose first row is row i.
pub fn slot_place(i: usize, j: usize) -> usize
    requires { (i < most_rows) × (j ≤ most_slots) }
    ensures { result ≡ row_at i + (slots_at + slot_record_bytes * j) }
{
    rows::row_at(i) + (model::SLOTS + model::SLOT_RECORD * j)
}

// "For each slot also: whether it was ever granted in this group, its use count modulo 256 (grants in this group), and, once granted, the
// displacement d in units of its last start; for a live slot the requested n." And 02 §6: "The tables keep the alignment".
// The condition is 0 if it was never granted, 1 if it is ready, 2 if it waits, and from 3 on live, with the alignment's code from 1 on.
fn slot_of(condition: u8, count: u8, disp: usize, size: usize) -> Slot
    requires { (disp < 65536) × (size < 16777216) }
    ensures value { result ≡ plain_slot condition count disp size }
    ensures small { Small result }
{
    if condition == 0 {
        return Slot::Fresh;
    }
    if condition <= 2 {
        let ready = condition == 1;
        return Slot::Idle { ready, count, disp };
    }
    let align = condition - 2;
    Slot::Live(Alloc {
        count,
        disp,
        size,
        align,
    })
}

// Writes the record of slot j of the group whose first row is row i: all that a change of one slot changes.
pub fn store(room: &mut [u8], i: usize, j: usize, x: Slot)
    requires i_lt_most_rows { (i < most_rows) × (row_at i + row_record_bytes ≤ length room.old) }
    requires j_lt_most_slots { (j < most_slots) × (condition x < 256) }
    ensures { room.new ≡ stored (row_at i) j x room.old }
{
    let record = slot_record(x);
    mem::copy_in(room, slot_place(i, j), &record);
}

// "One state of the tables has one byte form over the whole room, with zero wherever nothing is to be said"
pub fn slot_record(x: Slot) -> [u8; 8]
    requires { condition x < 256 }
    ensures { result ≡ plain_record x }
{
    match x {
        Slot::Fresh => [0, 0, 0, 0, 0, 0, 0, 0],
        Slot::Idle { ready, count, disp } => {
            let d = disp.to_le_bytes();
            [idle_condition(ready), count, d[0], d[1], 0, 0, 0, 0]
        }
        Slot::Live(a) => {
            let d = a.disp.to_le_bytes();
            let n = a.size.to_le_bytes();
            [a.align + 2, a.count, d[0], d[1], n[0], n[1], n[2], 0]
        }
    }
}

// The condition of a slot that was granted and is not live.
fn idle_condition(ready: bool) -> u8
    ensures { result ≡ choose ready 1 2 }
{
    if ready { 1 } else { 2 }
}
