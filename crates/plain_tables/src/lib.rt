// The block at an offset of sound plain tables. Groups and slots are walked one by one. Read next: plain_sound.
#![tactic(auto)]

ghost use Rattle.std.specs.Prelude.{◌≡◌, true, ◌+◌, ◌*◌, ◌≤◌, ◌<◌, length, drop};
ghost use Rattle.model.specs.State.{disp};
ghost use Rattle.model.specs.Plans.{lookup};
ghost use Rattle.model.specs.Tables.{row_at, row_record_bytes, view_holder, sound_by, view_by, most_rows};
ghost use Rattle.model.specs.Plain.{plain_group, slots_layout};
ghost use Rattle.rows.specs.Rows.{class_held, looked};
ghost use Rattle.plain_tables.specs.Found.{is_absent, slot_looked, slots_looked, row_looked};

use classes::Row;
use model::{Holder, Slot};
use rows::{Block, Looked};

// "Only the tables know starts; the header is compared."
pub fn find_block(row: Row, len: usize, room: &[u8], offset: usize) -> Looked
    requires room_value { sound_by slots_layout row.bytes len room.now ≡ true }
    ensures { result ≡ looked row.bytes (lookup row.bytes (view_by slots_layout row.bytes room.now) offset) }
{
    let n = len / row.bytes;
    let mut i = 0;
    while i < n {
        let found = look_row(row, room, i, offset);
        if !absent(found) {
            return found;
        }
        i += rows::rows_held(row, rows::holder_at(room, i));
    }
    Looked::Absent
}

// "A row is free, the first row of a group of a named class, or a later row of that group." Only a first row has slots.
fn look_row(row: Row, room: &[u8], i: usize, offset: usize) -> Looked
    requires i_lt_most_rows { (i < most_rows) × (row_at i + row_record_bytes ≤ length room.now) }
    requires room_bound { class_held (view_holder (drop (row_at i) room.now)) < 48 }
    ensures { result ≡ row_looked row.bytes i offset (drop (row_at i) room.now) }
{
    let h = rows::holder_at(room, i);
    let Holder::First(c) = h else {
        return Looked::Absent;
    };
    look_group(row, room, i, mem::wide(c), offset)
}

// "Slot i of a group begins 16 + i·s bytes after the group's first byte."
fn look_group(row: Row, room: &[u8], first: usize, c: usize, offset: usize) -> Looked
    requires first_lt_most_rows { (first < most_rows) × (row_at first + row_record_bytes ≤ length room.now) }
    requires c_bound { c < 48 }
    ensures { result ≡ slots_looked first c 0 (row.bytes * first + 16) offset (plain_group c (drop (row_at first) room.now)) }
{
    let n = classes::slots(c);
    let bytes = 16 * classes::units(c);
    let mut begin = row.bytes * first + 16;
    for j in 0..n {
        let x = plain_slots::slot_at(room, first, j);
        let found = look_slot(first, c, j, begin, offset, x);
        if !absent(found) {
            return found;
        }
        begin += bytes;
    }
    Looked::Absent
}

// "The start is the slot's beginning plus 16d." At the start of a live slot stands its block. Answer 5, if "it is the last start of a granted, not
// live slot of a present group"; 4, if "the offset is neither a live start nor covered by 5".
fn look_slot(first: usize, c: usize, j: usize, begin: usize, offset: usize, x: Slot) -> Looked
    requires { (begin < 16777216) × (disp x < 65536) }
    ensures { result ≡ slot_looked first c j begin offset x }
{
    match x {
        Slot::Idle { disp, .. } if begin + 16 * disp == offset => Looked::Freed,
        Slot::Live(a) if begin + 16 * a.disp == offset => Looked::Present(Block {
            first,
            class: c,
            slot: j,
            alloc: a,
        }),
        _ => Looked::Absent,
    }
}

fn absent(found: Looked) -> bool
    ensures { result ≡ is_absent found }
{
    matches!(found, Looked::Absent)
}
