// The block at an offset of sound tables by masks.
#![tactic(auto)]

ghost use Rattle.std.specs.Prelude.{◌≡◌, true, ◌+◌, ◌≤◌, ◌<◌, length, drop};
ghost use Rattle.model.specs.Tables.{row_at, row_record_bytes, sound, view, most_rows};
ghost use Rattle.model.specs.Plans.{lookup};
ghost use Rattle.rows.specs.Rows.{looked};
ghost use Rattle.records.specs.Records.{slots_here};
ghost use Rattle.search.specs.Found.{slot_looked, group_looked, disp_small};

use classes::Row;
use model::{Holder, Slot};
use rows::{Block, Looked};

// A slot as what stands some bytes after its beginning.
fn look_slot(first: usize, c: usize, i: usize, after: usize, x: Slot) -> Looked
    requires { disp_small x ≡ true }
    ensures { result ≡ slot_looked first c i after x }
{
    match x {
        Slot::Idle { disp, .. } if 16 * disp == after => Looked::Freed,
        Slot::Live(a) if 16 * a.disp == after => Looked::Present(Block {
            first,
            class: c,
            slot: i,
            alloc: a,
        }),
        _ => Looked::Absent,
    }
}

// What stands some bytes after the first byte of a group.
fn look_group(room: &[u8], first: usize, c: usize, inside: usize) -> Looked
    requires first_lt_most_rows { (first < most_rows) × (row_at first + row_record_bytes ≤ length room.now) }
    requires c_bound { c < 48 }
    ensures { result ≡ group_looked first c inside (slots_here (drop (row_at first) room.now)) }
{
    if inside < 16 {
        return Looked::Absent;
    }
    let bytes = 16 * classes::units(c);
    let i = (inside - 16) / bytes;
    if classes::slots(c) <= i {
        return Looked::Absent;
    }
    let m = records::masks_at(room, first);
    let x = records::slot_at(room, first, m, i as u32);
    look_slot(first, c, i, (inside - 16) % bytes, x)
}

// The block at an offset: the row of the offset leads to the group's first row, and the distance from there to the slot.
pub fn find_block(row: Row, len: usize, room: &[u8], offset: usize) -> Looked
    requires room_value { sound row.bytes len room.now ≡ true }
    ensures { result ≡ looked row.bytes (lookup row.bytes (view row.bytes room.now) offset) }
{
    if len <= offset {
        return Looked::Absent;
    }
    let i = offset / row.bytes;
    let Some(first) = rows::first_of(i, rows::holder_at(room, i)) else {
        return Looked::Absent;
    };
    let h = rows::holder_at(room, first);
    let Holder::First(c) = h else {
        return Looked::Absent;
    };
    look_group(room, first, mem::wide(c), offset - row.bytes * first)
}
