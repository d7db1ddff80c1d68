// The first row of a group by masks: its two masks and its slots' records, read and written.
#![tactic(auto)]

ghost use Rattle.std.specs.Prelude.{◌≡◌, ◌+◌, ◌≤◌, ◌<◌, length, drop, replicate, ◌++◌};
ghost use Rattle.mem.specs.Bytes.{low, put};
ghost use Rattle.classes.specs.Classes.{slots_of, rows_of};
ghost use Rattle.model.specs.declared.Slot.{Slot};
ghost use Rattle.model.specs.State.{group};
ghost use Rattle.model.specs.Tables.{row_at, row_record_bytes, most_slots, slot_record, span_records, most_rows};
ghost use Rattle.records.specs.Records.{masks_in, slot_in, stored};

use classes::Row;
use masks::Masks;
use model::{Alloc, Holder, Slot};

// The masks of the group whose first row it is.
pub fn masks_at(room: &[u8], i: usize) -> Masks
    requires { (i < most_rows) × (row_at i + row_record_bytes ≤ length room.now) }
    ensures { result ≡ masks_in (drop (row_at i) room.now) }
{
    let at = rows::row_at(i);
    Masks {
        ready: mem::quad(room, at + model::READY),
        waiting: mem::quad(room, at + model::WAITING),
    }
}

// Slot j of the group whose first row it is, with the group's masks.
pub fn slot_at(room: &[u8], i: usize, m: Masks, j: u32) -> Slot
    requires i_lt_most_rows { (i < most_rows) × (row_at i + row_record_bytes ≤ length room.now) }
    requires j_lt_most_slots { j < most_slots }
    ensures { result ≡ slot_in m j (drop (row_at i) room.now) }
{
    let at = rows::row_at(i) + model::SLOTS + model::SLOT_RECORD * (j as usize);
    if (m.ready >> j) % 2 == 1 {
        if room[at + model::KIND] == 0 {
            return Slot::Fresh;
        }
        return Slot::Idle {
            ready: true,
            count: room[at + model::COUNT],
            disp: mem::get2(room, at + model::DISP),
        };
    }
    if (m.waiting >> j) % 2 == 1 {
        return Slot::Idle {
            ready: false,
            count: room[at + model::COUNT],
            disp: mem::get2(room, at + model::DISP),
        };
    }
    Slot::Live(Alloc {
        count: room[at + model::COUNT],
        disp: mem::get2(room, at + model::DISP),
        size: mem::get3(room, at + model::SIZE),
        align: room[at + model::KIND],
    })
}

// The eight bytes of a slot.
fn slot_record(x: Slot) -> [u8; 8]
    ensures { result ≡ slot_record x }
{
    match x {
        Slot::Fresh => [0, 0, 0, 0, 0, 0, 0, 0],
        Slot::Idle {
            ready: _,
            count,
            disp,
        } => {
            let d = disp.to_le_bytes();
            [1, count, d[0], d[1], 0, 0, 0, 0]
        }
        Slot::Live(a) => {
            let d = a.disp.to_le_bytes();
            let n = a.size.to_le_bytes();
            [a.align, a.count, d[0], d[1], n[0], n[1], n[2], 0]
        }
    }
}

// The eight bytes of a group's masks.
fn mask_bytes(m: Masks) -> [u8; 8]
    ensures { result ≡ low 4 m.ready ++ low 4 m.waiting }
{
    let r = m.ready.to_le_bytes();
    let w = m.waiting.to_le_bytes();
    [r[0], r[1], r[2], r[3], w[0], w[1], w[2], w[3]]
}

// Writes a group's masks and the record of one of its slots: all that a grant, a release or a resize in place changes of a group that stays.
pub fn store(room: &mut [u8], i: usize, m: Masks, j: usize, x: Slot)
    requires i_lt_most_rows { (i < most_rows) × (row_at i + row_record_bytes ≤ length room.old) }
    requires j_lt_most_slots { j < most_slots }
    ensures { room.new ≡ stored (row_at i) m j x room.old }
{
    let at = rows::row_at(i);
    let sets = mask_bytes(m);
    mem::copy_in(room, at + model::READY, &sets);
    let record = slot_record(x);
    mem::copy_in(room, at + model::SLOTS + model::SLOT_RECORD * j, &record);
}

// Writes the records of a new group: its class, all slots ready and never granted, and the later rows.
pub fn make_group(row: Row, room: &mut [u8], i: usize, c: usize)
    requires c_bound { (c < 48) × (i + rows_of row.bytes c ≤ most_rows) }
    requires c_in_bounds { row_at (i + rows_of row.bytes c) ≤ length room.old }
    ensures { room.new ≡ put (row_at i) (span_records row.bytes (group c (replicate (slots_of c) Slot.Fresh))) room.old }
{
    rows::write_row(room, i, Holder::First(c as u8));
    let sets = mask_bytes(Masks {
        ready: masks::bit_of(classes::slots(c) as u32) - 1,
        waiting: 0,
    });
    mem::copy_in(room, rows::row_at(i) + model::READY, &sets);
    rows::write_later(room, i, classes::rows(row, c));
}
