// Changes of one group of plain tables: take a slot, make a group, give a slot back, change a live one's size.
// Read next: plain_ops.
#![tactic(auto)]

ghost use Rattle.std.specs.Prelude.{◌≡◌, ◌∷◌, ◌++◌, ℕ, ◌+◌, ◌≤◌, ◌<◌, length, drop, replicate, MatchOption};
ghost use Rattle.mem.specs.Lists.{any, first};
ghost use Rattle.mem.specs.Bytes.{put};
ghost use Rattle.classes.specs.Classes.{slot_bytes, slots_of, rows_of};
ghost use Rattle.model.specs.declared.Slot.{Slot};
ghost use Rattle.model.specs.State.{Place, group, is_ready, is_live, pool_of, become};
ghost use Rattle.model.specs.Plans.{Site, turn_ready, refill, grant_in, release_at};
ghost use Rattle.model.specs.Tables.{row_at, row_record_bytes, span_records_by, encode_by, most_rows};
ghost use Rattle.model.specs.Plain.{plain_group, slots_layout};
ghost use Rattle.rows.specs.Rows.{block_of, resized, Holds, Offers};
ghost use Rattle.plain_changes.specs.Changes.{turned};

use classes::Row;
use model::{Holder, Slot};
use rows::Block;

// A slot for n bytes with an alignment, in the group of class c at row i.
// "d is the slot's count modulo (t + 1); then the count goes up by one, 255 becoming 0."
pub fn take_slot(row: Row, room: &mut [u8], i: usize, c: usize, code: u8, n: usize) -> Block
    requires offers { (g : Site) × Offers slots_layout row.bytes room.old i c g }
    requires code_bound { (code ≤ 9) × (n + 4 ≤ slot_bytes c) }
    ensures { (g : Site) → Offers slots_layout row.bytes room.old i c g
        → (result ≡ block_of row.bytes (grant_in row.bytes c code n g)) × (room.new ≡ encode_by slots_layout row.bytes (pool_of (grant_in row.bytes c code n g))) }
{
    let j = ready_slot(room, i, c);
    let begin = row.bytes * i + 16 + j * (16 * classes::units(c));
    let a = placing::grant_slot(c, code, n, begin, plain_slots::slot_at(room, i, j));
    plain_slots::store(room, i, j, Slot::Live(a));
    Block {
        first: i,
        class: c,
        slot: j,
        alloc: a,
    }
}

// "Granting a waiting slot while another in the group is ready" is a shortcut that is kept out.
fn ready_slot(room: &mut [u8], i: usize, c: usize) -> usize
    requires { (row : ℕ) × (g : Site) × Offers slots_layout row room.old i c g }
    ensures { (row : ℕ) (g : Site) → Offers slots_layout row room.old i c g
        → (result ≡ first is_ready (refill g.slots))
        × (room.new ≡ encode_by slots_layout row (g.before ++ (group c (refill g.slots) ∷ g.after))) }
{
    if let Some(j) = first_ready(room, i, c) {
        return j;
    }
    turn_all(room, i, c);
    first_ready(room, i, c).unwrap()
}

// "Take its lowest ready slot", if one is ready.
fn first_ready(room: &[u8], i: usize, c: usize) -> Option<usize>
    requires i_lt_most_rows { (i < most_rows) × (row_at i + row_record_bytes ≤ length room.now) }
    requires c_bound { c < 48 }
    ensures { MatchOption result (first is_ready (plain_group c (drop (row_at i) room.now)) ≡ slots_of c)
        (λ j. (j ≡ first is_ready (plain_group c (drop (row_at i) room.now))) × (j < slots_of c)) }
{
    let n = classes::slots(c);
    for j in 0..n {
        if is_ready(plain_slots::slot_at(room, i, j)) {
            return Some(j);
        }
    }
    None
}

// "a slot never granted is ready"
fn is_ready(x: Slot) -> bool
    ensures { result ≡ is_ready x }
{
    match x {
        Slot::Fresh => true,
        Slot::Idle { ready, .. } => ready,
        Slot::Live(_) => false,
    }
}

// "If its ready set is empty, all waiting slots become ready first."
fn turn_all(room: &mut [u8], i: usize, c: usize)
    requires i_lt_most_rows { (i < most_rows) × (row_at i + row_record_bytes ≤ length room.old) }
    requires c_bound { c < 48 }
    ensures { room.new ≡ turned i (slots_of c) 0 room.old }
{
    let n = classes::slots(c);
    for j in 0..n {
        let x = plain_slots::slot_at(room, i, j);
        plain_slots::store(room, i, j, turn_ready(x));
    }
}

fn turn_ready(x: Slot) -> Slot
    ensures { result ≡ turn_ready x }
{
    match x {
        Slot::Fresh => x,
        Slot::Idle { count, disp, .. } => Slot::Idle {
            ready: true,
            count,
            disp,
        },
        Slot::Live(_) => x,
    }
}

// "If there is no such group, make one at the lowest run of R free rows, all slots ready": never granted, so that their records are zero.
pub fn make_group(row: Row, room: &mut [u8], i: usize, c: usize)
    requires c_bound { (c < 48) × (i + rows_of row.bytes c ≤ most_rows) }
    requires c_in_bounds { row_at (i + rows_of row.bytes c) ≤ length room.old }
    ensures { room.new ≡ put (row_at i) (span_records_by slots_layout row.bytes (group c (replicate (slots_of c) Slot.Fresh))) room.old }
{
    rows::write_row(room, i, Holder::First(c as u8));
    rows::write_later(room, i, classes::rows(row, c));
}

// "The slot becomes waiting"; "If no slot of the group is live, the group goes, all its rows become zero and free." Gives whether the group stays.
pub fn give_slot(row: Row, room: &mut [u8], b: Block) -> bool
    requires holds { (p : Place) × Holds slots_layout row.bytes room.old b p }
    ensures { (p : Place) → Holds slots_layout row.bytes room.old b p
        → (result ≡ any is_live (p.lower ++ p.upper)) × (room.new ≡ encode_by slots_layout row.bytes (release_at row.bytes p).pool) }
{
    let i = b.first;
    let c = b.class;
    let waiting = Slot::Idle {
        ready: false,
        count: b.alloc.count,
        disp: b.alloc.disp,
    };
    plain_slots::store(room, i, b.slot, waiting);
    if plain_slots::live_in(room, i, c) == 0 {
        rows::drop_rows(room, i, classes::rows(row, c));
        return false;
    }
    true
}

// "Count and start change only by such a grant.": in place, the slot's record has another size and is else as it was.
pub fn resize_slot(room: &mut [u8], b: Block, n: usize)
    requires { (row : ℕ) × (p : Place) × Holds slots_layout row room.old b p }
    ensures { (row : ℕ) (p : Place) → Holds slots_layout row room.old b p
        → room.new ≡ encode_by slots_layout row (pool_of (become p (resized p n))) }
{
    let mut a = b.alloc;
    a.size = n;
    plain_slots::store(room, b.first, b.slot, Slot::Live(a));
}
