// Changes of one group in tables by masks: take a slot, give one back, change a live one's size.
#![tactic(auto)]

ghost use Rattle.std.specs.Prelude.{◌≡◌, ℕ, ◌+◌, ◌≤◌};
ghost use Rattle.mem.specs.Lists.{any};
ghost use Rattle.classes.specs.Classes.{slot_bytes};
ghost use Rattle.model.specs.State.{Place, pool_of, become};
ghost use Rattle.model.specs.Plans.{Site, grant_in, release_at};
ghost use Rattle.model.specs.Tables.{masks_layout, encode};
ghost use Rattle.rows.specs.Rows.{block_of, resized, Holds, Offers};
ghost use Rattle.totals.specs.Changes.{refills};
ghost use Rattle.changes.specs.Changes.{left_as};

use classes::Row;
use model::Slot;
use rows::Block;

// The block of a slot that was taken, and how many waiting slots became ready first.
#[derive(Clone, Copy)]
pub struct Taken {
    pub block: Block,
    pub refilled: usize,
}

// What is left where a slot was given back: its group, or free rows, with the slots of the group that were ready and waiting.
#[derive(Clone, Copy)]
pub enum Left {
    Kept,
    Dropped { ready: usize, waiting: usize },
}

// Takes the lowest ready slot of the group of class c at row i, for n bytes. If none is ready, all waiting slots become ready first.
pub fn take_slot(row: Row, room: &mut [u8], i: usize, c: usize, code: u8, n: usize) -> Taken
    requires offers { (g : Site) × Offers masks_layout row.bytes room.old i c g }
    requires code_bound { (code ≤ 9) × (n + 4 ≤ slot_bytes c) }
    ensures { (g : Site) → Offers masks_layout row.bytes room.old i c g
        → (result.block ≡ block_of row.bytes (grant_in row.bytes c code n g)) × (room.new ≡ encode row.bytes (pool_of (grant_in row.bytes c code n g)))
        × (result.refilled ≡ refills g.slots) }
{
    let old = records::masks_at(room, i);
    let m = old.refill();
    let j = m.lowest();
    let begin = row.bytes * i + 16 + j as usize * (16 * classes::units(c));
    let a = placing::grant_slot(c, code, n, begin, records::slot_at(room, i, m, j));
    records::store(room, i, m.take(), j as usize, Slot::Live(a));
    Taken {
        block: Block {
            first: i,
            class: c,
            slot: j as usize,
            alloc: a,
        },
        refilled: old.to_refill() as usize,
    }
}

// Gives a block's slot back, which then waits. If no slot of its group is live any more, the group goes and its rows are free.
pub fn give_slot(row: Row, room: &mut [u8], b: Block) -> Left
    requires holds { (p : Place) × Holds masks_layout row.bytes room.old b p }
    ensures { (p : Place) → Holds masks_layout row.bytes room.old b p
        → (result ≡ left_as p) × (room.new ≡ encode row.bytes (release_at row.bytes p).pool) }
{
    let i = b.first;
    let c = b.class;
    let old = records::masks_at(room, i);
    let m = old.give_back(b.slot as u32);
    if m.live(classes::slots(c) as u32) == 0 {
        rows::drop_rows(room, i, classes::rows(row, c));
        return Left::Dropped {
            ready: u32::count_ones(old.ready) as usize,
            waiting: u32::count_ones(old.waiting) as usize,
        };
    }
    records::store(
        room,
        i,
        m,
        b.slot,
        Slot::Idle {
            ready: false,
            count: b.alloc.count,
            disp: b.alloc.disp,
        },
    );
    Left::Kept
}

// Writes the record of a live block's slot anew, with another size.
pub fn resize_slot(room: &mut [u8], b: Block, n: usize)
    requires { (row : ℕ) × (p : Place) × Holds masks_layout row room.old b p }
    ensures { (row : ℕ) (p : Place) → Holds masks_layout row room.old b p
        → room.new ≡ encode row (pool_of (become p (resized p n))) }
{
    let m = records::masks_at(room, b.first);
    let mut a = b.alloc;
    a.size = n;
    records::store(room, b.first, m, b.slot, Slot::Live(a));
}
