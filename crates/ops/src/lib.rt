// What the calls do with a block, over arena and tables: give it back, resize it in place, move it; it is located in `walks`, and a slot is reserved
// in `reserving`. What changes the tables is lent their totals too, and keeps them those of the tables.
#![tactic(auto)]

ghost use Rattle.std.specs.Prelude.{◌≡◌, true, length};
ghost use Rattle.classes.specs.Alignments.{Askable};
ghost use Rattle.model.specs.State.{Place, pool_of};
ghost use Rattle.model.specs.Plans.{release_at, in_place_at, move_at, totals};
ghost use Rattle.model.specs.Tables.{masks_layout, sound, view, encode};
ghost use Rattle.model.specs.Calls.{kept_in, engine, written};
ghost use Rattle.rows.specs.Rows.{Holds};
ghost use Rattle.frames.specs.Blocks.{CarriedOutBy};

use changes::Left;
use classes::Row;
use model::{Refusal, Totals};
use rows::Block;

// Gives a live block back: its slot waits and its bytes become zero, or the group goes with its last live slot.
pub fn discard(row: Row, arena: &mut [u8], room: &mut [u8], t: &mut Totals, b: Block)
    requires room_value { (sound row.bytes (length arena.old) room.old ≡ true) × (t.old ≡ totals row.bytes (view row.bytes room.old)) }
    requires holds { (p : Place) × Holds masks_layout row.bytes room.old b p }
    ensures { (p : Place) → Holds masks_layout row.bytes room.old b p
        → (arena.new ≡ written arena.old (release_at row.bytes p).changes) × (room.new ≡ encode row.bytes (release_at row.bytes p).pool)
        × (t.new ≡ totals row.bytes (release_at row.bytes p).pool) }
{
    match changes::give_slot(row, room, b) {
        Left::Kept => {
            frames::clear_slot(row, arena, b);
            totals::given(t, b.alloc.size);
        }
        Left::Dropped { ready, waiting } => {
            frames::clear_group(row, arena, b);
            totals::dropped(t, b.alloc.size, classes::rows(row, b.class), ready, waiting);
        }
    }
}

// Changes a block's size where it is, if its slot serves the new one: the first bytes stay, and header and guard are written anew.
pub fn resize_in_place(
    row: Row,
    arena: &mut [u8],
    room: &mut [u8],
    t: &mut Totals,
    b: Block,
    n: usize,
) -> Result<usize, Refusal>
    requires room_value { (sound row.bytes (length arena.old) room.old ≡ true) × (t.old ≡ totals row.bytes (view row.bytes room.old)) }
    requires holds { (p : Place) × Holds masks_layout row.bytes room.old b p }
    requires askable { Askable b.alloc.align n }
    ensures { (p : Place) → Holds masks_layout row.bytes room.old b p
        → CarriedOutBy (engine row.bytes) arena.old (in_place_at row.bytes (pool_of p) n p) result arena.new
        (kept_in room.new t.new) }
{
    if !frames::stays_in(b, n) {
        return Err(Refusal::NotInPlace);
    }
    let kept = b.alloc.size.min(n);
    frames::reframe(row, arena, b, kept, n);
    changes::resize_slot(room, b, n);
    totals::sized(t, b.alloc.size, n);
    Ok(frames::handle_of(row, b))
}

// Moves a block: a grant while the old one is live, a copy of the first bytes, then the old one is given back.
pub fn move_block(
    row: Row,
    arena: &mut [u8],
    room: &mut [u8],
    t: &mut Totals,
    b: Block,
    n: usize,
) -> Result<usize, Refusal>
    requires room_value { (sound row.bytes (length arena.old) room.old ≡ true) × (t.old ≡ totals row.bytes (view row.bytes room.old)) }
    requires holds { (p : Place) × Holds masks_layout row.bytes room.old b p }
    requires askable { Askable b.alloc.align n }
    ensures { (p : Place) → Holds masks_layout row.bytes room.old b p
        → CarriedOutBy (engine row.bytes) arena.old (move_at row.bytes (pool_of p) n p) result arena.new
        (kept_in room.new t.new) }
{
    let q = reserving::reserve_slot(row, arena.len(), room, t, b.alloc.align, n).ok_or(
        Refusal::NoRoom,
    )?;
    let handle = frames::lay_out(row, arena, q);
    mem::copy_within(
        arena,
        frames::start_of(row, b),
        frames::start_of(row, q),
        b.alloc.size.min(n),
    );
    discard(row, arena, room, t, b);
    Ok(handle)
}
