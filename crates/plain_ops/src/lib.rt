// What the calls do with a block, over arena and plain tables: reserve a slot, give a block back, resize it in place, move it; then, in list.rt,
// the grants of a list. A block is located in walks. What reads no table of either engine, as header and guard of a block, is in frames and blocks. Read next: plain.
#![tactic(auto)]

mod list;

ghost use Rattle.std.specs.Prelude.{◌≡◌, true, ◌<◌, length};
ghost use Rattle.classes.specs.Alignments.{Askable};
ghost use Rattle.model.specs.State.{Place, pool_of};
ghost use Rattle.model.specs.Plans.{site, reserve, release_at, in_place_at, move_at};
ghost use Rattle.model.specs.Tables.{sound_by, view_by, encode_by};
ghost use Rattle.model.specs.Plain.{slots_layout, plain_form};
ghost use Rattle.model.specs.Calls.{written};
ghost use Rattle.rows.specs.Rows.{site_found, Holds};
ghost use Rattle.frames.specs.Blocks.{reserved_as, site_room_by, next_room_by, CarriedOutBy};

use classes::Row;
pub use list::grant_all;
use model::Refusal;
use plain_sound::BySlots;
use rows::Block;

// 02 §6: "the class and slot are those of n + align − 16"; for an ordinary block, those of n. "Larger classes are not tried."
pub fn reserve_slot(row: Row, len: usize, room: &mut [u8], code: u8, n: usize) -> Option<Block>
    requires room_value { sound_by slots_layout row.bytes len room.old ≡ true }
    requires askable { Askable code n }
    ensures value { result ≡ reserved_as row.bytes (reserve row.bytes (view_by slots_layout row.bytes room.old) code n) }
    ensures room_after { room.new ≡ next_room_by slots_layout row.bytes room.old (reserve row.bytes (view_by slots_layout row.bytes room.old) code n) }
{
    let c = classes::class_of(classes::enlarged(code, n));
    let i = site_for(row, len, room, c)?;
    Some(plain_changes::take_slot(row, room, i, c, code, n))
}

// "Of the groups of n's class with a slot not live, take the one with the lowest first row."
// "If there is no such group, make one at the lowest run of R free rows, all slots ready; if there is no such run, answer 8."
fn site_for(row: Row, len: usize, room: &mut [u8], c: usize) -> Option<usize>
    requires room_value { sound_by slots_layout row.bytes len room.old ≡ true }
    requires c_bound { c < 48 }
    ensures value { result ≡ site_found row.bytes (site row.bytes (view_by slots_layout row.bytes room.old) c) }
    ensures room_after { room.new ≡ site_room_by slots_layout row.bytes c room.old (site row.bytes (view_by slots_layout row.bytes room.old) c) }
{
    if let Some(i) = walks::lowest_open::<BySlots>(row, len, room, c) {
        return Some(i);
    }
    let i = rows::find_run(row, len, room, c)?;
    plain_changes::make_group(row, room, i, c);
    Some(i)
}

// "The slot becomes waiting and its s owned bytes zero. If no slot of the group is live, the group goes, all its rows become zero and free."
pub fn discard(row: Row, arena: &mut [u8], room: &mut [u8], b: Block)
    requires room_value { sound_by slots_layout row.bytes (length arena.old) room.old ≡ true }
    requires holds { (p : Place) × Holds slots_layout row.bytes room.old b p }
    ensures { (p : Place) → Holds slots_layout row.bytes room.old b p
        → (arena.new ≡ written arena.old (release_at row.bytes p).changes) × (room.new ≡ encode_by slots_layout row.bytes (release_at row.bytes p).pool) }
{
    if plain_changes::give_slot(row, room, b) {
        frames::clear_slot(row, arena, b);
        return;
    }
    frames::clear_group(row, arena, b);
}

// "In place if n is at most s − 4 − 16d and the block's class is at most one above n's class"; 02 §6: "the block's class is that of the enlarged size
// or the next one up"; 02 §9: else 11. "the first bytes, as many as the lesser of old and new n, stay, all from there to the end become zero, header
// and guard are written anew." 02 §7: "Resize in place keeps the handle."
pub fn resize_in_place(
    row: Row,
    arena: &mut [u8],
    room: &mut [u8],
    b: Block,
    n: usize,
) -> Result<usize, Refusal>
    requires room_value { sound_by slots_layout row.bytes (length arena.old) room.old ≡ true }
    requires holds { (p : Place) × Holds slots_layout row.bytes room.old b p }
    requires askable { Askable b.alloc.align n }
    ensures { (p : Place) → Holds slots_layout row.bytes room.old b p
        → CarriedOutBy (plain_form row.bytes) arena.old (in_place_at row.bytes (pool_of p) n p) result arena.new room.new }
{
    if !frames::stays_in(b, n) {
        return Err(Refusal::NotInPlace);
    }
    let kept = b.alloc.size.min(n);
    frames::reframe(row, arena, b, kept, n);
    plain_changes::resize_slot(room, b, n);
    Ok(frames::handle_of(row, b))
}

// "a grant of n is made while the old block is live, that many bytes are copied, then the old is released."
// 02 §6: "Resize of an aligned block keeps the boundary"
pub fn move_block(
    row: Row,
    arena: &mut [u8],
    room: &mut [u8],
    b: Block,
    n: usize,
) -> Result<usize, Refusal>
    requires room_value { sound_by slots_layout row.bytes (length arena.old) room.old ≡ true }
    requires holds { (p : Place) × Holds slots_layout row.bytes room.old b p }
    requires askable { Askable b.alloc.align n }
    ensures { (p : Place) → Holds slots_layout row.bytes room.old b p
        → CarriedOutBy (plain_form row.bytes) arena.old (move_at row.bytes (pool_of p) n p) result arena.new room.new }
{
    let q = reserve_slot(row, arena.len(), room, b.alloc.align, n).ok_or(Refusal::NoRoom)?;
    let handle = frames::lay_out(row, arena, q);
    mem::copy_within(
        arena,
        frames::start_of(row, b),
        frames::start_of(row, q),
        b.alloc.size.min(n),
    );
    discard(row, arena, room, b);
    Ok(handle)
}
