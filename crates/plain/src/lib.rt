// The calls of the plain pool, over a lent arena and a lent table room. Each takes any bytes, handle and size, and one equation says what it answers
// and leaves: what the model's call does on these bytes (plain_call, crates/model/specs/Plain.antt). Lists are plain_gather's. For C: slotpool_plain.
#![tactic(auto)]

ghost use Rattle.std.specs.Prelude.{◌≡◌, true, ◌≤◌, length};
ghost use Rattle.classes.specs.Classes.{row_bytes};
ghost use Rattle.model.specs.Answers.{reply_answer, report_answer};
ghost use Rattle.model.specs.Plans.{sets_up, grants, grants_aligned, releases, resizes_in_place, moves, measures, reports, grant_as};
ghost use Rattle.model.specs.Tables.{sound_by, view_by};
ghost use Rattle.model.specs.Plain.{slots_layout, plain_form, plain_call};
ghost use Rattle.model.specs.Calls.{left};
ghost use Rattle.frames.specs.Blocks.{found_for, CarriedOutBy};

use model::{Refusal, Totals};
use plain_sound::BySlots;
use rows::Block;

// "Set up writes zero over the whole arena and makes tables with no groups."
// Answer 1: "arena length outside the rule, or table room of another size"
pub fn set_up(arena: &mut [u8], room: &mut [u8]) -> Result<usize, Refusal>
    ensures { left (reply_answer result) arena.new room.new
        ≡ plain_call row_bytes arena.old room.old sets_up }
{
    let len = arena.len();
    let size = fresh::room_len(len);
    if size == 0 {
        return Err(Refusal::BadArena);
    }
    if room.len() != size {
        return Err(Refusal::BadArena);
    }
    mem::fill_zero(arena);
    fresh::format(room, len);
    Ok(0)
}

// An ordinary block of n bytes. Answers are tested in this order: "grant 2, 3, 8".
pub fn grant(arena: &mut [u8], room: &mut [u8], n: usize) -> Result<usize, Refusal>
    ensures { left (reply_answer result) arena.new room.new
        ≡ plain_call row_bytes arena.old room.old (grants n) }
{
    if !plain_sound::sound(classes::ROW, arena.len(), room) {
        return Err(Refusal::Unsound);
    }
    grant_as(arena, room, classes::ORDINARY, n)
}

// 02 §6: "Alignments 1, 2, 4, 8 and 16 are an ordinary grant. Any other that is not a power of two up to 4,096 is answer 13, tested between 2 and 3"
pub fn grant_aligned(
    arena: &mut [u8],
    room: &mut [u8],
    n: usize,
    align: usize,
) -> Result<usize, Refusal>
    ensures { left (reply_answer result) arena.new room.new
        ≡ plain_call row_bytes arena.old room.old (grants_aligned n align) }
{
    if !plain_sound::sound(classes::ROW, arena.len(), room) {
        return Err(Refusal::Unsound);
    }
    let code = classes::code_of(align).ok_or(Refusal::BadAlignment)?;
    grant_as(arena, room, code, n)
}

// A grant on sound tables. 02 §6: "an enlarged size of 131,052 or more is 3". First a slot is taken in the tables, then its block laid out in the arena:
// "The slot's s owned bytes become zero, then header and guard are written; no other arena byte changes. The value is the start.", 02 §7: as a handle.
fn grant_as(arena: &mut [u8], room: &mut [u8], code: u8, n: usize) -> Result<usize, Refusal>
    requires room_value { sound_by slots_layout row_bytes (length arena.old) room.old ≡ true }
    requires code_in_range { (1 ≤ code) × (code ≤ 9) }
    ensures { CarriedOutBy (plain_form row_bytes) arena.old (grant_as row_bytes (view_by slots_layout row_bytes room.old) code n)
        result arena.new room.new }
{
    if classes::too_large(code, n) {
        return Err(Refusal::TooLarge);
    }
    let len = arena.len();
    let b = plain_ops::reserve_slot(classes::ROW, len, room, code, n).ok_or(Refusal::NoRoom)?;
    Ok(frames::lay_out(classes::ROW, arena, b))
}

// Answers: "release and measure 2, 4, 5, 6, 7", and 10 before 6 (02 §7). "Set up and release, when done, give the value 0"
pub fn release(arena: &mut [u8], room: &mut [u8], handle: usize) -> Result<usize, Refusal>
    ensures { left (reply_answer result) arena.new room.new
        ≡ plain_call row_bytes arena.old room.old (releases handle) }
{
    if !plain_sound::sound(classes::ROW, arena.len(), room) {
        return Err(Refusal::Unsound);
    }
    let b = walks::locate::<BySlots>(classes::ROW, arena, room, handle)?;
    plain_ops::discard(classes::ROW, arena, room, b);
    Ok(0)
}

// 02 §9: "one call that only changes in place, and refuses with 11"
pub fn resize_in_place(
    arena: &mut [u8],
    room: &mut [u8],
    handle: usize,
    n: usize,
) -> Result<usize, Refusal>
    ensures { left (reply_answer result) arena.new room.new
        ≡ plain_call row_bytes arena.old room.old (resizes_in_place handle n) }
{
    let b = find(arena, room, handle, n)?;
    plain_ops::resize_in_place(classes::ROW, arena, room, b, n)
}

// 02 §9: "another that always moves and can answer 8"
pub fn move_block(
    arena: &mut [u8],
    room: &mut [u8],
    handle: usize,
    n: usize,
) -> Result<usize, Refusal>
    ensures { left (reply_answer result) arena.new room.new
        ≡ plain_call row_bytes arena.old room.old (moves handle n) }
{
    let b = find(arena, room, handle, n)?;
    plain_ops::move_block(classes::ROW, arena, room, b, n)
}

// The block of a handle that is to have n bytes, or why both calls are refused. 02 §7: "Order: 2, 3, 4, 5, 10, 6, 7, 8", of which 8 is a move's.
fn find(arena: &[u8], room: &[u8], handle: usize, n: usize) -> Result<Block, Refusal>
    ensures { result ≡ found_for row_bytes (plain_form row_bytes) arena.now room.now handle n }
{
    if !plain_sound::sound(classes::ROW, arena.len(), room) {
        return Err(Refusal::Unsound);
    }
    walks::locate_for::<BySlots>(classes::ROW, arena, room, handle, n)
}

// "Measure gives n."
pub fn measure(arena: &[u8], room: &[u8], handle: usize) -> Result<usize, Refusal>
    ensures { left (reply_answer result) arena.now room.now
        ≡ plain_call row_bytes arena.now room.now (measures handle) }
{
    if !plain_sound::sound(classes::ROW, arena.len(), room) {
        return Err(Refusal::Unsound);
    }
    let b = walks::locate::<BySlots>(classes::ROW, arena, room, handle)?;
    Ok(b.alloc.size)
}

// "Report gives, in this order: live blocks, their requested bytes, rows held, rows free, ready slots, waiting slots": counted at each call.
pub fn report(arena: &[u8], room: &[u8]) -> Result<Totals, Refusal>
    ensures { left (report_answer result) arena.now room.now
        ≡ plain_call row_bytes arena.now room.now reports }
{
    walks::counted::<BySlots>(classes::ROW, arena.len(), room).ok_or(Refusal::Unsound)
}
