// The calls of the slot pool, over a lent arena, a lent table room and the record of totals beside it. Resize in place and move are the crate resizing's, the calls for gather lists are gather's.
//
// Each is a paragraph of document 01. One equation says what it answers and what it leaves of arena, room and totals, for any bytes, totals,
// handle and size: what the model's call does on them (call, crates/model/specs/Calls.antt).
#![tactic(auto)]

ghost use Rattle.std.specs.Prelude.{◌≡◌, true, ◌≤◌, ◌<◌, length};
ghost use Rattle.classes.specs.Classes.{row_bytes};
ghost use Rattle.model.specs.Answers.{reply_answer, report_answer};
ghost use Rattle.model.specs.Plans.{sets_up, grants, grants_aligned, releases, measures, reports, grant_as};
ghost use Rattle.model.specs.Tables.{room_for, view};
ghost use Rattle.model.specs.Calls.{kept_in, engine, sound_kept, left, call};
ghost use Rattle.frames.specs.Blocks.{CarriedOutBy};

use model::{Refusal, Totals};
use soundness::ByMasks;

// The exact size of the table room for an arena, or 0 where the arena's length is outside the rule.
pub fn room_len(arena_len: usize) -> usize
    ensures { result ≡ room_for row_bytes arena_len }
{
    fresh::room_len(arena_len)
}

// Set up: zero over the whole arena, tables with no groups, and their totals, whatever they were.
pub fn set_up(arena: &mut [u8], room: &mut [u8], t: &mut Totals) -> Result<usize, Refusal>
    ensures { left (reply_answer result) arena.new (kept_in room.new t.new)
        ≡ call row_bytes arena.old (kept_in room.old t.old) sets_up }
{
    let len = arena.len();
    let size = room_len(len);
    if size == 0 {
        return Err(Refusal::BadArena);
    }
    if room.len() != size {
        return Err(Refusal::BadArena);
    }
    mem::fill_zero(arena);
    fresh::format(room, len);
    let made = Totals {
        free: len / classes::ROW.bytes,
        ..Totals::default()
    };
    totals::record(t, made);
    Ok(0)
}

// A grant on sound tables: a slot is reserved in the tables, and its block laid out in the arena.
fn grant_as(
    arena: &mut [u8],
    room: &mut [u8],
    t: &mut Totals,
    code: u8,
    n: usize,
) -> Result<usize, Refusal>
    requires totals_value { sound_kept row_bytes (length arena.old) (kept_in room.old t.old) ≡ true }
    requires code_in_range { (1 ≤ code) × (code ≤ 9) }
    ensures { CarriedOutBy (engine row_bytes) arena.old (grant_as row_bytes (view row_bytes room.old) code n)
        result arena.new (kept_in room.new t.new) }
{
    if classes::too_large(code, n) {
        return Err(Refusal::TooLarge);
    }
    let len = arena.len();
    let b = reserving::reserve_slot(classes::ROW, len, room, t, code, n).ok_or(Refusal::NoRoom)?;
    Ok(frames::lay_out(classes::ROW, arena, b))
}

// Grant: an ordinary block.
pub fn grant(arena: &mut [u8], room: &mut [u8], t: &mut Totals, n: usize) -> Result<usize, Refusal>
    ensures { left (reply_answer result) arena.new (kept_in room.new t.new)
        ≡ call row_bytes arena.old (kept_in room.old t.old) (grants n) }
{
    if !soundness::sound(classes::ROW, arena.len(), room, t) {
        return Err(Refusal::Unsound);
    }
    grant_as(arena, room, t, classes::ORDINARY, n)
}

// Grant aligned: a block whose start is on a boundary of 32 to 4,096 bytes; with an alignment up to 16, an ordinary one.
pub fn grant_aligned(
    arena: &mut [u8],
    room: &mut [u8],
    t: &mut Totals,
    n: usize,
    align: usize,
) -> Result<usize, Refusal>
    ensures { left (reply_answer result) arena.new (kept_in room.new t.new)
        ≡ call row_bytes arena.old (kept_in room.old t.old) (grants_aligned n align) }
{
    if !soundness::sound(classes::ROW, arena.len(), room, t) {
        return Err(Refusal::Unsound);
    }
    let code = classes::code_of(align).ok_or(Refusal::BadAlignment)?;
    grant_as(arena, room, t, code, n)
}

// Release: the slot waits and its bytes become zero, or the group goes with its last live slot.
pub fn release(
    arena: &mut [u8],
    room: &mut [u8],
    t: &mut Totals,
    handle: usize,
) -> Result<usize, Refusal>
    ensures { left (reply_answer result) arena.new (kept_in room.new t.new)
        ≡ call row_bytes arena.old (kept_in room.old t.old) (releases handle) }
{
    if !soundness::sound(classes::ROW, arena.len(), room, t) {
        return Err(Refusal::Unsound);
    }
    let b = walks::locate::<ByMasks>(classes::ROW, arena, room, handle)?;
    ops::discard(classes::ROW, arena, room, t, b);
    Ok(0)
}

// Measure: the requested size.
pub fn measure(arena: &[u8], room: &[u8], t: &Totals, handle: usize) -> Result<usize, Refusal>
    ensures { left (reply_answer result) arena.now (kept_in room.now t.now)
        ≡ call row_bytes arena.now (kept_in room.now t.now) (measures handle) }
{
    if !soundness::sound(classes::ROW, arena.len(), room, t) {
        return Err(Refusal::Unsound);
    }
    let b = walks::locate::<ByMasks>(classes::ROW, arena, room, handle)?;
    Ok(b.alloc.size)
}

// Report: the six totals, as the record has them.
pub fn report(arena: &[u8], room: &[u8], t: &Totals) -> Result<Totals, Refusal>
    ensures { left (report_answer result) arena.now (kept_in room.now t.now)
        ≡ call row_bytes arena.now (kept_in room.now t.now) reports }
{
    if !soundness::sound(classes::ROW, arena.len(), room, t) {
        return Err(Refusal::Unsound);
    }
    Ok(*t)
}
