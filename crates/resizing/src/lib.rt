// The calls that give a block another size, in place or by a move, over a lent arena, a lent table room and the record of totals beside it,
// as the calls of `pool` are. The check stands in each of them, since in one function before both it is slower (DECISIONS 151).
#![tactic(auto)]

ghost use Rattle.std.specs.Prelude.{◌≡◌};
ghost use Rattle.classes.specs.Classes.{row_bytes};
ghost use Rattle.model.specs.Answers.{reply_answer};
ghost use Rattle.model.specs.Plans.{resizes_in_place, moves};
ghost use Rattle.model.specs.Calls.{kept_in, left, call};

use model::{Refusal, Totals};
use soundness::ByMasks;

// Resize in place: refused where the block's slot does not serve the new size.
pub fn resize_in_place(
    arena: &mut [u8],
    room: &mut [u8],
    t: &mut Totals,
    handle: usize,
    n: usize,
) -> Result<usize, Refusal>
    ensures { left (reply_answer result) arena.new (kept_in room.new t.new)
        ≡ call row_bytes arena.old (kept_in room.old t.old) (resizes_in_place handle n) }
{
    if !soundness::sound(classes::ROW, arena.len(), room, t) {
        return Err(Refusal::Unsound);
    }
    let b = walks::locate_for::<ByMasks>(classes::ROW, arena, room, handle, n)?;
    ops::resize_in_place(classes::ROW, arena, room, t, b, n)
}

// Move: always to another place, also where the block's slot serves the new size.
pub fn move_block(
    arena: &mut [u8],
    room: &mut [u8],
    t: &mut Totals,
    handle: usize,
    n: usize,
) -> Result<usize, Refusal>
    ensures { left (reply_answer result) arena.new (kept_in room.new t.new)
        ≡ call row_bytes arena.old (kept_in room.old t.old) (moves handle n) }
{
    if !soundness::sound(classes::ROW, arena.len(), room, t) {
        return Err(Refusal::Unsound);
    }
    let b = walks::locate_for::<ByMasks>(classes::ROW, arena, room, handle, n)?;
    ops::move_block(classes::ROW, arena, room, t, b, n)
}
