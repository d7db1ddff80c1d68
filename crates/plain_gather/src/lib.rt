// The plain pool's call for gather lists. One predicate says what it answers, writes to the lent list and leaves, for any bytes, sizes and lists: what
// the model's call does on these bytes (plain_call, crates/model/specs/Plain.antt). The check of a proposal and the planner see no pool: they are `gather`'s.
#![tactic(auto)]

ghost use Rattle.std.specs.Prelude.{length};
ghost use Rattle.classes.specs.Classes.{row_bytes};
ghost use Rattle.model.specs.Answers.{reply_answer};
ghost use Rattle.model.specs.Plans.{grants_list};
ghost use Rattle.model.specs.Plain.{plain_call};
ghost use Rattle.frames.specs.Listed.{Listed};

use model::Refusal;
use plain_sound::BySlots;

// 02 §3: "The list call takes a proposal, grants its sizes in order, writes the starts to the front of a lent list, keeps its later places and gives
// the number of entries"; "Order: 2, 9, 17, 8. A refused list leaves arena, tables and lent list unchanged, use counts included."
pub fn grant_list(
    arena: &mut [u8],
    room: &mut [u8],
    total: usize,
    cap: usize,
    sizes: &[usize],
    handles: &mut [usize],
) -> Result<usize, Refusal>
    ensures { Listed (plain_call row_bytes arena.old room.old
        (grants_list «total» cap (length handles.old) sizes.now))
        (reply_answer result) handles.old handles.new arena.new room.new }
{
    let len = arena.len();
    if !plain_sound::sound(classes::ROW, len, room) {
        return Err(Refusal::Unsound);
    }
    if !proposals::plannable(total, cap) {
        return Err(Refusal::TooLong);
    }
    if handles.len() < proposals::ENTRIES {
        return Err(Refusal::TooLong);
    }
    if !proposals::accepts(total, cap, sizes) {
        return Err(Refusal::BadProposal);
    }
    if !walks::fits::<BySlots>(classes::ROW, len, room, sizes) {
        return Err(Refusal::NoRoom);
    }
    plain_ops::grant_all(classes::ROW, arena, room, sizes, handles);
    Ok(sizes.len())
}
