// The calls for gather lists (02 §3), over a lent arena, a lent table room and the record of totals beside it: the check of a proposal,
// the planner, and the grant of a whole list. Each promises one thing, for any bytes, totals, sizes and lists.
#![tactic(auto)]

ghost use Rattle.std.specs.Prelude.{◌≡◌, length};
ghost use Rattle.classes.specs.Classes.{row_bytes};
ghost use Rattle.model.specs.Answers.{reply_answer};
ghost use Rattle.model.specs.Proposals.{accepts};
ghost use Rattle.model.specs.Plans.{grants_list};
ghost use Rattle.model.specs.Calls.{kept_in, call};
ghost use Rattle.frames.specs.Listed.{Listed};
ghost use Rattle.gather.specs.Planned.{Planned};

use model::{Refusal, Totals};
use soundness::ByMasks;

// Check list: whether a proposal for a list of total bytes is accepted.
pub fn check_list(total: usize, cap: usize, sizes: &[usize]) -> bool
    ensures { result ≡ accepts «total» cap sizes.now }
{
    proposals::accepts(total, cap, sizes)
}

// Plan list: a proposal, which the check accepts, to the front of a lent array; the value is the number of its sizes.
pub fn plan_list(total: usize, cap: usize, sizes: &mut [usize; 17]) -> Result<usize, Refusal>
    ensures { Planned «total» cap (reply_answer result) sizes.old sizes.new }
{
    if !proposals::plannable(total, cap) {
        return Err(Refusal::TooLong);
    }
    Ok(proposals::full_caps(total, cap, sizes))
}

// Grant list: the sizes of an accepted proposal, all granted or none; the handles to the front of a lent list, and the value is their number.
// It is found first whether all of them fit; only then is anything written.
pub fn grant_list(
    arena: &mut [u8],
    room: &mut [u8],
    t: &mut Totals,
    total: usize,
    cap: usize,
    sizes: &[usize],
    handles: &mut [usize],
) -> Result<usize, Refusal>
    ensures { Listed (call row_bytes arena.old (kept_in room.old t.old)
        (grants_list «total» cap (length handles.old) sizes.now))
        (reply_answer result) handles.old handles.new arena.new (kept_in room.new t.new) }
{
    let len = arena.len();
    if !soundness::sound(classes::ROW, len, room, t) {
        return Err(Refusal::Unsound);
    }
    if !proposals::plannable(total, cap) {
        return Err(Refusal::TooLong);
    }
    if handles.len() < proposals::ENTRIES {
        return Err(Refusal::TooLong);
    }
    if !proposals::accepts(total, cap, sizes) {
        return Err(Refusal::BadProposal);
    }
    if !walks::fits::<ByMasks>(classes::ROW, len, room, sizes) {
        return Err(Refusal::NoRoom);
    }
    lists::grant_all(classes::ROW, arena, room, t, sizes, handles);
    Ok(sizes.len())
}
