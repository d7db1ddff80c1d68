// The C interface of the slot pool: include/slotpool.h. A slice is passed as a pointer and a length.
//
// Each function makes the call of pool, resizing or gather with its name, and promises one thing: what C sees of the model's call
// (crates/answers/specs/Gives.antt).
#![tactic(auto)]

ghost use Rattle.std.specs.Prelude.{◌≡◌, length};
ghost use Rattle.mem.specs.Bytes.{bit};
ghost use Rattle.classes.specs.Classes.{row_bytes};
ghost use Rattle.model.specs.Answers.{listed};
ghost use Rattle.model.specs.Proposals.{accepts};
ghost use Rattle.model.specs.Plans.{sets_up, grants, grants_aligned, releases, resizes_in_place, moves, measures, reports, grants_list};
ghost use Rattle.model.specs.Tables.{room_for};
ghost use Rattle.model.specs.Calls.{kept_in, call};
ghost use Rattle.answers.specs.Gives.{Leaves, Tells, Gives, Reports, Lists};
ghost use Rattle.gather.specs.Planned.{PlannedFor};

use model::Totals;

#[unsafe(no_mangle)]
pub extern "C" fn slotpool_room_len(arena_len: usize) -> usize
    ensures { result ≡ room_for row_bytes arena_len }
{
    pool::room_len(arena_len)
}

#[unsafe(no_mangle)]
pub extern "C" fn slotpool_set_up(arena: &mut [u8], room: &mut [u8], totals: &mut Totals) -> u32
    ensures { Leaves (call row_bytes arena.old (kept_in room.old totals.old) sets_up)
        result arena.new (kept_in room.new totals.new) }
{
    answers::number_of(pool::set_up(arena, room, totals))
}

#[unsafe(no_mangle)]
pub extern "C" fn slotpool_grant(
    arena: &mut [u8],
    room: &mut [u8],
    totals: &mut Totals,
    n: usize,
    value: &mut usize,
) -> u32
    ensures { Gives (call row_bytes arena.old (kept_in room.old totals.old) (grants n))
        result value.new arena.new (kept_in room.new totals.new) }
{
    let r = pool::grant(arena, room, totals, n);
    *value = answers::value_of(r);
    answers::number_of(r)
}

#[unsafe(no_mangle)]
pub extern "C" fn slotpool_grant_aligned(
    arena: &mut [u8],
    room: &mut [u8],
    totals: &mut Totals,
    n: usize,
    align: usize,
    value: &mut usize,
) -> u32
    ensures { Gives (call row_bytes arena.old (kept_in room.old totals.old) (grants_aligned n align))
        result value.new arena.new (kept_in room.new totals.new) }
{
    let r = pool::grant_aligned(arena, room, totals, n, align);
    *value = answers::value_of(r);
    answers::number_of(r)
}

#[unsafe(no_mangle)]
pub extern "C" fn slotpool_release(
    arena: &mut [u8],
    room: &mut [u8],
    totals: &mut Totals,
    handle: usize,
) -> u32
    ensures { Leaves (call row_bytes arena.old (kept_in room.old totals.old) (releases handle))
        result arena.new (kept_in room.new totals.new) }
{
    answers::number_of(pool::release(arena, room, totals, handle))
}

#[unsafe(no_mangle)]
pub extern "C" fn slotpool_resize_in_place(
    arena: &mut [u8],
    room: &mut [u8],
    totals: &mut Totals,
    handle: usize,
    n: usize,
    value: &mut usize,
) -> u32
    ensures { Gives (call row_bytes arena.old (kept_in room.old totals.old) (resizes_in_place handle n))
        result value.new arena.new (kept_in room.new totals.new) }
{
    let r = resizing::resize_in_place(arena, room, totals, handle, n);
    *value = answers::value_of(r);
    answers::number_of(r)
}

#[unsafe(no_mangle)]
pub extern "C" fn slotpool_move(
    arena: &mut [u8],
    room: &mut [u8],
    totals: &mut Totals,
    handle: usize,
    n: usize,
    value: &mut usize,
) -> u32
    ensures { Gives (call row_bytes arena.old (kept_in room.old totals.old) (moves handle n))
        result value.new arena.new (kept_in room.new totals.new) }
{
    let r = resizing::move_block(arena, room, totals, handle, n);
    *value = answers::value_of(r);
    answers::number_of(r)
}

#[unsafe(no_mangle)]
pub extern "C" fn slotpool_measure(
    arena: &[u8],
    room: &[u8],
    totals: &Totals,
    handle: usize,
    value: &mut usize,
) -> u32
    ensures { Tells (call row_bytes arena.now (kept_in room.now totals.now) (measures handle)).answer
        result value.new }
{
    let r = pool::measure(arena, room, totals, handle);
    *value = answers::value_of(r);
    answers::number_of(r)
}

#[unsafe(no_mangle)]
pub extern "C" fn slotpool_report(
    arena: &[u8],
    room: &[u8],
    totals: &Totals,
    out: &mut Totals,
) -> u32
    ensures { Reports (call row_bytes arena.now (kept_in room.now totals.now) reports).answer result
        (listed out.new) }
{
    let r = pool::report(arena, room, totals);
    totals::record(out, answers::report_totals(r));
    answers::number_of(r)
}

#[unsafe(no_mangle)]
pub extern "C" fn slotpool_check_list(total: usize, cap: usize, sizes: &[usize]) -> u32
    ensures { result ≡ bit (accepts «total» cap sizes.now) }
{
    u32::from(gather::check_list(total, cap, sizes))
}

#[unsafe(no_mangle)]
pub extern "C" fn slotpool_plan_list(
    total: usize,
    cap: usize,
    sizes: &mut [usize; 17],
    value: &mut usize,
) -> u32
    ensures { PlannedFor «total» cap result value.new sizes.old sizes.new }
{
    let r = gather::plan_list(total, cap, sizes);
    *value = answers::value_of(r);
    answers::number_of(r)
}

#[unsafe(no_mangle)]
pub extern "C" fn slotpool_grant_list(
    arena: &mut [u8],
    room: &mut [u8],
    totals: &mut Totals,
    total: usize,
    cap: usize,
    sizes: &[usize],
    handles: &mut [usize],
    value: &mut usize,
) -> u32
    ensures { Lists (call row_bytes arena.old (kept_in room.old totals.old)
        (grants_list «total» cap (length handles.old) sizes.now))
        result value.new handles.old handles.new arena.new (kept_in room.new totals.new) }
{
    let r = gather::grant_list(arena, room, totals, total, cap, sizes, handles);
    *value = answers::value_of(r);
    answers::number_of(r)
}
