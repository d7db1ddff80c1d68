// The second engine for C: include/slotpool_plain.h. Each function makes the call of plain with its name, and hands out the answer's number and values.
// A slice is passed as a pointer and a length.
#![tactic(auto)]

ghost use Rattle.std.specs.Prelude.{◌≡◌, length};
ghost use Rattle.classes.specs.Classes.{row_bytes};
ghost use Rattle.model.specs.Plans.{sets_up, grants, grants_aligned, releases, resizes_in_place, moves, measures, reports, grants_list};
ghost use Rattle.model.specs.Tables.{room_for};
ghost use Rattle.model.specs.Plain.{plain_call};
ghost use Rattle.answers.specs.Gives.{Leaves, Tells, Gives, Reports, Lists};

#[unsafe(no_mangle)]
pub extern "C" fn slotpool_plain_room_len(arena_len: usize) -> usize
    ensures { result ≡ room_for row_bytes arena_len }
{
    fresh::room_len(arena_len)
}

#[unsafe(no_mangle)]
pub extern "C" fn slotpool_plain_set_up(arena: &mut [u8], room: &mut [u8]) -> u32
    ensures { Leaves (plain_call row_bytes arena.old room.old sets_up)
        result arena.new room.new }
{
    answers::number_of(plain::set_up(arena, room))
}

#[unsafe(no_mangle)]
pub extern "C" fn slotpool_plain_grant(
    arena: &mut [u8],
    room: &mut [u8],
    n: usize,
    value: &mut usize,
) -> u32
    ensures { Gives (plain_call row_bytes arena.old room.old (grants n))
        result value.new arena.new room.new }
{
    let r = plain::grant(arena, room, n);
    *value = answers::value_of(r);
    answers::number_of(r)
}

#[unsafe(no_mangle)]
pub extern "C" fn slotpool_plain_grant_aligned(
    arena: &mut [u8],
    room: &mut [u8],
    n: usize,
    align: usize,
    value: &mut usize,
) -> u32
    ensures { Gives (plain_call row_bytes arena.old room.old (grants_aligned n align))
        result value.new arena.new room.new }
{
    let r = plain::grant_aligned(arena, room, n, align);
    *value = answers::value_of(r);
    answers::number_of(r)
}

#[unsafe(no_mangle)]
pub extern "C" fn slotpool_plain_release(arena: &mut [u8], room: &mut [u8], handle: usize) -> u32
    ensures { Leaves (plain_call row_bytes arena.old room.old (releases handle))
        result arena.new room.new }
{
    answers::number_of(plain::release(arena, room, handle))
}

#[unsafe(no_mangle)]
pub extern "C" fn slotpool_plain_resize_in_place(
    arena: &mut [u8],
    room: &mut [u8],
    handle: usize,
    n: usize,
    value: &mut usize,
) -> u32
    ensures { Gives (plain_call row_bytes arena.old room.old (resizes_in_place handle n))
        result value.new arena.new room.new }
{
    let r = plain::resize_in_place(arena, room, handle, n);
    *value = answers::value_of(r);
    answers::number_of(r)
}

#[unsafe(no_mangle)]
pub extern "C" fn slotpool_plain_move(
    arena: &mut [u8],
    room: &mut [u8],
    handle: usize,
    n: usize,
    value: &mut usize,
) -> u32
    ensures { Gives (plain_call row_bytes arena.old room.old (moves handle n))
        result value.new arena.new room.new }
{
    let r = plain::move_block(arena, room, handle, n);
    *value = answers::value_of(r);
    answers::number_of(r)
}

#[unsafe(no_mangle)]
pub extern "C" fn slotpool_plain_measure(
    arena: &[u8],
    room: &[u8],
    handle: usize,
    value: &mut usize,
) -> u32
    ensures { Tells (plain_call row_bytes arena.now room.now (measures handle)).answer
        result value.new }
{
    let r = plain::measure(arena, room, handle);
    *value = answers::value_of(r);
    answers::number_of(r)
}

#[unsafe(no_mangle)]
pub extern "C" fn slotpool_plain_report(arena: &[u8], room: &[u8], out: &mut [usize; 6]) -> u32
    ensures { Reports (plain_call row_bytes arena.now room.now reports).answer result out.new }
{
    let r = plain::report(arena, room);
    *out = answers::report_values(r);
    answers::number_of(r)
}

#[unsafe(no_mangle)]
pub extern "C" fn slotpool_plain_grant_list(
    arena: &mut [u8],
    room: &mut [u8],
    total: usize,
    cap: usize,
    sizes: &[usize],
    handles: &mut [usize],
    value: &mut usize,
) -> u32
    ensures { Lists (plain_call row_bytes arena.old room.old
        (grants_list «total» cap (length handles.old) sizes.now))
        result value.new handles.old handles.new arena.new room.new }
{
    let r = plain_gather::grant_list(arena, room, total, cap, sizes, handles);
    *value = answers::value_of(r);
    answers::number_of(r)
}
