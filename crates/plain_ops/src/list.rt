// The grants of a list that fits.
ghost use Rattle.std.specs.Prelude.{◌≡◌, true, map, ◌≤◌, ◌<◌, ltb, length, is_some};
ghost use Rattle.mem.specs.Lists.{every};
ghost use Rattle.mem.specs.Bytes.{put};
ghost use Rattle.classes.specs.Classes.{size_limit};
ghost use Rattle.model.specs.State.{handle};
ghost use Rattle.model.specs.Plans.{reserve_all, reserve, enframe, pool_after};
ghost use Rattle.model.specs.Tables.{sound_by, view_by, encode_by};
ghost use Rattle.model.specs.Plain.{slots_layout};
ghost use Rattle.classes.specs.Alignments.{ordinary};
ghost use Rattle.model.specs.Calls.{written};
ghost use Rattle.frames.specs.Blocks.{next_room_by};
ghost use Rattle.frames.specs.Grants.{granted, handle_of, next_arena};

use classes::Row;

// 02 §3: "grants its sizes in order, writes the starts to the front of a lent list, keeps its later places"
pub fn grant_all(
    row: Row,
    arena: &mut [u8],
    room: &mut [u8],
    sizes: &[usize],
    handles: &mut [usize],
)
    requires room_value { sound_by slots_layout row.bytes (length arena.old) room.old ≡ true }
    requires small_sizes { (every (λ n. ltb n size_limit) sizes.now ≡ true) × (length sizes.now ≤ length handles.old) }
    requires room_enough { is_some (reserve_all row.bytes (view_by slots_layout row.bytes room.old) sizes.now) ≡ true }
    ensures arena_after { arena.new
        ≡ written arena.old (map (enframe row.bytes) (granted (reserve_all row.bytes (view_by slots_layout row.bytes room.old) sizes.now))) }
    ensures room_after { room.new ≡ encode_by slots_layout row.bytes
        (pool_after (view_by slots_layout row.bytes room.old) (granted (reserve_all row.bytes (view_by slots_layout row.bytes room.old) sizes.now))) }
    ensures handles_after { handles.new
        ≡ put 0 (map (handle row.bytes) (granted (reserve_all row.bytes (view_by slots_layout row.bytes room.old) sizes.now))) handles.old }
{
    for (i, n) in sizes.iter().enumerate() {
        handles[i] = grant_one(row, arena, room, *n).unwrap();
    }
}

// The handle of one block more, if there is room.
fn grant_one(row: Row, arena: &mut [u8], room: &mut [u8], n: usize) -> Option<usize>
    requires room_value { sound_by slots_layout row.bytes (length arena.old) room.old ≡ true }
    requires n_lt_limit { n < size_limit }
    ensures value { result ≡ handle_of row.bytes (reserve row.bytes (view_by slots_layout row.bytes room.old) ordinary n) }
    ensures arena_after { arena.new ≡ next_arena row.bytes arena.old (reserve row.bytes (view_by slots_layout row.bytes room.old) ordinary n) }
    ensures room_after { room.new ≡ next_room_by slots_layout row.bytes room.old (reserve row.bytes (view_by slots_layout row.bytes room.old) ordinary n) }
{
    let len = arena.len();
    let b = crate::reserve_slot(row, len, room, classes::ORDINARY, n)?;
    Some(frames::lay_out(row, arena, b))
}
