// The grants of a list that fits, one after the other.
#![tactic(auto)]

ghost use Rattle.std.specs.Prelude.{◌≡◌, true, map, ◌≤◌, ◌<◌, eqb, ltb, length, is_some, MatchOption};
ghost use Rattle.mem.specs.Lists.{choose, every};
ghost use Rattle.mem.specs.Bytes.{put};
ghost use Rattle.classes.specs.Classes.{class_of, size_limit};
ghost use Rattle.classes.specs.Alignments.{ordinary};
ghost use Rattle.model.specs.State.{handle};
ghost use Rattle.model.specs.Plans.{reserve, enframe, reserve_all, pool_after, totals};
ghost use Rattle.model.specs.Tables.{masks_layout, sound, view, encode};
ghost use Rattle.model.specs.Calls.{written};
ghost use Rattle.rows.specs.Rows.{NoneOpen};
ghost use Rattle.reserving.specs.Reserves.{next_room, next_totals};
ghost use Rattle.frames.specs.Grants.{granted, next_arena};
ghost use Rattle.lists.specs.Grants.{placed_as};

use classes::{Row, Sized};
use model::Totals;

// Where a granted block is: its handle, and the first row of its group.
#[derive(Clone, Copy)]
pub struct Placed {
    pub handle: usize,
    pub first: usize,
}

// Grants a block, if there is room. No group of its class before row `from` serves.
fn grant_one(
    row: Row,
    arena: &mut [u8],
    room: &mut [u8],
    t: &mut Totals,
    s: Sized,
    from: usize,
) -> Option<Placed>
    requires room_value { sound row.bytes (length arena.old) room.old ≡ true }
    requires size_known { (s.size < size_limit) × NoneOpen masks_layout row.bytes room.old s.class from
        × (t.old ≡ totals row.bytes (view row.bytes room.old)) }
    ensures value { result ≡ placed_as row.bytes (reserve row.bytes (view row.bytes room.old) ordinary s.size) }
    ensures arena_after { arena.new ≡ next_arena row.bytes arena.old (reserve row.bytes (view row.bytes room.old) ordinary s.size) }
    ensures room_after { room.new ≡ next_room row.bytes room.old (reserve row.bytes (view row.bytes room.old) ordinary s.size) }
    ensures totals_after { t.new ≡ next_totals row.bytes t.old (reserve row.bytes (view row.bytes room.old) ordinary s.size) }
{
    let len = arena.len();
    let b = reserving::reserve_in(row, len, room, t, s.class, classes::ORDINARY, s.size, from)?;
    let handle = frames::lay_out(row, arena, b);
    Some(Placed {
        handle,
        first: b.first,
    })
}

// Where the search for a class begins: where the last one ended, if it was for the same class.
fn begin(c: usize, last: Option<Sized>, from: usize) -> usize
    ensures { MatchOption last (result ≡ 0) (λ s. result ≡ choose (eqb c s.class) from 0) }
{
    match last {
        Some(s) if c == s.class => from,
        _ => 0,
    }
}

// Grants sizes that fit, and writes the handles to the front of a list.
pub fn grant_all(
    row: Row,
    arena: &mut [u8],
    room: &mut [u8],
    t: &mut Totals,
    sizes: &[usize],
    handles: &mut [usize],
)
    requires room_value { sound row.bytes (length arena.old) room.old ≡ true }
    requires small_sizes { (every (λ n. ltb n size_limit) sizes.now ≡ true) × (length sizes.now ≤ length handles.old) }
    requires room_enough { (is_some (reserve_all row.bytes (view row.bytes room.old) sizes.now) ≡ true) × (t.old ≡ totals row.bytes (view row.bytes room.old)) }
    ensures arena_after { arena.new
        ≡ written arena.old (map (enframe row.bytes) (granted (reserve_all row.bytes (view row.bytes room.old) sizes.now))) }
    ensures room_after { room.new
        ≡ encode row.bytes (pool_after (view row.bytes room.old) (granted (reserve_all row.bytes (view row.bytes room.old) sizes.now))) }
    ensures handles_after { handles.new
        ≡ put 0 (map (handle row.bytes) (granted (reserve_all row.bytes (view row.bytes room.old) sizes.now))) handles.old }
    ensures totals_after { t.new
        ≡ totals row.bytes (pool_after (view row.bytes room.old) (granted (reserve_all row.bytes (view row.bytes room.old) sizes.now))) }
{
    let mut last = None;
    let mut from = 0;
    for (i, n) in sizes.iter().enumerate() {
        let s = classes::with_class(*n, last);
        let p = grant_one(row, arena, room, t, s, begin(s.class, last, from)).unwrap();
        handles[i] = p.handle;
        from = p.first;
        last = Some(s);
    }
}
