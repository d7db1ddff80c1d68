// Tables with no groups, which are the same bytes in every layout: the size of their room, and the room itself.
#![tactic(auto)]

ghost use Rattle.std.specs.Prelude.{◌≡◌, ◌≤◌, ◌<◌, length};
ghost use Rattle.mem.specs.Bytes.{zeros, low, put};
ghost use Rattle.classes.specs.Classes.{row_bytes};
ghost use Rattle.model.specs.Tables.{room_for};

// The exact size of the table room for an arena, or 0 where the arena's length is outside the rule.
pub fn room_len(arena_len: usize) -> usize
    ensures { result ≡ room_for row_bytes arena_len }
{
    rows::rows_in(classes::ROW, arena_len).map_or(0, rows::row_at)
}

// Writes tables with no groups, for an arena of len bytes.
pub fn format(room: &mut [u8], len: usize)
    requires { (4 ≤ length room.old) × (len < 4294967296) }
    ensures { room.new ≡ put 0 (low 4 len) (zeros (length room.old)) }
{
    mem::fill_zero(room);
    let head = (len as u32).to_le_bytes();
    mem::copy_in(room, 0, &head);
}
