// What is read of a table room row by row, for both engines: what a room counts if it is sound, the group that serves a class, the block of a handle,
// whether all of a list fits. How a group keeps its slots is all that they differ in here, and a trait.
#![tactic(auto)]

ghost use Rattle.std.specs.Prelude.{◌≡◌, true, [], ◌∷◌, ◌++◌, ℕ, ◌+◌, ◌*◌, ◌/◌, ◌≤◌, ◌<◌, ltb, is_some, not, List, length, drop};
ghost use Rattle.mem.specs.Lists.{any, every, sum};
ghost use Rattle.mem.specs.Bytes.{zeros, bit};
ghost use Rattle.classes.specs.Classes.{size_limit};
ghost use Rattle.model.specs.declared.Slot.{Slot};
ghost use Rattle.model.specs.declared.Holder.TheVariants.{First};
ghost use Rattle.model.specs.State.{Span, Pool, is_live, rows_in, start_of};
ghost use Rattle.model.specs.Plans.{opens, open_from, lookup, reserve_all, totals};
ghost use Rattle.model.specs.Tables.{Layout, LayoutLaws, head_bytes, row_record_bytes, row_at, sound_by, view_by, view_holder, most_rows};
ghost use Rattle.rows.specs.Checks.{group_checked};
ghost use Rattle.rows.specs.Counts.{count_if, group_totals, span_counted, rows_counted};
ghost use Rattle.rows.specs.Rows.{site_found, looked, NoneOpen};
ghost use Rattle.frames.specs.Blocks.{located, located_for};
ghost use Rattle.serving.specs.Survey.{NotesOf};
ghost use Rattle.serving.specs.Walk.{Next, Noted};
ghost use Rattle.walks.specs.Kept.{Kept};

use classes::Row;
use model::{Holder, Refusal, Totals};
use rows::{Block, Frame, Looked};

// How a group keeps its slots in its first row. In what follows the group has class c and its first row is row i.
pub trait Keeping {
    ghost layout: { Layout };

    // What the group counts, which has k rows, if its first row is sound.
    fn group_counted(row: Row, room: &[u8], i: usize, c: usize, k: usize) -> Option<Totals>
        requires i_lt_most_rows { (i < most_rows) × (row_at i + row_record_bytes ≤ length room.now) }
        requires c_bound { (c < 48) × (view_holder (drop (row_at i) room.now) ≡ First c) }
        ensures { result ≡ count_if (group_checked layout (row.bytes * i) c (drop (row_at i) room.now))
            (group_totals k (layout.slots_in c (drop (row_at i) room.now))) };

    // Whether it has a slot that is not live.
    fn serves(room: &[u8], i: usize, c: usize) -> bool
        requires i_lt_most_rows { (i < most_rows) × (row_at i + row_record_bytes ≤ length room.now) }
        requires c_bound { c < 48 }
        ensures { (ss : List Slot) → Kept layout c ss (drop (row_at i) room.now) → result ≡ any (λ x. not (is_live x)) ss };

    // How many of its slots are not live.
    fn idle_in(room: &[u8], i: usize, c: usize) -> usize
        requires i_lt_most_rows { (i < most_rows) × (row_at i + row_record_bytes ≤ length room.now) }
        requires c_bound { c < 48 }
        ensures { (ss : List Slot) → Kept layout c ss (drop (row_at i) room.now) → result ≡ sum (λ x. bit (not (is_live x))) ss };

    // What stands at an offset of sound tables.
    fn find_block(row: Row, len: usize, room: &[u8], offset: usize) -> Looked
        requires room_value { sound_by layout row.bytes len room.now ≡ true }
        ensures { result ≡ looked row.bytes (lookup row.bytes (view_by layout row.bytes room.now) offset) };

    ghost laws: { LayoutLaws layout };
}

// "The tables are sound if: the arena length is the recorded one"; and what they count.
pub fn counted<K: Keeping>(row: Row, len: usize, room: &[u8]) -> Option<Totals>
    ensures { result ≡ count_if (sound_by K.layout row.bytes len room.now) (totals row.bytes (view_by K.layout row.bytes room.now)) }
{
    let n = rows::rows_under(row, len, room)?;
    rows_counted::<K>(row, room, n)
}

// The n rows of a room: "rows held plus rows free is the arena's rows", so these are the rows passed.
fn rows_counted<K: Keeping>(row: Row, room: &[u8], n: usize) -> Option<Totals>
    requires n_le_most_rows { (n ≤ most_rows) × (length room.now ≡ row_at n) }
    ensures { result ≡ rows_counted K.layout row.bytes 0 n (drop head_bytes room.now) }
{
    let mut s = Totals::default();
    while s.held + s.free < n {
        let i = s.held + s.free;
        s = rows::plus(s, span_counted::<K>(row, room, i, n - i)?);
    }
    Some(s)
}

// "groups lie inside the arena and no two share a row": what begins at row i, where n rows are left, is a free row or a whole group.
fn span_counted<K: Keeping>(row: Row, room: &[u8], i: usize, n: usize) -> Option<Totals>
    requires n_nonzero { (0 < n) × (i + n ≤ most_rows) × (row_at (i + n) ≤ length room.now) }
    ensures { result ≡ span_counted K.layout row.bytes (row.bytes * i) n (drop (row_at i) room.now) }
{
    match rows::frame_at(row, room, i, n)? {
        Frame::Free => Some(Totals {
            free: 1,
            ..Totals::default()
        }),
        Frame::Group { class, rows } => K::group_counted(row, room, i, class, rows),
    }
}

// "Of the groups of n's class with a slot not live, take the one with the lowest first row."
pub fn lowest_open<K: Keeping>(row: Row, len: usize, room: &[u8], c: usize) -> Option<usize>
    requires room_value { sound_by K.layout row.bytes len room.now ≡ true }
    requires c_bound { c < 48 }
    ensures { result ≡ site_found row.bytes (open_from [] c (view_by K.layout row.bytes room.now)) }
{
    find_open::<K>(row, len, room, c, 0)
}

// The same, looked for from a row on before which there is none.
pub fn find_open<K: Keeping>(
    row: Row,
    len: usize,
    room: &[u8],
    c: usize,
    from: usize,
) -> Option<usize>
    requires room_value { sound_by K.layout row.bytes len room.now ≡ true }
    requires c_bound { (c < 48) × NoneOpen K.layout row.bytes room.now c from }
    ensures { result ≡ site_found row.bytes (open_from [] c (view_by K.layout row.bytes room.now)) }
{
    let n = len / row.bytes;
    let mut i = from;
    while i < n {
        if opens_at::<K>(room, i, c) {
            return Some(i);
        }
        i += rows::rows_held(row, rows::holder_at(room, i));
    }
    None
}

// Whether row i is the first row of a group of class c "with a slot not live".
fn opens_at<K: Keeping>(room: &[u8], i: usize, c: usize) -> bool
    requires i_lt_most_rows { (i < most_rows) × (row_at i + row_record_bytes ≤ length room.now) }
    requires c_bound { c < 48 }
    ensures { (row len : ℕ) (X : Pool) (s : Span) (Y : Pool) → Next K.layout row len room.now i X s Y → result ≡ opens c s }
{
    let h = rows::holder_at(room, i);
    let Holder::First(k) = h else {
        return false;
    };
    if mem::wide(k) != c {
        return false;
    }
    K::serves(room, i, c)
}

// The live block of a handle, undamaged, or else why not, in the order 4, 5, 10, 6, 7. 02 §7: "starts are handles with the low four bits cleared"
pub fn locate<K: Keeping>(
    row: Row,
    arena: &[u8],
    room: &[u8],
    handle: usize,
) -> Result<Block, Refusal>
    requires room_value { sound_by K.layout row.bytes (length arena.now) room.now ≡ true }
    ensures { result ≡ located row.bytes arena.now handle (lookup row.bytes (view_by K.layout row.bytes room.now) (start_of handle)) }
{
    frames::judge(
        row,
        arena,
        K::find_block(row, arena.len(), room, frames::start_in(handle)),
        handle,
    )
}

// The same for a block that is to have n bytes, with 3 before 4. 02 §6: "answer 3 reads the enlarged new size where the offset starts such a live
// block"; 02 §7: "whatever the bits"
pub fn locate_for<K: Keeping>(
    row: Row,
    arena: &[u8],
    room: &[u8],
    handle: usize,
    n: usize,
) -> Result<Block, Refusal>
    requires room_value { sound_by K.layout row.bytes (length arena.now) room.now ≡ true }
    ensures { result ≡ located_for row.bytes arena.now handle n (lookup row.bytes (view_by K.layout row.bytes room.now) (start_of handle)) }
{
    frames::judge_for(
        row,
        arena,
        K::find_block(row, arena.len(), room, frames::start_in(handle)),
        handle,
        n,
    )
}

// 02 §3: "answer 8 exactly if granting the accepted sizes in order would meet it", found without a change of the tables. The sizes are served
// from notes.
pub fn fits<K: Keeping>(row: Row, len: usize, room: &[u8], sizes: &[usize]) -> bool
    requires room_value { sound_by K.layout row.bytes len room.now ≡ true }
    requires small_sizes { every (λ n. ltb n size_limit) sizes.now ≡ true }
    ensures { result ≡ is_some (reserve_all row.bytes (view_by K.layout row.bytes room.now) sizes.now) }
{
    let mut spare = [0usize; 48];
    let mut gaps = [0u8; 512];
    let n = len / row.bytes;
    note::<K>(row, len, room, &mut spare, &mut gaps[0..n]);
    serving::serve_all(row, sizes, &mut spare, &mut gaps[0..n])
}

// Notes in counts and a map that are zero, span by span: the slots of each class that are not live, and the free rows.
fn note<K: Keeping>(row: Row, len: usize, room: &[u8], spare: &mut [usize], gaps: &mut [u8])
    requires room_value { sound_by K.layout row.bytes len room.now ≡ true }
    requires spare_value { (spare.old ≡ zeros 48) × (gaps.old ≡ zeros (len / row.bytes)) }
    ensures { NotesOf row.bytes (view_by K.layout row.bytes room.now) spare.new gaps.new }
{
    let n = len / row.bytes;
    let mut i = 0;
    while i < n {
        i += note_span::<K>(row, room, i, spare, gaps);
    }
}

// Notes of what begins at row i, a free row or a group, and how many rows it has.
fn note_span<K: Keeping>(
    row: Row,
    room: &[u8],
    i: usize,
    spare: &mut [usize],
    gaps: &mut [u8],
) -> usize
    requires next_span { (len : ℕ) × (X : Pool) × (s : Span) × (Y : Pool) × Next K.layout row.bytes len room.now i X s Y
        × Noted row.bytes (len / row.bytes) X spare.old gaps.old }
    ensures { (len : ℕ) (X : Pool) (s : Span) (Y : Pool) → Next K.layout row.bytes len room.now i X s Y
        → Noted row.bytes (len / row.bytes) X spare.old gaps.old
        → (result ≡ rows_in row.bytes s) × Noted row.bytes (len / row.bytes) (X ++ (s ∷ [])) spare.new gaps.new }
{
    let h = rows::holder_at(room, i);
    let Holder::First(k) = h else {
        gaps[i] = 1;
        return 1;
    };
    let c = mem::wide(k);
    spare[c] += K::idle_in(room, i, c);
    classes::rows(row, c)
}
