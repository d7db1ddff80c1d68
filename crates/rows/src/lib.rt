// The rows of a table room: who holds one, what a row that keeps no slots must hold, runs of free rows. Nothing here reads how a group
// keeps its slots.
#![tactic(auto)]

ghost use Rattle.std.specs.Prelude.{◌≡◌, true, [], ◌+◌, ◌*◌, ◌-◌, ◌≤◌, ◌<◌, length, drop, IfSome};
ghost use Rattle.mem.specs.Lists.{starts, nonzero};
ghost use Rattle.mem.specs.Bytes.{zeros, put};
ghost use Rattle.model.specs.declared.Holder.TheVariants.{First, Later};
ghost use Rattle.model.specs.Plans.{run_from};
ghost use Rattle.model.specs.Tables.{row_at, row_record_bytes, row_record, holder_bytes, later_records, view_holder, Layout, view_by, most_rows};
ghost use Rattle.rows.specs.Checks.{room_rows, frame_held, frame_in};
ghost use Rattle.rows.specs.Counts.{all_rows, PerRow, plus};
ghost use Rattle.rows.specs.Rows.{Lent, arena_rows, class_held, rows_held, next_run, reaches, first_of, site_found};

use classes::Row;
use model::{Alloc, Holder, Totals};

// The free rows that end before a row, from the first of them on.
#[derive(Clone, Copy)]
pub struct Run {
    pub from: usize,
    pub next: usize,
}

// A live block: its group's first row and class, its slot, and what the tables know of it.
#[derive(Clone, Copy)]
pub struct Block {
    pub first: usize,
    pub class: usize,
    pub slot: usize,
    pub alloc: Alloc,
}

// What stands at an offset: a live block, the last start of a slot that is not live, or nothing.
#[derive(Clone, Copy)]
pub enum Looked {
    Present(Block),
    Freed,
    Absent,
}

// What begins at a row, whatever stands in a group's slots: a free row, or a group with its class and its rows.
#[derive(Clone, Copy)]
pub enum Frame {
    Free,
    Group { class: usize, rows: usize },
}

// The totals of rows and of further rows.
pub fn plus(a: Totals, b: Totals) -> Totals
    requires per_row_a { PerRow a }
    requires per_row_b { PerRow b }
    requires b_bound { all_rows a + all_rows b ≤ most_rows }
    ensures { result ≡ plus a b }
{
    Totals {
        blocks: a.blocks + b.blocks,
        bytes: a.bytes + b.bytes,
        held: a.held + b.held,
        free: a.free + b.free,
        ready: a.ready + b.ready,
        waiting: a.waiting + b.waiting,
    }
}

// The rows of an arena, if its length is inside the rule.
pub fn rows_in(row: Row, len: usize) -> Option<usize>
    ensures value { result ≡ nonzero (arena_rows row.bytes len) }
    ensures small { IfSome result (λ n. (1 ≤ n) × (n ≤ most_rows)) }
{
    if len < row.bytes {
        return None;
    }
    if model::MOST_ROWS * row.bytes < len {
        return None;
    }
    if len % row.bytes != 0 {
        return None;
    }
    Some(len / row.bytes)
}

// Where the record of a row stands.
pub fn row_at(i: usize) -> usize
    requires { i ≤ most_rows }
    ensures { result ≡ row_at i }
{
    model::HEAD + model::ROW_RECORD * i
}

// The rows of a room, if its head is right under an arena of len bytes.
pub fn rows_under(row: Row, len: usize, room: &[u8]) -> Option<usize>
    ensures value { result ≡ nonzero (room_rows row.bytes len room.now) }
    ensures small { IfSome result (λ n. (1 ≤ n) × (n ≤ most_rows)) }
{
    let n = rows_in(row, len)?;
    if room.len() != row_at(n) {
        return None;
    }
    if mem::quad(room, 0) as usize != len {
        return None;
    }
    if !mem::zeros_at(room, 4, model::HEAD - 4) {
        return None;
    }
    Some(n)
}

// Who holds a row.
pub fn holder_at(room: &[u8], i: usize) -> Holder
    requires { (i < most_rows) × (row_at i + row_record_bytes ≤ length room.now) }
    ensures { result ≡ view_holder (drop (row_at i) room.now) }
{
    let at = row_at(i);
    let kind = room[at];
    if kind == 1 {
        return Holder::First(room[at + 1]);
    }
    if kind == 2 {
        return Holder::Later(room[at + 1]);
    }
    Holder::Free
}

// The rows of the span that a row begins.
pub fn rows_held(row: Row, h: Holder) -> usize
    requires h_bound { class_held h < 48 }
    ensures value { result ≡ rows_held row.bytes h }
    ensures small { (1 ≤ result) × (result ≤ 256) }
{
    match h {
        Holder::Free => 1,
        Holder::First(c) => classes::rows(row, mem::wide(c)),
        Holder::Later(_) => 1,
    }
}

// The first row of the group that has a row, if one has it.
pub fn first_of(i: usize, h: Holder) -> Option<usize>
    requires { reaches i h ≡ true }
    ensures { result ≡ first_of i h }
{
    match h {
        Holder::Free => None,
        Holder::First(_) => Some(i),
        Holder::Later(k) => Some(i - mem::wide(k)),
    }
}

// A run of free rows, one span further: a free row makes it longer, a group begins it anew.
fn next_run(row: Row, run: Run, h: Holder) -> Run
    requires h_bound { (class_held h < 48) × (run.next < most_rows) }
    ensures { result ≡ next_run row.bytes run h }
{
    let after = run.next + rows_held(row, h);
    match h {
        Holder::First(_) => Run {
            from: after,
            next: after,
        },
        Holder::Free => Run {
            from: run.from,
            next: after,
        },
        Holder::Later(_) => Run {
            from: run.from,
            next: after,
        },
    }
}

// The lowest run of as many free rows as a group of a class takes.
pub fn find_run(row: Row, len: usize, room: &[u8], c: usize) -> Option<usize>
    requires lent { (L : Layout) × Lent L row.bytes len room.now }
    requires c_bound { c < 48 }
    ensures { (L : Layout) → Lent L row.bytes len room.now → result ≡ site_found row.bytes (run_from row.bytes [] c (view_by L row.bytes room.now)) }
{
    let n = len / row.bytes;
    let need = classes::rows(row, c);
    let mut from = 0;
    let mut i = 0;
    while i < n {
        let run = next_run(
            row,
            Run {
                from: from,
                next: i,
            },
            holder_at(room, i),
        );
        from = run.from;
        i = run.next;
        if i - from == need {
            return Some(from);
        }
    }
    None
}

// Whether a row is a later row of a group, k rows after its first.
fn later_sound(room: &[u8], i: usize, k: usize) -> bool
    requires { (i < most_rows) × (row_at i + row_record_bytes ≤ length room.now) }
    ensures { result ≡ starts (drop (row_at i) room.now) (row_record (Later k) []) }
{
    let h = holder_at(room, i);
    let Holder::Later(d) = h else {
        return false;
    };
    if mem::wide(d) != k {
        return false;
    }
    mem::zeros_at(room, row_at(i) + 2, model::ROW_RECORD - 2)
}

// Whether the m later rows of a group follow its first, which is row i.
pub fn laters_sound(room: &[u8], i: usize, m: usize) -> bool
    requires { (i + m < most_rows) × (row_at (i + m) + row_record_bytes ≤ length room.now) }
    ensures { result ≡ starts (drop (row_at (i + 1)) room.now) (later_records m 1) }
{
    for k in 0..m {
        if !later_sound(room, i + 1 + k, k + 1) {
            return false;
        }
    }
    true
}

// A group of class c that begins at row i, where n rows are left, if it is one.
fn group_frame(row: Row, room: &[u8], i: usize, n: usize, c: usize) -> Option<Frame>
    requires n_nonzero { (0 < n) × (i + n ≤ most_rows) × (row_at (i + n) ≤ length room.now) }
    ensures { result ≡ frame_held row.bytes n (drop (row_at i) room.now) (First c) }
{
    // There is such a class.
    if classes::CLASSES <= c {
        return None;
    }
    // Its rows are in the arena, and say how far they are from its first.
    let k = classes::rows(row, c);
    if n < k {
        return None;
    }
    if !laters_sound(room, i, k - 1) {
        return None;
    }
    Some(Frame::Group { class: c, rows: k })
}

// What begins at row i, where n rows are left; nothing of sound tables, if there is none.
pub fn frame_at(row: Row, room: &[u8], i: usize, n: usize) -> Option<Frame>
    requires n_nonzero { (0 < n) × (i + n ≤ most_rows) × (row_at (i + n) ≤ length room.now) }
    ensures { result ≡ frame_in row.bytes n (drop (row_at i) room.now) }
{
    match holder_at(room, i) {
        Holder::Free => {
            if mem::zeros_at(room, row_at(i), model::ROW_RECORD) {
                return Some(Frame::Free);
            }
            None
        }
        Holder::First(c) => group_frame(row, room, i, n, mem::wide(c)),
        Holder::Later(_) => None,
    }
}

fn holder_bytes(h: Holder) -> [u8; 2]
    ensures { result ≡ holder_bytes h }
{
    match h {
        Holder::Free => [0, 0],
        Holder::First(c) => [1, c],
        Holder::Later(k) => [2, k],
    }
}

// Writes the record of a row that keeps no slots.
pub fn write_row(room: &mut [u8], i: usize, h: Holder)
    requires { (i < most_rows) × (row_at i + row_record_bytes ≤ length room.old) }
    ensures { room.new ≡ put (row_at i) (row_record h []) room.old }
{
    let at = row_at(i);
    mem::clear(room, at, at + model::ROW_RECORD);
    let holder = holder_bytes(h);
    mem::copy_in(room, at, &holder);
}

// Writes the records of the later rows of a group of n rows.
pub fn write_later(room: &mut [u8], i: usize, n: usize)
    requires n_in_range { (1 ≤ n) × (n ≤ 256) × (i + n ≤ most_rows) }
    requires n_in_bounds { row_at (i + n) ≤ length room.old }
    ensures { room.new ≡ put (row_at (i + 1)) (later_records (n - 1) 1) room.old }
{
    for k in 1..n {
        write_row(room, i + k, Holder::Later(k as u8));
    }
}

// Writes the records of n free rows.
pub fn drop_rows(room: &mut [u8], i: usize, n: usize)
    requires { (i + n ≤ most_rows) × (row_at (i + n) ≤ length room.old) }
    ensures { room.new ≡ put (row_at i) (zeros (row_record_bytes * n)) room.old }
{
    mem::clear(room, row_at(i), row_at(i + n));
}
