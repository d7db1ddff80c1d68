// Groups with masks: whether one is sound and what it counts. Whether the bytes of a room are sound tables, and the record beside them has their
// totals. The room is walked once, span by span (walks); what report counts is counted on the way.
#![tactic(auto)]

ghost use Rattle.std.specs.Prelude.{◌≡◌, ◌+◌, ◌*◌, ◌-◌, ◌%◌, ◌≤◌, ◌<◌, length, drop};
ghost use Rattle.std.specs.Int.Count.{ones};
ghost use Rattle.mem.specs.Bytes.{zeros, same, part};
ghost use Rattle.classes.specs.Classes.{slots_of};
ghost use Rattle.model.specs.Tables.{row_record_bytes, most_slots, slot_record_bytes, masks_layout, view_group};
ghost use Rattle.model.specs.Calls.{kept_in, sound_kept};
ghost use Rattle.model.proofs.Tables.{masks_laws};
ghost use Rattle.soundness.specs.Checks.{members_checked};
ghost use Rattle.rows.specs.Counts.{count_if, group_totals};
ghost use Rattle.soundness.specs.Counts.{masks_totals};

use classes::Row;
use masks::Masks;
use model::Totals;
use rows::Looked;
use slot_walks::Slots;
use walks::Keeping;

// What a group of k rows counts, by its masks and the bytes of its slots.
fn group_totals(k: usize, g: Slots, bytes: u32) -> Totals
    requires { ones g.masks.ready + ones g.masks.waiting ≤ g.n }
    ensures { result ≡ masks_totals k g.n g.masks.ready g.masks.waiting bytes }
{
    let live = g.masks.live(g.n as u32);
    Totals {
        blocks: live as usize,
        bytes: bytes as usize,
        held: k,
        free: 0,
        ready: u32::count_ones(g.masks.ready) as usize,
        waiting: u32::count_ones(g.masks.waiting) as usize,
    }
}

// The masks and the n slots of a group of class c, which has k rows, and whose first slot begins at a byte of the arena. One slot at least
// is live.
fn members_counted(
    s: &[u8],
    at: usize,
    c: usize,
    n: usize,
    k: usize,
    begin: usize,
) -> Option<Totals>
    requires record_in_bounds { (at + row_record_bytes ≤ length s.now) × (c < 48) × (n ≡ slots_of c) × (n ≤ most_slots) }
    requires begin_bound { (begin < 8388608) × (begin % 16 ≡ 0) }
    ensures { result ≡ count_if (members_checked c begin (drop at s.now)) (group_totals k (view_group c (drop at s.now))) }
{
    let g = Slots {
        at: at + model::SLOTS,
        n: n,
        masks: Masks {
            ready: mem::quad(s, at + model::READY),
            waiting: mem::quad(s, at + model::WAITING),
        },
        begin: begin,
    };
    let bytes = slot_walks::slots_right(s, g, c).ok()?;
    let t = group_totals(k, g, bytes);
    if t.blocks == 0 {
        return None;
    }
    Some(t)
}

// Whether the records from the n-th slot's to the row's end are zero. It counts up: a loop of 31 - n turns is not vectorised.
fn rest_zero(s: &[u8], at: usize, n: usize) -> bool
    requires { (n ≤ most_slots) × (at + slot_record_bytes * most_slots ≤ length s.now) }
    ensures { result ≡ same (part (at + slot_record_bytes * n) (slot_record_bytes * (most_slots - n)) s.now)
        (zeros (slot_record_bytes * (most_slots - n))) }
{
    let mut seen: u32 = 0;
    for i in n..model::MOST_SLOTS {
        seen = seen
            | mem::quad(s, at + model::SLOT_RECORD * i)
            | mem::quad(s, at + model::SLOT_RECORD * i + model::SIZE);
    }
    seen == 0
}

// Groups whose first row has two masks of the slots, of those that are ready and those that wait, and a record for each.
#[derive(Clone, Copy)]
pub struct ByMasks;

impl Keeping for ByMasks {
    ghost layout = { masks_layout };

    fn group_counted(row: Row, room: &[u8], i: usize, c: usize, k: usize) -> Option<Totals> {
        let at = rows::row_at(i);
        if !mem::zeros_at(room, at + 2, model::READY - 2) {
            return None;
        }
        let n = classes::slots(c);
        if !rest_zero(room, at + model::SLOTS, n) {
            return None;
        }
        members_counted(room, at, c, n, k, row.bytes * i + 16)
    }

    fn serves(room: &[u8], i: usize, _c: usize) -> bool {
        let m = records::masks_at(room, i);
        if m.ready != 0 {
            return true;
        }
        m.waiting != 0
    }

    fn idle_in(room: &[u8], i: usize, _c: usize) -> usize {
        let m = records::masks_at(room, i);
        let idle = u32::count_ones(m.ready) + u32::count_ones(m.waiting);
        idle as usize
    }

    fn find_block(row: Row, len: usize, room: &[u8], offset: usize) -> Looked {
        search::find_block(row, len, room, offset)
    }

    ghost laws = { masks_laws };
}

// Whether a room is sound under an arena of len bytes, and t has its totals.
pub fn sound(row: Row, len: usize, room: &[u8], t: &Totals) -> bool
    ensures { result ≡ sound_kept row.bytes len (kept_in room.now t.now) }
{
    match walks::counted::<ByMasks>(row, len, room) {
        Some(s) => *t == s,
        None => false,
    }
}
