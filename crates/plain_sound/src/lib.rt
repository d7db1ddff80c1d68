// Groups with a plain record for each slot: whether one is sound and what it counts, slot by slot. The rows of a room are walked in walks, the
// same for both engines. Read next: walks, then plain_changes.
#![tactic(auto)]

ghost use Rattle.std.specs.Prelude.{◌≡◌, ◌+◌, ◌*◌, ◌≤◌, ◌<◌, length, drop};
ghost use Rattle.classes.specs.Classes.{slots_of};
ghost use Rattle.model.specs.declared.Slot.TheVariants.{Idle};
ghost use Rattle.model.specs.Tables.{row_record_bytes, slots_at, most_slots, row_at, sound_by, most_rows};
ghost use Rattle.model.specs.Plain.{plain_slots, slots_layout};
ghost use Rattle.model.proofs.Plain.{slots_laws};
ghost use Rattle.rows.specs.Counts.{count_if, group_totals};
ghost use Rattle.plain_slots.specs.Slots.{Small};
ghost use Rattle.plain_sound.specs.Checks.{slots_right, with_slot, some_live, FewSlots};

use classes::Row;
use model::{Slot, Totals};
use rows::Looked;
use walks::Keeping;

// "unsound ones get answer 2 from all calls but set up": whether a room is sound under an arena of len bytes.
pub fn sound(row: Row, len: usize, room: &[u8]) -> bool
    ensures { result ≡ sound_by slots_layout row.bytes len room.now }
{
    walks::counted::<BySlots>(row, len, room).is_some()
}

// "with a plain record per slot": groups whose first row has a record for each slot, and nothing else.
#[derive(Clone, Copy)]
pub struct BySlots;

impl Keeping for BySlots {
    ghost layout = { slots_layout };

    // "with zero wherever nothing is to be said": between the class of a group and its slots, and after its slots.
    fn group_counted(row: Row, room: &[u8], i: usize, c: usize, k: usize) -> Option<Totals> {
        if !mem::zeros_at(room, rows::row_at(i) + 2, model::SLOTS - 2) {
            return None;
        }
        let n = classes::slots(c);
        let after = plain_slots::slot_place(i, n);
        if !mem::zeros_at(room, after, model::SLOT_RECORD * (model::MOST_SLOTS - n)) {
            return None;
        }
        some_live(slots_counted(room, i, c, k, row.bytes * i + 16))
    }

    fn serves(room: &[u8], i: usize, c: usize) -> bool {
        plain_slots::live_in(room, i, c) < classes::slots(c)
    }

    fn idle_in(room: &[u8], i: usize, c: usize) -> usize {
        classes::slots(c) - plain_slots::live_in(room, i, c)
    }

    fn find_block(row: Row, len: usize, room: &[u8], offset: usize) -> Looked {
        plain_tables::find_block(row, len, room, offset)
    }

    ghost laws = { slots_laws };
}

// "each group has a live slot"
fn some_live(found: Option<Totals>) -> Option<Totals>
    ensures { result ≡ some_live found }
{
    let t = found?;
    if t.blocks == 0 {
        return None;
    }
    Some(t)
}

// "Slot i of a group begins 16 + i·s bytes after the group's first byte." The first begins at the byte given, each other where the one before ends.
fn slots_counted(room: &[u8], i: usize, c: usize, k: usize, begin: usize) -> Option<Totals>
    requires i_lt_most_rows { (i < most_rows) × (row_at i + row_record_bytes ≤ length room.now) }
    requires c_bound { (c < 48) × (begin < 8388608) }
    ensures { result ≡ count_if (slots_right c begin (slots_of c) (drop (row_at i + slots_at) room.now))
        (group_totals k (plain_slots (slots_of c) (drop (row_at i + slots_at) room.now))) }
{
    let n = classes::slots(c);
    let bytes = 16 * classes::units(c);
    let mut t = Totals {
        held: k,
        ..Totals::default()
    };
    let mut place = begin;
    for j in 0..n {
        let x = plain_slots::slot_at(room, i, j);
        if !plain_rules::record_sound(room, i, j, c, place, x) {
            return None;
        }
        t = with_slot(t, x);
        place += bytes;
    }
    Some(t)
}

// "live blocks, their requested bytes": totals with one slot more.
fn with_slot(t: Totals, x: Slot) -> Totals
    requires { FewSlots most_slots t × Small x }
    ensures { result ≡ with_slot t x }
{
    match x {
        Slot::Fresh => with_idle(t, true),
        Slot::Idle { ready, .. } => with_idle(t, ready),
        Slot::Live(a) => Totals {
            blocks: t.blocks + 1,
            bytes: t.bytes + a.size,
            ..t
        },
    }
}

// "ready slots, waiting slots (the last two over present groups)"
fn with_idle(t: Totals, ready: bool) -> Totals
    requires { FewSlots most_slots t }
    ensures { result ≡ with_slot t (Idle ready 0 0) }
{
    if ready {
        return Totals {
            ready: t.ready + 1,
            ..t
        };
    }
    Totals {
        waiting: t.waiting + 1,
        ..t
    }
}
