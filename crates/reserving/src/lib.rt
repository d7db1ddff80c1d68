// Reserves a slot: in the group that serves, or in a new one at a run of free rows. What changes the tables is lent their totals too, and keeps
// them those of the tables.
#![tactic(auto)]

ghost use Rattle.std.specs.Prelude.{◌≡◌, true, ◌<◌};
ghost use Rattle.classes.specs.Classes.{class_of};
ghost use Rattle.classes.specs.Alignments.{enlarged, Askable};
ghost use Rattle.model.specs.Plans.{site, reserve, totals};
ghost use Rattle.model.specs.Tables.{masks_layout, sound, view};
ghost use Rattle.rows.specs.Rows.{site_found, NoneOpen};
ghost use Rattle.frames.specs.Blocks.{reserved_as};
ghost use Rattle.reserving.specs.Reserves.{site_room, site_totals, next_room, next_totals};

use classes::Row;
use model::Totals;
use rows::Block;
use soundness::ByMasks;

// The group in which a slot of class c is taken: the lowest with a slot that is not live, or a new one at the lowest run of free rows. No
// group before row `from` serves.
fn site_for(
    row: Row,
    len: usize,
    room: &mut [u8],
    t: &mut Totals,
    c: usize,
    from: usize,
) -> Option<usize>
    requires room_value { sound row.bytes len room.old ≡ true }
    requires c_bound { (c < 48) × NoneOpen masks_layout row.bytes room.old c from × (t.old ≡ totals row.bytes (view row.bytes room.old)) }
    ensures value { result ≡ site_found row.bytes (site row.bytes (view row.bytes room.old) c) }
    ensures room_after { room.new ≡ site_room row.bytes c room.old (site row.bytes (view row.bytes room.old) c) }
    ensures totals_after { t.new ≡ site_totals row.bytes c t.old (site row.bytes (view row.bytes room.old) c) }
{
    if let Some(i) = walks::find_open::<ByMasks>(row, len, room, c, from) {
        return Some(i);
    }
    let i = rows::find_run(row, len, room, c)?;
    records::make_group(row, room, i, c);
    totals::made(t, classes::rows(row, c), classes::slots(c));
    Some(i)
}

// Reserves a slot for n bytes with an alignment, c being the class of the enlarged size. No group of the class before row `from` serves.
pub fn reserve_in(
    row: Row,
    len: usize,
    room: &mut [u8],
    t: &mut Totals,
    c: usize,
    code: u8,
    n: usize,
    from: usize,
) -> Option<Block>
    requires room_value { sound row.bytes len room.old ≡ true }
    requires askable { Askable code n }
    requires c_value { (c ≡ class_of (enlarged code n)) × (c < 48) × NoneOpen masks_layout row.bytes room.old c from × (t.old ≡ totals row.bytes (view row.bytes room.old)) }
    ensures value { result ≡ reserved_as row.bytes (reserve row.bytes (view row.bytes room.old) code n) }
    ensures room_after { room.new ≡ next_room row.bytes room.old (reserve row.bytes (view row.bytes room.old) code n) }
    ensures totals_after { t.new ≡ next_totals row.bytes t.old (reserve row.bytes (view row.bytes room.old) code n) }
{
    let i = site_for(row, len, room, t, c, from)?;
    let taken = changes::take_slot(row, room, i, c, code, n);
    totals::taken(t, n, taken.refilled);
    Some(taken.block)
}

// Reserves a slot for n bytes with an alignment.
pub fn reserve_slot(
    row: Row,
    len: usize,
    room: &mut [u8],
    t: &mut Totals,
    code: u8,
    n: usize,
) -> Option<Block>
    requires room_value { sound row.bytes len room.old ≡ true }
    requires askable { Askable code n }
    requires totals_value { t.old ≡ totals row.bytes (view row.bytes room.old) }
    ensures value { result ≡ reserved_as row.bytes (reserve row.bytes (view row.bytes room.old) code n) }
    ensures room_after { room.new ≡ next_room row.bytes room.old (reserve row.bytes (view row.bytes room.old) code n) }
    ensures totals_after { t.new ≡ next_totals row.bytes t.old (reserve row.bytes (view row.bytes room.old) code n) }
{
    let c = classes::class_of(classes::enlarged(code, n));
    reserve_in(row, len, room, t, c, code, n, 0)
}
