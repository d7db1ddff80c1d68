// A block in the arena, whatever tables it is in: where it lies and its handle, laid out, cleared, judged by what was found at its start.
#![tactic(auto)]

ghost use Rattle.std.specs.Prelude.{◌≡◌, ◌++◌, ◌+◌, ◌*◌, ◌-◌, ◌≤◌, ◌<◌, length};
ghost use Rattle.mem.specs.Bytes.{zeros, put, part};
ghost use Rattle.classes.specs.Classes.{slot_bytes, rows_of};
ghost use Rattle.classes.specs.Alignments.{Askable};
ghost use Rattle.model.specs.State.{use_bits, start_of};
ghost use Rattle.model.specs.Blocks.{reserved, header, spare, damage_in, frame};
ghost use Rattle.model.specs.Tables.{most_rows};
ghost use Rattle.rows.specs.Rows.{owned_at, start_at, handle_at};
ghost use Rattle.frames.specs.Blocks.{Standing, Lies, code_found, bits_found, judged, judged_for, stays_in};

use blocks::Framed;
use classes::Row;
use model::Refusal;
use rows::{Block, Looked};

// The first byte that a block's slot owns, the slot having so many bytes.
fn owned_in(row: Row, b: Block, bytes: usize) -> usize
    requires class_bound { (b.class < 48) × (b.slot < 31) × (b.first ≤ most_rows) × (bytes ≡ slot_bytes b.class) }
    ensures value { result ≡ owned_at row.bytes b }
    ensures small { result < 8388608 }
{
    row.bytes * b.first + 12 + b.slot * bytes
}

pub fn owned_of(row: Row, b: Block) -> usize
    requires class_bound { (b.class < 48) × (b.slot < 31) × (b.first ≤ most_rows) }
    ensures value { result ≡ owned_at row.bytes b }
    ensures small { result < 8388608 }
{
    owned_in(row, b, 16 * classes::units(b.class))
}

// The low four bits of a live block's handle, from its slot's use count: the count before the grant, modulo 16.
fn use_bits(count: u8) -> usize
    ensures value { result ≡ use_bits count }
    ensures small { result < 16 }
{
    (mem::wide(count) + 15) % 16
}

// The start of a handle: the low four bits cleared.
pub fn start_in(handle: usize) -> usize
    ensures { result ≡ start_of handle }
{
    handle - handle % 16
}

// Where a block starts.
pub fn start_of(row: Row, b: Block) -> usize
    requires class_bound { (b.class < 48) × (b.slot < 31) × (b.first ≤ most_rows) }
    requires disp_bound { 16 * b.alloc.disp ≤ slot_bytes b.class }
    ensures value { result ≡ start_at row.bytes b }
    ensures small { result < 8519680 }
{
    owned_of(row, b) + 4 + 16 * b.alloc.disp
}

// The handle of a live block.
pub fn handle_of(row: Row, b: Block) -> usize
    requires class_bound { (b.class < 48) × (b.slot < 31) × (b.first ≤ most_rows) }
    requires disp_bound { 16 * b.alloc.disp ≤ slot_bytes b.class }
    ensures { result ≡ handle_at row.bytes b }
{
    start_of(row, b) + use_bits(b.alloc.count)
}

// How a block is framed that has n bytes where a block stands.
fn framed(b: Block, n: usize) -> Framed
    requires class_bound { (b.class < 48) × (b.slot < 31) }
    requires fits { 16 * b.alloc.disp + n + 4 ≤ slot_bytes b.class }
    ensures { (result.class ≡ b.class) × (result.slot ≡ b.slot) × (result.disp ≡ b.alloc.disp) × (result.size ≡ n) }
{
    Framed {
        class: b.class,
        slot: b.slot,
        disp: b.alloc.disp,
        size: n,
    }
}

// Whether the header and the guard of a block are those due.
fn inspect(row: Row, arena: &[u8], b: Block) -> Result<(), Refusal>
    requires standing { Standing row.bytes (length arena.now) b }
    ensures { result ≡ damage_in b.class b.slot b.alloc.disp b.alloc.size
        (part (owned_at row.bytes b) (slot_bytes b.class) arena.now) }
{
    framed(b, b.alloc.size).inspect_at(arena, owned_of(row, b))
}

// Writes zero over a block's slot, then its header and guard (mallocng's enframe). Gives the block's handle.
pub fn lay_out(row: Row, arena: &mut [u8], b: Block) -> usize
    requires standing { Standing row.bytes (length arena.old) b }
    ensures value { result ≡ handle_at row.bytes b }
    ensures arena_after { arena.new ≡ put (owned_at row.bytes b) (frame b.class b.slot b.alloc.disp b.alloc.size) arena.old }
{
    let frame = framed(b, b.alloc.size);
    let bytes = frame.bytes();
    let at = owned_in(row, b, bytes);
    frame.enframe_at(arena, at, at + bytes);
    at + 4 + 16 * b.alloc.disp + use_bits(b.alloc.count)
}

// Lays a block out with n bytes where it stands: the first bytes stay, as many as the lesser of both sizes.
pub fn reframe(row: Row, arena: &mut [u8], b: Block, kept: usize, n: usize)
    requires standing { Standing row.bytes (length arena.old) b }
    requires fits { 16 * b.alloc.disp + n + 4 ≤ slot_bytes b.class }
    requires kept_le_n { kept ≤ n }
    ensures { arena.new ≡ put (owned_at row.bytes b + (16 * b.alloc.disp + 4 + kept))
        (zeros (n - kept) ++ spare (reserved b.class b.alloc.disp n))
        (put (owned_at row.bytes b + 16 * b.alloc.disp) (header b.class b.slot b.alloc.disp n) arena.old) }
{
    framed(b, n).reframe_at(arena, owned_of(row, b), kept);
}

// Writes zero over a block's slot.
pub fn clear_slot(row: Row, arena: &mut [u8], b: Block)
    requires standing { Standing row.bytes (length arena.old) b }
    ensures { arena.new ≡ put (owned_at row.bytes b) (zeros (slot_bytes b.class)) arena.old }
{
    let at = owned_of(row, b);
    mem::clear(arena, at, at + 16 * classes::units(b.class));
}

// Writes zero over all rows of a block's group.
pub fn clear_group(row: Row, arena: &mut [u8], b: Block)
    requires standing { Standing row.bytes (length arena.old) b }
    ensures { arena.new ≡ put (row.bytes * b.first) (zeros (row.bytes * rows_of row.bytes b.class)) arena.old }
{
    let at = row.bytes * b.first;
    mem::clear(arena, at, at + row.bytes * classes::rows(row, b.class));
}

// The low four bits of the handle of what was found: those of a live block; of anything else, 0.
fn bits_found(found: Looked) -> usize
    ensures { result ≡ bits_found found }
{
    match found {
        Looked::Absent => 0,
        Looked::Freed => 0,
        Looked::Present(b) => use_bits(b.alloc.count),
    }
}

// What was found at the start of a handle, as the calls see it: a live block with the handle's bits and undamaged, or why not.
pub fn judge(row: Row, arena: &[u8], found: Looked, handle: usize) -> Result<Block, Refusal>
    requires lies { Lies row.bytes (length arena.now) found }
    ensures { result ≡ judged row.bytes arena.now handle found }
{
    // Read before the block is taken out: the copy of a block that a byte is read of is slower (DECISIONS 115).
    let bits = bits_found(found);
    match found {
        Looked::Absent => Err(Refusal::NoSuchBlock),
        Looked::Freed => Err(Refusal::AlreadyFree),
        Looked::Present(b) => {
            if handle % 16 != bits {
                return Err(Refusal::Stale);
            }
            inspect(row, arena, b)?;
            Ok(b)
        }
    }
}

// The alignment of what was found at an offset: that of a live block; of anything else, an ordinary block's.
fn code_found(found: Looked) -> u8
    ensures { result ≡ code_found found }
{
    match found {
        Looked::Absent => classes::ORDINARY,
        Looked::Freed => classes::ORDINARY,
        Looked::Present(b) => b.alloc.align,
    }
}

// What was found at the start of a handle, for a block that is to have n bytes: whether that is too large goes by the alignment of a live block,
// before the handle's bits and the block's damage are looked at.
pub fn judge_for(
    row: Row,
    arena: &[u8],
    found: Looked,
    handle: usize,
    n: usize,
) -> Result<Block, Refusal>
    requires lies { Lies row.bytes (length arena.now) found }
    requires found_bound { code_found found ≤ 9 }
    ensures { result ≡ judged_for row.bytes arena.now handle n found }
{
    if classes::too_large(code_found(found), n) {
        return Err(Refusal::TooLarge);
    }
    judge(row, arena, found, handle)
}

// Whether a block of n bytes can stay in its slot: it fits, and its class is that of the enlarged size or the next one up.
pub fn stays_in(b: Block, n: usize) -> bool
    requires class_bound { (b.class < 48) × (16 * b.alloc.disp + 4 ≤ slot_bytes b.class) }
    requires askable { Askable b.alloc.align n }
    ensures { result ≡ stays_in b n }
{
    if 16 * classes::units(b.class) - 4 - 16 * b.alloc.disp < n {
        return false;
    }
    let c = classes::class_of(classes::enlarged(b.alloc.align, n));
    if b.class == c {
        return true;
    }
    b.class == c + 1
}
