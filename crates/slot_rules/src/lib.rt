// The rules of one slot's record, by the numbers in its two halves: of ordinary blocks, of any, and of blocks that all have one alignment.
#![tactic(auto)]

ghost use Rattle.std.specs.Prelude.{◌≡◌, ◌≤◌, ◌<◌, ◌+◌};
ghost use Rattle.classes.specs.Classes.{slot_bytes, below2};
ghost use Rattle.classes.specs.Alignments.{align_of};
ghost use Rattle.slot_rules.specs.Rules.{record_checked, alike_checked, live_checked, exact_checked};

// The record of a slot, as the numbers in its two halves. Its bits of the two masks are handed on beside it: as fields they would be bytes, which
// makes the vectorised loops over the slots half as long again.
#[derive(Clone, Copy)]
pub struct Record {
    pub lo: u32,
    pub hi: u32,
}

// A class, as the rules of its slots read it. A displacement and a size have at most `most` bytes together; the class two below has `least`
// bytes, or 0 where there is none: a request that fits them is of neither this class nor the one below.
#[derive(Clone, Copy)]
pub struct Bounds {
    pub class: usize,
    pub most: u32,
    pub least: u32,
    pub ghost of_class: { (class < 48) × (most + 4 ≡ slot_bytes class) × (least ≡ below2 class) },
    pub ghost small: { most < 131068 },
}

// An alignment that is more than an ordinary block's, by its code and in bytes.
#[derive(Clone, Copy)]
pub struct Alignment {
    pub code: u32,
    pub bytes: u32,
    pub ghost lawful: { (1 < code) × (code ≤ 9) × (bytes ≡ align_of code) },
}

// The bytes of the class two below c, or 0.
fn below(c: usize) -> usize
    requires { c < 48 }
    ensures value { result ≡ below2 c }
    ensures small { result < 131072 }
{
    if c < 2 {
        return 0;
    }
    16 * classes::units(c - 2)
}

impl Bounds {
    // The bounds of class c.
    pub fn of(c: usize) -> Bounds
        requires { c < 48 }
        ensures { result.class ≡ c }
    {
        Bounds {
            class: c,
            most: (16 * classes::units(c) - 4) as u32,
            least: below(c) as u32,
        }
    }
}

impl Alignment {
    pub fn of(code: u8) -> Alignment
        requires { (1 < code) × (code ≤ 9) }
        ensures { result.code ≡ code }
    {
        Alignment {
            code: mem::wide32(code),
            bytes: classes::align_of(code) as u32,
        }
    }
}

// The record of a slot whose block is ordinary, if it has one. Every rule is tested, with no branch between them, so that the loop over the
// slots is vectorised.
pub fn record_sound(r: Record, ready: bool, waiting: bool, most: u32, least: u32) -> bool
    ensures { result ≡ record_checked most least ready waiting r.lo r.hi }
{
    let granted = r.lo % 256 == 1;
    let displacement = r.lo / 65536;
    let size = r.hi % 16777216;
    let idle = ready | waiting;
    // The slot is not in both sets.
    let one_set = !(ready & waiting);
    // It was granted before, or it is ready and has zeros alone.
    let begun = granted | (ready & (r.lo == 0));
    // The block ends within the slot, wherever it begins.
    let fits = 16 * displacement + size <= most;
    // A live block is too large for the class two below.
    let own_class = idle | (least < size + 4);
    // A slot that is not live has no size.
    let cleared = !idle | (r.hi == 0);
    // The size is one that can be asked for, and the byte after it is 0.
    let allowed = r.hi < classes::TOO_LARGE as u32;
    one_set & begun & fits & own_class & cleared & allowed
}

// The record of a live slot that begins at a byte of the arena, whatever its alignment.
fn live_sound(r: Record, most: u32, least: u32, begin: usize) -> bool
    requires { (most < 131072) × (begin < 16777216) }
    ensures { result ≡ live_checked most least begin r.lo r.hi }
{
    let code = (r.lo % 256) as u8;
    // There is such an alignment.
    if code == 0 {
        return false;
    }
    if 9 < code {
        return false;
    }
    let size = r.hi as usize;
    // The size is one that can be asked for, and the byte after it is 0.
    if classes::TOO_LARGE <= size {
        return false;
    }
    let enlarged = classes::enlarged(code, size);
    if classes::TOO_LARGE <= enlarged {
        return false;
    }
    let displacement = (r.lo / 65536) as usize;
    // The block ends within the slot, and the enlarged size is of the slot's class or of the one below.
    let fits = 16 * displacement + size <= most as usize;
    let own_class = (enlarged <= most as usize) & ((least as usize) < enlarged + 4);
    // The block starts on a boundary.
    let aligned = (begin + 16 * displacement) % classes::align_of(code) == 0;
    fits & own_class & aligned
}

// The record of a slot, of which only a live one can have an alignment.
pub fn slot_sound(
    r: Record,
    ready: bool,
    waiting: bool,
    most: u32,
    least: u32,
    begin: usize,
) -> bool
    requires { (most < 131072) × (begin < 16777216) }
    ensures { result ≡ exact_checked most least begin ready waiting r.lo r.hi }
{
    if ready | waiting {
        return record_sound(r, ready, waiting, most, least);
    }
    live_sound(r, most, least, begin)
}

// The record of a slot of a group whose live blocks all have one alignment, the slot beginning at a byte of the arena: as `record_sound`, every
// rule with no branch between them.
pub fn record_alike(
    r: Record,
    ready: bool,
    waiting: bool,
    b: Bounds,
    begin: u32,
    align: Alignment,
) -> bool
    requires { begin < 16777216 }
    ensures { result ≡ alike_checked b.most b.least begin align.code ready waiting r.lo r.hi }
{
    let displacement = r.lo / 65536;
    let size = r.hi % 16777216;
    let enlarged = size + (align.bytes - 16);
    let idle = ready | waiting;
    let one_set = !(ready & waiting);
    let kind = r.lo % 256;
    // A live slot has the alignment; one that is not was granted before, or it is ready and has zeros alone.
    let begun = (!idle & (kind == align.code)) | (idle & (kind == 1)) | (ready & (r.lo == 0));
    let fits = 16 * displacement + size <= b.most;
    let own_class = (enlarged <= b.most)
        & (b.least < enlarged + 4)
        & (enlarged < classes::TOO_LARGE as u32);
    let cleared = !idle | (r.hi == 0);
    let in_range = r.hi < classes::TOO_LARGE as u32;
    let aligned = (begin + 16 * displacement) & (align.bytes - 1) == 0;
    one_set & begun & fits & (idle | own_class) & cleared & in_range & (idle | aligned)
}
