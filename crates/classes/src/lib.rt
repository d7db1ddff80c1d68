// The 48 size classes: units of a slot, slots and rows of a group, and the class of a size. Alignments, by their codes.
#![tactic(auto)]

ghost use Rattle.std.specs.Prelude.{◌≡◌, ◌-◌, ◌/◌, ◌≤◌, ◌<◌, max, leb, IfSome};
ghost use Rattle.mem.specs.Lists.{nonzero};
ghost use Rattle.classes.specs.Classes.{units_of, slots_of, rows_of, class_of, size_limit, Lawful};
ghost use Rattle.classes.specs.Alignments.{ordinary, align_of, code_of, enlarged, round_up};

// The bytes of a row: a size that the classes' groups can be laid out in.
#[derive(Clone, Copy)]
pub struct Row {
    pub bytes: usize,
    pub ghost lawful: { Lawful bytes },
}

// The card's row.
pub const ROW: Row = Row { bytes: 512 };

// How many classes there are.
pub const CLASSES: usize = 48;

// The largest request is one byte less.
pub const TOO_LARGE: usize = 131052;

// 16-bit numbers: a table that is read at an index is copied to the stack first, so it is kept small.
const UNITS: [u16; 48] = [
    1, 2, 3, 4, 5, 6, 7, 8, 9, 10, 12, 15, 18, 20, 25, 31, 36, 42, 50, 63, 72, 84, 102, 127, 146,
    170, 204, 255, 292, 340, 409, 511, 584, 682, 818, 1023, 1169, 1364, 1637, 2047, 2340, 2730,
    3276, 4095, 4680, 5460, 6552, 8191,
];

// The units of a slot of a class.
pub fn units(c: usize) -> usize
    requires { c < 48 }
    ensures value { result ≡ units_of c }
    ensures small { (1 ≤ result) × (result < 8192) }
{
    UNITS[c] as usize
}

// The slots of a group.
pub fn slots(c: usize) -> usize
    requires { c < 48 }
    ensures value { result ≡ slots_of c }
    ensures small { (1 ≤ result) × (result ≤ 31) }
{
    let n = 4080 / (16 * units(c));
    if n < 1 {
        return 1;
    }
    if 31 < n {
        return 31;
    }
    n
}

// How many rows of a size have no more than n bytes. The two sizes in use divide by shifts.
pub fn whole_rows(row: Row, n: usize) -> usize
    ensures { result ≡ n / row.bytes }
{
    if row.bytes == 512 {
        return n / 512;
    }
    if row.bytes == 1024 {
        return n / 1024;
    }
    n / row.bytes
}

// The rows of a group.
pub fn rows(row: Row, c: usize) -> usize
    requires c_bound { c < 48 }
    ensures value { result ≡ rows_of row.bytes c }
    ensures small { (1 ≤ result) × (result ≤ 256) }
{
    whole_rows(row, 16 + 16 * units(c) * slots(c) + (row.bytes - 1))
}

// The least class whose slot has n + 4 bytes, as mallocng's size_to_class finds it. Up to 10 units every need has a class of its own. Past
// them the needs of one length in bits have four classes: the leading zeros pick the four, and two comparisons find the one.
pub fn class_of(n: usize) -> usize
    requires { n < size_limit }
    ensures value { result ≡ class_of n }
    ensures small { result < 48 }
{
    let q = (n + 4 + 15) / 16;
    if q <= 10 {
        return q - 1;
    }
    // The first of the four. A need of 4 bits begins at class 8, and each bit more is four classes more.
    let mut c = 4 * (62 - usize::leading_zeros(q) as usize);
    // The table is copied once for both comparisons.
    let table = UNITS;
    if (table[c + 1] as usize) < q {
        c += 2;
    }
    if (table[c] as usize) < q {
        c += 1;
    }
    c
}

// A size with its class.
#[derive(Clone, Copy)]
pub struct Sized {
    pub size: usize,
    pub class: usize,
    pub ghost class_is: { class ≡ class_of size },
    pub ghost small: { class < 48 },
}

// A size with its class, where that of another size may be at hand: the sizes of a list are often the same.
pub fn with_class(n: usize, known: Option<Sized>) -> Sized
    requires { n < size_limit }
    ensures { result.size ≡ n }
{
    match known {
        Some(s) if n == s.size => s,
        _ => Sized {
            size: n,
            class: class_of(n),
        },
    }
}

// The alignments that can be asked for.
const POWERS: [u16; 13] = [1, 2, 4, 8, 16, 32, 64, 128, 256, 512, 1024, 2048, 4096];

// The code of an ordinary block, whose start is on a boundary of 16 bytes.
pub const ORDINARY: u8 = 1;

// The code of the alignment at a place of the table: the first five are an ordinary block's.
fn code_at(i: usize) -> u8
    requires { i < 13 }
    ensures { result ≡ max ordinary (i - 3) }
{
    if i < 5 {
        return ORDINARY;
    }
    (i - 3) as u8
}

// The code of an alignment in bytes, if it is one that can be asked for.
pub fn code_of(align: usize) -> Option<u8>
    ensures value { result ≡ nonzero (code_of align) }
    ensures small { IfSome result (λ k. (1 ≤ k) × (k ≤ 9)) }
{
    for (i, p) in POWERS.iter().enumerate() {
        if usize::from(*p) == align {
            return Some(code_at(i));
        }
    }
    None
}

// The bytes of an alignment.
pub fn align_of(code: u8) -> usize
    requires { code ≤ 9 }
    ensures value { result ≡ align_of code }
    ensures small { (8 ≤ result) × (result ≤ 4096) }
{
    8 << code as u32
}

// The enlarged size, which a block's class and slot go by: n itself for an ordinary block.
pub fn enlarged(code: u8, n: usize) -> usize
    requires { (code ≤ 9) × (n < size_limit) }
    ensures value { result ≡ enlarged code n }
    ensures small { result < 135168 }
{
    if code <= ORDINARY {
        return n;
    }
    n + (align_of(code) - 16)
}

// Whether the enlarged size is one that cannot be asked for. It does not wrap, whatever n is.
pub fn too_large(code: u8, n: usize) -> bool
    requires { code ≤ 9 }
    ensures { result ≡ leb size_limit (enlarged code n) }
{
    if TOO_LARGE <= n {
        return true;
    }
    TOO_LARGE <= enlarged(code, n)
}

// The lowest multiple of an alignment at or after a place.
pub fn round_up(align: usize, at: usize) -> usize
    requires { (8 ≤ align) × (align ≤ 4096) × (at < 16777216) }
    ensures { result ≡ round_up align at }
{
    align * ((at + (align - 1)) / align)
}
