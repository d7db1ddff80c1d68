// Leaves on byte slices: clear, test, compare, copy, and numbers, low byte first or high byte first.
#![tactic(auto)]

ghost use Rattle.std.specs.Prelude.{◌≡◌, ◌⊎◌, ◌+◌, ◌-◌, ◌≤◌, ◌<◌, length};
ghost use Rattle.mem.specs.Bytes.{zeros, number, big, same, part, put};

// A byte as a number that can be an index.
pub fn wide(x: u8) -> usize
    ensures { (result ≡ x) × (result < 256) }
{
    usize::from(x)
}

// Writes zero over a slice.
pub fn fill_zero(s: &mut [u8])
    ensures { s.new ≡ zeros (length s.old) }
{
    s.fill(0);
}

// Writes zero from one place up to another.
pub fn clear(s: &mut [u8], from: usize, to: usize)
    requires { (from ≤ to) × (to ≤ length s.old) }
    ensures { s.new ≡ put from (zeros (to - from)) s.old }
{
    s[from..to].fill(0);
}

// Whether n bytes from a place on are zero. It runs to the end of its stretch, so that it is vectorised.
pub fn zeros_at(s: &[u8], at: usize, n: usize) -> bool
    requires { at + n ≤ length s.now }
    ensures { result ≡ same (part at n s.now) (zeros n) }
{
    let mut seen: u8 = 0;
    for x in &s[at..at + n] {
        seen |= *x;
    }
    seen == 0
}

// Whether two slices hold the same bytes. A loop: the library's comparison of slices stays a call of its own, for each slot of a room.
pub fn same_bytes(a: &[u8], b: &[u8]) -> bool
    ensures { result ≡ same a.now b.now }
{
    if a.len() != b.len() {
        return false;
    }
    for (i, x) in a.iter().enumerate() {
        if *x != b[i] {
            return false;
        }
    }
    true
}

// Writes the bytes of v from a place on. A loop: `copy_from_slice` would need the symbol memmove.
pub fn copy_in(s: &mut [u8], at: usize, v: &[u8])
    requires { at + length v.now ≤ length s.old }
    ensures { s.new ≡ put at v.now s.old }
{
    for (i, x) in v.iter().enumerate() {
        s[at + i] = *x;
    }
}

// Copies n bytes from one place to another; the two stretches are apart.
pub fn copy_within(s: &mut [u8], from: usize, to: usize, n: usize)
    requires n_in_bounds { (from + n ≤ length s.old) × (to + n ≤ length s.old) }
    requires apart { (from + n ≤ to) ⊎ (to + n ≤ from) }
    ensures { s.new ≡ put to (part from n s.old) s.old }
{
    s.copy_within(from..from + n, to);
}

// The number in two or three bytes.
pub fn get2(s: &[u8], at: usize) -> usize
    requires { at + 2 ≤ length s.now }
    ensures value { result ≡ number (part at 2 s.now) }
    ensures small { result < 65536 }
{
    usize::from(u16::from_le_bytes([s[at], s[at + 1]]))
}

pub fn get3(s: &[u8], at: usize) -> usize
    requires { at + 3 ≤ length s.now }
    ensures value { result ≡ number (part at 3 s.now) }
    ensures small { result < 16777216 }
{
    get2(s, at) + 65536 * wide(s[at + 2])
}

// A byte, and the number in four, at 32 bits: a loop over many of them is vectorised four at a time.
pub fn wide32(x: u8) -> u32
    ensures { (result ≡ x) × (result < 256) }
{
    u32::from(x)
}

pub fn quad(s: &[u8], at: usize) -> u32
    requires { at + 4 ≤ length s.now }
    ensures { result ≡ number (part at 4 s.now) }
{
    u32::from_le_bytes([s[at], s[at + 1], s[at + 2], s[at + 3]])
}

// The number in two or four bytes, high byte first.
pub fn big2(s: &[u8], at: usize) -> usize
    requires { at + 2 ≤ length s.now }
    ensures value { result ≡ big (part at 2 s.now) }
    ensures small { result < 65536 }
{
    usize::from(u16::from_be_bytes([s[at], s[at + 1]]))
}

pub fn big4(s: &[u8], at: usize) -> usize
    requires { at + 4 ≤ length s.now }
    ensures value { result ≡ big (part at 4 s.now) }
    ensures small { result < 4294967296 }
{
    u32::from_be_bytes([s[at], s[at + 1], s[at + 2], s[at + 3]]) as usize
}
