// Gather lists: the check of a proposal, and the planner.
#![tactic(auto)]

ghost use Rattle.std.specs.Prelude.{◌≡◌, true, ◌&&◌, ◌≤◌, ◌<◌, eqb, length};
ghost use Rattle.mem.specs.Lists.{every, sum};
ghost use Rattle.mem.specs.Bytes.{put};
ghost use Rattle.classes.specs.Classes.{size_limit};
ghost use Rattle.model.specs.Proposals.{entries, cap_right, size_right, accepts, plannable, full_caps};

// The entries that the hardware takes.
pub const ENTRIES: usize = 17;

// Whether a cap is in its range.
fn cap_right(cap: usize) -> bool
    ensures { result ≡ cap_right cap }
{
    if cap < 1 {
        return false;
    }
    cap < classes::TOO_LARGE
}

// Whether each size is from 1 to the cap and their sum is the total. A size is tested before it is added, so the sum stays small.
fn sizes_right(total: usize, cap: usize, sizes: &[usize]) -> bool
    requires { (cap < size_limit) × (length sizes.now ≤ entries) }
    ensures { result ≡ (every (size_right cap) sizes.now && eqb (sum (λ n. n) sizes.now) «total») }
{
    let mut sum = 0;
    for &n in sizes {
        if n < 1 {
            return false;
        }
        if cap < n {
            return false;
        }
        sum += n;
    }
    sum == total
}

// The check: whether a proposal is accepted.
pub fn accepts(total: usize, cap: usize, sizes: &[usize]) -> bool
    ensures { result ≡ accepts «total» cap sizes.now }
{
    if !cap_right(cap) {
        return false;
    }
    if ENTRIES < sizes.len() {
        return false;
    }
    sizes_right(total, cap, sizes)
}

// Whether a list of so many bytes can be planned. The cap is tested before it is multiplied.
pub fn plannable(total: usize, cap: usize) -> bool
    ensures { result ≡ plannable «total» cap }
{
    if !cap_right(cap) {
        return false;
    }
    total <= ENTRIES * cap
}

// The planner: full caps, then the rest, to the front of an array; how many they are.
pub fn full_caps(total: usize, cap: usize, sizes: &mut [usize; 17]) -> usize
    requires { plannable «total» cap ≡ true }
    ensures value { result ≡ length (full_caps entries «total» cap) }
    ensures sizes_after { sizes.new ≡ put 0 (full_caps entries «total» cap) sizes.old }
{
    let mut left = total;
    let mut count = 0;
    while 0 < left {
        let n = left.min(cap);
        sizes[count] = n;
        left -= n;
        count += 1;
    }
    count
}
