// The ready set (mallocng's avail) and the waiting set (its freed) of a group: bit i is slot i. A slot in neither is live.
#![tactic(auto)]

ghost use Rattle.std.specs.Prelude.{◌≡◌, ◌+◌, ◌-◌, ◌≤◌, ◌<◌, ◌^◌};
ghost use Rattle.std.specs.Int.Count.{ones};
ghost use Rattle.masks.specs.Sets.{refilled, to_refill, lowest, taken, give_back};

#[derive(Clone, Copy)]
pub struct Masks {
    pub ready: u32,
    pub waiting: u32,
}

// The mask of one slot.
pub fn bit_of(i: u32) -> u32
    requires { i < 32 }
    ensures { result ≡ 2 ^ i }
{
    1 << i
}

impl Masks {
    pub fn refill(self) -> Masks
        ensures { result ≡ refilled self }
    {
        if self.ready == 0 {
            Masks {
                ready: self.waiting,
                waiting: 0,
            }
        } else {
            self
        }
    }

    // How many waiting slots a refill makes ready.
    pub fn to_refill(self) -> u32
        ensures { result ≡ to_refill self }
    {
        if self.ready == 0 {
            u32::count_ones(self.waiting)
        } else {
            0
        }
    }

    pub fn lowest(self) -> u32
        ensures { result ≡ lowest self }
    {
        u32::trailing_zeros(self.ready)
    }

    pub fn take(self) -> Masks
        requires { 0 < self.ready }
        ensures { result ≡ taken self }
    {
        let i = u32::trailing_zeros(self.ready);
        Masks {
            ready: self.ready - bit_of(i),
            waiting: self.waiting,
        }
    }

    pub fn give_back(self, i: u32) -> Masks
        requires { (i < 32) × (self.waiting + 2 ^ i < 4294967296) }
        ensures { result ≡ give_back self i }
    {
        Masks {
            ready: self.ready,
            waiting: self.waiting + bit_of(i),
        }
    }

    // How many of n slots are in neither set.
    pub fn live(self, n: u32) -> u32
        requires { ones self.ready + ones self.waiting ≤ n }
        ensures { result ≡ n - (ones self.ready + ones self.waiting) }
    {
        n - (u32::count_ones(self.ready) + u32::count_ones(self.waiting))
    }
}
