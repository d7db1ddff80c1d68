// The types that the definitions in specs/ and the calls share, and where things stand in the table room.

#![tactic(auto)]

// What the tables know of a live block: its slot's use count modulo 256, the displacement of its start in units, the requested size, and
// the code of its alignment (1 for 16 bytes, 2 to 9 for 32 to 4,096).
#[derive(Clone, Copy)]
pub struct Alloc {
    pub count: u8,
    pub disp: usize,
    pub size: usize,
    pub align: u8,
}

// A slot of a group: never granted in this group, so ready with use count 0; granted before and not live, ready or else waiting,
// with its use count and the displacement of its last start; or live.
#[derive(Clone, Copy)]
pub enum Slot {
    Fresh,
    Idle { ready: bool, count: u8, disp: usize },
    Live(Alloc),
}

// Who holds a row: nobody, a group whose first row it is (its class), or a group that began some rows before (how many).
#[derive(Clone, Copy)]
pub enum Holder {
    Free,
    First(u8),
    Later(u8),
}

// Why a call is refused, with the numbers that are given back. What a call answers is a Result: its value, or a refusal. Grants, resize in place and move give the block's handle, measure its
// requested size, grant list and its planner the number of entries, report the totals, set up and release 0.
#[derive(Clone, Copy)]
pub enum Refusal {
    BadArena = 1,
    Unsound = 2,
    TooLarge = 3,
    NoSuchBlock = 4,
    AlreadyFree = 5,
    Stale = 10,
    HeaderDamaged = 6,
    Overrun = 7,
    NotInPlace = 11,
    NoRoom = 8,
    TooLong = 9,
    BadProposal = 17,
    BadAlignment = 13,
}

// The totals of report, which are kept in a record beside the tables: live blocks and their requested bytes; rows held and rows free; ready
// slots and waiting slots.
#[repr(C)]
#[derive(Clone, Copy, Default, PartialEq, Eq)]
pub struct Totals {
    pub blocks: usize,
    pub bytes: usize,
    pub held: usize,
    pub free: usize,
    pub ready: usize,
    pub waiting: usize,
}

// The layout of the table room (docs/TABLES.md): the head, then a record for each row. A group's first row keeps its masks and its
// slots' records; a slot's record has its kind, which is 0 if it was never granted, its use count, displacement and requested size.
pub const HEAD: usize = 16;

pub const ROW_RECORD: usize = 264;

pub const READY: usize = 8;

pub const WAITING: usize = 12;

pub const SLOTS: usize = 16;

pub const SLOT_RECORD: usize = 8;

pub const KIND: usize = 0;

pub const COUNT: usize = 1;

pub const DISP: usize = 2;

pub const SIZE: usize = 4;

pub const MOST_SLOTS: usize = 31;

pub const MOST_ROWS: usize = 512;
