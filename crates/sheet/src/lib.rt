// Sheets: the plans that they follow, and the fields of their lines. What a sheet means is in specs/.
#![tactic(auto)]

pub mod fields;
pub mod figures;

ghost use Rattle.std.specs.Prelude.{◌≡◌};
ghost use Rattle.sheet.specs.Plan.{slots, working, table_additions, table_doublings, stored, doubled, largest, is_limit, is_within};

// Plan J uses joint columns; plan I interleaves two rows with windows m1 for P and m2 for Q.
#[derive(Clone, Copy, PartialEq, Eq)]
pub enum Plan {
    J,
    I(u32, u32),
}

// The largest digits that a plan has for P and for Q.
#[derive(Clone, Copy)]
pub struct Largest {
    pub p: u32,
    pub q: u32,
}

// Associated functions and a constant, and no free ones: by these names callers ask for them.
impl Plan {
    // The highest limit of slots.
    pub const MOST_SLOTS: u32 = 31;

    // The slots that the plan needs.
    pub fn slots(self) -> u32
        ensures { result ≡ slots self }
    {
        match self {
            Plan::J => 2,
            Plan::I(m1, m2) => {
                let both = m1 as u64 + m2 as u64;
                let multiples = (both.saturating_sub(2) / 2) as u32;
                multiples + Plan::working(m1, m2)
            }
        }
    }

    // Whether a limit of slots may be asked for.
    pub fn is_limit(limit: u32) -> bool
        ensures { result ≡ is_limit limit }
    {
        limit <= Plan::MOST_SLOTS
    }

    // Whether the plan needs no more slots than the limit.
    pub fn is_within(self, limit: u32) -> bool
        ensures { result ≡ is_within self limit }
    {
        self.slots() <= limit
    }

    // The additions that fill the plan's table.
    pub fn table_additions(self) -> u32
        ensures { result ≡ table_additions self }
    {
        match self {
            Plan::J => 2,
            Plan::I(m1, m2) => Plan::stored(m1) + Plan::stored(m2),
        }
    }

    // The doublings that fill it.
    pub fn table_doublings(self) -> u32
        ensures { result ≡ table_doublings self }
    {
        match self {
            Plan::J => 0,
            Plan::I(m1, m2) => Plan::doubled(m1) + Plan::doubled(m2),
        }
    }

    // The largest digits of its two rows.
    pub fn limits(self) -> Largest
        ensures { result ≡ largest self }
    {
        match self {
            Plan::J => Largest { p: 1, q: 1 },
            Plan::I(m1, m2) => Largest { p: m1, q: m2 },
        }
    }

    // The place of the working double: one, for 2P and later for 2Q.
    fn working(m1: u32, m2: u32) -> u32
        ensures { result ≡ working m1 m2 }
    {
        Plan::I(m1, m2).table_doublings().min(1)
    }

    // How many odd multiples a window has beyond the first.
    fn stored(m: u32) -> u32
        ensures { result ≡ stored m }
    {
        m.saturating_sub(1) / 2
    }

    // 1 where a window has any, else 0.
    fn doubled(m: u32) -> u32
        ensures { result ≡ doubled m }
    {
        (3 <= m) as u32
    }
}
