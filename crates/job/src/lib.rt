// Jobs of the bench program, as bytes: the values that code and definitions share.
#![tactic(auto)]

// Start and goal, the barred classes, and the budget (allowance).
#[derive(Clone, Copy)]
pub struct Ends {
    pub start: u32,
    pub goal: u32,
    pub barred: u32,
    pub budget: u32,
}

// What stands before the tables: the offsets where the plan begins and ends, the ends, the count of rounds, the
// offset of their factors, the count of guides, and the offset of the tables.
#[derive(Clone, Copy)]
pub struct Front {
    pub plan_at: usize,
    pub plan_end: usize,
    pub ends: Ends,
    pub round_count: u32,
    pub factors_at: usize,
    pub guide_count: u32,
    pub tables_at: usize,
}
