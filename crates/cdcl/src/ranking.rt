ghost use Rattle.std.specs.Prelude.{◌≡◌, ◌<◌, ◌≤◌, ◌+◌, ◌*◌, ◌^◌, [], ℕ, None, length, vec_len, slice_set, OnOk, IfSome};
ghost use Rattle.cdcl.specs.Ranks.{is_before, first_of, first_at, IsUnset, IsFirst, IsGrown, IsRankedBut, IsRanked, HasSizes};

use std::alloc::{AllocError, Global};

/// Whether a variable comes before another one: it has the greater mark, or an equal one and the lesser number.
fn is_before(marks: &[u64], variable: u32, other: u32) -> bool
    ensures { result ≡ is_before marks.now variable other }
{
    let mark = marks.get(variable as usize).copied().unwrap_or(0);
    let bound = marks.get(other as usize).copied().unwrap_or(0);
    mark > bound || (mark == bound && variable < other)
}

/// Of two variables the one that comes before; 0 is none.
fn earlier(marks: &[u64], one: u32, another: u32) -> u32
    ensures { result ≡ first_of marks.now one another }
{
    if another == 0 {
        return one;
    }
    if one == 0 || is_before(marks, another, one) {
        return another;
    }
    one
}

/// The open variables by their activities, and which of them comes first: a tree whose leaves are the variables, so that
/// the first one is known at once, and is found again in the logarithm of their number once a variable is opened or closed.
#[derive(Drop)]
pub struct Ranking {
    /// At a variable: whether it is open. Variable 0 is none.
    pub unset: Vec<bool>,
    pub activities: Vec<u64>,
    /// At a node from 1 on: the first one of the open variables below it, or 0. Below a node `n` stand the nodes `2n` and
    /// `2n + 1`; behind those that have a place here come the variables in order.
    pub firsts: Vec<u32>,
}

impl Ranking {
    /// The distance of two conflicts' numbers.
    const STEP: u64 = 0x10_0000;

    /// The first open variable below a node, or 0.
    fn first_at(&self, node: usize) -> u32
        requires { HasSizes self.now }
        ensures { result ≡ first_at self.now.unset.items self.now.firsts.items node }
    {
        let inner = self.firsts.len();
        if node < inner {
            return self.firsts[node];
        }
        let variable = node - inner;
        if variable < self.unset.len() && self.unset[variable] {
            return variable as u32;
        }
        0
    }

    /// The first one of those below the two nodes that stand below a node.
    fn first_below(&self, node: usize) -> u32
        requires sizes { HasSizes self.now }
        requires within { node < vec_len self.now.firsts }
        ensures { result ≡ first_of self.now.activities.items (first_at self.now.unset.items self.now.firsts.items (2 * node)) (first_at self.now.unset.items self.now.firsts.items (2 * node + 1)) }
    {
        earlier(
            &self.activities,
            self.first_at(2 * node),
            self.first_at(2 * node + 1),
        )
    }

    /// Sets the first one of a node, and answers the node above it, or 0 where nothing has changed.
    fn settle_at(&mut self, node: usize) -> usize
        requires but { IsRankedBut node self.old }
        requires inner { 1 ≤ node }
        requires within { node < vec_len self.old.firsts }
        ensures but { IsRankedBut result self.new }
        ensures less { result < node }
        ensures unset { self.new.unset ≡ self.old.unset }
        ensures activities { self.new.activities ≡ self.old.activities }
        ensures size { vec_len self.new.firsts ≡ vec_len self.old.firsts }
    {
        let first = self.first_below(node);
        if self.firsts[node] == first {
            return 0;
        }
        self.firsts[node] = first;
        node / 2
    }

    /// Sets the first ones of a node and of those above it.
    fn settle(&mut self, start: usize)
        requires but { IsRankedBut start self.old }
        requires within { start < vec_len self.old.firsts }
        ensures ranked { IsRanked self.new }
        ensures unset { self.new.unset ≡ self.old.unset }
        ensures activities { self.new.activities ≡ self.old.activities }
    {
        let mut node = start;
        'nodes: while node > 0 {
            node = self.settle_at(node);
        }
    }

    /// Opens or closes a variable.
    pub fn set(&mut self, variable: usize, is_open: bool)
        requires ranked { IsRanked self.old }
        requires from_one { 1 ≤ variable }
        requires within { variable < vec_len self.old.unset }
        ensures ranked { IsRanked self.new }
        ensures unset { self.new.unset.items ≡ slice_set self.old.unset.items variable is_open }
        ensures activities { self.new.activities ≡ self.old.activities }
    {
        self.unset[variable] = is_open;
        let above = (self.unset.len() + variable) / 2;
        self.settle(above);
    }

    /// Gives a variable that isn't open another activity.
    fn weigh_closed(&mut self, variable: usize, activity: u64)
        requires ranked { IsRanked self.old }
        requires closed { IsUnset self.old.unset.items variable → ⊥ }
        requires from_one { 1 ≤ variable }
        requires within { variable < vec_len self.old.unset }
        ensures ranked { IsRanked self.new }
        ensures unset { self.new.unset ≡ self.old.unset }
    {
        self.activities[variable] = activity;
    }

    /// Gives a variable the mean of its activity and that of a conflict's number.
    pub fn raise(&mut self, variable: usize, conflict: u64)
        requires ranked { IsRanked self.old }
        requires from_one { 1 ≤ variable }
        requires within { variable < vec_len self.old.unset }
        ensures ranked { IsRanked self.new }
        ensures unset { self.new.unset.items ≡ self.old.unset.items }
    {
        let bound = conflict.saturating_mul(Ranking::STEP);
        let activity = (self.activities[variable] / 2).saturating_add(bound / 2);
        if !self.unset[variable] {
            self.weigh_closed(variable, activity);
            return;
        }
        self.set(variable, false);
        self.weigh_closed(variable, activity);
        self.set(variable, true);
    }

    /// The first one of all open variables.
    pub fn first(&self) -> Option<u32>
        requires { IsRanked self.now }
        ensures first { IfSome result (IsFirst self.now.unset.items self.now.activities.items) }
        ensures none { result ≡ None → (v : ℕ) → IsUnset self.now.unset.items v → ⊥ }
    {
        let first = self.first_at(1);
        if first == 0 {
            return None;
        }
        Some(first)
    }

    /// No variables. It takes no memory.
    pub fn new(alloc: Global) -> Ranking
        ensures ranked { IsRanked result }
        ensures unset { result.unset.items ≡ [] }
    {
        Ranking {
            unset: Vec::new(alloc),
            activities: Vec::new(alloc),
            firsts: Vec::new(alloc),
        }
    }

    /// Sets the first ones of all nodes.
    fn settle_all(&mut self)
        requires sizes { HasSizes self.old }
        requires none { IsUnset self.old.unset.items 0 → ⊥ }
        ensures ranked { IsRanked self.new }
        ensures unset { self.new.unset ≡ self.old.unset }
    {
        let mut node = self.firsts.len();
        'nodes: while node > 1 {
            node -= 1;
            self.firsts[node] = self.first_below(node);
        }
    }

    /// Makes room for variables below `room`; the new ones are open.
    pub fn grow(&mut self, room: usize) -> Result<(), AllocError>
        requires small { room ≤ 2 ^ 31 }
        requires least { vec_len self.old.unset ≤ room }
        requires none { IsUnset self.old.unset.items 0 → ⊥ }
        ensures ranked { OnOk result (IsRanked self.new) }
        ensures unset { OnOk result (IsGrown room self.old.unset.items self.new.unset.items) }
    {
        self.unset.resize(room, true)?;
        if room > 0 {
            self.unset[0] = false;
        }
        self.activities.resize(room, 0)?;
        self.firsts.resize(room, 0)?;
        self.settle_all();
        Ok(())
    }
}
