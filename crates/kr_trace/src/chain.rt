// Segments that are found by number, in the order of candidates.
ghost use Rattle.std.specs.Prelude.{◌≡◌, ◌==◌, ◌+◌, ◌∷◌, [], true, false, length, is_some, IfSome, IfNone, IfOk, OnOk};
ghost use Rattle.std.specs.List.{sum_by, list_all};
ghost use Rattle.kr_base.specs.Causes.{capped};
ghost use Rattle.kr_base.specs.declared.span.Bound.TheVariants.{At};
ghost use Rattle.kr_core.specs.Openings.{segments_at};
ghost use Rattle.kr_core.specs.States.{change, is_closed, segment_of};
ghost use Rattle.kr_core.specs.Steps.{front, gone, left, lowered, owned, scanned, stolen, stopped};
ghost use Rattle.kr_trace.specs.Chains.{Drops, ended_first, first_number, first_of, going_first, without_first, without_rows};

use crate::nodes::{
    Node, clear_rows, drop_node, end_at, end_segment, find, going, link_to, lower, nodes_at,
    rest_of, scan_to, set_owner,
};
use kr_base::{Bound, Cut, NoMemory};
use kr_core::Segment;
use std::alloc::Global;
use std::marker::Model;

/// Segments in the order of candidates. Each is at the index that its number is, and each has the number of the next.
/// Contracts see the segments, and how many were made.
#[derive(Drop)]
pub(crate) struct Chain {
    nodes: Vec<Node>,
    first: Option<usize>,
}

impl Model for Chain {
    ghost use Rattle.std.specs.Prelude.{length};
    ghost use Rattle.kr_trace.specs.Chains.{IsChain, Made, walk};

    ghost Value = { Made };

    ghost view = { λ c. record { segments = walk c.nodes.items (length c.nodes.items) c.first; made = length c.nodes.items } };

    ghost invariant = { λ c. IsChain c.nodes.items c.first (walk c.nodes.items (length c.nodes.items) c.first) };
}

impl Chain {
    /// The segments that a span and its cuts begin with.
    pub(crate) fn open(
        alloc: Global,
        after: &Cut,
        cuts: &[Cut],
        end: &Bound,
    ) -> Result<Chain, NoMemory>
        ensures { IfOk result (λ chain. (chain.segments ≡ segments_at 0 (At after.now) cuts.now end.now) × (chain.made ≡ length cuts.now + 1)) }
    {
        let nodes = nodes_at(alloc, after, cuts, end)?;
        Ok(Chain {
            nodes,
            first: Some(0),
        })
    }

    /// How many segments were made: the number of the next one.
    pub(crate) fn made(&self) -> u64
        ensures { result ≡ self.now.made }
    {
        self.nodes.len() as u64
    }

    /// The segment of a number.
    pub(crate) fn find(&self, number: u64) -> Option<&Segment>
        ensures none { IfNone result (segment_of number self.now.segments ≡ None) }
        ensures some { IfSome result (λ s. segment_of number self.now.segments ≡ Some s.now) }
    {
        find(self.nodes.as_slice(), number)
    }

    /// The first segment.
    pub(crate) fn first(&self) -> Option<&Segment>
        ensures none { IfNone result (first_of self.now.segments ≡ None) }
        ensures some { IfSome result (λ s. first_of self.now.segments ≡ Some s.now) }
    {
        match self.first {
            None => None,
            Some(at) => Some(&self.nodes[at].segment),
        }
    }

    /// Whether there is one segment.
    pub(crate) fn is_one(&self) -> bool
        ensures { result ≡ (length self.now.segments == 1) }
    {
        match self.first {
            None => false,
            Some(at) => self.nodes[at].later.is_none(),
        }
    }

    /// Another owner, or none, for the segment of a number.
    pub(crate) fn set_owner(&mut self, number: u64, owner: Option<u32>)
        ensures segments { self.new.segments ≡ change number (λ s ss. owned owner s ∷ ss) self.old.segments }
        ensures made { self.new.made ≡ self.old.made }
    {
        set_owner(&mut self.nodes, number, owner);
    }

    /// The segment of a number is scanned up to a reach.
    pub(crate) fn scan_to(&mut self, number: u64, reach: Bound, rows: u64, tried: u64)
        ensures segments { self.new.segments ≡ change number (λ s ss. scanned reach rows tried false s ∷ ss) self.old.segments }
        ensures made { self.new.made ≡ self.old.made }
    {
        scan_to(&mut self.nodes, number, reach, rows, tried);
    }

    /// The segment of a number is scanned up to a reach and ends there. `upto` is the reach again.
    fn end_at(&mut self, number: u64, reach: Bound, upto: Bound, rows: u64, tried: u64)
        requires { upto ≡ reach }
        ensures segments { self.new.segments ≡ change number (λ s ss. scanned reach rows tried true s ∷ ss) self.old.segments }
        ensures made { self.new.made ≡ self.old.made }
    {
        end_at(&mut self.nodes, number, reach, upto, rows, tried);
    }

    /// The segment of a number ends at a cut, and the rest of it is a new segment of the seat.
    pub(crate) fn split(&mut self, seat: u32, victim: u64, cut: Cut) -> Result<(), NoMemory>
        requires { is_some (segment_of victim self.old.segments) ≡ true }
        ensures segments { OnOk result (self.new.segments ≡ change victim (λ s ss. lowered cut s ∷ (stolen seat cut self.old.made s ∷ ss)) self.old.segments) }
        ensures made { OnOk result (self.new.made ≡ self.old.made + 1) }
    {
        let made = self.nodes.len();
        let at = victim as usize;
        let rest = rest_of(&self.nodes[at], seat, &cut, made as u64)?;
        self.nodes.push(rest)?;
        lower(&mut self.nodes, at, cut, made);
        Ok(())
    }

    /// The segment after that of a number goes. Whether there was one.
    fn drop_next(&mut self, at: usize) -> bool
        requires { is_some (segment_of at self.old.segments) ≡ true }
        ensures { Drops at self.old self.new result }
    {
        match self.nodes[at].later {
            None => false,
            Some(next) => {
                let later = self.nodes[next].later;
                drop_node(&mut self.nodes, next);
                link_to(&mut self.nodes, at, later);
                true
            }
        }
    }

    /// The segments after that of a number go.
    fn drop_after(&mut self, at: usize)
        requires { is_some (segment_of at self.old.segments) ≡ true }
        ensures segments { self.new.segments ≡ change at (λ s ss. s ∷ []) self.old.segments }
        ensures made { self.new.made ≡ self.old.made }
    {
        while self.drop_next(at) {}
    }

    /// The segment of a number is scanned up to a reach and ends there, and the later ones go. `upto` is the reach again.
    pub(crate) fn cut_off(&mut self, number: u64, reach: Bound, upto: Bound, rows: u64, tried: u64)
        requires same { upto ≡ reach }
        requires found { is_some (segment_of number self.old.segments) ≡ true }
        ensures segments { self.new.segments ≡ change number (λ s ss. scanned reach rows tried true s ∷ []) self.old.segments }
        ensures made { self.new.made ≡ self.old.made }
    {
        self.end_at(number, reach, upto, rows, tried);
        self.drop_after(number as usize);
    }

    /// The first segment ends at a mark without an owner.
    fn end_first(&mut self, mark: Cut)
        ensures segments { self.new.segments ≡ ended_first mark self.old.segments }
        ensures made { self.new.made ≡ self.old.made }
    {
        if let Some(at) = self.first {
            end_segment(&mut self.nodes, at, mark);
        }
    }

    /// The number of the first segment.
    fn first_number(&self) -> Option<usize>
        ensures { result ≡ first_number self.now.segments }
    {
        self.first
    }

    /// The first segment ends at a mark without an owner, and the later ones go.
    pub(crate) fn stop(&mut self, mark: Cut)
        ensures segments { self.new.segments ≡ stopped mark self.old.segments }
        ensures made { self.new.made ≡ self.old.made }
    {
        self.end_first(mark);
        if let Some(at) = self.first_number() {
            self.drop_after(at);
        }
    }

    /// What was tried in the first segment, if it is closed and not the last.
    fn going_first(&self) -> Option<u64>
        ensures { result ≡ going_first self.now.segments }
    {
        match self.first {
            None => None,
            Some(at) => going(&self.nodes[at]),
        }
    }

    /// The first segment goes.
    fn drop_first(&mut self)
        ensures segments { self.new.segments ≡ without_first self.old.segments }
        ensures made { self.new.made ≡ self.old.made }
    {
        if let Some(at) = self.first {
            self.first = self.nodes[at].later;
            drop_node(&mut self.nodes, at);
        }
    }

    /// The first segment has no rows any more.
    fn clear_first(&mut self)
        ensures segments { self.new.segments ≡ without_rows self.old.segments }
        ensures made { self.new.made ≡ self.old.made }
    {
        if let Some(at) = self.first {
            clear_rows(&mut self.nodes, at);
        }
    }

    /// The closed segments at the front go, but not the last of all, and the first of the others has no rows. What was
    /// tried in those that go is answered.
    pub(crate) fn drain(&mut self) -> u64
        ensures tried { result ≡ capped (sum_by (λ s. s.tried) (gone self.old.segments)) }
        ensures segments { self.new.segments ≡ left self.old.segments }
        ensures made { self.new.made ≡ self.old.made }
    {
        let mut tried: u64 = 0;
        while let Some(more) = self.going_first() {
            tried = tried.saturating_add(more);
            self.drop_first();
        }
        self.clear_first();
        tried
    }

    /// The rows of the segments up to and with the first that isn't closed.
    pub(crate) fn front_rows(&self) -> u64
        ensures { result ≡ capped (sum_by (λ s. s.rows) (front self.now.segments)) }
    {
        let mut rows: u64 = 0;
        let mut link = self.first;
        for step in 0..self.nodes.len() {
            match link {
                None => return rows,
                Some(at) => {
                    let node = &self.nodes[at];
                    rows = rows.saturating_add(node.segment.rows);
                    if !node.segment.is_closed() {
                        return rows;
                    }
                    link = node.later;
                }
            }
        }
        rows
    }

    /// Whether no segment has an owner or a remainder.
    pub(crate) fn are_closed(&self) -> bool
        ensures { result ≡ list_all is_closed self.now.segments }
    {
        let mut link = self.first;
        for step in 0..self.nodes.len() {
            match link {
                None => return true,
                Some(at) => {
                    let node = &self.nodes[at];
                    if !node.segment.is_closed() {
                        return false;
                    }
                    link = node.later;
                }
            }
        }
        true
    }

    /// How many candidates were tried in the segments.
    pub(crate) fn tried(&self) -> u64
        ensures { result ≡ capped (sum_by (λ s. s.tried) self.now.segments) }
    {
        let mut tried: u64 = 0;
        let mut link = self.first;
        for step in 0..self.nodes.len() {
            match link {
                None => return tried,
                Some(at) => {
                    let node = &self.nodes[at];
                    tried = tried.saturating_add(node.segment.tried);
                    link = node.later;
                }
            }
        }
        tried
    }
}
