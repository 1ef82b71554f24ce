ghost use Rattle.std.specs.Prelude.{◌≡◌, false, nat_eq, IfOk, OnOk};
ghost use Rattle.node_pool.specs.Branchings.{box_of};
ghost use Rattle.node_pool.specs.Follows.{CanJoin, HasGround, HasRoom, HasRow, IsFresh, IsNewSplit};
ghost use Rattle.node_pool.specs.Nodes.{insert_open as insert_open_of, without_node};
ghost use Rattle.node_pool.specs.Picks.{best_open as best_open_of, pick_of, wants_cuts as wants_cuts_of, wants_heuristic as wants_heuristic_of};
ghost use Rattle.node_pool.specs.Views.{fresh_view, is_finished as is_finished_of, after_entry, started, with_cut, with_effect, with_children, with_split};

use crate::bound_change::apply_all;
use crate::branching::Branching;
use crate::node::{OpenNode, insert_open, remove_name};
use crate::pick::Pick;
use crate::settings::SearchSettings;
use crate::tree::SearchTree;
use cut_derive::{CutError, derive};
use ip_core::{Bounds, Derivation, Model, OutOfMemory, Row, greatest_value, least_value};
use std::alloc::Global;
use std::collections::BTreeSet;
use work_stamp::Entry;

/// The view of a search's history: the nodes that are open, those that a task holds, the value that
/// a point must be below to be worth finding, the cuts, and counts of entries. The open nodes are
/// an ordered set, the best first. Nodes have no boxes here; a box is made along a node's path in
/// the tree.
#[derive(Debug, Drop)]
pub struct Pool {
    settings: SearchSettings,
    has_rows: bool,
    open_nodes: BTreeSet<OpenNode>,
    held_nodes: Vec<u64>,
    tree: SearchTree,
    cutoff: i64,
    cuts: Vec<Row>,
    entries: u64,
    starts: u64,
    cut_starts: u64,
    heuristic_starts: u64,
    has_halt: bool,
}

impl std::marker::Model for Pool {
    ghost use Rattle.node_pool.specs.Trees.{HasOpenBounds};
    ghost use Rattle.node_pool.specs.Views.{View};

    ghost Value = { View };

    ghost view = { λ p. record {
      settings = p.settings;
      has_rows = p.has_rows;
      open_nodes = p.open_nodes.keys;
      held_nodes = p.held_nodes.items;
      branches = p.tree.branches;
      cutoff = p.cutoff;
      cuts = p.cuts.items;
      entries = p.entries;
      starts = p.starts;
      cut_starts = p.cut_starts;
      heuristic_starts = p.heuristic_starts;
      has_halt = p.has_halt;
    } };

    ghost invariant = { λ p. HasOpenBounds p.tree p.open_nodes.keys };
}

impl Pool {
    /// The view of the history without entries: node 0 is open with the least value of the costs on
    /// the root box as its bound, and the cutoff is the greatest such value plus 1.
    #[tactic(auto, using(ip_core::proofs::Reaching::root_within_reach, crate::proofs::OpenNodes::bounds_at_first))]
    pub fn new(alloc: Global, model: &Model, settings: SearchSettings) -> Result<Pool, OutOfMemory>
        ensures { IfOk result (λ pool. pool ≡ fresh_view model.now settings) }
    {
        let root = model.root();
        let bound = least_value(model, root);
        let mut open_nodes = BTreeSet::new(alloc);
        open_nodes.insert(OpenNode { bound, name: 0 })?;
        Ok(Pool {
            settings,
            has_rows: !model.rows().is_empty(),
            open_nodes,
            held_nodes: Vec::new(alloc),
            tree: SearchTree::of(alloc, bound),
            cutoff: greatest_value(model, root) + 1,
            cuts: Vec::new(alloc),
            entries: 0,
            starts: 0,
            cut_starts: 0,
            heuristic_starts: 0,
            has_halt: false,
        })
    }

    /// Appends an entry that may follow the history of the model's search. After want of memory the
    /// pool is used no more.
    pub fn absorb(&mut self, alloc: Global, model: &Model, entry: &Entry) -> Result<(), OutOfMemory>
        requires { CanJoin model.now self.old entry.now }
        ensures { OnOk result (self.new ≡ after_entry model.now self.old entry.now) }
    {
        let _limits = model.parts();
        self.join(alloc, model, entry)?;
        self.entries += 1;
        Ok(())
    }

    /// What an entry changes, but for the count of all entries.
    fn join(&mut self, alloc: Global, model: &Model, entry: &Entry) -> Result<(), OutOfMemory>
        requires room { HasRoom self.old }
        requires ground { HasGround model.now self.old entry.now }
        ensures { OnOk result (self.new ≡ with_effect model.now self.old entry.now) }
    {
        match entry {
            Entry::Start { node } => self.start(*node)?,
            Entry::CutStart => self.cut_starts += 1,
            Entry::HeurStart { .. } => self.heuristic_starts += 1,
            Entry::Found { value, .. } => self.cutoff = self.cutoff.min(*value),
            Entry::Split {
                node,
                col,
                at,
                first,
                keep,
                bound,
            } => self.split(*node, *col, *at, *first, *keep, *bound)?,
            Entry::Closed { node } => remove_name(&mut self.held_nodes, *node),
            Entry::Halt => self.has_halt = true,
            Entry::Cut { derivation } => self.add_cut(alloc, model, derivation)?,
            Entry::Done => {}
        }
        Ok(())
    }

    /// A node goes from open to held.
    fn start(&mut self, node: u64) -> Result<(), OutOfMemory>
        requires { HasRoom self.old }
        ensures { OnOk result (self.new ≡ started self.old node) }
    {
        self.remove_open(node);
        self.held_nodes.push(node)?;
        self.starts += 1;
        Ok(())
    }

    /// Takes an open node out, which stands among the others with the bound that the tree has for
    /// it.
    #[tactic(auto, using(crate::proofs::OpenNodes::absent_is))]
    fn remove_open(&mut self, name: u64)
        ensures { self.new ≡
            record self.old { open_nodes = without_node name self.old.open_nodes } }
    {
        if let Some(node) = self.tree.node_of(name) {
            self.open_nodes.remove(&node);
        }
    }

    /// Appends the row of a derivation to the cuts.
    fn add_cut(
        &mut self,
        alloc: Global,
        model: &Model,
        derivation: &Derivation,
    ) -> Result<(), OutOfMemory>
        requires { HasRow model.now self.old derivation.now }
        ensures { OnOk result (self.new ≡ with_cut model.now self.old derivation.now) }
    {
        match derive(alloc, model, self.cuts.as_slice(), derivation) {
            Ok(row) => {
                self.cuts.push(row)?;
                Ok(())
            }
            Err(CutError::Memory) => Err(OutOfMemory),
            Err(_) => unreachable!(),
        }
    }

    /// A held node gives way to its children.
    fn split(
        &mut self,
        node: u64,
        col: u32,
        at: i64,
        first: u64,
        keep: u8,
        bound: i64,
    ) -> Result<(), OutOfMemory>
        requires { IsNewSplit self.old at first }
        ensures { OnOk result (self.new ≡ with_split self.old node col at first keep bound) }
    {
        remove_name(&mut self.held_nodes, node);
        self.tree.push(Branching::of(node, col, at, first, bound))?;
        let low = OpenNode { bound, name: first };
        let high = OpenNode {
            bound,
            name: first + 1,
        };
        self.add_children(low, high, keep)
    }

    /// Takes in the children of a node: the first or the second is held and the other open, or both
    /// are open.
    fn add_children(&mut self, low: OpenNode, high: OpenNode, keep: u8) -> Result<(), OutOfMemory>
        requires low { IsFresh self.old low }
        requires high { IsFresh self.old high }
        requires apart { nat_eq low.name high.name ≡ false }
        ensures { OnOk result (self.new ≡ with_children self.old low high keep) }
    {
        match keep {
            0 => {
                self.held_nodes.push(low.name)?;
                self.add_open(high)
            }
            1 => {
                self.held_nodes.push(high.name)?;
                self.add_open(low)
            }
            _ => {
                self.add_open(low)?;
                self.add_open(high)
            }
        }
    }

    /// Puts a node among the open ones.
    #[tactic(auto, using(crate::proofs::OpenNodes::bounds_with))]
    fn add_open(&mut self, node: OpenNode) -> Result<(), OutOfMemory>
        requires { IsFresh self.old node }
        ensures { OnOk result (self.new ≡
            record self.old { open_nodes = insert_open_of node self.old.open_nodes }) }
    {
        insert_open(&mut self.open_nodes, node)?;
        Ok(())
    }

    /// The name of the open node of the least bound, and of those the one of the least name; None
    /// exactly where no node is open.
    pub fn best_open(&self) -> Option<u64>
        ensures { result ≡ best_open_of self.now }
    {
        let node = self.open_nodes.first()?;
        Some(node.name)
    }

    /// The value that a point must be below to be worth finding.
    pub fn cutoff(&self) -> i64
        ensures { result ≡ self.now.cutoff }
    {
        self.cutoff
    }

    /// The cuts, in the order of their entries.
    pub fn cuts(&self) -> &[Row]
        ensures { result.now ≡ self.now.cuts }
    {
        self.cuts.as_slice()
    }

    /// Whether no node is open or held.
    pub fn is_finished(&self) -> bool
        ensures { result ≡ is_finished_of self.now }
    {
        self.open_nodes.is_empty() && self.held_nodes.is_empty()
    }

    /// Whether a Halt stands.
    pub fn has_halt(&self) -> bool
        ensures { result ≡ self.now.has_halt }
    {
        self.has_halt
    }

    /// The box of a node: the root box of the model, cut by the splits on the way from the root to
    /// it.
    pub fn bounds_of(&self, alloc: Global, model: &Model, node: u64) -> Result<Bounds, OutOfMemory>
        ensures { IfOk result (λ box. box ≡ box_of model.now.root self.now.branches node) }
    {
        let path = self.tree.path_of(alloc, node)?;
        let mut bounds = model.root().copy(alloc)?;
        apply_all(path.as_slice(), &mut bounds);
        Ok(bounds)
    }

    /// What a slot between tasks takes: the first that applies. Over, where a Halt stands, or no
    /// node is open or held. CutLoop, where cuts are on, the model has a row and no task has looked
    /// for cuts. Heuristic of the best open node, where heuristics are on and 8 times the number of
    /// their starts is below the number of starts. Node of the best open node. Nothing.
    pub fn pick(&self) -> Pick
        ensures { result ≡ pick_of self.now }
    {
        if self.has_halt || self.is_finished() {
            return Pick::Over;
        }
        if self.wants_cuts() {
            return Pick::CutLoop;
        }
        match self.best_open() {
            None => Pick::Nothing,
            Some(node) => {
                if self.wants_heuristic() {
                    Pick::Heuristic(node)
                } else {
                    Pick::Node(node)
                }
            }
        }
    }

    /// Whether cuts are to be looked for first.
    fn wants_cuts(&self) -> bool
        ensures { result ≡ wants_cuts_of self.now }
    {
        self.settings.cuts && self.has_rows && self.cut_starts == 0
    }

    /// Whether a feasible point is to be looked for from an open node: while eight times the looks
    /// are fewer than the starts.
    fn wants_heuristic(&self) -> bool
        ensures { result ≡ wants_heuristic_of self.now }
    {
        self.settings.heuristics && 8 * u128::from(self.heuristic_starts) < u128::from(self.starts)
    }
}
