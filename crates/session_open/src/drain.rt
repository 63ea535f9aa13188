ghost use Rattle.std.specs.Prelude.{◌≡◌, ◌<◌, ◌+◌, [], cond, length, IfOk, OnOk};
ghost use Rattle.stream_model.specs.Network.{Network};
ghost use Rattle.stream_model.specs.Drain as drain;
ghost use Rattle.stream_model.specs.Drain.{bundles_at, bundles_from, channels_from, channels_into, channels_to, stages};
ghost use Rattle.session_open.specs.Wired.{AreWires, Lays, node_part};

use crate::Wires;
use ct_value::Memory;
use session_core::{Lane, Stage};
use std::alloc::Global;

impl Wires {
    /// The stages of a drain: node by node, the channels into it, by edge and subtasks, and then the bundles of its subtasks.
    pub fn stages(&self, alloc: Global) -> Result<Vec<Stage>, Memory>
        requires { length self.now.routes.items ≡ self.now.nodes + 1 }
        ensures { IfOk result (λ made. (g : Network) → AreWires self.now g → Lays g [] made.items (stages g)) }
    {
        let mut stages = Vec::new(alloc);
        for done in 0..self.nodes {
            self.lay_stages(&mut stages, 1 + done)?;
        }
        Ok(stages)
    }

    // The stages of a node.
    fn lay_stages(&self, stages: &mut Vec<Stage>, node: u32) -> Result<(), Memory>
        requires { length self.now.routes.items ≡ self.now.nodes + 1 }
        ensures { OnOk result ((g : Network) → AreWires self.now g → Lays g stages.old.items stages.new.items (node_part g node)) }
    {
        self.lay_node(stages, node)?;
        self.lay_bundles(stages, node)?;
        Ok(())
    }

    // The bundles of a node's subtasks, where it keeps bundles.
    fn lay_bundles(&self, stages: &mut Vec<Stage>, node: u32) -> Result<(), Memory>
        ensures { OnOk result ((g : Network) → AreWires self.now g → Lays g stages.old.items stages.new.items (bundles_at g node (g.bundle node))) }
    {
        if !self.keeps_bundles(node) {
            return Ok(());
        }
        for subtask in 0..self.parallelism {
            stages.push(Stage::Flush { node, subtask })?;
        }
        Ok(())
    }

    // Whether a node keeps bundles.
    fn keeps_bundles(&self, node: u32) -> bool
        ensures { (g : Network) → AreWires self.now g → bundles_at g node (g.bundle node) ≡ cond result (bundles_from node 0 g.subtasks) [] }
    {
        match self.bundles.get(node as usize) {
            Some(Some(_)) => true,
            Some(None) => false,
            None => false,
        }
    }

    // The channels into a node.
    fn lay_node(&self, stages: &mut Vec<Stage>, node: u32) -> Result<(), Memory>
        requires { length self.now.routes.items ≡ self.now.nodes + 1 }
        ensures { OnOk result ((g : Network) → AreWires self.now g → Lays g stages.old.items stages.new.items (channels_into g node 1 g.count)) }
    {
        for done in 0..self.nodes {
            self.lay_edge(stages, node, 1 + done)?;
        }
        Ok(())
    }

    // The channels of an edge, where it feeds a node.
    fn lay_edge(&self, stages: &mut Vec<Stage>, node: u32, edge: u32) -> Result<(), Memory>
        requires { edge < length self.now.routes.items }
        ensures { OnOk result ((g : Network) → AreWires self.now g → Lays g stages.old.items stages.new.items (cond (drain.feeds_node node (g.fed edge)) (channels_from g edge 0 g.subtasks) [])) }
    {
        if !self.feeds_node(edge, node) {
            return Ok(());
        }
        for from in 0..self.parallelism {
            self.lay_subtask(stages, edge, from)?;
        }
        Ok(())
    }

    // The channels of an edge from a subtask.
    fn lay_subtask(&self, stages: &mut Vec<Stage>, edge: u32, from: u32) -> Result<(), Memory>
        requires edge { edge < length self.now.routes.items }
        requires from { from < self.now.parallelism }
        ensures { OnOk result ((g : Network) → AreWires self.now g → Lays g stages.old.items stages.new.items (channels_to g edge from 0 g.subtasks)) }
    {
        for to in 0..self.parallelism {
            self.lay_channel(stages, edge, from, to)?;
        }
        Ok(())
    }

    // A channel, where the edge has it.
    fn lay_channel(
        &self,
        stages: &mut Vec<Stage>,
        edge: u32,
        from: u32,
        to: u32,
    ) -> Result<(), Memory>
        requires edge { edge < length self.now.routes.items }
        requires from { from < self.now.parallelism }
        requires to { to < self.now.parallelism }
        ensures { OnOk result ((g : Network) → AreWires self.now g → Lays g stages.old.items stages.new.items (channels_to g edge from to 1)) }
    {
        if !self.routes[edge as usize].joins(from, to) {
            return Ok(());
        }
        stages.push(Stage::Deliver(Lane { edge, from, to }))?;
        Ok(())
    }

    // Whether an edge feeds a node.
    fn feeds_node(&self, edge: u32, node: u32) -> bool
        ensures { (g : Network) → AreWires self.now g → result ≡ drain.feeds_node node (g.fed edge) }
    {
        match self.feeds.get(edge as usize) {
            Some(Some(feed)) => feed.node == node,
            Some(None) => false,
            None => false,
        }
    }
}
