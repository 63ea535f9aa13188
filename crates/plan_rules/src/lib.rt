//! What a plan means: the plan as the network on which the machine runs, each node by the rule of its operator, over the columns of
//! its inputs; the plan as a tree of the algebra, each node by the role of its operator; and which plan is laid of a tree, before
//! anything is inferred of it (updates carry both rows on every edge but those of upsert tables, and no node says its keys).
//!
//! Promised: definitions, and the lemmas that a plan of the right shape is wired as the composition theorem asks, and that its nodes
//! answer as their trees do. They stand on the rules of operators, on plans, on routing and on the machine.
#![tactic(auto)]
