//! Raft nodes in processes of their own: laws over the journals of single nodes, each the contract of a function with
//! an empty body. Where each message that a journal has was sent before, the journals are those of one run of a world,
//! and the processes have one agreed log and one leader a term.
//!
//! # What is proved
//!
//! The journals of single nodes, each in a process of its own, are those of one run of Raft's world where each
//! message that one was given had been sent to it before; so each has always committed a front of one log, and a
//! term has one leader, whatever links lose, repeat or reorder. An election with losses meets what is asked.
//! Carried by: the crate's functions.
#![tactic(auto)]

ghost use Rattle.std.specs.Prelude.{List};
ghost use Rattle.node_journals.specs.Journals.{AreProcesses, Process};
ghost use Rattle.node_journals.specs.Causal.{AreCausal};
ghost use Rattle.node_journals.specs.Agreement.{Agree, HaveOneLeader, HaveOneLog};
ghost use Rattle.node_journals.specs.OneWorld.{AreOneWorld};
ghost use Rattle.node_journals.specs.Example.{ElectionRow};

/// There is one run of the world in which each node makes just the steps of its journal.
pub fn journals_are_of_one_world()
    ensures { (processes : List Process) → AreProcesses processes → AreCausal processes → AreOneWorld processes }
{}

/// Each process has always committed a front of one log.
pub fn journals_have_one_log()
    ensures { (processes : List Process) → AreProcesses processes → AreCausal processes → HaveOneLog processes }
{}

/// What one process has committed another has, once it has committed as much.
pub fn processes_agree()
    ensures { (processes : List Process) → AreProcesses processes → AreCausal processes → Agree processes }
{}

/// A term has one leader among the processes, over all times.
pub fn a_term_has_one_leader()
    ensures { (processes : List Process) → AreProcesses processes → AreCausal processes → HaveOneLeader processes }
{}

/// An election of three processes with messages that are lost, which meets what these laws ask.
pub fn an_election_with_losses()
    ensures { ElectionRow }
{}
