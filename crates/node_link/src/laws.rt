//! What holds of each host, and of hosts whose links deliver only what was sent, each the contract of a function with an
//! empty body.

ghost use Rattle.std.specs.Prelude.{List};
ghost use Rattle.node_journals.specs.Agreement.{Agree, HaveOneLeader, HaveOneLog};
ghost use Rattle.node_link.specs.Hosts.{Hosted, IsHost, KeepsPlace};
ghost use Rattle.node_link.specs.Links.{AreHosts, AreLinked, processes_of};

/// A host is always the same server of a cluster of as many servers.
pub fn a_host_keeps_its_place()
    ensures { (host : Hosted) → IsHost host → KeepsPlace host }
{}

/// Each host has always committed a front of one log.
pub fn hosts_have_one_log()
    ensures { (hosts : List Hosted) → AreHosts hosts → AreLinked hosts → HaveOneLog (processes_of hosts) }
{
    node_journals::journals_have_one_log();
}

/// What one host has committed another has, once it has committed as much.
pub fn hosts_agree()
    ensures { (hosts : List Hosted) → AreHosts hosts → AreLinked hosts → Agree (processes_of hosts) }
{
    node_journals::processes_agree();
}

/// A term has one leader among the hosts, over all times.
pub fn a_term_has_one_host_that_leads()
    ensures { (hosts : List Hosted) → AreHosts hosts → AreLinked hosts → HaveOneLeader (processes_of hosts) }
{
    node_journals::a_term_has_one_leader();
}
