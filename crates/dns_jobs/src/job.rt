//! The job.

ghost use Rattle.std.specs.Prelude.{◌≡◌};
ghost use Rattle.dns_jobs.specs.Answered.{HasAnswered};

use crate::reader::ViewReader;
use datagram_outside::DatagramPort;
use dns_server::{DnsEnded, serve_datagrams};
use serve_outside::Job;
use stale_view::{PairName, Viewer};
use std::alloc::Global;
use std::sync::Wait;

/// So many packets of a port that are to be answered, by what a viewer is shown.
#[derive(Drop)]
pub struct DnsJob<R, J: PairName, P> {
    pub rt: R,
    pub alloc: Global,
    pub port: P,
    pub viewer: Viewer<J>,
    /// How many packets are to be answered.
    pub packets: u64,
}

/// What the job gives back: its port, and its end with its viewer.
#[derive(Drop)]
pub struct DnsDone<J: PairName, P> {
    pub port: P,
    pub ended: DnsEnded<Viewer<J>>,
}

/// Answers so many packets of the port, each by what the viewer is shown then, and gives both back.
pub fn answer_names<R: Wait + Drop, J: PairName, P: DatagramPort>(
    job: DnsJob<R, J, P>,
) -> DnsDone<J, P>
    ensures { HasAnswered (P.state job.port) (P.state result.port) job.viewer job.packets result.ended }
{
    let DnsJob {
        rt,
        alloc,
        mut port,
        viewer,
        packets,
    } = job;
    let DnsEnded {
        taken,
        cause,
        catalog,
    } = serve_datagrams(alloc, &mut port, ViewReader { rt, viewer }, packets);
    let ViewReader { rt: _, viewer } = catalog;
    DnsDone {
        port,
        ended: DnsEnded {
            taken,
            cause,
            catalog: viewer,
        },
    }
}

impl<R: Wait + Drop, J: PairName, P: DatagramPort> Job for DnsJob<R, J, P> {
    ghost use Rattle.dns_jobs.specs.Answered.{HasAnswered};

    type Done = DnsDone<J, P>;

    // It needs nothing.
    ghost ready = { λ job. Unit {0} };

    ghost keeps = { λ job done. HasAnswered (P.state job.port) (P.state done.port) job.viewer job.packets done.ended };

    fn run(self) -> DnsDone<J, P> {
        answer_names(self)
    }
}
