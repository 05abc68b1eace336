//! Jobs at once and in threads.

ghost use Rattle.std.specs.Prelude.{◌≡◌, ◌+◌, ◌^◌, ◌<◌};

use cat_model::{List, Memory};
use serve_outside::{Job, MemSpawner, Spawner, ThreadSpawner, finish, start};
use std::alloc::Global;
use std::thread;
use std::thread::Threads;
use std::time::{Clock, Duration};

// Adds two numbers.
#[derive(Drop)]
struct Sum {
    left: u32,
    right: u32,
}

impl Job for Sum {
    ghost use Rattle.std.specs.Prelude.{◌≡◌, ◌+◌, ⊤};

    type Done = u64;

    ghost ready = { λ _. ⊤ };

    ghost keeps = { λ job sum. sum ≡ job.left + job.right };

    fn run(self) -> u64 {
        u64::from(self.left) + u64::from(self.right)
    }
}

// What a spawner gives for 2 and 3, or none where it hands the job back.
fn summed<S: Spawner>(rt: &impl Threads, alloc: Global, spawner: &mut S) -> Option<u64> {
    let task = start(spawner, rt, alloc, Sum { left: 2, right: 3 }).ok()?;
    Some(finish(rt, task))
}

// Whether a job in a thread tells that it has ended, within a second.
fn tells_its_end<R: Threads + Clock>(rt: &R, alloc: Global) -> bool {
    let Ok(task) = start(
        &mut ThreadSpawner::new(),
        rt,
        alloc,
        Sum { left: 2, right: 3 },
    ) else {
        return false;
    };
    for _ in 0..100 {
        if task.has_ended() {
            break;
        }
        thread::sleep(rt, Duration::from_millis(10));
    }
    let ended = task.has_ended();
    ended && finish(rt, task) == 5
}

// What a spawner gives that runs each job at once, and refuses the second of three.
fn summed_at_once(rt: &impl Threads, alloc: Global) -> Result<[Option<u64>; 3], Memory> {
    let mut second = List::new(alloc);
    second.push(2)?;
    let mut spawner = MemSpawner::new(second);
    let sums = [
        summed(rt, alloc, &mut spawner),
        summed(rt, alloc, &mut spawner),
        summed(rt, alloc, &mut spawner),
    ];
    drop(spawner);
    Ok(sums)
}

#[test]
fn jobs_at_once(rt: HostRuntime) {
    let sums = summed_at_once(&rt, rt.alloc());
    assert!(rt; sums == Ok([Some(5), None, Some(5)]));
}

#[test]
fn a_job_in_a_thread(rt: HostRuntime) {
    assert!(rt; summed(&rt, rt.alloc(), &mut ThreadSpawner::new()) == Some(5));
}

#[test]
fn a_job_in_a_thread_tells_its_end(rt: HostRuntime) {
    assert!(rt; tells_its_end(&rt, rt.alloc()));
}
