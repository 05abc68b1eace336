//! Which requests are awake: what fired channels, clocks and the requests' own going to sleep make of them.

ghost use Rattle.std.specs.Prelude.{◌≡◌, IfOk, length};

use cat_model::{Chan, List, Memory, Text};
use read_watch::Watch;
use std::alloc::Global;
use std::test::Fail;

/// How many reads may sleep at a server.
const MOST: u64 = 4_096;

fn one(alloc: Global, chan: Chan) -> Result<List<Chan>, Memory>
    ensures { IfOk result (λ l. length l ≡ 1) }
{
    let mut chans = List::new(alloc);
    chans.push(chan)?;
    Ok(chans)
}

fn key(alloc: Global, key: &str) -> Result<List<Chan>, Memory>
    ensures { IfOk result (λ l. length l ≡ 1) }
{
    let key = Text::new(alloc, key)?;
    one(alloc, Chan::Key(key))
}

fn prefix(alloc: Global, prefix: &str) -> Result<List<Chan>, Memory>
    ensures { IfOk result (λ l. length l ≡ 1) }
{
    let prefix = Text::new(alloc, prefix)?;
    one(alloc, Chan::Prefix(prefix))
}

fn wake_four(watch: &mut Watch)
    ensures { watch.new.servers ≡ watch.old.servers }
{
    watch.wake(1);
    watch.wake(2);
    watch.wake(3);
    watch.wake(4);
}

/// Two servers. Read 1 sleeps at the first on a key until 10, read 2 there on a prefix of that key until 20, and read 3
/// at the second on the key until 10. Request 4 is awake.
fn three_asleep(alloc: Global) -> Result<Watch, Memory>
    ensures { IfOk result (λ w. length w.servers ≡ 2) }
{
    let mut watch = Watch::new(alloc, 2)?;
    wake_four(&mut watch);
    watch.sleep(alloc, 2, 3, &key(alloc, "a/b")?, 10);
    watch.sleep(alloc, 1, 2, &prefix(alloc, "a/")?, 20);
    watch.sleep(alloc, 1, 1, &key(alloc, "a/b")?, 10);
    Ok(watch)
}

/// Whether just these are awake, which are given in ascending order.
fn are_awake(watch: &Watch, wanted: &[u64]) -> bool {
    !watch.is_all() && watch.awake() == wanted
}

#[test]
fn who_sleeps_is_not_awake(rt: HostRuntime) -> Result<(), Fail> {
    let watch = three_asleep(rt.alloc())?;
    assert!(rt; are_awake(&watch, &[4]));
    Ok(())
}

#[test]
fn a_fired_channel_wakes_the_reads_of_its_server(rt: HostRuntime) -> Result<(), Fail> {
    let alloc = rt.alloc();
    let mut watch = three_asleep(alloc)?;
    watch.fire(alloc, 1, &key(alloc, "b")?);
    assert!(rt; are_awake(&watch, &[4]));
    watch.fire(alloc, 1, &key(alloc, "a/c")?);
    assert!(rt; are_awake(&watch, &[2, 4]));
    watch.fire(alloc, 1, &key(alloc, "a/b")?);
    assert!(rt; are_awake(&watch, &[1, 2, 4]));
    watch.fire(alloc, 2, &key(alloc, "a/b")?);
    assert!(rt; are_awake(&watch, &[1, 2, 3, 4]));
    Ok(())
}

#[test]
fn a_read_wakes_at_its_deadline(rt: HostRuntime) -> Result<(), Fail> {
    let alloc = rt.alloc();
    let mut watch = three_asleep(alloc)?;
    watch.wake_over(alloc, 1, 9);
    assert!(rt; are_awake(&watch, &[4]));
    watch.wake_over(alloc, 1, 10);
    assert!(rt; are_awake(&watch, &[1, 4]));
    watch.wake_over(alloc, 1, 100_000);
    assert!(rt; are_awake(&watch, &[1, 2, 4]));
    watch.fire(alloc, 1, &key(alloc, "a/b")?);
    assert!(rt; are_awake(&watch, &[1, 2, 4]));
    Ok(())
}

#[test]
fn who_sleeps_anew_leaves_its_old_channels(rt: HostRuntime) -> Result<(), Fail> {
    let alloc = rt.alloc();
    let mut watch = three_asleep(alloc)?;
    watch.sleep(alloc, 1, 1, &one(alloc, Chan::Services)?, 30);
    watch.fire(alloc, 1, &key(alloc, "a/b")?);
    watch.wake_over(alloc, 1, 29);
    assert!(rt; are_awake(&watch, &[2, 4]));
    watch.fire(alloc, 1, &one(alloc, Chan::Services)?);
    assert!(rt; are_awake(&watch, &[1, 2, 4]));
    Ok(())
}

#[test]
fn who_is_forgotten_does_not_wake(rt: HostRuntime) -> Result<(), Fail> {
    let alloc = rt.alloc();
    let mut watch = three_asleep(alloc)?;
    watch.forget(1, 1);
    watch.forget(1, 4);
    watch.fire(alloc, 1, &key(alloc, "a/b")?);
    watch.wake_over(alloc, 1, 30);
    assert!(rt; are_awake(&watch, &[2]));
    Ok(())
}

#[test]
fn who_is_awake_wakes_once(rt: HostRuntime) -> Result<(), Fail> {
    let mut watch = three_asleep(rt.alloc())?;
    watch.wake(9);
    watch.wake(4);
    watch.wake(6);
    assert!(rt; are_awake(&watch, &[4, 6, 9]));
    watch.forget(1, 6);
    watch.forget(1, 5);
    assert!(rt; are_awake(&watch, &[4, 9]));
    Ok(())
}

/// One more read than may sleeps, or is awake.
fn put_to_sleep(alloc: Global, watch: &mut Watch, chans: &List<Chan>)
    requires server { length watch.old.servers ≡ 1 }
    requires one { length chans.now ≡ 1 }
    ensures { length watch.new.servers ≡ 1 }
{
    for number in 0..=MOST {
        watch.wake(number);
        watch.sleep(alloc, 1, number, chans, 10);
    }
}

#[test]
fn no_more_sleep_than_may(rt: HostRuntime) -> Result<(), Fail> {
    let alloc = rt.alloc();
    let mut watch = Watch::new(alloc, 1)?;
    let nodes = one(alloc, Chan::Nodes)?;
    put_to_sleep(alloc, &mut watch, &nodes);
    assert!(rt; are_awake(&watch, &[4_096]));
    watch.fire(alloc, 1, &nodes);
    assert_eq!(rt; watch.awake().len(), 4_097);
    Ok(())
}

/// As above, with four requests in line: 5 and 6 at the first server for positions 7 and 8, 7 there for round 2 of term 3,
/// and 8 at the second for position 7.
fn four_in_line(alloc: Global) -> Result<Watch, Memory>
    ensures { IfOk result (λ w. length w.servers ≡ 2) }
{
    let mut watch = three_asleep(alloc)?;
    watch.await_position(1, 6, 8);
    watch.await_position(1, 5, 7);
    watch.await_round(1, 7, 3, 2);
    watch.await_position(2, 8, 7);
    Ok(watch)
}

#[test]
fn an_applied_position_wakes_who_waits_for_it(rt: HostRuntime) -> Result<(), Fail> {
    let mut watch = four_in_line(rt.alloc())?;
    watch.wake_reached(1, 6);
    assert!(rt; are_awake(&watch, &[4]));
    watch.wake_reached(1, 7);
    assert!(rt; are_awake(&watch, &[4, 5]));
    watch.wake_reached(2, 9);
    assert!(rt; are_awake(&watch, &[4, 5, 8]));
    Ok(())
}

#[test]
fn rounds_wake_from_the_first(rt: HostRuntime) -> Result<(), Fail> {
    let mut watch = four_in_line(rt.alloc())?;
    watch.await_round(1, 9, 2, 5);
    assert!(rt; watch.first_round(1) == Some((2, 5)));
    assert!(rt; watch.wake_first_round(1));
    assert!(rt; watch.first_round(1) == Some((3, 2)));
    assert!(rt; are_awake(&watch, &[4, 9]));
    assert!(rt; watch.first_round(2).is_none());
    Ok(())
}

#[test]
fn all_of_a_halted_server_wake(rt: HostRuntime) -> Result<(), Fail> {
    let mut watch = four_in_line(rt.alloc())?;
    watch.rouse(1);
    assert!(rt; are_awake(&watch, &[1, 2, 4, 5, 6, 7]));
    assert!(rt; !watch.wake_first_round(1));
    Ok(())
}
