//! The clocks and the words.

use cat_model::Draw;
use serve_outside::{Clock, CountWords, MachineClock, SeededWords, SetClock, Words};
use std::thread;
use std::time::Duration;

#[test]
fn clocks_go_on(rt: HostRuntime) {
    assert!(rt; SetClock { ms: 7 }.now_ms() == 7);
    let clock = MachineClock::new(rt);
    let before = clock.now_ms();
    thread::sleep(&rt, Duration::from_millis(20));
    let passed = clock.now_ms().saturating_sub(before);
    assert!(rt; passed >= 20 && passed < 10_000, "it slept {passed} ms");
}

#[test]
fn counted_words_count(rt: HostRuntime) {
    let mut counted = CountWords::new();
    let draws = [counted.draw(), counted.draw()];
    assert!(rt; draws == [Draw { hi: 1, lo: 1 }, Draw { hi: 2, lo: 2 }]);
}

#[test]
fn seeded_words_differ(rt: HostRuntime) {
    let mut seeded = SeededWords::new(&rt);
    let first = seeded.draw();
    let next = seeded.draw();
    let other = SeededWords::new(&rt).draw();
    assert!(rt; next != first && other != first);
}
