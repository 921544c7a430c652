ghost use Rattle.std.specs.Prelude.{◌≡◌};

use crate::marked::{Mark, Marked};
use octets::{Role, same};
use protection::{OpenError, PairedProtection, RecordProtection};
use std::process::Abort;

#[derive(Drop)]
struct One;

#[derive(Drop)]
struct Two;

#[derive(Drop)]
struct Three;

impl Mark for One {
    ghost number = { 1 };

    fn number() -> u8 {
        1
    }
}

impl Mark for Two {
    ghost number = { 2 };

    fn number() -> u8 {
        2
    }
}

impl Mark for Three {
    ghost number = { 3 };

    fn number() -> u8 {
        3
    }
}

/// The mark of what a protection seals, or none where it seals nothing.
fn mark<P: RecordProtection>(protection: &P) -> Option<u8> {
    let mut out = [0u8; 2_049];
    match protection.seal(5, 23, &[9], &[0u8; 16], &mut out) {
        Some(_) => Some(out[0]),
        None => None,
    }
}

/// A keying of a pair: the suite, the octets of material, whether it is taken, and the mark under which the pair seals then.
struct Step {
    suite: u16,
    size: usize,
    taken: bool,
    mark: u8,
}

/// Keyings of a pair whose first member serves the suites 1 and 7, and the second 2 and 7.
const STEPS: [Step; 6] = [
    Step {
        suite: 7,
        size: 2,
        taken: true,
        mark: 1,
    },
    Step {
        suite: 2,
        size: 2,
        taken: true,
        mark: 2,
    },
    Step {
        suite: 4,
        size: 2,
        taken: false,
        mark: 2,
    },
    Step {
        suite: 1,
        size: 1,
        taken: false,
        mark: 2,
    },
    Step {
        suite: 1,
        size: 2,
        taken: true,
        mark: 1,
    },
    Step {
        suite: 7,
        size: 3,
        taken: false,
        mark: 1,
    },
];

/// The pair keyed step by step.
fn shares<P: RecordProtection>(rt: &impl Abort, pair: &mut P) {
    assert!(rt; mark(pair) == None);
    for step in &STEPS {
        assert!(rt; step.size <= 3);
        assert!(rt; pair.key(step.suite, Role::Client, &[1, 2, 3][0..step.size]) == step.taken);
        assert!(rt; mark(pair) == Some(step.mark));
    }
}

#[test]
fn a_pair_serves_what_either_serves(rt: HostRuntime) {
    for suite in [1u16, 2, 7] {
        assert!(rt; PairedProtection::<Marked<One>, Marked<Two>>::serves(suite));
    }
    assert!(rt; !PairedProtection::<Marked<One>, Marked<Two>>::serves(3));
}

#[test]
fn a_pair_shares_suites(rt: HostRuntime) {
    shares(
        &rt,
        &mut PairedProtection::new(Marked::new(One), Marked::new(Two)),
    );
}

#[test]
fn a_pair_of_pairs_shares_suites(rt: HostRuntime) {
    let inner = PairedProtection::new(Marked::new(One), Marked::new(Two));
    let mut outer = PairedProtection::new(inner, Marked::new(Three));
    shares(&rt, &mut outer);
    assert!(rt; outer.key(3, Role::Client, &[1, 2]));
    assert!(rt; mark(&outer) == Some(3));
    assert!(rt; outer.key(7, Role::Client, &[1, 2]));
    assert!(rt; mark(&outer) == Some(1));
}

#[test]
fn a_pair_of_keyed_members_is_unkeyed(rt: HostRuntime) {
    let mut first = Marked::new(One);
    assert!(rt; first.key(7, Role::Client, &[1, 2]));
    assert!(rt; mark(&first) == Some(1));
    let mut second = Marked::new(Two);
    assert!(rt; second.key(2, Role::Client, &[1, 2]));
    let pair = PairedProtection::new(first, second);
    assert!(rt; pair.suite() == None);
    assert!(rt; mark(&pair) == None);
    let mut place = [0xffu8; 18_432];
    assert!(rt; pair.open(5, 23, &[1, 23, 1, 9], &mut place) == Err(OpenError::Refused));
    assert!(rt; same(&place, &[0u8; 18_432]));
}

#[test]
fn the_place_holds_zeros_past_the_content(rt: HostRuntime) {
    let mut pair = PairedProtection::new(Marked::new(One), Marked::new(Two));
    assert!(rt; pair.key(2, Role::Client, &[1, 2]));
    let mut place = [0xffu8; 18_433];
    assert!(rt; pair.open(5, 23, &[2, 23, 1, 9, 8], &mut place) == Ok(2));
    assert!(rt; place[0] == 9 && place[1] == 8);
    assert!(rt; same(&place[2..], &[0u8; 18_431]));
    assert!(rt; pair.open(5, 22, &[2, 23, 1, 9, 8], &mut place) == Err(OpenError::Refused));
    assert!(rt; same(&place, &[0u8; 18_433]));
}

#[test]
fn numbers_of_cases_and_limits(rt: HostRuntime) {
    assert!(rt; OpenError::Refused.alert() == 20);
    assert!(rt; protection::limits() == [16_384, 2_048, 18_432, 16, 96]);
}
