//! Tests of wot_search: which keys a search looks at, how many paths one search offers, and how far keys reach. No
//! contract says that this is so little and so much. The paths themselves are rows (`tests/suites/rows/paths`).
ghost use Rattle.wot_edge.specs.Plain.{network_for};
ghost use Rattle.wot_reach.specs.Reach.{IsReach};

use crate::assertion::expect_that;
use std::alloc::Global;
use std::process::Abort;
use wot_edge::plain::PlainRoads;
use wot_edge::{Edge, EdgeFacts, Roots, Used};
use wot_search::{Asked, Consulted, Reach, Unnoted, make_reach, next_path, next_paths_within};
use wot_types::{Fpr, Steps};

/// The only user ID of each key.
const T: u8 = b't';

/// An edge: issuer, target, depth, amount, and when it was created. One that was created at 0 isn't usable.
struct Row(u8, u8, u8, u8, u32);

fn key(octet: u8) -> Fpr {
    Fpr::V4([octet; 20])
}

fn edge(row: &Row) -> Edge {
    let facts = EdgeFacts {
        issuer: key(row.0),
        target: key(row.1),
        uid: T as u32,
        sig: 0,
        made: row.4,
        depth: row.2,
        amount: row.3,
        scoped: false,
    };
    Edge::make(facts, &mut Steps::new())
}

/// The network of these edges between the keys 1 to 9. They are sorted by issuer.
fn network(rt: &impl Abort, alloc: Global, rows: &[Row]) -> PlainRoads {
    let mut roads = PlainRoads::new(alloc, T);
    for target in 1..10u8 {
        let mut edges = Vec::new(alloc);
        for row in rows {
            if row.1 == target {
                edges.push(edge(row)).expect(rt, "memory");
            }
        }
        let _put = roads.put(key(target), true, edges).expect(rt, "memory");
    }
    roads
}

/// Roots with one amount.
fn roots_of(rt: &impl Abort, alloc: Global, octets: &[u8], amount: u8) -> Roots {
    let mut roots = Roots::new(alloc);
    for octet in octets {
        roots.set(key(*octet), amount).expect(rt, "memory");
    }
    roots
}

/// How far the keys 1 to 9 reach.
fn reach_of(rt: &impl Abort, alloc: Global, roads: &PlainRoads, roots: &Roots) -> Reach
    ensures reach { IsReach (network_for roads.now) roots.now result }
{
    let mut fprs = Vec::new(alloc);
    for octet in 1..10u8 {
        fprs.push(key(octet)).expect(rt, "memory");
    }
    make_reach(alloc, roads, roots, &fprs).expect(rt, "memory")
}

/// Three roots behind one key.
static HUB: [Row; 4] = [
    Row(1, 2, 1, 1, 2000),
    Row(2, 4, 0, 120, 2000),
    Row(3, 2, 1, 1, 2000),
    Row(5, 2, 1, 1, 2000),
];

#[test]
fn one_search_offers_a_path_of_each_root(rt: HostRuntime) {
    let roads = network(&rt, rt.alloc(), &HUB);
    let roots = roots_of(&rt, rt.alloc(), &[1, 3, 5], 1);
    let reach = reach_of(&rt, rt.alloc(), &roads, &roots);
    let target = key(4);
    let asked = Asked {
        roots: &roots,
        reach: &reach,
        target: &target,
        uid: &[T],
    };
    let none = Used::new(rt.alloc());
    let all = next_paths_within(rt.alloc(), &roads, &asked, &none, &mut Unnoted).expect(
        &rt, "memory",
    );
    expect_that(&rt, all.len() == 3);
}

/// 2 hasn't the depth for a path to 4, so it isn't looked at.
static LOOKED_AT: [Row; 4] = [
    Row(1, 3, 1, 120, 2000),
    Row(2, 3, 0, 120, 2000),
    Row(3, 4, 0, 120, 2000),
    Row(6, 5, 1, 120, 2000),
];

fn are_these(consulted: &Consulted, octets: &[u8]) -> bool {
    let mut all = consulted.iter();
    for octet in octets {
        if all.next() != Some(key(*octet)) {
            return false;
        }
    }
    all.next().is_none()
}

#[test]
fn what_is_consulted(rt: HostRuntime) {
    let roads = network(&rt, rt.alloc(), &LOOKED_AT);
    let roots = roots_of(&rt, rt.alloc(), &[1], 120);
    let used = Used::new(rt.alloc());
    let mut consulted = Consulted::new(rt.alloc());
    let _found = next_path(
        rt.alloc(),
        &roads,
        &roots,
        &used,
        &key(4),
        &[T],
        &mut consulted,
    )
    .expect(&rt, "memory");
    expect_that(&rt, are_these(&consulted, &[1, 3, 4]));
}

/// The edge of 5 isn't usable, that into 7 has no amount, and 9 is no root and nobody's target.
static REACHING: [Row; 7] = [
    Row(1, 2, 7, 120, 2000),
    Row(1, 3, 2, 120, 2000),
    Row(2, 3, 3, 1, 2000),
    Row(3, 4, 255, 120, 2000),
    Row(5, 6, 255, 120, 0),
    Row(1, 7, 255, 0, 2000),
    Row(9, 8, 255, 120, 2000),
];

/// How far before a target each key may come. 100 is none of the keys.
static REACH: [(u8, u8); 6] = [(1, 255), (2, 7), (3, 3), (5, 255), (7, 0), (100, 255)];

#[test]
fn how_far_keys_reach(rt: HostRuntime) {
    let roads = network(&rt, rt.alloc(), &REACHING);
    let roots = roots_of(&rt, rt.alloc(), &[1, 5], 120);
    let reach = reach_of(&rt, rt.alloc(), &roads, &roots);
    for (octet, number) in &REACH {
        expect_that(&rt, reach.get(&key(*octet)) == *number);
    }
}
