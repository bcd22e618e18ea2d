// Steps with five replicas, and what each of them tells. Another program told it.
use crate::acting::{Act, run_all};

// A chain of three with a cut in the middle.
const A_CUT_IN_THE_MIDDLE: &[(Act, &str)] = &[
    (Act::Execute(1, "root1"), "done"),
    (Act::Chain(2), "replica 2 replica 1 replica 0 member 0 "),
    (Act::Push(0), "took 1 put 8 missing 0"),
    (Act::Push(0), "behind own 1 parent 1"),
    (Act::CutReplica(1), "done"),
    (Act::Push(1), "cut"),
    (Act::Push(2), "cut"),
    (Act::Offer(2, "a"), "nothing"),
    (Act::Offer(1, "a"), "a"),
    (Act::Names(1), "a "),
    (Act::Names(2), ""),
    (Act::CutReplica(0), "done"),
    (Act::Push(1), "cut"),
    (Act::Push(2), "behind own 0 parent 0"),
    (Act::Mend, "done"),
    (Act::Push(1), "took 1 put 7 missing 0"),
    (Act::Push(2), "took 1 put 8 missing 0"),
    (Act::Version(2), "1"),
    (Act::Names(2), "d c cd "),
    (Act::CutMember, "done"),
    (Act::Offer(0, "e"), "nothing"),
    (Act::Offer(0, "a"), "a"),
    (Act::Push(0), "cut"),
];

// A lie for a string that is pushed: the push of the liar passes by its lie, and that of the replica below
// meets it. A later lie takes the place of the former.
const A_LIE: &[(Act, &str)] = &[
    (Act::Execute(1, "root1"), "done"),
    (Act::Lie(0, "cd", "wrong"), "done"),
    (Act::Push(0), "took 1 put 8 missing 0"),
    (Act::Names(0), "d c cd b a ab top1 root1 "),
    (Act::Offer(0, "cd"), "wrong"),
    (Act::Push(1), "took 1 put 5 missing 1"),
    (Act::Names(1), "b a ab top1 root1 "),
    (Act::Offer(1, "cd"), "nothing"),
    (Act::Offer(1, "c"), "c"),
    (Act::Lie(0, "cd", "cd"), "done"),
    (Act::Offer(1, "cd"), "cd"),
    (Act::Names(1), "cd c b a ab top1 root1 "),
    (Act::Lie(0, "ab", "wrong"), "done"),
    (Act::Lie(0, "ab", "e"), "done"),
    (Act::Offer(0, "ab"), "e"),
    (Act::Offer(0, "a"), "a"),
];

// A cache of one.
const A_CACHE_OF_ONE: &[(Act, &str)] = &[
    (Act::Execute(1, "root1"), "done"),
    (Act::Push(4), "took 1 put 8 missing 0"),
    (Act::Names(4), "d "),
    (Act::Offer(4, "a"), "a"),
    (Act::Names(4), "a "),
    (Act::Offer(4, "a"), "a"),
    (Act::Withhold("a"), "done"),
    (Act::Offer(4, "a"), "a"),
    (Act::Offer(4, "b"), "b"),
    (Act::Offer(4, "a"), "nothing"),
    (Act::Names(4), "b "),
    (Act::Execute(2, "root2"), "done"),
    (Act::Push(4), "took 2 put 7 missing 1"),
    (Act::Names(4), "e "),
    (Act::Version(4), "2"),
];

// A push that misses a subtree counts it once, and takes the version even where the root does not come.
const A_MISSING_SUBTREE: &[(Act, &str)] = &[
    (Act::Withhold("cd"), "done"),
    (Act::Execute(1, "root1"), "done"),
    (Act::Push(0), "took 1 put 5 missing 1"),
    (Act::Names(0), "b a ab top1 root1 "),
    (Act::Give("cd"), "done"),
    (Act::Push(0), "behind own 1 parent 1"),
    (Act::Execute(2, "root2"), "done"),
    (Act::Push(0), "took 2 put 5 missing 0"),
    (Act::Names(0), "e c ce top2 root2 b a ab top1 root1 "),
    (Act::Execute(3, "root3"), "done"),
    (Act::Push(0), "took 3 put 1 missing 0"),
    (Act::Names(0), "root3 e c ce top2 root2 b a ab top1 root1 "),
    (Act::Withhold("root1"), "done"),
    (Act::Execute(4, "root1"), "done"),
    (Act::Push(0), "took 4 put 2 missing 0"),
    (Act::Version(0), "4"),
    (
        Act::Names(0),
        "d cd root3 e c ce top2 root2 b a ab top1 root1 ",
    ),
    (Act::Push(4), "took 4 put 0 missing 1"),
    (Act::Version(4), "4"),
    (Act::Names(4), ""),
];

// The order of caches after offers and pushes. A push leaves what it finds where it is.
const THE_ORDER: &[(Act, &str)] = &[
    (Act::Offer(0, "a"), "a"),
    (Act::Offer(0, "b"), "b"),
    (Act::Offer(0, "a"), "a"),
    (Act::Names(0), "a b "),
    (Act::Execute(1, "root1"), "done"),
    (Act::Push(0), "took 1 put 6 missing 0"),
    (Act::Names(0), "d c cd ab top1 root1 a b "),
    (Act::Push(1), "took 1 put 8 missing 0"),
    (Act::Names(0), "d c cd b a ab top1 root1 "),
    (Act::Names(1), "d c cd b a ab top1 root1 "),
    (Act::Offer(1, "d"), "d"),
    (Act::Offer(2, "c"), "c"),
    (Act::Names(0), "d c cd b a ab top1 root1 "),
    (Act::Names(1), "c d cd b a ab top1 root1 "),
    (Act::Names(2), "c "),
    (Act::Push(2), "took 1 put 8 missing 0"),
    (Act::Names(2), "d c cd "),
    (Act::Names(1), "d c cd b a ab top1 root1 "),
];

// Behind and cut, at members that are correct, faulty and cut.
const BEHIND_AND_CUT: &[(Act, &str)] = &[
    (Act::Push(0), "behind own 0 parent 0"),
    (Act::Push(3), "behind own 0 parent 0"),
    (Act::Chain(3), "replica 3 member 1 "),
    (Act::Execute(1, "root1"), "done"),
    (Act::Push(3), "behind own 0 parent 0"),
    (Act::Push(1), "behind own 0 parent 0"),
    (Act::Push(0), "took 1 put 8 missing 0"),
    (Act::Push(0), "behind own 1 parent 1"),
    (Act::Push(1), "took 1 put 8 missing 0"),
    (Act::CutMember, "done"),
    (Act::Push(0), "cut"),
    (Act::Push(1), "behind own 1 parent 1"),
    (Act::Execute(2, "root2"), "done"),
    (Act::Push(4), "cut"),
    (Act::Mend, "done"),
    (Act::Push(4), "took 2 put 8 missing 0"),
    (Act::Push(0), "took 2 put 4 missing 0"),
    (Act::Version(0), "2"),
    (Act::Version(1), "1"),
    (Act::Offer(3, "a"), "nothing"),
];

// A string that has the name of another one that the book holds.
const A_CLASH: &[(Act, &str)] = &[
    (Act::Offer(0, "a"), "a"),
    (Act::Give("twin"), "done"),
    (Act::Offer(4, "a"), "clash a twin"),
    (Act::Names(4), ""),
    (Act::Offer(0, "a"), "a"),
    (Act::Lie(0, "a", "twin"), "done"),
    (Act::Offer(0, "a"), "twin"),
    (Act::Offer(1, "a"), "clash a twin"),
];

#[test]
fn a_cut_in_the_middle(rt: HostRuntime) {
    run_all(&rt, rt.alloc(), A_CUT_IN_THE_MIDDLE);
}

#[test]
fn a_lie_is_met_below_the_liar(rt: HostRuntime) {
    run_all(&rt, rt.alloc(), A_LIE);
}

#[test]
fn a_cache_of_one(rt: HostRuntime) {
    run_all(&rt, rt.alloc(), A_CACHE_OF_ONE);
}

#[test]
fn a_missing_subtree_counts_once(rt: HostRuntime) {
    run_all(&rt, rt.alloc(), A_MISSING_SUBTREE);
}

#[test]
fn the_order_of_caches(rt: HostRuntime) {
    run_all(&rt, rt.alloc(), THE_ORDER);
}

#[test]
fn behind_and_cut(rt: HostRuntime) {
    run_all(&rt, rt.alloc(), BEHIND_AND_CUT);
}

#[test]
fn a_string_of_a_name_that_is_held(rt: HostRuntime) {
    run_all(&rt, rt.alloc(), A_CLASH);
}
