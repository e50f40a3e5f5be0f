// Box counts: what a container wants of its boxes, seen in one walk over them and judged entry by entry.
// A slice and a box in it stay two parameters, with `Stands` in each contract: no plainer in one struct, as the head of `fields` says.
#![tactic(auto)]

ghost use Rattle.std.specs.Prelude.{◌≡◌, ◌≤◌, [], ◌∷◌, length};
ghost use Rattle.rules.specs.Rules.{PlacedUpTo};
ghost use Rattle.rules.specs.Counts.{wanted, one_of, at_most_one_of, some_of, counted, counts, counts_if};
ghost use Rattle.boxes.specs.Stands.{Stands};
ghost use Rattle.counts.specs.Sights.{seen_of, StandsIn, again_at, Tallied, Counts};

use rules::{Entry, Refusal, Rule, Spot};

// How many boxes of an entry are seen: none, one, or more, with the place of the second.
#[derive(Clone, Copy)]
pub enum Times {
    Unseen,
    Single,
    Several(usize),
}

// What is seen of an entry: how many boxes, and the first of them, or the container where there is none.
// The first is no part of `Times`: with `Single(Spot)` and `Several(Spot, usize)` a track takes 1.04 to 1.05 of the time,
// over the bar of docs/SPEED.md, none slower than before.
#[derive(Clone, Copy)]
pub struct Sight {
    pub first: Spot,
    pub times: Times,
}

// What a container's boxes come to: its counts as a rule, and what is seen of each entry.
#[derive(Clone, Copy)]
pub struct Counted {
    pub rule: Rule,
    pub a: Sight,
    pub b: Sight,
    pub c: Sight,
}

// Whether a box of a type is one that an entry counts.
#[tactic(auto, unfolding(rules::specs::Counts::wanted))]
fn wanted(e: Entry, kind: u32) -> bool
    ensures { result ≡ wanted e kind }
{
    match e {
        Entry::Nothing => false,
        Entry::One(w) => kind == w,
        Entry::AtMostOne(w) => kind == w,
        Entry::OneOrMore(w) => kind == w,
        Entry::OneInAll(u, v, w) => kind == u || kind == v || kind == w,
    }
}

// What is seen after one box more.
fn again_at(v: Sight, x: Spot) -> Sight
    ensures { result ≡ again_at x v }
{
    match v.times {
        Times::Unseen => Sight {
            first: x,
            times: Times::Single,
        },
        Times::Single => Sight {
            times: Times::Several(x.at),
            ..v
        },
        Times::Several(_) => v,
    }
}

// One box: the container's place if missing, the first extra box's if too many.
#[tactic(auto, unfolding(rules::specs::Counts::one_of))]
fn one_of(number: u64, container: usize, v: Sight) -> Rule
    ensures { result ≡ one_of number container (seen_of v) }
{
    match v.times {
        Times::Unseen => Err(Refusal::new(number, 0, container as u64)),
        Times::Single => Ok(()),
        Times::Several(second) => Err(Refusal::new(number, 0, second as u64)),
    }
}

// At most one.
#[tactic(auto, unfolding(rules::specs::Counts::at_most_one_of))]
fn at_most_one_of(number: u64, v: Sight) -> Rule
    ensures { result ≡ at_most_one_of number (seen_of v) }
{
    match v.times {
        Times::Unseen | Times::Single => Ok(()),
        Times::Several(second) => Err(Refusal::new(number, 0, second as u64)),
    }
}

// One or more.
#[tactic(auto, unfolding(rules::specs::Counts::some_of))]
fn some_of(number: u64, container: usize, v: Sight) -> Rule
    ensures { result ≡ some_of number container (seen_of v) }
{
    match v.times {
        Times::Unseen => Err(Refusal::new(number, 0, container as u64)),
        Times::Single | Times::Several(_) => Ok(()),
    }
}

// The count of an entry in a container, by what is seen of it.
#[tactic(auto, unfolding(rules::specs::Counts::counted))]
fn count_entry(number: u64, container: usize, e: Entry, v: Sight) -> Rule
    ensures { result ≡ counted number container e (seen_of v) }
{
    match e {
        Entry::Nothing => Ok(()),
        Entry::One(_) | Entry::OneInAll(_, _, _) => one_of(number, container, v),
        Entry::AtMostOne(_) => at_most_one_of(number, v),
        Entry::OneOrMore(_) => some_of(number, container, v),
    }
}

// What is seen of three entries. As arrays of three, with a `for` along them, `count_boxes` takes 1.04 of the instructions, over the bar of
// docs/SPEED.md, none slower than before.
#[derive(Clone, Copy)]
struct Three {
    a: Sight,
    b: Sight,
    c: Sight,
}

// What is seen of three entries of a container among the sibling boxes of a slice from a place on.
fn tally(s: &[u8], k: Spot, from: usize, a: Entry, b: Entry, c: Entry) -> Three
    requires { from ≤ length s.now }
    ensures { Tallied s.now k from a b c result }
{
    let none = Sight {
        first: k,
        times: Times::Unseen,
    };
    let mut u = none;
    let mut v = none;
    let mut x = none;
    for y in boxes::along(s, from) {
        if wanted(a, y.kind) {
            u = again_at(u, y.spot);
        }
        if wanted(b, y.kind) {
            v = again_at(v, y.spot);
        }
        if wanted(c, y.kind) {
            x = again_at(x, y.spot);
        }
    }
    Three { a: u, b: v, c: x }
}

// The counts in the container that stands there, entry by entry, in one walk over its boxes.
pub fn count_boxes(number: u64, m: &[u8], x: Spot, a: Entry, b: Entry, c: Entry) -> Counted
    requires { Stands m.now x }
    ensures { Counts number m.now x.at a b c result }
{
    let at = x.at;
    let from = at + x.head;
    let end = at + x.size;
    let t = tally(&m[..end], x, from, a, b, c);
    let later = count_entry(number, at, b, t.b).and(count_entry(number, at, c, t.c));
    Counted {
        rule: count_entry(number, at, a, t.a).and(later),
        a: t.a,
        b: t.b,
        c: t.c,
    }
}

// The count of one entry in the container that stands there.
#[tactic(auto, using(crate::proofs::Firsts::counts_1))]
fn alone(number: u64, m: &[u8], x: Spot, e: Entry) -> Rule
    requires { Stands m.now x }
    ensures value { result ≡ counts number m.now x.at (e ∷ []) }
    ensures placed_up_to { PlacedUpTo (length m.now) result }
{
    count_boxes(number, m, x, e, Entry::Nothing, Entry::Nothing).rule
}

// The counts of one entry in a container that may be absent, by what is seen of it.
#[tactic(auto, unfolding(rules::specs::Counts::counts_if))]
pub fn counts_if(number: u64, m: &[u8], v: Sight, e: Entry) -> Rule
    requires { StandsIn m.now v }
    ensures value { result ≡ counts_if number m.now (seen_of v) (e ∷ []) }
    ensures placed_up_to { PlacedUpTo (length m.now) result }
{
    match v.times {
        Times::Unseen => Ok(()),
        Times::Single | Times::Several(_) => alone(number, m, v.first, e),
    }
}
