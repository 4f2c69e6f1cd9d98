// The words that an attempt reads (lines 66, 164, 189, 190), and what each operation does with a validated leaf (lines 78 and 79, 159, 181).
#![tactic(auto)]

ghost use Rattle.std.specs.Prelude.{◌≡◌};
ghost use Rattle.steps.specs.Attempt.{reaches182, validated, word66, grand66, word189, leaf_word};

use hand::Shared;
use shapes::{Answer, Decision, Key, Kind, Locals, NodeNo, Place};
use tables::ROOT;

// With gp absent, or p the Root so that gp has no word, line 182 is crooked.
#[tactic(auto, unfolding(steps::specs::Attempt::reaches182, tables::specs::Names::same_node, laws::specs::Choice::pick))]
fn reaches182(v: Locals, gp: Option<NodeNo>) -> Decision
    ensures { result ≡ reaches182 v gp }
{
    let _there = gp?;
    if v.p == ROOT {
        None
    } else {
        hand::go_to(v, Place::Sibling182)
    }
}

// Stays: (d) the cases are those of an enum: a function for each would be a table in place of this match.
#[tactic(auto, unfolding(steps::specs::Attempt::validated, laws::specs::Choice::pick))]
fn validated(t: Shared<'_>, kind: Kind, k: Key, v: Locals) -> Decision
    ensures { result ≡ validated t.entry.totals t.entry.nodes.now kind k v }
{
    let present = fields::key_at(t.nodes, v.l) == k.0 as u64;
    match (kind, present) {
        (Kind::Insert, false) => taking::take_three(t.totals, k, v),
        (Kind::Delete, true) => reaches182(v, v.gp),
        (Kind::Find, true) => hand::say(Answer::Yes),
        (Kind::Insert, true) | (Kind::Delete | Kind::Find, false) => hand::say(Answer::No),
    }
}

// p's word, then gp's if that agreed and p is not the Root.
#[tactic(auto, unfolding(steps::specs::Attempt::word66, steps::specs::Hand::through, tables::specs::Names::same_node, laws::specs::Choice::pick))]
pub fn word66(t: Shared<'_>, kind: Kind, k: Key, v: Locals) -> Decision
    ensures { result ≡ word66 t.entry.totals t.entry.nodes.now kind k v }
{
    let p = fields::as_parent(t.nodes, Some(v.p))?;
    if !fields::same_update(fields::update_at(t.nodes, p), v.pup) {
        return hand::retry();
    }
    if p == ROOT {
        validated(t, kind, k, v)
    } else {
        hand::go_to(v, Place::Grand66)
    }
}

#[tactic(auto, unfolding(steps::specs::Attempt::grand66, steps::specs::Hand::through, laws::specs::Choice::pick))]
pub fn grand66(t: Shared<'_>, kind: Kind, k: Key, v: Locals) -> Decision
    ensures { result ≡ grand66 t.entry.totals t.entry.nodes.now kind k v }
{
    let gp = fields::as_parent(t.nodes, v.gp)?;
    if fields::same_update(fields::update_at(t.nodes, gp), v.gpup) {
        validated(t, kind, k, v)
    } else {
        hand::retry()
    }
}

#[tactic(auto, unfolding(steps::specs::Attempt::word189))]
pub fn word189(nodes: &[u32], v: Locals) -> Decision
    ensures { result ≡ word189 nodes.now v }
{
    let word = fields::update_at(nodes, v.sibling);
    hand::go_to(hand::with_sup(v, word), Place::Leaf190)
}

// Read last, just before EXECUTE.
// Stays: (d) it differs from `word189` in node, field and place, which a shared function would take as three parameters.
#[tactic(auto, unfolding(steps::specs::Attempt::leaf_word))]
pub fn leaf_word(nodes: &[u32], v: Locals) -> Decision
    ensures { result ≡ leaf_word nodes.now v }
{
    let word = fields::update_at(nodes, v.l);
    hand::go_to(hand::with_lup(v, word), Place::Frozen97)
}
