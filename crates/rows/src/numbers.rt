// Numbers that refer to used ones, phases no later than Counter.
ghost use Rattle.std.specs.Prelude.{◌≡◌};
ghost use Rattle.sound.specs.Sound.{used_node, used_maybe, used_record, word_ok, phase_ok, used_ok};

use fields::between;
use shapes::{NodeNo, Phase, RecordNo, Totals, Update};
use tables::{FRESH_NODES, FRESH_RECORDS, LAST_PHASE, MARK};

#[tactic(auto, unfolding(sound::specs::Sound::used_node))]
pub fn used_node(t: Totals, x: NodeNo) -> bool
    ensures { result ≡ used_node t x }
{
    x.0 < t.nodes
}

#[tactic(auto, unfolding(sound::specs::Sound::used_maybe))]
pub fn used_maybe(t: Totals, m: Option<NodeNo>) -> bool
    ensures { result ≡ used_maybe t m }
{
    m.is_none_or(|x| used_node(t, x))
}

#[tactic(auto, unfolding(sound::specs::Sound::used_record))]
pub fn used_record(t: Totals, r: RecordNo) -> bool
    ensures { result ≡ used_record t r }
{
    r.0 < t.records
}

#[tactic(auto, unfolding(sound::specs::Sound::word_ok))]
pub fn word_ok(t: Totals, u: Update) -> bool
    ensures { result ≡ word_ok t u }
{
    u.mark <= MARK && used_record(t, u.info)
}

#[tactic(auto, unfolding(sound::specs::Sound::phase_ok))]
pub fn phase_ok(t: Totals, q: Phase) -> bool
    ensures { result ≡ phase_ok t q }
{
    q.0 <= t.counter
}

#[tactic(auto, unfolding(sound::specs::Sound::used_ok, laws::specs::Tests::all, laws::specs::Choice::pick))]
pub fn used_ok(t: Totals) -> bool
    ensures { result ≡ used_ok t }
{
    between(FRESH_NODES, t.nodes, t.n)
        && between(FRESH_RECORDS, t.records, t.m)
        && t.counter <= LAST_PHASE
}
