ghost use Rattle.std.specs.Prelude.{◌≡◌, ◌+◌, ◌%◌, ◌^◌, ◌<◌, min, nat_eq, Some, refl};
ghost use Rattle.std.proofs.Common.{arith};
ghost use Rattle.reduce_laws.specs.NumberWords.{nat_eq_is_same};

use crate::add_u32::AddU32;
use crate::laws::combined_laws;
use crate::min_u32::MinU32;
use crate::min_u64::MinU64;
use crate::reduction::Reduction;
use crate::vertex_program::VertexProgram;

// The least number of a vertex from which arcs lead here.
#[derive(Clone, Copy)]
struct LeastLabel;

impl VertexProgram for LeastLabel {
    type Red = MinU32;

    type State = u32;

    type Shown = u32;

    ghost IsState = { λ x. x < 256 ^ 4 };

    ghost steps = { λ _. record {
      start = λ v. v;
      shown = λ state. state;
      same = nat_eq;
      along = λ shown weight. shown;
      settle = min;
      keep = λ shown. shown;
      answer = λ state. Some state;
    } };

    ghost laws = { λ _. record {
      start_is_state = λ v h. Prim.omega arith;
      settle_is_state = λ s x hs hx. Prim.omega arith;
      shown_is_value = λ s hs. hs;
      along_is_value = λ y weight hy hw. hy;
      keep_is_value = λ y hy. hy;
      same_tells = λ x y hx hy. nat_eq_is_same x y;
      settle_then_identity = λ s x hs hx. Prim.omega arith;
      settle-settle = λ kept s x y hs hx hy. Prim.omega arith;
      settle-identity = λ kept s hs. Prim.omega arith;
      settle-keep = λ kept s hs. Prim.omega arith;
      keep_is_identity = λ resets. absurd (Prim.cc);
    } };

    fn start(&self, v: u32) -> u32 {
        v
    }

    fn shown(&self, state: u32) -> u32 {
        state
    }

    fn along(&self, shown: u32, _weight: u32) -> u32 {
        shown
    }

    fn settle(&self, state: u32, got: u32) -> u32 {
        state.min(got)
    }

    fn keep(&self, shown: u32) -> u32 {
        shown
    }

    fn answer(&self, state: u32) -> Option<u64> {
        Some(u64::from(state))
    }
}

// The sum of the weights of the arcs that lead here.
#[derive(Clone, Copy)]
struct WeightSum;

impl VertexProgram for WeightSum {
    type Red = AddU32;

    type State = u32;

    type Shown = u8;

    ghost IsState = { λ x. x < 256 ^ 4 };

    ghost steps = { λ _. record {
      start = λ v. 0;
      shown = λ state. 0;
      same = nat_eq;
      along = λ shown weight. weight;
      settle = λ state got. (state + got) % 2 ^ 32;
      keep = λ shown. 0;
      answer = λ state. Some state;
    } };

    ghost laws = { λ _. record {
      start_is_state = λ v h. Prim.omega arith;
      settle_is_state = λ s x hs hx. Prim.omega arith;
      shown_is_value = λ s hs. Prim.omega arith;
      along_is_value = λ y weight hy hw. Prim.omega arith;
      keep_is_value = λ y hy. Prim.omega arith;
      same_tells = λ x y hx hy. nat_eq_is_same x y;
      settle_then_identity = λ s x hs hx. Prim.omega arith;
      settle-settle = λ kept. absurd (Prim.cc);
      settle-identity = λ kept. absurd (Prim.cc);
      settle-keep = λ kept. absurd (Prim.cc);
      keep_is_identity = λ resets y hy. refl;
    } };

    fn start(&self, _v: u32) -> u32 {
        0
    }

    fn shown(&self, _state: u32) -> u8 {
        0
    }

    fn along(&self, _shown: u8, weight: u32) -> u32 {
        weight
    }

    fn settle(&self, state: u32, got: u32) -> u32 {
        state.wrapping_add(got)
    }

    fn keep(&self, _shown: u8) -> u32 {
        0
    }

    fn answer(&self, state: u32) -> Option<u64> {
        Some(u64::from(state))
    }
}

// What a vertex comes to by one arc from another, and by a round that brings nothing after it.
fn after_arc<P: VertexProgram>(program: &P, tail: u32, head: u32, weight: u32) -> P::State
    ensures { let steps = P.steps program.now in
        result ≡ steps.settle (steps.start head) (steps.along (steps.shown (steps.start tail)) weight) }
{
    let item = program.along(program.shown(program.start(tail)), weight);
    let got = <P::Red as Reduction>::combine(<P::Red as Reduction>::identity(), item);
    let state = program.settle(program.start(head), got);
    program.settle(state, <P::Red as Reduction>::identity())
}

// What combining three items gives, in one order and in another.
fn both_ways<R: Reduction>(a: R::Item, b: R::Item, c: R::Item) -> (R::Item, R::Item)
    requires { R.Item.IsValue a × R.Item.IsValue b × R.Item.IsValue c }
    ensures { result.0 ≡ result.1 }
{
    (
        R::combine(R::combine(a, b), c),
        R::combine(c, R::combine(b, a)),
    )
}

#[test]
fn lawful_programs_settle_by_the_trait_alone(rt: HostRuntime) {
    assert_eq!(rt; after_arc(&LeastLabel, 3, 5, 9), 3);
    assert_eq!(rt; after_arc(&LeastLabel, 5, 3, 9), 3);
    assert_eq!(rt; after_arc(&WeightSum, 3, 5, 9), 9);
    assert_eq!(rt; LeastLabel.answer(LeastLabel.start(7)), Some(7));
    assert_eq!(rt; (LeastLabel.keep(7), WeightSum.keep(0)), (7, 0));
}

#[test]
fn reductions_combine(rt: HostRuntime) {
    assert_eq!(rt; [MinU32::identity(), AddU32::identity()], [u32::MAX, 0]);
    assert_eq!(rt; MinU64::identity(), u64::MAX);
    assert_eq!(rt; both_ways::<MinU32>(7, 4, u32::MAX), (4, 4));
    assert_eq!(rt;
        both_ways::<MinU64>(1 << 40, u64::MAX, 1 << 41),
        (1 << 40, 1 << 40)
    );
    assert_eq!(rt; both_ways::<AddU32>(u32::MAX, 3, 4), (6, 6));
    assert_eq!(rt;
        [MinU32::KEEPS, MinU64::KEEPS, AddU32::KEEPS],
        [true, true, false]
    );
    combined_laws::<MinU32, u8, u16>();
}
