//! Evaluates code in halves, from its start to its end.
ghost use Rattle.std.specs.Prelude.{◌≡◌, ◌≤◌, []};
ghost use Rattle.nesl_eval_code.specs.declared.code.Code.{Code};
ghost use Rattle.nesl_eval_code.specs.Run.{run};
ghost use Rattle.nesl_eval_code.specs.Flat.{block};
ghost use Rattle.nesl_eval_ops.specs.View.{block_of};
ghost use Rattle.nesl_eval_nodes.specs.Meets.{Meets, Is};
ghost use Rattle.nesl_eval_machine.specs.State.{HasBodies};

use crate::crew::Crew;
use crate::halves::make_moves;
use crate::lends::Lent;
use crate::turns::settle;
use nesl_eval_helpers::{Gate, Helpers};
use nesl_eval_machine::state::Machine;
use nesl_eval_nodes::held::Tops;
use nesl_eval_nodes::meter::{Meter, Stop};
use nesl_eval_ops::Ops;
use nesl_values::Value;
use std::alloc::Global;
use std::thread::Threads;

/// Evaluates the operations of an expression with these levels and this fuel. Returns the result and the meter at the
/// end, which are the same for all answers of the helpers. At most `cuts` cuts are nested.
pub fn evaluate_in_halves<
    R: Threads + Sync,
    H: Helpers + Sync,
    G: Gate + Sync,
    T: Tops<Global> + Sync,
>(
    bodies: &[Option<Ops>],
    ops: &Ops,
    levels: u32,
    fuel: u64,
    cuts: u32,
    crew: &Crew<'_, R, H, G, T>,
) -> (Result<Value<Global>, Stop>, Meter)
    ensures meets { let t = T.table crew.now.tops.now in (code : Code) → HasBodies t bodies.now
        → block_of ops.now ≡ block [] code
        → Meets Is (record { fuel = fuel; depth = 0 }) result.0 result.1 (run levels t [] code) }
    ensures spent { result.1.fuel ≤ fuel }
{
    let alloc = crew.alloc;
    let mut machine = Machine {
        bodies,
        code: ops,
        slots: Vec::new(alloc),
        stack: Vec::new(alloc),
        frames: Vec::new(alloc),
        base: 0,
        levels,
        meter: Meter::new(fuel),
        alloc,
    };
    let tops = Lent {
        tops: crew.tops,
        copies: Vec::new(alloc),
    };
    let crew = Crew {
        rt: crew.rt,
        helpers: crew.helpers,
        gate: crew.gate,
        tops: &tops,
        alloc,
    };
    let found = make_moves(&mut machine, cuts, &crew);
    let mut meter = Meter::new(fuel);
    let settled = settle(&machine, found, &mut meter);
    (settled, meter)
}
