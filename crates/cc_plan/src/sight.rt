// What a plan may ask.
ghost use Rattle.std.specs.Prelude.{IfOk};
ghost use Rattle.cc_plan.specs.OnlyAsks.{OnlyAsks};
ghost use Rattle.cc_tool.specs.Plans.{IsFound, PlanAsks};

use cc_host::{Host, World};
use cc_text::Mem;
use cc_tool::{Answers, Caches, Found, Planner, settle};
use std::alloc::Global;
use std::sync::Wait;

/// What a plan may ask: a host, behind what is kept of its world, with the answers of one public call. A call that asks
/// lends it on; its answers go on by those that it got, also where it is refused.
#[derive(Drop)]
pub struct Sight<'a, W: World, H: Host<W>> {
    /// The host that is asked, and whose log tells it.
    pub host: &'a mut H,
    /// The verdicts that are kept of the host's world, also from other calls.
    pub caches: &'a Caches<W>,
    /// The questions of this public call so far, with their verdicts: none of them is asked again.
    pub answers: &'a mut Answers,
    /// The folder of probe files, as `probe_folder` gives it.
    pub dir: &'a str,
}

/// Makes a plan by what may be asked.
pub(crate) fn settle_in<W: World, H: Host<W>, P: Planner>(
    rt: &impl Wait,
    alloc: Global,
    planner: &P,
    sight: &mut Sight<'_, W, H>,
) -> Mem<Found<P::Value>>
    ensures asks { OnlyAsks W.steady W.answer H.log H.patience (PlanAsks (P.plan planner.now))
        sight.old sight.new }
    ensures found { IfOk result (IsFound sight.new.answers.now (P.plan planner.now)) }
{
    settle(
        rt,
        alloc,
        sight.host,
        sight.caches,
        sight.answers,
        sight.dir,
        planner,
    )
}
